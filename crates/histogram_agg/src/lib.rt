//! The codes of a row's keys at a histogram, over the columns of a shard (Elasticsearch Reference 8, 'Histogram aggregation').
#![tactic(auto)]

mod coder;
mod intervals;
mod prepared;
mod preparing;
mod row_codes;
mod row_keys;

pub use coder::{Coder, count_codes, only_code, put_codes};
pub use intervals::interval_start;
pub use prepared::PreparedHistogram;
pub use preparing::{
    codes_have_keys_of_their_own, key, key_bytes, made_histograms_can_be_prepared, prepare,
};
pub use row_codes::{codes, count, lone_code};
pub use row_keys::{key_count, keys};
