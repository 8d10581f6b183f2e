//! The codes of a row's keys at a date histogram, over the columns of a shard (Elasticsearch Reference 8, 'Date histogram aggregation').
#![tactic(auto)]

mod code_keys;
mod key_steps;
mod prepared;
mod preparing;
mod row_codes;
mod row_keys;

pub use code_keys::{codes_have_keys_of_their_own, key, key_bytes};
pub use key_steps::{after, key_of, steps};
pub use prepared::PreparedDateHistogram;
pub use preparing::{made_date_histograms_can_be_prepared, prepare};
pub use row_codes::{codes, count, lone_code};
pub use row_keys::{key_count, keys};
