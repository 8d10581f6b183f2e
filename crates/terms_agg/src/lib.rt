//! The terms of a shard (Elasticsearch Reference 8, 'Terms aggregation'): the keys of a row, by numbers that stand for them,
//! counters of words by their places, and what a shard answers, the first `shard_size` in the aggregation's order, with what was
//! cut and the error of the counts.
#![tactic(auto)]

mod code_sets;
mod content;
mod counts;
mod included;
mod prepared;
mod preparing;
mod row_codes;
mod row_keys;
mod row_values;
mod trimming;

pub use counts::Counts;
pub use prepared::{
    PreparedTerms, code_count, codes_have_keys_of_their_own, has_key, key, key_bytes,
};
pub use preparing::{made_terms_can_be_prepared, prepare};
pub use row_codes::{codes, count, lone_code};
pub use row_keys::{key_count, keys};
pub use trimming::{trim, trim_some};
