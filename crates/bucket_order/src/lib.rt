//! The orders of buckets, as shards cut by them and answers stand in them (Elasticsearch Reference 8, 'Terms
//! aggregation' and 'Histogram aggregation' on order).
#![tactic(auto)]

mod compare;
mod composite;
mod first;
mod sort;

pub use compare::{compare_buckets, compare_keys, compare_values, value_of};
pub use composite::compare_composites;
pub use first::first_buckets;
pub use sort::{sort_buckets, sort_by_key, sort_composites};
