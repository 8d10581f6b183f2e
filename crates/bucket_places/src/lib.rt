//! The places of buckets by their codes (Elasticsearch Reference 8, 'Bucket aggregations'). A code is a number that stands for
//! a key within one shard; buckets stand in the order in which their codes came.
#![tactic(auto)]

mod places;

pub use places::{Place, Places};
