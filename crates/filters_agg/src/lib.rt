//! The buckets of a row at a filters, a filter or a missing aggregation, over the columns of a shard (Elasticsearch Reference
//! 8, 'Filters aggregation', 'Filter aggregation' and 'Missing aggregation').
#![tactic(auto)]

mod prepared_filters;
mod row_keys;

pub use prepared_filters::{PreparedFilters, codes, count, prepare};
pub use row_keys::{key_count, keys};
