//! Metrics over the columns of a shard (Elasticsearch Reference 8, 'Metrics aggregations').
#![tactic(auto)]

mod taking;

pub use taking::take;
