//! One search on one shard (Elasticsearch Reference 8, 'Aggregations'; 'Circuit breaker settings': the request circuit
//! breaker): trees that grow by blocks of roots, and after each block the charges of what each of its roots added.
#![tactic(auto)]

mod charging;
mod ending;
mod growth;
mod phase;
mod rootless;
mod running;
mod top_tree;

pub use agg_model::Tripped;
pub use ending::TaskEnd;
pub use running::run_task;
