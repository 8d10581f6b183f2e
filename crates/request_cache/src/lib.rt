//! A shard request cache: what the shards of an index answered to searches, the least recently used of them the first to go
//! (Elasticsearch Reference 8, 'Shard request cache'), and a task that asks it first.
#![tactic(auto)]

mod cache;
mod task;

pub use cache::Cache;
pub use task::cached_task;
