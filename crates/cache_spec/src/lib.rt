//! A shard request cache in the book: what one worker charges and answers that keeps the answers of shards (Elasticsearch
//! Reference 8, 'Shard request cache'). This crate has definitions, their laws, and the type by which answers are kept.
#![tactic(auto)]

mod hashing;
pub mod laws;
mod shard_search;

pub use shard_search::ShardSearch;
