//! Partial results: the empty one, the union of two, and their cost (Elasticsearch Reference 8, 'Aggregations': partial
//! reduce).
#![tactic(auto)]

mod beginning;
mod costing;
pub mod laws;
mod merging;

pub use beginning::{empty, empty_nodes};
pub use costing::cost;
pub use merging::merge;
