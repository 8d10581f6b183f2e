//! The reduction of a batch of results (Elasticsearch Reference 8, 'Search multiple data streams and indices', partial
//! reductions): merged two by two, and charged while the parts and what comes of them are both there.
#![tactic(auto)]

mod merging;
mod reducing;

pub use agg_model::Tripped;
pub use reducing::{ReduceEnd, reduce};
