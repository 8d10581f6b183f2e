//! Searches whose tasks many workers share: each search is run on each shard once, by whoever comes first, and the results are
//! merged in batches in the order of their arrival (Elasticsearch Reference 8, 'Search API', `batched_reduce_size`).
#![tactic(auto)]

mod closing;
mod desks;
mod gathered;
mod joining;
pub mod laws;
mod lending;
mod opening;
mod pool;
mod reserving;
mod room;
mod search_end;
mod settling;
mod sharing;
mod waiting;

pub use agg_model::{Failure, Partial, Tripped};
pub use closing::close_pool;
pub use opening::{Opened, open_pool};
pub use pool::run_pool;
pub use pool_worker::{Gate, OpenGate, Point};
pub use room::{EndRoom, end_room};
pub use search_end::SearchEnd;
