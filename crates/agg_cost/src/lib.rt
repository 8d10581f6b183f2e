//! What a task can hold, computed from the rows of its shard before it runs (Elasticsearch Reference 8, 'Circuit breaker
//! settings').
#![tactic(auto)]

mod bounds;
mod handing_on;
mod key_bytes;
mod key_counts;
mod paths;
mod room;
mod searches;
mod task;
mod width;

pub use bounds::node_bytes;
pub use paths::RowPaths;
pub use room::rooms;
pub use searches::{ceilings, search_ceiling};
pub use task::ceiling;
pub use width::is_too_wide;
