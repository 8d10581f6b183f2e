//! What lies in the slots of the table of arrivals while workers share the tasks of some searches: the load of a task that
//! waits, and the result of some tasks, each with the pass that holds their charges. Results are joined with no memory.
#![tactic(auto)]

mod batch;
mod call;
mod finishing;
mod gathering;
mod load;
mod outcome;
mod running;
mod shard_run;
mod taken;
mod work;

pub use batch::Batch;
pub use call::PoolCall;
pub use finishing::finish;
pub use gathering::{add, begin};
pub use load::Load;
pub use outcome::Outcome;
pub use running::{run, skip};
pub use shard_run::ShardRun;
pub use taken::Taken;
pub use work::Work;
