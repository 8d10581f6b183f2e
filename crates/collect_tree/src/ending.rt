//! How a task ends.

use agg_model::{Partial, Tripped};

/// How a task ended.
#[derive(Drop)]
pub enum TaskEnd {
    /// What the shard answers.
    Done(Partial),
    /// One of the task's charges was refused.
    Refused(Tripped),
    /// Memory ran out.
    Memory,
}

/// Why a task that has begun stopped before its end. Nothing is held for it any more.
#[derive(Drop)]
pub(crate) enum Stop {
    Refused(Tripped),
    Memory,
}
