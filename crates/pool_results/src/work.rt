//! What became of some tasks of one search.
use crate::shard_run::ShardRun;
use agg_model::{Partial, Tripped};
use std::alloc::Global;
use std::collections::LinkedList;

/// What became of some tasks of one search: of one that was run or skipped, or of those of a batch that was merged.
#[derive(Drop)]
pub struct Work {
    /// The number of the search.
    pub search: u32,
    /// The tasks, in the order in which they were joined.
    pub runs: LinkedList<ShardRun, Global>,
    /// What the shards answer that are not left out. None where all of them are, or where the search was stopped.
    pub part: Option<Partial>,
    /// A charge that was refused and ended the search.
    pub refused: Option<Tripped>,
    /// Whether memory ran out.
    pub memory: bool,
    /// Whether a task was not run, since its search was stopped before.
    pub skipped: bool,
}
