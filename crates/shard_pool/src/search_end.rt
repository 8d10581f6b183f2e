//! The end of a search.

use agg_model::{Failure, List, Partial, Tripped};

/// What became of the tasks of one search.
#[derive(Drop)]
pub struct SearchEnd {
    /// What the batches answer, without the shards that are left out. None where the search was stopped.
    pub parts: List<Partial>,
    /// A charge that was refused and ended the search.
    pub refused: Option<Tripped>,
    /// Whether memory ran out. Not all shards that were left out may be told of then.
    pub memory: bool,
    /// The shards that are left out, by ascending number.
    pub failures: List<Failure>,
}
