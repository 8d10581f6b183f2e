//! One task of a search.

use agg_model::Tripped;

/// The task of a search on one shard.
#[derive(Clone, Copy, Debug, PartialEq, Eq)]
pub struct ShardRun {
    pub shard: u32,
    /// The charge that was refused, where the search leaves the shard out.
    pub refused: Option<Tripped>,
}
