//! What an answer is kept by.
ghost use Rattle.std.specs.Prelude.{◌≡◌, IfOk};

use agg_model::{Copying, Search};
use std::alloc::{AllocError, Global};

/// A search on one shard: what the answer is kept by that the shard gave.
#[derive(Drop, PartialEq, Eq)]
pub struct ShardSearch {
    /// The number of the shard, from 0.
    pub shard: u32,
    /// The search, with 0 for the length of its body: how a body is written makes no other entry.
    pub search: Search,
}

impl ShardSearch {
    /// The entry of this search on the shard of this number.
    pub fn of(alloc: Global, shard: u32, search: &Search) -> Result<Self, AllocError>
        ensures shard { IfOk result (λ e. e.shard ≡ shard) }
        ensures search { IfOk result (λ e. e.search ≡ record search.now { body_bytes = 0 }) }
    {
        Ok(ShardSearch {
            shard,
            search: Search {
                query: search.query.copy(alloc)?,
                aggs: search.aggs.copy(alloc)?,
                body_bytes: 0,
                partial: search.partial,
                pipes: search.pipes.copy(alloc)?,
            },
        })
    }
}
