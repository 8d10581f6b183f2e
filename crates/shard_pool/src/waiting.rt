//! A task before it has a pass.
ghost use Rattle.std.specs.Prelude.{◌≡◌, ◌∷◌, [], None};

use pool_results::ShardRun;
use std::alloc::Global;
use std::collections::LinkedList;

/// A task that waits for its pass, with the room for what becomes of it.
#[derive(Drop)]
pub(crate) struct Waiting {
    pub(crate) search: u32,
    pub(crate) shard: u32,
    pub(crate) runs: LinkedList<ShardRun, Global>,
    pub(crate) ghost room: { runs ≡ record { shard = shard; refused = None } ∷ [] },
}
