//! A task that waits for a worker.
ghost use Rattle.std.specs.Prelude.{◌≡◌, ◌∷◌, [], None};
ghost use Rattle.arrival_moves.specs.Labels.{task_label};
ghost use Rattle.pool_results.specs.Pools.{IsTask, task_number};
ghost use Rattle.pool_results.specs.Passes.{IsFresh};

use crate::call::PoolCall;
use crate::shard_run::ShardRun;
use arrival_table::Labelled;
use breaker_words::Pass;
use std::alloc::Global;
use std::collections::LinkedList;
use std::marker::PhantomData;

/// A task of a search on a shard, with a pass that may hold what the pool has for the task and holds nothing yet. `runs` is the
/// list for what becomes of it.
#[derive(Drop)]
pub struct Load<J: PoolCall> {
    pub search: u32,
    pub shard: u32,
    pub runs: LinkedList<ShardRun, Global>,
    pub pass: Pass,
    pub of: PhantomData<J>,
    pub ghost task: { IsTask J.pool search shard },
    pub ghost room: { runs ≡ record { shard = shard; refused = None } ∷ [] },
    pub ghost fresh: { IsFresh J.pool search shard pass },
}

impl<J: PoolCall> Labelled for Load<J> {
    ghost label = { λ l. task_label (task_number J.pool l.search l.shard) };
}
