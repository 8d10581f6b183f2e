//! The loop of a worker.
ghost use Rattle.std.specs.Prelude.{◌≡◌, ◌+◌, ◌-◌, ◌*◌, ◌<◌, ◌≤◌, min, ◌∷◌, [], IsTrue};
ghost use Rattle.arrival_moves.specs.declared.item.Item.TheVariants as item;
ghost use Rattle.arrival_moves.specs.declared.limits.TheConstants.{MAX_TASKS};
ghost use Rattle.arrival_moves.specs.Plans.{task_count};
ghost use Rattle.arrival_table.specs.Models.{IsOf};
ghost use Rattle.pool_results.specs.Pools.{IsPool};
ghost use Rattle.pool_results.specs.Pooled.{IsPoolOf};
ghost use Rattle.pool_worker.specs.Plans.{plan_of};
ghost use Rattle.pool_worker.specs.Steps.{SameClaims};

use crate::delivering::deliver;
use crate::merging::merge;
use crate::running::run_or_skip;
use agg_model::{List, Search};
use arrival_table::{Arrivals, Desk};
use breaker_words::Words;
use pool_results::{Load, Outcome, PoolCall};
use shard_columns::Index;
use std::alloc::Global;
use worker_gate::{Gate, Point};

/// The results of a batch: all, or what is left for the last one.
fn batch_len(shards: u32, size: u32, batch: u32) -> u32
    requires begins { batch * size < shards }
    ensures { result ≡ min size (shards - batch * size) }
{
    size.min(shards - batch * size)
}

/// Runs a task that the desk claimed, with nothing else in hand, and merges the batch that is whole with it.
fn run_claimed<J: PoolCall, G: Gate>(
    alloc: Global,
    words: &Words,
    index: &Index,
    searches: &List<Search>,
    size: u32,
    table: &Arrivals<Load<J>, Outcome<J>>,
    desk: &mut Desk<Load<J>, Outcome<J>>,
    task: u32,
    gate: &G,
)
    requires words { words.now ≡ J.pool.words }
    requires searches { searches.now ≡ J.pool.searches }
    requires pool { IsPoolOf index.now J.pool }
    requires fits { IsPool J.pool }
    requires plan { table.now.plan ≡ plan_of J.pool size }
    requires batch { 2 ≤ size }
    requires few { task_count table.now.plan ≤ MAX_TASKS }
    requires of { IsOf table.now desk.old }
    requires range { task < task_count table.now.plan }
    requires claimed { desk.old.view.hand ≡ item.Claimed task ∷ [] }
    ensures of { IsOf table.now desk.new }
    ensures empty { desk.new.view.hand ≡ [] }
    ensures claims { SameClaims desk.old.view desk.new.view }
{
    gate.pass(task, Point::Claimed);
    let load = table.take_task(desk, task);
    let search = load.search;
    let outcome = run_or_skip(alloc, words, index, searches, size, table, desk, task, load);
    let whole = deliver(table, desk, search, task, outcome);
    gate.pass(task, Point::Collected);
    if let Some(batch) = whole {
        let count = batch_len(index.shards.len() as u32, size, batch);
        merge(alloc, words, size, table, desk, search, batch, count);
        gate.pass(task, Point::Merged);
    }
}

/// Runs tasks until there is none more, and merges the batches that are whole with one of them. A claim, a task and a merge
/// pass the gate. Whatever becomes of a task, its pass lies with its result in a slot afterwards.
pub fn work<J: PoolCall, G: Gate>(
    alloc: Global,
    words: &Words,
    index: &Index,
    searches: &List<Search>,
    size: u32,
    table: &Arrivals<Load<J>, Outcome<J>>,
    desk: &mut Desk<Load<J>, Outcome<J>>,
    gate: &G,
)
    requires words { words.now ≡ J.pool.words }
    requires searches { searches.now ≡ J.pool.searches }
    requires pool { IsPoolOf index.now J.pool }
    requires fits { IsPool J.pool }
    requires plan { table.now.plan ≡ plan_of J.pool size }
    requires batch { 2 ≤ size }
    requires few { task_count table.now.plan ≤ MAX_TASKS }
    requires of { IsOf table.now desk.old }
    requires claims { (desk.old.view.drawn ≤ task_count table.now.plan) × (task_count table.now.plan + 1 ≤ desk.old.view.left + desk.old.view.drawn) }
    requires empty { desk.old.view.hand ≡ [] }
    ensures of { IsOf table.now desk.new }
    ensures claims { desk.new.view.left + desk.new.view.drawn ≡ desk.old.view.left + desk.old.view.drawn }
    ensures ended { IsTrue desk.new.view.ended }
    ensures empty { desk.new.view.hand ≡ [] }
{
    while let Some(task) = table.claim(desk) {
        run_claimed(alloc, words, index, searches, size, table, desk, task, gate);
    }
}
