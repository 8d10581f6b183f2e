//! Workers on threads.
ghost use Rattle.std.specs.Prelude.{◌≡◌, ◌≤◌, ◌<◌, ℕ, All, length, slice_index_or};
ghost use Rattle.arrival_moves.specs.declared.limits.TheConstants.{MAX_TASKS};
ghost use Rattle.arrival_moves.specs.Plans.{task_count};
ghost use Rattle.arrival_table.specs.Models.{DeskModel};
ghost use Rattle.pool_results.specs.Pools.{IsPool};
ghost use Rattle.pool_results.specs.Pooled.{IsPoolOf};
ghost use Rattle.pool_worker.specs.Workers.{HasWorked, IsReady};
ghost use Rattle.pool_worker.specs.Plans.{plan_of};

use crate::working::work;
use agg_model::{List, Search};
use arrival_table::{Arrivals, Desk};
use breaker_words::Words;
use pool_results::{Load, Outcome, PoolCall};
use shard_columns::Index;
use std::alloc::Global;
use std::thread::{Threads, for_each_mut};
use worker_gate::Gate;

/// Lets each desk work until there is no task more, in a thread of its own where one can be made. All have ended when it
/// returns, whatever became of a task.
pub fn work_all<J: PoolCall + Send + Sync, G: Gate, R: Threads + Sync>(
    rt: &R,
    alloc: Global,
    words: &Words,
    index: &Index,
    searches: &List<Search>,
    size: u32,
    table: &Arrivals<Load<J>, Outcome<J>>,
    desks: &mut [Desk<Load<J>, Outcome<J>>],
    gate: &G,
)
    requires words { words.now ≡ J.pool.words }
    requires searches { searches.now ≡ J.pool.searches }
    requires pool { IsPoolOf index.now J.pool }
    requires fits { IsPool J.pool }
    requires plan { table.now.plan ≡ plan_of J.pool size }
    requires batch { 2 ≤ size }
    requires few { task_count table.now.plan ≤ MAX_TASKS }
    requires ready { All (IsReady table.now) desks.old }
    ensures number { length desks.new ≡ length desks.old }
    ensures worked { (k : ℕ) (d : DeskModel) → k < length desks.old → HasWorked table.now (slice_index_or desks.old k d) (slice_index_or desks.new k d) }
{
    let threads = desks.len().max(1);
    let one = move |_place: usize, desk: &mut Desk<Load<J>, Outcome<J>>|
        requires { (words.now ≡ J.pool.words) × (searches.now ≡ J.pool.searches) × IsPoolOf index.now J.pool × IsPool J.pool
            × (table.now.plan ≡ plan_of J.pool size) × (2 ≤ size) × (task_count table.now.plan ≤ MAX_TASKS) × IsReady table.now desk.now }
        ensures { HasWorked table.entry.now desk.entry.now desk.exit.now }
    { work(alloc, words, index, searches, size, table, desk, gate) };
    for_each_mut(rt, desks, threads, &one);
}
