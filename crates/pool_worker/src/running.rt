//! A task that was claimed, up to its result.
ghost use Rattle.std.specs.Prelude.{◌≡◌, ◌<◌, ◌∷◌, [], false, IsTrue};
ghost use Rattle.arrival_moves.specs.declared.item.Item.TheVariants as item;
ghost use Rattle.arrival_moves.specs.Lists.{contains};
ghost use Rattle.arrival_moves.specs.Plans.{search_of, task_count};
ghost use Rattle.arrival_table.specs.Models.{IsOf};
ghost use Rattle.pool_results.specs.Carried.{has_failed, label_of};
ghost use Rattle.pool_results.specs.Pools.{IsPool, task_number};
ghost use Rattle.pool_results.specs.Runs.{shards_in};
ghost use Rattle.pool_results.specs.Pooled.{IsPoolOf};
ghost use Rattle.pool_worker.specs.Plans.{plan_of};
ghost use Rattle.pool_worker.specs.Steps.{SameClaims};

use agg_model::{List, Search};
use arrival_table::{Arrivals, Desk};
use breaker_words::Words;
use pool_results::{Load, Outcome, PoolCall, Work, run, skip};
use shard_columns::Index;
use std::alloc::Global;

/// Whether the search was refused, or found no memory.
fn has_failed(work: &Work) -> bool
    ensures { result ≡ has_failed work.now }
{
    work.refused.is_some() || work.memory
}

/// Stops the search of a task that failed.
fn stop_if<J: PoolCall>(
    table: &Arrivals<Load<J>, Outcome<J>>,
    desk: &mut Desk<Load<J>, Outcome<J>>,
    task: u32,
    failed: bool,
)
    requires of { IsOf table.now desk.old }
    requires range { task < task_count table.now.plan }
    requires loaded { desk.old.view.hand ≡ item.Loaded (record { task = task; failed = false }) ∷ [] }
    ensures of { IsOf table.now desk.new }
    ensures loaded { desk.new.view.hand ≡ item.Loaded (record { task = task; failed = failed }) ∷ [] }
    ensures notes { desk.new.view.stopped ≡ desk.old.view.stopped }
    ensures claims { SameClaims desk.old.view desk.new.view }
{
    if failed {
        table.stop(desk, task);
    }
}

/// The result of a task that is run, or skipped where its search was stopped.
fn result_of<J: PoolCall>(
    alloc: Global,
    words: &Words,
    index: &Index,
    searches: &List<Search>,
    load: Load<J>,
    stopped: bool,
) -> Outcome<J>
    requires words { words.now ≡ J.pool.words }
    requires searches { searches.now ≡ J.pool.searches }
    requires pool { IsPoolOf index.now J.pool }
    requires fits { IsPool J.pool }
    ensures search { result.work.search ≡ load.search }
    ensures shard { shards_in result.work.runs ≡ load.shard ∷ [] }
    ensures skipped { result.work.skipped ≡ stopped }
{
    if stopped {
        skip(load)
    } else {
        run(alloc, words, index, searches, load)
    }
}

/// Runs a task whose load was taken, or skips it where its search was stopped. Where it was refused, and its search allows no
/// partial results, or where it found no memory, its search is stopped.
pub(crate) fn run_or_skip<J: PoolCall>(
    alloc: Global,
    words: &Words,
    index: &Index,
    searches: &List<Search>,
    batch: u32,
    table: &Arrivals<Load<J>, Outcome<J>>,
    desk: &mut Desk<Load<J>, Outcome<J>>,
    task: u32,
    load: Load<J>,
) -> Outcome<J>
    requires words { words.now ≡ J.pool.words }
    requires searches { searches.now ≡ J.pool.searches }
    requires pool { IsPoolOf index.now J.pool }
    requires fits { IsPool J.pool }
    requires plan { table.now.plan ≡ plan_of J.pool batch }
    requires of { IsOf table.now desk.old }
    requires range { task < task_count table.now.plan }
    requires search { load.search ≡ search_of table.now.plan task }
    requires label { task_number J.pool load.search load.shard ≡ task }
    requires loaded { desk.old.view.hand ≡ item.Loaded (record { task = task; failed = false }) ∷ [] }
    ensures of { IsOf table.now desk.new }
    ensures search { result.work.search ≡ load.search }
    ensures tasks { (label_of J.pool result.work).tasks ≡ task ∷ [] }
    ensures loaded { desk.new.view.hand ≡ item.Loaded (record { task = task; failed = has_failed result.work }) ∷ [] }
    ensures noted { IsTrue result.work.skipped → IsTrue (contains load.search desk.new.view.stopped) }
    ensures claims { SameClaims desk.old.view desk.new.view }
{
    let search = load.search;
    let stopped = table.stopped(desk, search);
    let outcome = result_of(alloc, words, index, searches, load, stopped);
    let failed = has_failed(&outcome.work);
    stop_if(table, desk, task, failed);
    outcome
}
