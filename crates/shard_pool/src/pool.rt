//! The run of a pool.
ghost use Rattle.std.specs.Prelude.{◌≡◌, ◌+◌, ◌*◌, ◌≤◌, ◌<◌, ℕ, IfOk, IsTrue, OnErr, length, max, slice_index_or, sum};
ghost use Rattle.std.specs.List.{list_all};
ghost use Rattle.agg_cost.specs.Searches.{AreRoomsFor, kinds_of, task_ceilings};
ghost use Rattle.agg_evaluation.specs.SearchFits.{search_fits};
ghost use Rattle.agg_model.specs.declared.breaker.Which.{Which as AnyWhich};
ghost use Rattle.agg_model.specs.declared.limits.TheConstants.{MAX_AT_ONCE};
ghost use Rattle.arrival_moves.specs.declared.limits.TheConstants.{MAX_TASKS};
ghost use Rattle.breaker_words.specs.Passes.{IsOf};
ghost use Rattle.breaker_words.specs.Views.{most_of};
ghost use Rattle.breaker_words.specs.declared.trial.Trial.TheVariants as trial;
ghost use Rattle.shard_pool.specs.declared.search_end.SearchEnd.{SearchEnd as AnyEnd};
ghost use Rattle.shard_pool.specs.Ends.{HasRun, MayEnd};
ghost use Rattle.shard_columns.specs.Index.{rows_by_shard};
ghost use Rattle.shard_pool.specs.PoolOf.{pool_of};

use crate::closing::close_pool;
use crate::opening::{Opened, open_pool};
use crate::room::end_room;
use crate::search_end::SearchEnd;
use agg_model::{List, Search};
use breaker_words::{Pass, Words};
use pool_results::PoolCall;
use pool_worker::{Gate, work_all};
use shard_columns::Index;
use std::alloc::{AllocError, Global};
use std::marker::Brand;
use std::thread::Threads;

// No more workers than there are tasks, and one where there is none.
fn worker_count(workers: u32, index: &Index, searches: &List<Search>) -> u32
    requires some { 1 ≤ workers }
    requires few { length searches.now * length index.now.shards ≤ MAX_TASKS }
    ensures some { 1 ≤ result }
    ensures most { result ≤ workers }
    ensures tasks { result ≤ max (length searches.now * length index.now.shards) 1 }
{
    let tasks = searches.len() * index.shards.len();
    workers.min(tasks as u32).max(1)
}

fn run_pool_by<J: PoolCall + Send + Sync, G: Gate, R: Threads + Sync>(
    rt: &R,
    alloc: Global,
    words: &Words,
    pass: &mut Pass,
    index: &Index,
    searches: &List<Search>,
    ceilings: &List<u64>,
    workers: u32,
    size: u32,
    gate: &G,
) -> Result<List<SearchEnd>, AllocError>
    requires pool { J.pool ≡ pool_of words.now index.now searches.now ceilings.now }
    requires of { IsOf words.now pass.old }
    requires rest { pass.old.view.trial ≡ trial.Rest }
    requires whole { pass.old.view.cap ≡ pass.old.view.total }
    requires some { 1 ≤ workers }
    requires at_once { workers ≤ MAX_AT_ONCE }
    requires size { 2 ≤ size }
    requires few { length searches.now * length index.now.shards ≤ MAX_TASKS }
    requires made { IsTrue (list_all (search_fits index.now.mapping) searches.now) }
    requires ceilings { AreRoomsFor ceilings.now (task_ceilings (kinds_of index.now.mapping) searches.now (rows_by_shard index.now.shards)) }
    requires room { (x : AnyWhich) → most_of pass.old.view x + sum ceilings.now ≤ pass.old.view.cap }
    requires left { sum ceilings.now < pass.old.view.cap }
    ensures number { IfOk result (λ ends. length ends ≡ length searches.now) }
    ensures ends { IfOk result (λ ends. (q : ℕ) (e : AnyEnd) → q < length searches.now
        → MayEnd J.pool q size pass.new.view (slice_index_or ends q e)) }
    ensures run { IfOk result (λ ends. HasRun J.pool size pass.old pass.new ends) }
    ensures memory { OnErr result (pass.new ≡ pass.old) }
{
    let room = end_room(alloc, searches.len() as u32)?;
    let Opened { table, mut desks } = open_pool::<J>(
        alloc,
        words,
        pass,
        searches.len() as u32,
        index.shards.len() as u32,
        ceilings.as_slice(),
        size,
        worker_count(workers, index, searches),
    )?;
    work_all(
        rt,
        alloc,
        words,
        index,
        searches,
        size,
        &table,
        desks.as_mut_slice(),
        gate,
    );
    Ok(close_pool(alloc, words, pass, table, desks, room))
}

/// Runs the tasks of some searches, one search on one shard, by up to `workers` threads, and no more than there are tasks, each
/// of which takes the next task that nobody has taken; results are merged in batches of up to `size` in the order of their arrival, by the worker that
/// brought the last one. It takes the memory of its table before anything is charged; threads that cannot be made are done without.
///
/// Each search is made for the mapping of the index. `ceilings` holds what the pass of each task may hold in bytes, search by search
/// and shard by shard: the ceiling of the task, or more. The pass has the whole cap; the ceilings together leave of it what the
/// pass ever had standing at a breaker, and one byte at least.
/// 1 to `MAX_AT_ONCE` workers, batches of 2 or more, `MAX_TASKS` tasks at most.
///
/// Of each search it tells the parts, or the charge that was refused, or that memory ran out; where a search allows partial
/// results, the shards that it leaves out. Afterwards the pass has the whole cap again, and holds what the parts cost beside
/// what it held. Where there is no memory for the table, it is as before.
pub fn run_pool<G: Gate, R: Threads + Sync>(
    rt: &R,
    alloc: Global,
    words: &Words,
    pass: &mut Pass,
    index: &Index,
    searches: &List<Search>,
    ceilings: &List<u64>,
    workers: u32,
    size: u32,
    gate: &G,
) -> Result<List<SearchEnd>, AllocError>
    requires of { IsOf words.now pass.old }
    requires rest { pass.old.view.trial ≡ trial.Rest }
    requires whole { pass.old.view.cap ≡ pass.old.view.total }
    requires some { 1 ≤ workers }
    requires at_once { workers ≤ MAX_AT_ONCE }
    requires size { 2 ≤ size }
    requires few { length searches.now * length index.now.shards ≤ MAX_TASKS }
    requires made { IsTrue (list_all (search_fits index.now.mapping) searches.now) }
    requires ceilings { AreRoomsFor ceilings.now (task_ceilings (kinds_of index.now.mapping) searches.now (rows_by_shard index.now.shards)) }
    requires room { (x : AnyWhich) → most_of pass.old.view x + sum ceilings.now ≤ pass.old.view.cap }
    requires left { sum ceilings.now < pass.old.view.cap }
    ensures number { IfOk result (λ ends. length ends ≡ length searches.now) }
    // How each search may end, whichever worker came first.
    ensures ends { IfOk result (λ ends. (q : ℕ) (e : AnyEnd) → q < length searches.now
        → MayEnd (pool_of words.now index.now searches.now ceilings.now) q size pass.new.view (slice_index_or ends q e)) }
    // What is held, granted and tripped afterwards.
    ensures run { IfOk result (λ ends. HasRun (pool_of words.now index.now searches.now ceilings.now) size pass.old pass.new ends) }
    ensures memory { OnErr result (pass.new ≡ pass.old) }
{
    run_pool_by::<Brand, G, R>(
        rt, alloc, words, pass, index, searches, ceilings, workers, size, gate,
    )
}
