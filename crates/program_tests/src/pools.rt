//! A script that is loaded, and its searches in one pool.
ghost use Rattle.std.specs.Prelude.{◌≡◌, ◌+◌, ◌*◌, ◌≤◌, ◌<◌, ◌^◌, IfOk, IfSome, IsTrue, Some, map, sum};
ghost use Rattle.std.specs.List.{list_all};
ghost use Rattle.agg_cost.specs.Searches.{AreRoomsFor, kinds_of, task_ceilings};
ghost use Rattle.agg_evaluation.specs.SearchFits.{search_fits};
ghost use Rattle.agg_model.specs.declared.breaker.Which.{Which as AnyWhich};
ghost use Rattle.arrival_moves.specs.declared.limits.TheConstants.{MAX_TASKS};
ghost use Rattle.breaker_words.specs.Passes.{IsOf};
ghost use Rattle.breaker_words.specs.Views.{hold_of, most_of};
ghost use Rattle.breaker_words.specs.declared.trial.Trial.TheVariants as trial;
ghost use Rattle.shard_columns.specs.Index.{rows_by_shard};

use agg_base::{Block, Lines, MemorySource};
use agg_bulk::{Loaded, columns_charge, load};
use agg_cost::ceilings;
use agg_model::limits::MAX_AT_ONCE;
use agg_model::{Bytes, Limits, List, Search, Settings, Which};
use agg_request::search_of;
use arrival_moves::MAX_TASKS;
use breaker_words::{Pass, Words, set_ceiling};
use shard_columns::Index;
use shard_pool::{Gate, SearchEnd, run_pool};
use std::alloc::{AllocError, Global};
use std::test::Fail;
use std::thread::Threads;

/// The limit of the breakers that no test fills, in bytes.
const AMPLE: u64 = 1_000_000;

/// The ceiling of all passes, in bytes.
const CEILING: u64 = 1 << 62;

/// What a pool is asked for.
#[derive(Clone, Copy)]
pub(crate) struct Call<'a> {
    /// The limit of the request breaker, in bytes.
    pub(crate) limit: u64,
    /// 1 to `MAX_AT_ONCE`.
    pub(crate) workers: u32,
    /// The batch, 2 or more.
    pub(crate) size: u32,
    pub(crate) bodies: &'a [&'a str],
}

/// What a pass has at the request breaker, in bytes, and its trips there.
#[derive(Clone, Copy, Debug, PartialEq, Eq)]
pub(crate) struct Account {
    pub(crate) held: u64,
    pub(crate) granted: u64,
    pub(crate) trips: u64,
}

/// What became of the searches, or want of memory, and what the caller's pass has afterwards.
#[derive(Drop)]
pub(crate) struct Ran {
    pub(crate) ends: Result<List<SearchEnd>, AllocError>,
    pub(crate) request: Account,
    /// What it holds at the parent beside that, in bytes.
    pub(crate) columns: u64,
}

fn settings_of(request: u64) -> Settings {
    Settings {
        workers: 1,
        batch: 2,
        width: 1,
        limits: Limits {
            request,
            fielddata: AMPLE,
            inflight: AMPLE,
            parent: AMPLE,
        },
        heap: AMPLE,
        max_buckets: AMPLE,
        scan: false,
        generate: None,
    }
}

/// The index of a script, with breakers that hold its columns.
fn loaded(alloc: Global, script: Bytes, limit: u64) -> Result<Loaded, Fail>
    ensures of { IfOk result (λ l. IsOf l.words l.pass) }
    ensures rest { IfOk result (λ l. l.pass.view.trial ≡ trial.Rest) }
    ensures whole { IfOk result (λ l. l.pass.view.cap ≡ l.pass.view.total) }
    ensures holds { IfOk result (λ l. (x : AnyWhich) → hold_of l.pass.view x ≤ 2 ^ 54) }
{
    let mut source = MemorySource::new(script, 4_096, List::new(alloc));
    let mut lines = Lines::new(alloc, &mut source, Block::new(alloc)?);
    match load(alloc, &mut lines, &settings_of(limit)) {
        Ok(loaded) => {
            // It is below 2^54.
            let _charge = columns_charge(&loaded.index);
            Ok(loaded)
        }
        Err(_end) => Err(Fail::new("not loaded")),
    }
}

/// The searches that the bodies are.
fn searches_of(alloc: Global, index: &Index, bodies: &[&str]) -> Result<List<Search>, Fail>
    ensures made { IfOk result (λ searches. IsTrue (list_all (search_fits index.now.mapping) searches)) }
{
    let mut searches = List::new(alloc);
    for body in bodies {
        let search = search_in(alloc, index, body)?;
        searches.push(search)?;
    }
    Ok(searches)
}

fn search_in(alloc: Global, index: &Index, body: &str) -> Result<Search, Fail>
    ensures made { IfOk result (λ search. IsTrue (search_fits index.now.mapping search)) }
{
    match search_of(alloc, body.as_bytes(), &index.mapping) {
        Ok(search) => Ok(search),
        Err(_fault) => Err(Fail::new("not a search")),
    }
}

/// The ceilings, where each task has one.
fn known(alloc: Global, found: &[Option<u64>]) -> Result<List<u64>, Fail>
    ensures { IfOk result (λ all. map (λ c. Some c) all ≡ found.now) }
{
    let mut all = List::new(alloc);
    for one in found {
        let Some(bytes) = *one else {
            return Err(Fail::new("too wide"));
        };
        all.push(bytes)?;
    }
    Ok(all)
}

/// The ceiling of each task, in bytes.
fn ceilings_of<R: Threads + Sync>(
    rt: &R,
    alloc: Global,
    index: &Index,
    searches: &List<Search>,
) -> Result<List<u64>, Fail>
    requires made { IsTrue (list_all (search_fits index.now.mapping) searches.now) }
    ensures ceilings { IfOk result (λ all. AreRoomsFor all
        (task_ceilings (kinds_of index.now.mapping) searches.now (rows_by_shard index.now.shards))) }
{
    let found = ceilings(rt, alloc, index, searches)?;
    known(alloc, found.as_slice())
}

/// The sum of the ceilings; none where it is not below 2^64.
fn sum_of(ceilings: &[u64]) -> Option<u64>
    ensures { IfSome result (λ bytes. bytes ≡ sum ceilings.now) }
{
    let mut all = 0u64;
    for bytes in ceilings {
        all = all.checked_add(*bytes)?;
    }
    Some(all)
}

/// Whether the pool has few enough tasks.
fn are_few(searches: usize, shards: usize) -> bool
    ensures { IsTrue result → searches * shards ≤ MAX_TASKS }
{
    match searches.checked_mul(shards) {
        Some(tasks) => tasks <= MAX_TASKS,
        None => false,
    }
}

/// Gives the pass room for tasks with these ceilings.
fn make_room(words: &Words, pass: &mut Pass, ceilings: &[u64]) -> Result<(), Fail>
    requires of { IsOf words.now pass.old }
    requires rest { pass.old.view.trial ≡ trial.Rest }
    requires whole { pass.old.view.cap ≡ pass.old.view.total }
    requires holds { (x : AnyWhich) → hold_of pass.old.view x ≤ 2 ^ 54 }
    ensures of { IsOf words.now pass.new }
    ensures rest { pass.new.view.trial ≡ trial.Rest }
    ensures whole { pass.new.view.cap ≡ pass.new.view.total }
    ensures room { IfOk result (λ _. (x : AnyWhich) → most_of pass.new.view x + sum ceilings.now ≤ pass.new.view.cap) }
    ensures left { IfOk result (λ _. sum ceilings.now < pass.new.view.cap) }
{
    let bytes = sum_of(ceilings);
    set_ceiling(words, pass, CEILING);
    match bytes {
        Some(bytes) if bytes <= CEILING / 2 => Ok(()),
        _ => Err(Fail::new("too wide")),
    }
}

fn account_of(pass: &Pass) -> Account {
    Account {
        held: pass.hold(Which::Request),
        granted: pass.granted(Which::Request),
        trips: pass.trips(Which::Request),
    }
}

/// Loads the script, and runs the searches of the bodies in one pool.
pub(crate) fn run<G: Gate, R: Threads + Sync>(
    rt: &R,
    alloc: Global,
    script: Bytes,
    call: Call<'_>,
    gate: &G,
) -> Result<Ran, Fail> {
    let Loaded {
        index,
        items: _,
        words,
        mut pass,
    } = loaded(alloc, script, call.limit)?;
    let searches = searches_of(alloc, &index, call.bodies)?;
    if !are_few(searches.len(), index.shards.len()) {
        return Err(Fail::new("too many tasks"));
    }
    let ceilings = ceilings_of(rt, alloc, &index, &searches)?;
    make_room(&words, &mut pass, ceilings.as_slice())?;
    let ends = run_pool(
        rt,
        alloc,
        &words,
        &mut pass,
        &index,
        &searches,
        &ceilings,
        call.workers.clamp(1, MAX_AT_ONCE),
        call.size.max(2),
        gate,
    );
    let request = account_of(&pass);
    let columns = pass.hold(Which::Parent).saturating_sub(request.held);
    Ok(Ran {
        ends,
        request,
        columns,
    })
}
