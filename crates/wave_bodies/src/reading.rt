//! The bodies, as they are read.
ghost use Rattle.std.specs.Prelude.{◌≡◌, ◌≤◌, ◌*◌, ◌++◌, ◌∷◌, [], IfOk, IfSome, IsTrue, List as Items, None, Ok, OnOk, Option, length, sum};
ghost use Rattle.std.specs.List.{AllByRecursion, list_all};
ghost use Rattle.agg_cost.specs.Searches.{AreRoomsFor, kinds_of, task_ceilings};
ghost use Rattle.agg_evaluation.specs.SearchFits.{search_fits};
ghost use Rattle.agg_model.specs.declared.breaker.Tripped.{Tripped as AnyTripped};
ghost use Rattle.agg_model.specs.declared.limits.TheConstants.{MAX_BYTE_SIZE};
ghost use Rattle.agg_search.specs.Defined.{CanRun};
ghost use Rattle.agg_search.specs.Paging.{request_at, search_at};
ghost use Rattle.agg_spec.specs.Outcome.{Request};
ghost use Rattle.fitting_laws.specs.Indexes.{index_of};
ghost use Rattle.shard_columns.specs.Index.{rows_by_shard};
ghost use Rattle.wave_bodies.specs.Asking.{AreAsked, requests_from};
ghost use Rattle.wave_bodies.specs.Read.{HasRead};

use crate::asked::Asked;
use crate::progress::Progress;
use agg_cost::rooms;
use agg_model::{Bytes, List, Refused, Search, Tripped};
use agg_reading::RequestFault;
use agg_request::search_of;
use shard_columns::Index;
use std::alloc::{AllocError, Global};
use std::thread::Threads;

/// What bodies ask for, and the searches among it.
#[derive(Drop)]
pub struct Reading {
    /// What each body asks for, in their order.
    pub asked: List<Asked>,
    /// The searches that run, in the same order.
    pub searches: List<Search>,
    /// Room for each of their tasks in bytes, search by search and shard by shard: at least the task's ceiling.
    pub rooms: List<u64>,
}

/// The search that a body asks for, or why it is none. Where its search was read before, it is `page`.
fn search_in(
    alloc: Global,
    index: &Index,
    body: &Bytes,
    page: Option<Search>,
) -> Result<Result<Search, Refused>, AllocError>
    requires made { IfSome page (λ search. IsTrue (search_fits index.now.mapping search)) }
    ensures read { IfOk result (λ read. read ≡ search_at (index_of index.now) body.now page) }
    ensures made { IfOk result (λ read. IfOk read (λ search. IsTrue (search_fits index.now.mapping search))) }
{
    if let Some(search) = page {
        return Ok(Ok(search));
    }
    match search_of(alloc, body.as_slice(), &index.mapping) {
        Ok(search) => Ok(Ok(search)),
        Err(RequestFault::NotJson) => Ok(Err(Refused::NotJson)),
        Err(RequestFault::Bad { code, path }) => Ok(Err(Refused::Bad { code, path })),
        Err(RequestFault::Memory) => Err(AllocError),
    }
}

/// Puts a search behind what was asked for: it runs, unless it is too wide.
fn add_search<R: Threads + Sync>(
    rt: &R,
    alloc: Global,
    index: &Index,
    search: Search,
    progress: &mut Progress,
) -> Result<(), AllocError>
    requires made { IsTrue (search_fits index.now.mapping search) }
    ensures { OnOk result ((requests : Items Request) (refusals : Items (Option AnyTripped)) (request : Request) →
        request.search ≡ Ok search →
        HasRead index.now requests refusals progress.old.asked progress.old.searches.items progress.old.rooms.items →
        HasRead index.now (requests ++ request ∷ []) (refusals ++ None ∷ [])
        progress.new.asked progress.new.searches.items progress.new.rooms.items) }
{
    match rooms(rt, alloc, index, &search)? {
        Some(found) => {
            let mut one = List::new(alloc);
            one.push(search)?;
            progress.add_running(one, found)
        }
        None => progress.asked.push(Asked::Refused(Refused::TooWide)),
    }
}

/// Puts what a body asks for behind the others. Where its search was read before, it is `page`.
fn read_body<R: Threads + Sync>(
    rt: &R,
    alloc: Global,
    index: &Index,
    body: &Bytes,
    page: Option<Search>,
    progress: &mut Progress,
) -> Result<(), AllocError>
    requires made { IfSome page (λ search. IsTrue (search_fits index.now.mapping search)) }
    ensures { OnOk result ((requests : Items Request) (refusals : Items (Option AnyTripped)) →
        HasRead index.now requests refusals progress.old.asked progress.old.searches.items progress.old.rooms.items →
        HasRead index.now (requests ++ request_at (index_of index.now) body.now page ∷ []) (refusals ++ None ∷ [])
        progress.new.asked progress.new.searches.items progress.new.rooms.items) }
{
    match search_in(alloc, index, body, page)? {
        Ok(search) => add_search(rt, alloc, index, search, progress),
        Err(refused) => progress.asked.push(Asked::Refused(refused)),
    }
}

/// Reads a body, unless its charge was refused.
fn ask<R: Threads + Sync>(
    rt: &R,
    alloc: Global,
    index: &Index,
    body: &Bytes,
    refusal: Option<Tripped>,
    page: Option<Search>,
    progress: &mut Progress,
) -> Result<(), AllocError>
    requires made { IfSome page (λ search. IsTrue (search_fits index.now.mapping search)) }
    ensures { OnOk result ((requests : Items Request) (refusals : Items (Option AnyTripped)) →
        HasRead index.now requests refusals progress.old.asked progress.old.searches.items progress.old.rooms.items →
        HasRead index.now (requests ++ request_at (index_of index.now) body.now page ∷ []) (refusals ++ refusal ∷ [])
        progress.new.asked progress.new.searches.items progress.new.rooms.items) }
{
    match refusal {
        Some(tripped) => progress.asked.push(Asked::Tripped(tripped)),
        None => read_body(rt, alloc, index, body, page, progress),
    }
}

/// Reads the bodies whose charges were granted, and finds room for their tasks, at least the ceiling of each. Where bounds do not
/// settle it, several threads compute the ceilings, where they can be made. `refusals` has the refusal of each body's charge. Where
/// the search of the first body was read before, it is `page`.
///
/// It fails only where memory is wanting.
pub fn read_bodies<R: Threads + Sync>(
    rt: &R,
    alloc: Global,
    index: &Index,
    bodies: &List<Bytes>,
    refusals: &List<Option<Tripped>>,
    page: Option<Search>,
) -> Result<Reading, AllocError>
    requires number { length refusals.now ≡ length bodies.now }
    requires made { IfSome page (λ search. IsTrue (search_fits index.now.mapping search)) }
    ensures asked { IfOk result (λ r. AreAsked (index_of index.now) (requests_from (index_of index.now) page bodies.now) refusals.now r.asked r.searches) }
    ensures run { IfOk result (λ r. AllByRecursion (CanRun index.now) r.searches) }
    ensures made { IfOk result (λ r. IsTrue (list_all (search_fits index.now.mapping) r.searches)) }
    ensures few { IfOk result (λ r. length r.searches ≤ length bodies.now) }
    ensures rooms { IfOk result (λ r. AreRoomsFor r.rooms
        (task_ceilings (kinds_of index.now.mapping) r.searches (rows_by_shard index.now.shards))) }
    // A search whose tasks have higher ceilings together is too wide.
    ensures low { IfOk result (λ r. sum r.rooms ≤ length r.searches * MAX_BYTE_SIZE) }
{
    let mut page = page;
    let mut progress = Progress::new(alloc);
    for (place, body) in bodies.as_slice().iter().enumerate() {
        let refusal = refusals.as_slice()[place];
        let read = page.take();
        ask(rt, alloc, index, body, refusal, read, &mut progress)?;
    }
    Ok(progress.into_reading())
}
