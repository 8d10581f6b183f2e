//! One search by one worker, from the charge of its body to its answer.
ghost use Rattle.std.specs.Prelude.{◌≡◌, ◌≤◌, [], IfErr, IfOk, IfSome, IsTrue, Ok, OnOk, length};
ghost use Rattle.agg_evaluation.specs.SearchFits.{search_fits};
ghost use Rattle.agg_model.specs.declared.breaker.Which.{Which as AnyWhich};
ghost use Rattle.agg_model.specs.declared.breaker.Which.TheVariants as which;
ghost use Rattle.agg_model.specs.declared.limits.TheConstants.{MAX_BATCH, MAX_LINE};
ghost use Rattle.agg_spec.specs.Outcome.{Request};
ghost use Rattle.agg_spec.specs.Requests.{refusal_of_fault, request_of};
ghost use Rattle.breaker_words.specs.Views.{hold_of};
ghost use Rattle.solo_charges.specs.Alone.{IsAlone};
ghost use Rattle.agg_search.specs.Answering.{AnswersAlone, AnswersCached, Searches, Solves, StopsSearching, StopsSolving};
ghost use Rattle.agg_search.specs.Telling.{IsTold, next_as, told_as};
ghost use Rattle.fitting_laws.specs.Indexes.{index_of};
ghost use Rattle.agg_search.specs.Paging.{IsBehind, request_at};
ghost use Rattle.agg_search.specs.Stops.{IfRefused};
ghost use Rattle.request_cache.specs.Entries.{entries_in};

use crate::answering::outcome_of;
use crate::charging::{charge, charge_response};
use crate::paging::Found;
use crate::progress::Progress;
use crate::reducing::reduce_search;
use crate::shard_tasks::{Shards, Tasks};
use crate::stop::Stop;
use agg_cost::is_too_wide;
use agg_model::{Answered, Bytes, Child, Failure, List, Outcome, Refused, Search, Settings};
use agg_reading::RequestFault;
use agg_request::search_of;
use breaker_words::{Pass, Words};
use request_cache::Cache;
use shard_columns::Index;
use solo_charges::give_all_back;
use std::alloc::Global;

/// Runs a search that was read, unless it is too wide.
fn run_search<T: Tasks>(
    alloc: Global,
    words: &Words,
    pass: &mut Pass,
    tasks: &mut T,
    search: Search,
    settings: &Settings,
    progress: &mut Progress,
) -> Result<Found, Stop>
    requires alone { IsAlone words.now pass.old }
    requires limits { words.now.limits ≡ settings.now.limits }
    requires some { 1 ≤ settings.now.batch }
    requires few { settings.now.batch ≤ MAX_BATCH }
    requires made { IsTrue (search_fits (T.index tasks.old).mapping search) }
    requires batch { progress.old.batch ≡ [] }
    requires results { progress.old.results ≡ [] }
    requires failures { progress.old.failures ≡ [] }
    requires free { hold_of pass.old.view which.Request ≡ 0 }
    ensures alone { IsAlone words.now pass.new }
    ensures index { T.index tasks.new ≡ T.index tasks.old }
    ensures capacity { T.capacity tasks.new ≡ T.capacity tasks.old }
    ensures fielddata { hold_of pass.new.view which.Fielddata ≡ hold_of pass.old.view which.Fielddata }
    ensures searches { IfOk result (λ found. (request : Request) → request.search ≡ Ok search →
        Searches settings.now (index_of (T.index tasks.old)) (T.capacity tasks.old) request pass.old.view (T.entries tasks.old)
        pass.new.view (T.entries tasks.new) progress.new.failures found.outcome) }
    ensures next { IfOk result (λ found. (request : Request) → request.search ≡ Ok search →
        IsBehind (T.index tasks.old) request found.outcome progress.new.failures found.next) }
    ensures stops { IfErr result (λ stop. IfRefused stop (λ t. (request : Request) → request.search ≡ Ok search →
        StopsSearching settings.now (index_of (T.index tasks.old)) (T.capacity tasks.old) request pass.old.view (T.entries tasks.old)
        pass.new.view (T.entries tasks.new) progress.new.failures t)) }
{
    if is_too_wide(alloc, tasks.index(), &search)? {
        return Ok(Found::without_page(Outcome::Refused(Refused::TooWide)));
    }
    let size = settings.batch as usize;
    let whole = reduce_search(alloc, words, pass, tasks, &search, size, progress)?;
    Ok(outcome_of(
        alloc,
        tasks.index(),
        search,
        settings.max_buckets,
        &progress.failures,
        whole,
    )?)
}

/// Why a body is no search; want of memory says nothing of it.
fn refusal_of(fault: RequestFault) -> Result<Refused, Stop>
    ensures refused { IfOk result (λ refused. refused ≡ refusal_of_fault fault) }
    ensures memory { IfErr result (λ stop. IfRefused stop (λ t. ⊥)) }
    ensures told { OnOk result (IsTold fault) }
{
    match fault {
        RequestFault::NotJson => Ok(Refused::NotJson),
        RequestFault::Bad { code, path } => Ok(Refused::Bad { code, path }),
        RequestFault::Memory => Err(Stop::Memory),
    }
}

/// Reads the body, and runs its search.
fn search_body<T: Tasks>(
    alloc: Global,
    words: &Words,
    pass: &mut Pass,
    tasks: &mut T,
    body: &Bytes,
    settings: &Settings,
    progress: &mut Progress,
) -> Result<Found, Stop>
    requires alone { IsAlone words.now pass.old }
    requires limits { words.now.limits ≡ settings.now.limits }
    requires some { 1 ≤ settings.now.batch }
    requires few { settings.now.batch ≤ MAX_BATCH }
    requires batch { progress.old.batch ≡ [] }
    requires results { progress.old.results ≡ [] }
    requires failures { progress.old.failures ≡ [] }
    requires free { hold_of pass.old.view which.Request ≡ 0 }
    ensures alone { IsAlone words.now pass.new }
    ensures index { T.index tasks.new ≡ T.index tasks.old }
    ensures capacity { T.capacity tasks.new ≡ T.capacity tasks.old }
    ensures fielddata { hold_of pass.new.view which.Fielddata ≡ hold_of pass.old.view which.Fielddata }
    ensures searches { IfOk result (λ found. Searches settings.now (index_of (T.index tasks.old)) (T.capacity tasks.old)
        (request_of (index_of (T.index tasks.old)) body.now) pass.old.view (T.entries tasks.old)
        pass.new.view (T.entries tasks.new) progress.new.failures found.outcome) }
    ensures next { IfOk result (λ found. IsBehind (T.index tasks.old) (request_of (index_of (T.index tasks.old)) body.now) found.outcome
        progress.new.failures found.next) }
    ensures stops { IfErr result (λ stop. IfRefused stop (StopsSearching settings.now (index_of (T.index tasks.old)) (T.capacity tasks.old)
        (request_of (index_of (T.index tasks.old)) body.now) pass.old.view (T.entries tasks.old)
        pass.new.view (T.entries tasks.new) progress.new.failures)) }
{
    match search_of(alloc, body.as_slice(), &tasks.index().mapping) {
        Ok(search) => run_search(alloc, words, pass, tasks, search, settings, progress),
        Err(fault) => Ok(Found::without_page(Outcome::Refused(refusal_of(fault)?))),
    }
}

/// Runs the search of a page, which is read from the body where it was not read before.
fn search_page<T: Tasks>(
    alloc: Global,
    words: &Words,
    pass: &mut Pass,
    tasks: &mut T,
    body: &Bytes,
    search: Option<Search>,
    settings: &Settings,
    progress: &mut Progress,
) -> Result<Found, Stop>
    requires alone { IsAlone words.now pass.old }
    requires limits { words.now.limits ≡ settings.now.limits }
    requires some { 1 ≤ settings.now.batch }
    requires few { settings.now.batch ≤ MAX_BATCH }
    requires made { IfSome search (λ search. IsTrue (search_fits (T.index tasks.old).mapping search)) }
    requires batch { progress.old.batch ≡ [] }
    requires results { progress.old.results ≡ [] }
    requires failures { progress.old.failures ≡ [] }
    requires free { hold_of pass.old.view which.Request ≡ 0 }
    ensures alone { IsAlone words.now pass.new }
    ensures index { T.index tasks.new ≡ T.index tasks.old }
    ensures capacity { T.capacity tasks.new ≡ T.capacity tasks.old }
    ensures fielddata { hold_of pass.new.view which.Fielddata ≡ hold_of pass.old.view which.Fielddata }
    ensures searches { IfOk result (λ found. Searches settings.now (index_of (T.index tasks.old)) (T.capacity tasks.old)
        (request_at (index_of (T.index tasks.old)) body.now search) pass.old.view (T.entries tasks.old)
        pass.new.view (T.entries tasks.new) progress.new.failures found.outcome) }
    ensures next { IfOk result (λ found. IsBehind (T.index tasks.old) (request_at (index_of (T.index tasks.old)) body.now search) found.outcome
        progress.new.failures found.next) }
    ensures stops { IfErr result (λ stop. IfRefused stop (StopsSearching settings.now (index_of (T.index tasks.old)) (T.capacity tasks.old)
        (request_at (index_of (T.index tasks.old)) body.now search) pass.old.view (T.entries tasks.old)
        pass.new.view (T.entries tasks.new) progress.new.failures)) }
{
    match search {
        Some(search) => run_search(alloc, words, pass, tasks, search, settings, progress),
        None => search_body(alloc, words, pass, tasks, body, settings, progress),
    }
}

/// Runs the search of a page, with the charges of the body and of the response.
fn solve<T: Tasks>(
    alloc: Global,
    words: &Words,
    pass: &mut Pass,
    tasks: &mut T,
    body: &Bytes,
    search: Option<Search>,
    settings: &Settings,
    progress: &mut Progress,
) -> Result<Found, Stop>
    requires alone { IsAlone words.now pass.old }
    requires limits { words.now.limits ≡ settings.now.limits }
    requires some { 1 ≤ settings.now.batch }
    requires few { settings.now.batch ≤ MAX_BATCH }
    requires line { length body.now ≤ MAX_LINE }
    requires made { IfSome search (λ search. IsTrue (search_fits (T.index tasks.old).mapping search)) }
    requires batch { progress.old.batch ≡ [] }
    requires results { progress.old.results ≡ [] }
    requires failures { progress.old.failures ≡ [] }
    requires free { hold_of pass.old.view which.Request ≡ 0 }
    ensures alone { IsAlone words.now pass.new }
    ensures index { T.index tasks.new ≡ T.index tasks.old }
    ensures capacity { T.capacity tasks.new ≡ T.capacity tasks.old }
    ensures fielddata { hold_of pass.new.view which.Fielddata ≡ hold_of pass.old.view which.Fielddata }
    ensures solves { IfOk result (λ found. Solves settings.now (index_of (T.index tasks.old)) (T.capacity tasks.old)
        (request_at (index_of (T.index tasks.old)) body.now search) pass.old.view (T.entries tasks.old)
        pass.new.view (T.entries tasks.new) progress.new.failures found.outcome) }
    ensures next { IfOk result (λ found. IsBehind (T.index tasks.old) (request_at (index_of (T.index tasks.old)) body.now search) found.outcome
        progress.new.failures found.next) }
    ensures stops { IfErr result (λ stop. IfRefused stop (StopsSolving settings.now (index_of (T.index tasks.old)) (T.capacity tasks.old)
        (request_at (index_of (T.index tasks.old)) body.now search) pass.old.view (T.entries tasks.old)
        pass.new.view (T.entries tasks.new) progress.new.failures)) }
{
    charge(words, pass, Child::Inflight, 2 * body.len() as u64)?;
    let found = search_page(alloc, words, pass, tasks, body, search, settings, progress)?;
    charge_response(words, pass, &found.outcome)?;
    Ok(found)
}

/// A page as it was answered, and the search of the page behind it.
#[derive(Drop)]
pub struct Page {
    pub answered: Answered,
    pub next: Option<Search>,
}

/// What the end of a search is told as.
fn page_at(end: Result<Found, Stop>, failures: List<Failure>) -> Page
    ensures outcome { result.answered.outcome ≡ told_as end }
    ensures failures { result.answered.failures ≡ failures }
    ensures next { result.next ≡ next_as end }
{
    let Found { outcome, next } = match end {
        Ok(found) => found,
        Err(Stop::Refused(tripped)) => Found::without_page(Outcome::Tripped(tripped)),
        Err(Stop::Memory) => Found::without_page(Outcome::Memory),
    };
    Page {
        answered: Answered { outcome, failures },
        next,
    }
}

/// Answers one page of a search by one worker, with all its charges. Its search is read from the body where it was not read
/// before; either way the body is charged. At its end all that it holds is given back.
pub(crate) fn answer_page<T: Tasks>(
    alloc: Global,
    words: &Words,
    pass: &mut Pass,
    tasks: &mut T,
    body: &Bytes,
    search: Option<Search>,
    settings: &Settings,
) -> Page
    requires alone { IsAlone words.now pass.old }
    requires limits { words.now.limits ≡ settings.now.limits }
    requires some { 1 ≤ settings.now.batch }
    requires few { settings.now.batch ≤ MAX_BATCH }
    requires line { length body.now ≤ MAX_LINE }
    requires made { IfSome search (λ search. IsTrue (search_fits (T.index tasks.old).mapping search)) }
    requires request { hold_of pass.old.view which.Request ≡ 0 }
    requires inflight { hold_of pass.old.view which.Inflight ≡ 0 }
    ensures alone { IsAlone words.now pass.new }
    ensures index { T.index tasks.new ≡ T.index tasks.old }
    ensures capacity { T.capacity tasks.new ≡ T.capacity tasks.old }
    ensures holds { (x : AnyWhich) → hold_of pass.new.view x ≡ hold_of pass.old.view x }
    ensures answer { AnswersCached settings.now (index_of (T.index tasks.old)) (T.capacity tasks.old)
        (request_at (index_of (T.index tasks.old)) body.now search) pass.old.view (T.entries tasks.old)
        pass.new.view (T.entries tasks.new) result.answered }
    ensures next { IsBehind (T.index tasks.old) (request_at (index_of (T.index tasks.old)) body.now search) result.answered.outcome
        result.answered.failures result.next }
{
    // What it holds at the parent is the sum of what it holds at the children.
    let _cap = pass.cap();
    let mut progress = Progress::new(alloc);
    let end = solve(
        alloc,
        words,
        pass,
        tasks,
        body,
        search,
        settings,
        &mut progress,
    );
    give_all_back(words, pass);
    page_at(end, progress.failures)
}

/// Answers one search by one worker, with all its charges: those of its body, of its tasks shard by shard with each batch
/// merged as soon as it is full, of the merge of the batches, and of its response. The first refused charge ends it; where
/// it allows partial results, a task's refused charge leaves its shard out. At its end all that it holds is given back.
///
/// The pass is alone at the breakers, and holds nothing but the columns. Want of memory may end the search anywhere.
pub fn search_solo(
    alloc: Global,
    words: &Words,
    pass: &mut Pass,
    index: &Index,
    body: &Bytes,
    settings: &Settings,
) -> Answered
    requires alone { IsAlone words.now pass.old }
    requires limits { words.now.limits ≡ settings.now.limits }
    requires some { 1 ≤ settings.now.batch }
    requires few { settings.now.batch ≤ MAX_BATCH }
    requires line { length body.now ≤ MAX_LINE }
    requires request { hold_of pass.old.view which.Request ≡ 0 }
    requires inflight { hold_of pass.old.view which.Inflight ≡ 0 }
    ensures alone { IsAlone words.now pass.new }
    ensures holds { (x : AnyWhich) → hold_of pass.new.view x ≡ hold_of pass.old.view x }
    ensures answer { AnswersAlone settings.now (index_of index.now) (request_of (index_of index.now) body.now)
        pass.old.view pass.new.view result }
{
    let mut shards = Shards { index };
    let page = answer_page(alloc, words, pass, &mut shards, body, None, settings);
    page.answered
}

/// Answers one search by one worker as `search_solo` does, but that an answer of a shard that was kept is charged by its cost alone,
/// and that each answer of a shard is kept.
///
/// The pass is alone at the breakers, and holds nothing but the columns. Want of memory may end the search anywhere; then nothing is
/// said of the entries, but that each is an answer.
pub fn search_cached(
    alloc: Global,
    words: &Words,
    pass: &mut Pass,
    cache: &mut Cache<'_>,
    body: &Bytes,
    settings: &Settings,
) -> Answered
    requires alone { IsAlone words.now pass.old }
    requires limits { words.now.limits ≡ settings.now.limits }
    requires some { 1 ≤ settings.now.batch }
    requires few { settings.now.batch ≤ MAX_BATCH }
    requires line { length body.now ≤ MAX_LINE }
    requires request { hold_of pass.old.view which.Request ≡ 0 }
    requires inflight { hold_of pass.old.view which.Inflight ≡ 0 }
    ensures alone { IsAlone words.now pass.new }
    ensures holds { (x : AnyWhich) → hold_of pass.new.view x ≡ hold_of pass.old.view x }
    ensures answer { AnswersCached settings.now (index_of cache.old.index.now) cache.old.entries.cap
        (request_of (index_of cache.old.index.now) body.now) pass.old.view (entries_in cache.old.entries)
        pass.new.view (entries_in cache.new.entries) result }
    ensures index { cache.new.index.now ≡ cache.old.index.now }
    ensures capacity { cache.new.entries.cap ≡ cache.old.entries.cap }
{
    let page = answer_page(alloc, words, pass, cache, body, None, settings);
    page.answered
}
