//! A wave of searches.
ghost use Rattle.std.specs.Prelude.{◌≡◌, ◌≤◌, All, IfOk, IfSome, IsTrue, length, map};
ghost use Rattle.agg_evaluation.specs.SearchFits.{search_fits};
ghost use Rattle.agg_model.specs.declared.breaker.Which.{Which as AnyWhich};
ghost use Rattle.agg_model.specs.declared.breaker.Which.TheVariants as which;
ghost use Rattle.agg_model.specs.declared.limits.TheConstants.{MAX_AT_ONCE, MAX_LINE};
ghost use Rattle.agg_spec.specs.Requests.{request_of};
ghost use Rattle.breaker_words.specs.Views.{hold_of};
ghost use Rattle.fitting_laws.specs.Indexes.{index_of};
ghost use Rattle.solo_charges.specs.Alone.{IsAlone};
ghost use Rattle.wave_answers.specs.Ended.{AreBehind};
ghost use Rattle.search_wave.specs.Waves.{IsWave};
ghost use Rattle.wave_bodies.specs.Asking.{requests_from};

use agg_model::{Answered, Bytes, List, Search, Settings, Which};
use breaker_words::{Pass, Words, look};
use pool_worker::Gate;
use shard_columns::Index;
use shard_pool::run_pool;
use solo_charges::{give_all_back, make_room};
use std::alloc::{AllocError, Global};
use std::thread::Threads;
use wave_answers::{Page, answer_all};
use wave_bodies::{Reading, charge_bodies, read_bodies};

// The answers of a wave for whose bodies the pass still holds what they were charged.
fn answer_held<R: Threads + Sync, G: Gate>(
    rt: &R,
    alloc: Global,
    words: &Words,
    pass: &mut Pass,
    index: &Index,
    bodies: &List<Bytes>,
    page: Option<Search>,
    settings: &Settings,
    gate: &G,
) -> Result<List<Page>, AllocError>
    requires alone { IsAlone words.now pass.old }
    requires limits { words.now.limits ≡ settings.now.limits }
    requires some { 1 ≤ settings.now.workers }
    requires at_once { settings.now.workers ≤ MAX_AT_ONCE }
    requires size { 2 ≤ settings.now.batch }
    requires few { length bodies.now ≤ MAX_AT_ONCE }
    requires lines { All (λ body. length body ≤ MAX_LINE) bodies.now }
    requires made { IfSome page (λ search. IsTrue (search_fits index.now.mapping search)) }
    requires request { hold_of pass.old.view which.Request ≡ 0 }
    requires inflight { hold_of pass.old.view which.Inflight ≡ 0 }
    ensures alone { IsAlone words.now pass.new }
    ensures fielddata { hold_of pass.new.view which.Fielddata ≡ hold_of pass.old.view which.Fielddata }
    ensures wave { IfOk result (λ pages. IsWave settings.now (index_of index.now) (requests_from (index_of index.now) page bodies.now)
        pass.old.view pass.new.view (map (λ p. p.answered) pages)) }
    ensures behind { IfOk result (AreBehind index.now (requests_from (index_of index.now) page bodies.now)) }
{
    // A look tells that no counter is above where it stops.
    look(words, pass, Which::Parent);
    let refusals = charge_bodies(alloc, words, pass, bodies)?;
    let Reading {
        asked,
        searches,
        rooms,
    } = read_bodies(rt, alloc, index, bodies, &refusals, page)?;
    // What it holds at the parent is the sum of what it holds at the children.
    let _cap = pass.cap();
    make_room(words, pass);
    look(words, pass, Which::Parent);
    let ends = run_pool(
        rt,
        alloc,
        words,
        pass,
        index,
        &searches,
        &rooms,
        settings.workers,
        settings.batch,
        gate,
    )?;
    look(words, pass, Which::Parent);
    answer_all(
        alloc,
        words,
        pass,
        index,
        asked,
        searches,
        ends,
        settings.max_buckets,
    )
}

/// Answers bodies side by side, and gives back all that was held for them. Where the search of the first was read before, it is `page`.
pub(crate) fn answer_wave<R: Threads + Sync, G: Gate>(
    rt: &R,
    alloc: Global,
    words: &Words,
    pass: &mut Pass,
    index: &Index,
    bodies: &List<Bytes>,
    page: Option<Search>,
    settings: &Settings,
    gate: &G,
) -> Result<List<Page>, AllocError>
    requires alone { IsAlone words.now pass.old }
    requires limits { words.now.limits ≡ settings.now.limits }
    requires some { 1 ≤ settings.now.workers }
    requires at_once { settings.now.workers ≤ MAX_AT_ONCE }
    requires size { 2 ≤ settings.now.batch }
    requires few { length bodies.now ≤ MAX_AT_ONCE }
    requires lines { All (λ body. length body ≤ MAX_LINE) bodies.now }
    requires made { IfSome page (λ search. IsTrue (search_fits index.now.mapping search)) }
    requires request { hold_of pass.old.view which.Request ≡ 0 }
    requires inflight { hold_of pass.old.view which.Inflight ≡ 0 }
    ensures alone { IsAlone words.now pass.new }
    ensures holds { (x : AnyWhich) → hold_of pass.new.view x ≡ hold_of pass.old.view x }
    ensures wave { IfOk result (λ pages. IsWave settings.now (index_of index.now) (requests_from (index_of index.now) page bodies.now)
        pass.old.view pass.new.view (map (λ p. p.answered) pages)) }
    ensures behind { IfOk result (AreBehind index.now (requests_from (index_of index.now) page bodies.now)) }
{
    // What it holds at the parent is the sum of what it holds at the children.
    let _cap = pass.cap();
    let pages = answer_held(rt, alloc, words, pass, index, bodies, page, settings, gate);
    give_all_back(words, pass);
    pages
}

// The answers of pages.
fn answers_of(alloc: Global, pages: List<Page>) -> Result<List<Answered>, AllocError>
    ensures { IfOk result (λ answers. answers ≡ map (λ p. p.answered) pages) }
{
    let mut answers = Vec::with_capacity(alloc, pages.len())?;
    for page in pages.into_vec() {
        answers.push(page.answered)?;
    }
    Ok(List::from_vec(answers))
}

/// Answers some searches side by side by the workers of the settings, one answer for each body in their order.
///
/// All bodies are charged before the first is read. The tasks of all searches run in one pool; then each search is answered in its
/// turn: its results are merged, its response is charged, and what is held for it is given back. At the end all that the pass
/// holds beside the columns is given back, whatever the answer. It fails only where memory is wanting.
///
/// The pass is alone at the breakers, and holds nothing but the columns. 1 to `MAX_AT_ONCE` workers, batches of 2 or more, and up to
/// `MAX_AT_ONCE` bodies of up to `MAX_LINE` bytes each.
pub fn search_wave<R: Threads + Sync, G: Gate>(
    rt: &R,
    alloc: Global,
    words: &Words,
    pass: &mut Pass,
    index: &Index,
    bodies: &List<Bytes>,
    settings: &Settings,
    gate: &G,
) -> Result<List<Answered>, AllocError>
    requires alone { IsAlone words.now pass.old }
    requires limits { words.now.limits ≡ settings.now.limits }
    requires some { 1 ≤ settings.now.workers }
    requires at_once { settings.now.workers ≤ MAX_AT_ONCE }
    requires size { 2 ≤ settings.now.batch }
    requires few { length bodies.now ≤ MAX_AT_ONCE }
    requires lines { All (λ body. length body ≤ MAX_LINE) bodies.now }
    requires request { hold_of pass.old.view which.Request ≡ 0 }
    requires inflight { hold_of pass.old.view which.Inflight ≡ 0 }
    ensures alone { IsAlone words.now pass.new }
    ensures holds { (x : AnyWhich) → hold_of pass.new.view x ≡ hold_of pass.old.view x }
    // What may be answered, whichever worker came first, and what that makes of the totals.
    ensures answers { IfOk result (IsWave settings.now (index_of index.now) (map (request_of (index_of index.now)) bodies.now)
        pass.old.view pass.new.view) }
{
    let pages = answer_wave(rt, alloc, words, pass, index, bodies, None, settings, gate)?;
    answers_of(alloc, pages)
}
