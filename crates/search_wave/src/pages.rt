//! The pages of a search.
ghost use Rattle.std.specs.Prelude.{◌≡◌, ◌≤◌, ◌∷◌, ℕ, [], All, IfOk, IfSome, IsTrue, List as Items, length};
ghost use Rattle.agg_evaluation.specs.SearchFits.{search_fits};
ghost use Rattle.agg_model.specs.declared.breaker.Which.{Which as AnyWhich};
ghost use Rattle.agg_model.specs.declared.breaker.Which.TheVariants as which;
ghost use Rattle.agg_model.specs.declared.limits.TheConstants.{MAX_AT_ONCE, MAX_LINE};
ghost use Rattle.agg_search.specs.Paging.{request_at};
ghost use Rattle.agg_spec.specs.Requests.{request_of};
ghost use Rattle.breaker_words.specs.Views.{hold_of};
ghost use Rattle.fitting_laws.specs.Indexes.{index_of};
ghost use Rattle.search_wave.specs.Pages.{ArePageAnswers, IsPage};
ghost use Rattle.solo_charges.specs.Alone.{IsAlone};

use crate::wave::answer_wave;
use agg_model::{Answered, Bytes, List, Search, Settings};
use breaker_words::{Pass, Words};
use pool_worker::Gate;
use shard_columns::Index;
use std::alloc::{AllocError, Global};
use std::thread::Threads;
use wave_answers::Page;

// One page of the one body, as a wave of its own. Where its search was read before, it is `read`.
fn answer_page<R: Threads + Sync, G: Gate>(
    rt: &R,
    alloc: Global,
    words: &Words,
    pass: &mut Pass,
    index: &Index,
    bodies: &List<Bytes>,
    read: Option<Search>,
    settings: &Settings,
    gate: &G,
) -> Result<Page, AllocError>
    requires alone { IsAlone words.now pass.old }
    requires limits { words.now.limits ≡ settings.now.limits }
    requires some { 1 ≤ settings.now.workers }
    requires at_once { settings.now.workers ≤ MAX_AT_ONCE }
    requires size { 2 ≤ settings.now.batch }
    requires one { length bodies.now ≡ 1 }
    requires lines { All (λ body. length body ≤ MAX_LINE) bodies.now }
    requires made { IfSome read (λ search. IsTrue (search_fits index.now.mapping search)) }
    requires request { hold_of pass.old.view which.Request ≡ 0 }
    requires inflight { hold_of pass.old.view which.Inflight ≡ 0 }
    ensures alone { IsAlone words.now pass.new }
    ensures holds { (x : AnyWhich) → hold_of pass.new.view x ≡ hold_of pass.old.view x }
    ensures page { IfOk result (λ page. (body : Items ℕ) → bodies.now ≡ body ∷ [] →
        IsPage settings.now index.now (request_at (index_of index.now) body read) pass.old.view pass.new.view page) }
{
    let pages = answer_wave(rt, alloc, words, pass, index, bodies, read, settings, gate)?;
    // A wave of one body has one page.
    let Some(page) = pages.into_vec().pop() else {
        unreachable!()
    };
    Ok(page)
}

/// Answers a search page by page, each page as a wave of its own that charges the body anew. Where the only aggregation at the top is
/// a composite, a page follows each response whose composite has a bucket, and goes on after the last one's key; any other
/// search has one answer. The body is read once.
///
/// The pass is alone at the breakers, and holds nothing but the columns; it does so again at the end, whatever the answer. 1 to
/// `MAX_AT_ONCE` workers, batches of 2 or more, and a body of up to `MAX_LINE` bytes. It fails only where memory is wanting.
pub fn search_pages<R: Threads + Sync, G: Gate>(
    rt: &R,
    alloc: Global,
    words: &Words,
    pass: &mut Pass,
    index: &Index,
    body: &Bytes,
    settings: &Settings,
    gate: &G,
) -> Result<List<Answered>, AllocError>
    requires alone { IsAlone words.now pass.old }
    requires limits { words.now.limits ≡ settings.now.limits }
    requires some { 1 ≤ settings.now.workers }
    requires at_once { settings.now.workers ≤ MAX_AT_ONCE }
    requires size { 2 ≤ settings.now.batch }
    requires line { length body.now ≤ MAX_LINE }
    requires request { hold_of pass.old.view which.Request ≡ 0 }
    requires inflight { hold_of pass.old.view which.Inflight ≡ 0 }
    ensures alone { IsAlone words.now pass.new }
    ensures holds { (x : AnyWhich) → hold_of pass.new.view x ≡ hold_of pass.old.view x }
    ensures answers { IfOk result (ArePageAnswers settings.now (index_of index.now) (hold_of pass.old.view which.Fielddata)
        (request_of (index_of index.now) body.now) pass.old.view pass.new.view) }
{
    let mut bodies = List::new(alloc);
    bodies.push(Bytes::of(alloc, body.as_slice())?)?;
    let mut answers = Vec::new(alloc);
    let mut read = None;
    loop {
        let page = answer_page(rt, alloc, words, pass, index, &bodies, read, settings, gate)?;
        answers.push(page.answered)?;
        match page.next {
            Some(next) => read = Some(next),
            None => return Ok(List::from_vec(answers)),
        }
    }
}
