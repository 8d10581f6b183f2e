//! The answers to all that bodies asked for.
ghost use Rattle.std.specs.Prelude.{◌≡◌, ◌≤◌, ℕ, [], ◌∷◌, IfOk, List as Items, Option, length, map};
ghost use Rattle.std.specs.List.{AllByRecursion};
ghost use Rattle.agg_model.specs.declared.breaker.Which.TheVariants as which;
ghost use Rattle.agg_model.specs.declared.breaker.Tripped.{Tripped};
ghost use Rattle.agg_search.specs.Defined.{CanRun};
ghost use Rattle.agg_spec.specs.Charges.{Amounts};
ghost use Rattle.agg_spec.specs.Outcome.{Request};
ghost use Rattle.breaker_words.specs.Views.{hold_of};
ghost use Rattle.fitting_laws.specs.Indexes.{index_of};
ghost use Rattle.shard_pool.specs.Ends.{cost_of_ends};
ghost use Rattle.solo_charges.specs.Alone.{IsAlone};
ghost use Rattle.wave_answers.specs.Ended.{AreAnswers, AreBehind, AreEndsOf, runs_asked};
ghost use Rattle.wave_answers.specs.Next.{IsNext};
ghost use Rattle.wave_answers.specs.Rising.{HasRisen};
ghost use Rattle.wave_bodies.specs.Asking.{AreAsked};

use crate::ending::{answer_end, last_page};
use agg_model::{List, Outcome, Search, Which};
use agg_search::Page;
use breaker_words::{Pass, Words, look};
use shard_columns::Index;
use shard_pool::SearchEnd;
use std::alloc::{AllocError, Global};
use std::collections::VecDeque;
use wave_bodies::Asked;

/// Answers what the next body asks for. Where it asks for a search that runs, that is the first of the searches that are left, and its end
/// the first of the ends; both are taken.
fn answer_next(
    alloc: Global,
    words: &Words,
    pass: &mut Pass,
    index: &Index,
    asks: Asked,
    searches: &mut VecDeque<Search>,
    ends: &mut VecDeque<SearchEnd>,
    max_buckets: u64,
) -> Result<Page, AllocError>
    requires alone { IsAlone words.now pass.old }
    requires searches { AllByRecursion (CanRun index.now) searches.old.items }
    requires ends { AreEndsOf (index_of index.now) searches.old.items ends.old.items }
    requires some { runs_asked (asks ∷ []) ≤ length searches.old.items }
    requires held { cost_of_ends ends.old.items ≤ hold_of pass.old.view which.Request }
    ensures alone { IsAlone words.now pass.new }
    ensures fielddata { hold_of pass.new.view which.Fielddata ≡ hold_of pass.old.view which.Fielddata }
    ensures inflight { hold_of pass.new.view which.Inflight ≡ hold_of pass.old.view which.Inflight }
    ensures next { IfOk result (λ page. IsNext words.now.limits index.now max_buckets pass.old.view asks searches.old.items
        ends.old.items page pass.new.view searches.new.items ends.new.items) }
{
    match asks {
        Asked::Tripped(tripped) => Ok(last_page(Outcome::Tripped(tripped), List::new(alloc))),
        Asked::Refused(refused) => Ok(last_page(Outcome::Refused(refused), List::new(alloc))),
        Asked::Runs => {
            let Some(search) = searches.pop_front() else {
                unreachable!()
            };
            let Some(end) = ends.pop_front() else {
                unreachable!()
            };
            answer_end(alloc, words, pass, index, search, end, max_buckets)
        }
    }
}

/// Answers all that bodies asked for, in their order. Of each search whose tasks have ended, the results of its batches are merged,
/// the answer is finished and its line is charged; then all that was held for the search is given back, and the next one follows.
///
/// The pass is alone at the breakers, and holds at request what the parts of the ends cost. `max_buckets` is the most buckets of an
/// answer. It fails only where memory is wanting, here or in a search's tasks.
pub fn answer_all(
    alloc: Global,
    words: &Words,
    pass: &mut Pass,
    index: &Index,
    asked: List<Asked>,
    searches: List<Search>,
    ends: List<SearchEnd>,
    max_buckets: u64,
) -> Result<List<Page>, AllocError>
    requires alone { IsAlone words.now pass.old }
    requires searches { AllByRecursion (CanRun index.now) searches }
    requires ends { AreEndsOf (index_of index.now) searches ends }
    // Each search that runs is asked for.
    requires asked { runs_asked asked ≡ length searches }
    requires held { cost_of_ends ends ≤ hold_of pass.old.view which.Request }
    ensures alone { IsAlone words.now pass.new }
    ensures fielddata { hold_of pass.new.view which.Fielddata ≡ hold_of pass.old.view which.Fielddata }
    ensures inflight { hold_of pass.new.view which.Inflight ≡ hold_of pass.old.view which.Inflight }
    ensures answers { IfOk result (λ pages. (charged : ℕ) × (trips : Amounts)
        × AreAnswers words.now.limits (index_of index.now) max_buckets pass.old.view asked searches ends (map (λ p. p.answered) pages) charged trips
        × HasRisen charged trips pass.old.view pass.new.view) }
    // What follows each page, whatever body asked for its search.
    ensures next { IfOk result (λ pages. (requests : Items Request) (refusals : Items (Option Tripped)) →
        AreAsked (index_of index.now) requests refusals asked searches → AreBehind index.now requests pages) }
{
    let mut searches = VecDeque::from_vec(searches.into_vec());
    let mut ends = VecDeque::from_vec(ends.into_vec());
    let mut pages = List::new(alloc);
    for asks in asked.into_vec() {
        let page = answer_next(
            alloc,
            words,
            pass,
            index,
            asks,
            &mut searches,
            &mut ends,
            max_buckets,
        )?;
        pages.push(page)?;
    }
    // A look tells that no counter is above where it stops.
    look(words, pass, Which::Parent);
    Ok(pages)
}
