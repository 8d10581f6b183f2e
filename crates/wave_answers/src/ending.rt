//! The answer to one search whose tasks have ended.
ghost use Rattle.std.specs.Prelude.{◌≡◌, ◌≢◌, ◌≤◌, ◌<◌, ◌+◌, ◌-◌, ◌^◌, ℕ, [], IfErr, IfOk, IfSome, List as Items, None, Ok, OnErr, OnOk, Some, is_some, length, map, true};
ghost use Rattle.agg_evaluation.specs.Cost.{cost as cost_of};
ghost use Rattle.agg_model.specs.declared.breaker.Child.TheVariants as child;
ghost use Rattle.agg_model.specs.declared.breaker.Which.TheVariants as which;
ghost use Rattle.agg_model.specs.declared.outcome.Outcome.TheVariants as ended;
ghost use Rattle.agg_search.specs.Defined.{CanRun};
ghost use Rattle.agg_search.specs.Paging.{IsBehind};
ghost use Rattle.agg_spec.specs.Charges.{Amounts, no_amounts};
ghost use Rattle.agg_spec.specs.Failures.{AreFailures, unfailed};
ghost use Rattle.agg_spec.specs.Outcome.{Request, outcome_of_shards, response_length, whole_of};
ghost use Rattle.agg_spec.specs.Rises.{merge_charge};
ghost use Rattle.batch_reduce.specs.Parts.{cost_of_parts};
ghost use Rattle.breaker_tree.specs.Charge.{IsGivenBack};
ghost use Rattle.breaker_words.specs.Views.{hold_of};
ghost use Rattle.fitting_laws.specs.Indexes.{index_of};
ghost use Rattle.solo_charges.specs.Alone.{IsAlone};
ghost use Rattle.wave_answers.specs.Charging.{IsRefusedCharge};
ghost use Rattle.wave_answers.specs.Ended.{IsAnswer, IsEnd};
ghost use Rattle.wave_answers.specs.Merged.{AreWholes, HasPlaceBeside};
ghost use Rattle.wave_answers.specs.Rising.{HasRisen};

use crate::charging::charge_response;
use crate::merging::merge_parts;
use agg_model::{Answered, Child, Failure, List, Outcome, Partial, Search, Tripped, Which};
use agg_search::{Found, Page, outcome_of};
use breaker_tree::give_back;
use breaker_words::{Pass, Words, look};
use partial_result::cost;
use shard_columns::Index;
use shard_pool::SearchEnd;
use std::alloc::{AllocError, Global};

/// What the parts cost together, in bytes.
fn cost_of_all(parts: &List<Partial>) -> u64
    requires fits { cost_of_parts parts.now < 2 ^ 64 }
    ensures { result ≡ cost_of_parts parts.now }
{
    let mut total = 0;
    for part in parts.as_slice() {
        total += cost(part);
    }
    total
}

/// Gives back what the pass holds at request above `wanted`.
fn lower_to(words: &Words, pass: &mut Pass, wanted: u64)
    requires alone { IsAlone words.now pass.old }
    requires held { wanted ≤ hold_of pass.old.view which.Request }
    ensures alone { IsAlone words.now pass.new }
    ensures given { IsGivenBack pass.old.view child.Request (hold_of pass.old.view which.Request - wanted) pass.new.view }
{
    let held = pass.hold(Which::Request);
    give_back(words, pass, Child::Request, held - wanted);
}

/// The refusal that ended a search; none where no shard is left, so that the first failure tells the same.
fn refusal_left(
    index: &Index,
    refused: Option<Tripped>,
    failures: &List<Failure>,
) -> Option<Tripped>
    requires failures { AreFailures (length index.now.shards) failures.now }
    ensures some { IfSome result (λ t. refused ≡ Some t) }
    ensures left { IfSome result (λ t. unfailed (index_of index.now) failures.now ≢ []) }
    ensures passed_over { result ≡ None → is_some refused ≡ true → unfailed (index_of index.now) failures.now ≡ [] }
{
    if failures.len() < index.shards.len() {
        refused
    } else {
        None
    }
}

/// A page behind which there is none.
pub(crate) fn last_page(outcome: Outcome, failures: List<Failure>) -> Page
    ensures { result ≡ record { answered = record { outcome = outcome; failures = failures }; next = None } }
{
    Page {
        answered: Answered { outcome, failures },
        next: None,
    }
}

/// Answers a search by the whole reduction of the shards that are left: merges the parts, which are results of batches, and charges
/// the response. Tells the refusal where a breaker refused. It fails only where memory is wanting.
fn answer_left(
    alloc: Global,
    words: &Words,
    pass: &mut Pass,
    index: &Index,
    search: Search,
    parts: List<Partial>,
    failures: &List<Failure>,
    max_buckets: u64,
) -> Result<Result<Found, Tripped>, AllocError>
    requires alone { IsAlone words.now pass.old }
    requires search { CanRun index.now search }
    requires failures { AreFailures (length index.now.shards) failures.now }
    requires parts { AreWholes (index_of index.now) search (unfailed (index_of index.now) failures.now) parts }
    requires held { cost_of_parts parts ≤ hold_of pass.old.view which.Request }
    ensures alone { IsAlone words.now pass.new }
    ensures fielddata { hold_of pass.new.view which.Fielddata ≡ hold_of pass.old.view which.Fielddata }
    ensures inflight { hold_of pass.new.view which.Inflight ≡ hold_of pass.old.view which.Inflight }
    ensures kept { IfOk result (λ end. hold_of pass.old.view which.Request ≤ hold_of pass.new.view which.Request + cost_of_parts parts) }
    ensures outcome { IfOk result (λ end. IfOk end (λ found. found.outcome
        ≡ outcome_of_shards (index_of index.now) max_buckets search failures.now (unfailed (index_of index.now) failures.now))) }
    ensures next { IfOk result (λ end. IfOk end (λ found. (request : Request) → request.search ≡ Ok search →
        IsBehind index.now request found.outcome failures.now found.next)) }
    ensures place { IfOk result (λ end. IfOk end (λ found. (line : Items ℕ) → found.outcome ≡ ended.Response line →
        HasPlaceBeside words.now.limits pass.old.view
        (cost_of (whole_of (index_of index.now) search (unfailed (index_of index.now) failures.now))) (length line))) }
    ensures risen { IfOk result (λ end. IfOk end (λ found.
        HasRisen (merge_charge (map cost_of parts) + response_length found.outcome) no_amounts pass.old.view pass.new.view)) }
    ensures refused { IfOk result (λ end. IfErr end (λ t. (granted : ℕ) × IsRefusedCharge words.now.limits pass.old.view
        (cost_of_parts parts + response_length (outcome_of_shards (index_of index.now) max_buckets search failures.now
        (unfailed (index_of index.now) failures.now))) granted t pass.new.view)) }
    ensures left { IfOk result (λ end. OnErr end (unfailed (index_of index.now) failures.now ≢ [])) }
{
    let merged = merge_parts(alloc, words, pass, parts)?;
    let whole = match merged {
        Ok(whole) => whole,
        Err(tripped) => return Ok(Err(tripped)),
    };
    let found = outcome_of(alloc, index, search, max_buckets, failures, whole)?;
    let charged = charge_response(words, pass, &found.outcome)?;
    match charged {
        Ok(()) => Ok(Ok(found)),
        Err(tripped) => Ok(Err(tripped)),
    }
}

/// Answers one search whose tasks have ended; the pass still holds what is held for the answer.
fn answer_kept(
    alloc: Global,
    words: &Words,
    pass: &mut Pass,
    index: &Index,
    search: Search,
    end: SearchEnd,
    max_buckets: u64,
) -> Result<Page, AllocError>
    requires alone { IsAlone words.now pass.old }
    requires search { CanRun index.now search }
    requires end { IsEnd (index_of index.now) search end }
    requires held { cost_of_parts end.parts ≤ hold_of pass.old.view which.Request }
    ensures alone { IsAlone words.now pass.new }
    ensures fielddata { hold_of pass.new.view which.Fielddata ≡ hold_of pass.old.view which.Fielddata }
    ensures inflight { hold_of pass.new.view which.Inflight ≡ hold_of pass.old.view which.Inflight }
    ensures kept { IfOk result (λ page. hold_of pass.old.view which.Request ≤ hold_of pass.new.view which.Request + cost_of_parts end.parts) }
    ensures answer { IfOk result (λ page. (charged : ℕ) × (trips : Amounts)
        × IsAnswer words.now.limits (index_of index.now) max_buckets pass.old.view search end page.answered charged trips
        × HasRisen charged trips pass.old.view pass.new.view) }
    ensures next { IfOk result (λ page. (request : Request) → request.search ≡ Ok search →
        IsBehind index.now request page.answered.outcome page.answered.failures page.next) }
{
    if end.memory {
        return Err(AllocError);
    }
    // A look tells that no counter is above where it stops.
    look(words, pass, Which::Parent);
    let SearchEnd {
        parts,
        refused,
        memory: _,
        failures,
    } = end;
    if let Some(tripped) = refusal_left(index, refused, &failures) {
        return Ok(last_page(Outcome::Tripped(tripped), failures));
    }
    let answered = answer_left(
        alloc,
        words,
        pass,
        index,
        search,
        parts,
        &failures,
        max_buckets,
    )?;
    match answered {
        Ok(Found { outcome, next }) => Ok(Page {
            answered: Answered { outcome, failures },
            next,
        }),
        Err(tripped) => Ok(last_page(Outcome::Tripped(tripped), failures)),
    }
}

/// Answers one search whose tasks have ended, and gives back what the pass holds for its parts.
pub(crate) fn answer_end(
    alloc: Global,
    words: &Words,
    pass: &mut Pass,
    index: &Index,
    search: Search,
    end: SearchEnd,
    max_buckets: u64,
) -> Result<Page, AllocError>
    requires alone { IsAlone words.now pass.old }
    requires search { CanRun index.now search }
    requires end { IsEnd (index_of index.now) search end }
    requires held { cost_of_parts end.parts ≤ hold_of pass.old.view which.Request }
    ensures alone { IsAlone words.now pass.new }
    ensures fielddata { hold_of pass.new.view which.Fielddata ≡ hold_of pass.old.view which.Fielddata }
    ensures inflight { hold_of pass.new.view which.Inflight ≡ hold_of pass.old.view which.Inflight }
    ensures given { IfOk result (λ page. hold_of pass.new.view which.Request + cost_of_parts end.parts ≡ hold_of pass.old.view which.Request) }
    ensures parent { IfOk result (λ page. hold_of pass.new.view which.Parent + cost_of_parts end.parts ≡ hold_of pass.old.view which.Parent) }
    ensures answer { IfOk result (λ page. (charged : ℕ) × (trips : Amounts)
        × IsAnswer words.now.limits (index_of index.now) max_buckets pass.old.view search end page.answered charged trips
        × HasRisen charged trips pass.old.view pass.new.view) }
    ensures next { IfOk result (λ page. (request : Request) → request.search ≡ Ok search →
        IsBehind index.now request page.answered.outcome page.answered.failures page.next) }
{
    // What it holds at the parent is the sum of what it holds at the children.
    let _cap = pass.cap();
    let held = pass.hold(Which::Request);
    let rest = held - cost_of_all(&end.parts);
    let page = answer_kept(alloc, words, pass, index, search, end, max_buckets)?;
    lower_to(words, pass, rest);
    // And so it is now.
    let _cap_after = pass.cap();
    Ok(page)
}
