//! The merges of a search: of each batch, and of the batches' results.
ghost use Rattle.std.specs.Prelude.{◌≡◌, ◌+◌, ◌≤◌, IfErr, IfOk, option_to_list, sum_by};
ghost use Rattle.agg_evaluation.specs.Cost.{cost};
ghost use Rattle.agg_model.specs.declared.aggregation.Search.{Search as AnySearch};
ghost use Rattle.agg_model.specs.declared.breaker.Which.TheVariants as which;
ghost use Rattle.agg_spec.specs.Charges.{Run, run};
ghost use Rattle.agg_spec.specs.Reduction.{merge_steps, merged};
ghost use Rattle.batch_reduce.specs.Parts.{AreParts, cost_of_parts};
ghost use Rattle.breaker_words.specs.Views.{hold_of};
ghost use Rattle.solo_charges.specs.Alone.{IsAlone};
ghost use Rattle.solo_charges.specs.Ends.{IsEnded};
ghost use Rattle.solo_charges.specs.Standing.{Before, StandsAt};
ghost use Rattle.agg_search.specs.Stops.{IfRefused};

use crate::stop::Stop;
use agg_model::{List, Partial};
use batch_reduce::{ReduceEnd, reduce};
use breaker_words::{Pass, Words};
use solo_charges::make_room;
use std::alloc::Global;

/// The parts of one search as one, for which the pass holds what they cost; none where there is no part.
pub(crate) fn merge(
    alloc: Global,
    words: &Words,
    pass: &mut Pass,
    parts: List<Partial>,
) -> Result<Option<Partial>, Stop>
    requires alone { IsAlone words.now pass.old }
    requires parts { (search : AnySearch) × AreParts search parts }
    requires held { cost_of_parts parts ≤ hold_of pass.old.view which.Request }
    ensures alone { IsAlone words.now pass.new }
    ensures fielddata { hold_of pass.new.view which.Fielddata ≡ hold_of pass.old.view which.Fielddata }
    ensures inflight { hold_of pass.new.view which.Inflight ≡ hold_of pass.old.view which.Inflight }
    ensures held { IfOk result (λ whole. hold_of pass.new.view which.Request + cost_of_parts parts
        ≡ hold_of pass.old.view which.Request + sum_by cost (option_to_list whole)) }
    ensures merged { IfOk result (λ whole. (search : AnySearch) → AreParts search parts →
        option_to_list whole ≡ merged words.now.limits search parts) }
    ensures stands { IfOk result (λ whole. (search : AnySearch) → AreParts search parts → (before : Before) (r : Run) →
        StandsAt before pass.old.view r →
        StandsAt before pass.new.view (run words.now.limits r (merge_steps words.now.limits search parts))) }
    ensures stops { IfErr result (λ stop. IfRefused stop (λ t. (search : AnySearch) → AreParts search parts →
        (before : Before) (r : Run) → StandsAt before pass.old.view r →
        IsEnded before pass.new.view (run words.now.limits r (merge_steps words.now.limits search parts)) t)) }
{
    if parts.is_empty() {
        return Ok(None);
    }
    make_room(words, pass);
    match reduce(alloc, words, pass, parts) {
        ReduceEnd::Done(whole) => Ok(Some(whole)),
        ReduceEnd::Refused(tripped) => Err(Stop::Refused(tripped)),
        ReduceEnd::Memory => Err(Stop::Memory),
    }
}
