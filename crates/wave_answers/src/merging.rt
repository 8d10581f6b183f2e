//! The merge of the results of a search's batches.
ghost use Rattle.std.specs.Prelude.{◌≡◌, ◌≤◌, ◌+◌, IfErr, IfOk, OnErr, OnOk, length, map, option_to_list, sum_by};
ghost use Rattle.agg_evaluation.specs.Cost.{cost};
ghost use Rattle.agg_model.specs.declared.aggregation.Search.{Search as AnySearch};
ghost use Rattle.agg_model.specs.declared.breaker.Which.{Which as AnyWhich};
ghost use Rattle.agg_model.specs.declared.breaker.Which.TheVariants as which;
ghost use Rattle.agg_spec.specs.Charges.{no_amounts};
ghost use Rattle.agg_spec.specs.Rises.{merge_charge};
ghost use Rattle.batch_reduce.specs.Parts.{AreParts, cost_of_parts};
ghost use Rattle.batch_reduce.specs.Reduced.{at_both};
ghost use Rattle.breaker_words.specs.Views.{hold_of};
ghost use Rattle.solo_charges.specs.Alone.{IsAlone};
ghost use Rattle.wave_answers.specs.Charging.{IsRefusedCharge};
ghost use Rattle.wave_answers.specs.Merged.{whole_of_parts};
ghost use Rattle.wave_answers.specs.Rising.{HasRisen};

use agg_model::{List, Partial, Tripped, Which};
use batch_reduce::{ReduceEnd, reduce};
use breaker_words::{Pass, Words, look};
use solo_charges::make_room;
use std::alloc::{AllocError, Global};

/// The parts of one search as one, for which the pass holds what they cost; none where there is no part. Tells the refusal where a
/// breaker refused, and nothing is held for the parts then. It fails only where memory is wanting.
pub(crate) fn merge_parts(
    alloc: Global,
    words: &Words,
    pass: &mut Pass,
    parts: List<Partial>,
) -> Result<Result<Option<Partial>, Tripped>, AllocError>
    requires alone { IsAlone words.now pass.old }
    requires parts { (search : AnySearch) × AreParts search parts }
    requires held { cost_of_parts parts ≤ hold_of pass.old.view which.Request }
    ensures alone { IsAlone words.now pass.new }
    ensures fielddata { hold_of pass.new.view which.Fielddata ≡ hold_of pass.old.view which.Fielddata }
    ensures inflight { hold_of pass.new.view which.Inflight ≡ hold_of pass.old.view which.Inflight }
    ensures whole { IfOk result (λ end. IfOk end (λ whole. (search : AnySearch) → AreParts search parts →
        whole ≡ whole_of_parts search parts)) }
    ensures held { IfOk result (λ end. IfOk end (λ whole. (x : AnyWhich) →
        hold_of pass.new.view x + at_both (cost_of_parts parts) x
        ≡ hold_of pass.old.view x + at_both (sum_by cost (option_to_list whole)) x)) }
    ensures less { IfOk result (λ end. IfOk end (λ whole. sum_by cost (option_to_list whole) ≤ cost_of_parts parts)) }
    ensures risen { IfOk result (λ end. OnOk end
        (HasRisen (merge_charge (map cost parts)) no_amounts pass.old.view pass.new.view)) }
    ensures refused { IfOk result (λ end. IfErr end (λ t.
        IsRefusedCharge words.now.limits pass.old.view (cost_of_parts parts) 0 t pass.new.view)) }
    ensures given { IfOk result (λ end. OnErr end
        (hold_of pass.new.view which.Request + cost_of_parts parts ≡ hold_of pass.old.view which.Request)) }
    ensures some { IfOk result (λ end. OnErr end (1 ≤ length parts)) }
{
    // A look tells that no counter is above where it stops.
    look(words, pass, Which::Parent);
    if parts.is_empty() {
        return Ok(Ok(None));
    }
    make_room(words, pass);
    match reduce(alloc, words, pass, parts) {
        ReduceEnd::Done(whole) => Ok(Ok(Some(whole))),
        ReduceEnd::Refused(tripped) => Ok(Err(tripped)),
        ReduceEnd::Memory => Err(AllocError),
    }
}
