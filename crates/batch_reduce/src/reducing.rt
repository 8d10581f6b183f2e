//! The charge of a reduction, and what is held when it has ended.
ghost use Rattle.std.specs.Prelude.{◌≡◌, ◌≢◌, ◌⊎◌, ◌+◌, ◌-◌, ◌≤◌, ◌<◌, ◌^◌, ◌∷◌, [], length, max};
ghost use Rattle.agg_model.specs.declared.aggregation.Search.{Search as AnySearch};
ghost use Rattle.agg_model.specs.declared.breaker.Child.TheVariants as child;
ghost use Rattle.agg_model.specs.declared.breaker.Which.{Which as AnyWhich};
ghost use Rattle.agg_model.specs.declared.breaker.Which.TheVariants as which;
ghost use Rattle.agg_model.specs.declared.partial.Partial.{Partial as AnyPartial};
ghost use Rattle.agg_evaluation.specs.Cost.{cost as cost_of};
ghost use Rattle.agg_evaluation.specs.Whole.{whole};
ghost use Rattle.batch_reduce.specs.Ends.{FollowsCharge, IfDone, IfMemory, IfRefused, IsNotRefused, cost_of_end};
ghost use Rattle.batch_reduce.specs.Parts.{AreParts, cost_of_parts};
ghost use Rattle.batch_reduce.specs.Reduced.{IsMerged, IsRefused, at_both};
ghost use Rattle.breaker_tree.specs.Charge.{IsAtRestAgain, IsGivenBack, answer_alone};
ghost use Rattle.breaker_words.specs.Accounts.{account};
ghost use Rattle.breaker_words.specs.Passes.{IsOf};
ghost use Rattle.breaker_words.specs.Views.{hold_of, most_of, seen_of};

use crate::merging::merge_all;
use agg_model::{Child, List, Partial, Tripped, Which};
use breaker_tree::{charge, give_back};
use breaker_words::{Pass, Trial, Words};
use partial_result::cost;
use std::alloc::Global;

/// How a reduction ended.
#[derive(Drop)]
pub enum ReduceEnd {
    /// All parts as one.
    Done(Partial),
    /// The charge of what the parts cost was refused.
    Refused(Tripped),
    /// Memory ran out.
    Memory,
}

/// Merges the parts of one search, for which the pass holds what they cost. Two or more are charged at request what they
/// cost together while they are merged; afterwards the pass holds what the result costs in the place of the parts. One
/// part comes back as it is, and where the parts cost nothing there is no charge. After a refusal, and after want of
/// memory, nothing is held for the parts any more.
///
/// It takes time in proportion to the buckets of all parts, times the logarithm of their number, and as much memory as
/// the parts.
pub fn reduce(alloc: Global, words: &Words, pass: &mut Pass, parts: List<Partial>) -> ReduceEnd
    requires of { IsOf words.now pass.old }
    requires rest { pass.old.view.trial ≡ Trial.Rest }
    requires some { 1 ≤ length parts }
    requires parts { (search : AnySearch) × AreParts search parts }
    requires held { cost_of_parts parts ≤ hold_of pass.old.view which.Request }
    requires room { pass.old.view.accounts.parent.hold + cost_of_parts parts ≤ pass.old.view.cap }

    ensures whole { IfDone result (λ p. (search : AnySearch) → AreParts search parts → p ≡ whole search parts) }
    // One part: no step.
    ensures one { (p : AnyPartial) → parts ≡ p ∷ [] → (result ≡ ReduceEnd.Done p) × (pass.new ≡ pass.old) }
    ensures free { cost_of_parts parts ≡ 0 → IsNotRefused result × (pass.new ≡ pass.old) }
    // Two or more that cost something: one charge, and then a return.
    ensures done { 2 ≤ length parts → 1 ≤ cost_of_parts parts →
        IfDone result (λ p. IsMerged words.now.limits pass.old.view (cost_of_parts parts) (cost_of p) pass.new.view) }
    ensures memory { 2 ≤ length parts → 1 ≤ cost_of_parts parts →
        IfMemory result (IsMerged words.now.limits pass.old.view (cost_of_parts parts) 0 pass.new.view) }
    ensures refused { IfRefused result (λ t.
        IsRefused words.now.limits pass.old.view (cost_of_parts parts) t pass.new.view) }
    // With the whole cap the pass's own holds decide.
    ensures alone { pass.old.view.cap ≡ pass.old.view.total → 2 ≤ length parts → 1 ≤ cost_of_parts parts →
        FollowsCharge (answer_alone words.now.limits pass.old.view child.Request (cost_of_parts parts)) result }

    // Whatever the end: the parts' costs are no longer held, and what the end costs is.
    ensures of { IsOf words.now pass.new }
    ensures same { IsAtRestAgain pass.old.view pass.new.view }
    ensures holds { (x : AnyWhich) → hold_of pass.new.view x + at_both (cost_of_parts parts) x
        ≡ hold_of pass.old.view x + at_both (cost_of_end result) x }
    ensures most { (x : AnyWhich) → most_of pass.new.view x
        ≤ max (most_of pass.old.view x) (hold_of pass.old.view x + cost_of_parts parts) }
    ensures seen { (x : AnyWhich) → seen_of pass.old.view x ≤ seen_of pass.new.view x }
    ensures untouched { (x : AnyWhich) → x ≢ which.Request → x ≢ which.Parent →
        account pass.new.view.accounts x ≡ account pass.old.view.accounts x }
{
    let held = pass.hold(Which::Request);
    let total = cost_of_all(&parts);
    let others = held - total;
    if parts.len() == 1 || total == 0 {
        return match merge_all(alloc, parts) {
            Ok(merged) => ReduceEnd::Done(merged),
            Err(_) => ReduceEnd::Memory,
        };
    }
    if let Err(tripped) = charge(words, pass, Child::Request, total) {
        lower_to(words, pass, others);
        return ReduceEnd::Refused(tripped);
    }
    match merge_all(alloc, parts) {
        Ok(merged) => {
            lower_to(words, pass, others + cost(&merged));
            ReduceEnd::Done(merged)
        }
        Err(_) => {
            lower_to(words, pass, others);
            ReduceEnd::Memory
        }
    }
}

/// What the parts cost together, in bytes.
fn cost_of_all(parts: &List<Partial>) -> u64
    requires fits { cost_of_parts parts.now < 2 ^ 64 }
    ensures { result ≡ cost_of_parts parts.now }
{
    let mut total = 0;
    for part in parts.as_slice() {
        total += cost(part);
    }
    total
}

/// Gives back what the pass holds at request above `wanted`.
fn lower_to(words: &Words, pass: &mut Pass, wanted: u64)
    requires of { IsOf words.now pass.old }
    requires rest { pass.old.view.trial ≡ Trial.Rest }
    requires held { wanted ≤ hold_of pass.old.view which.Request }
    ensures of { IsOf words.now pass.new }
    ensures given { IsGivenBack pass.old.view child.Request (hold_of pass.old.view which.Request - wanted) pass.new.view }
{
    let held = pass.hold(Which::Request);
    give_back(words, pass, Child::Request, held - wanted);
}
