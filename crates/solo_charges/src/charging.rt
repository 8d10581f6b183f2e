//! Charges of a pass that has the whole cap, and the return of all that a search holds.
ghost use Rattle.std.specs.Prelude.{◌≡◌, ◌≢◌, ◌≤◌, ◌^◌, OnErr};
ghost use Rattle.agg_model.specs.Breakers.{which_of};
ghost use Rattle.agg_model.specs.declared.breaker.Which.{Which as AnyWhich};
ghost use Rattle.agg_model.specs.declared.breaker.Which.TheVariants as which;
ghost use Rattle.agg_model.specs.declared.limits.TheConstants.{MAX_BYTE_SIZE};
ghost use Rattle.agg_spec.specs.Charges.{Run, charge_of, run};
ghost use Rattle.breaker_words.specs.AfterStep.{after_set_ceiling};
ghost use Rattle.breaker_words.specs.Passes.{with_view};
ghost use Rattle.breaker_words.specs.Views.{granted_of, hold_of, trips_of};
ghost use Rattle.solo_charges.specs.Alone.{IsAlone};
ghost use Rattle.solo_charges.specs.Ends.{EndsAs};
ghost use Rattle.solo_charges.specs.Standing.{Before, StandsAt};

use agg_model::{Child, Tripped, Which};
use breaker_tree::{charge, give_back};
use breaker_words::{Pass, Words, look, set_ceiling};

/// The greatest ceiling of a pass.
const CEILING: u64 = 1 << 63;

/// Gives the pass, which is alone, room for any charge of up to 2^62 bytes: only limits refuse it.
pub fn make_room(words: &Words, pass: &mut Pass)
    requires { IsAlone words.now pass.old }
    ensures pass { pass.new ≡ with_view pass.old (after_set_ceiling pass.old.view (2 ^ 63)) }
    ensures alone { IsAlone words.now pass.new }
    ensures held { pass.new.view.accounts.parent.hold ≤ MAX_BYTE_SIZE }
    ensures request { hold_of pass.new.view which.Request ≤ MAX_BYTE_SIZE }
    ensures same { (x : AnyWhich) → hold_of pass.new.view x ≡ hold_of pass.old.view x }
    ensures stands { (before : Before) (r : Run) → StandsAt before pass.old.view r → StandsAt before pass.new.view r }
{
    // What it holds at the parent is the sum of what it holds at the children, and within the parent's limit.
    let _cap = pass.cap();
    look(words, pass, Which::Parent);
    set_ceiling(words, pass, CEILING);
}

/// Charges up to 2^62 bytes at the child and at the parent; 0 bytes are no charge. Where a breaker refuses, the pass holds what
/// it held before.
pub fn charge_bytes(words: &Words, pass: &mut Pass, child: Child, bytes: u64) -> Result<(), Tripped>
    requires alone { IsAlone words.now pass.old }
    requires few { bytes ≤ 2 ^ 62 }
    ensures alone { IsAlone words.now pass.new }
    ensures ends { (before : Before) (r : Run) → StandsAt before pass.old.view r →
        EndsAs before pass.new.view (run words.now.limits r (charge_of child bytes)) result }
    ensures others { (x : AnyWhich) → x ≢ which_of child → x ≢ which.Parent →
        hold_of pass.new.view x ≡ hold_of pass.old.view x }
    ensures kept { OnErr result ((x : AnyWhich) → hold_of pass.new.view x ≡ hold_of pass.old.view x) }
{
    if bytes == 0 {
        return Ok(());
    }
    make_room(words, pass);
    charge(words, pass, child, bytes)
}

/// Gives back all that the pass, which is alone, holds at request and at inflight requests. What it was granted and refused
/// stays as it is.
pub fn give_all_back(words: &Words, pass: &mut Pass)
    requires { IsAlone words.now pass.old }
    ensures alone { IsAlone words.now pass.new }
    ensures request { hold_of pass.new.view which.Request ≡ 0 }
    ensures inflight { hold_of pass.new.view which.Inflight ≡ 0 }
    ensures fielddata { hold_of pass.new.view which.Fielddata ≡ hold_of pass.old.view which.Fielddata }
    ensures parent { hold_of pass.new.view which.Parent ≡ hold_of pass.old.view which.Fielddata }
    ensures granted { (x : AnyWhich) → granted_of pass.new.view x ≡ granted_of pass.old.view x }
    ensures trips { (x : AnyWhich) → trips_of pass.new.view x ≡ trips_of pass.old.view x }
{
    // What it holds at the parent is the sum of what it holds at the children.
    let _cap = pass.cap();
    let request = pass.hold(Which::Request);
    give_back(words, pass, Child::Request, request);
    let inflight = pass.hold(Which::Inflight);
    give_back(words, pass, Child::Inflight, inflight);
}
