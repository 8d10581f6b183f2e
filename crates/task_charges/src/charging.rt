//! The steps of a task from one number of bytes that it holds to the next.
ghost use Rattle.std.specs.Prelude.{◌≡◌, ◌+◌, ◌-◌, ◌<◌, ◌≤◌, ℤ, pos, ◌-ℤ◌, List, [], ◌∷◌, ◌++◌, IfOk, IfErr, OnOk, OnErr};
ghost use Rattle.agg_evaluation.specs.Shard.{int_sum};
ghost use Rattle.agg_model.specs.declared.breaker.Child.TheVariants as child;
ghost use Rattle.agg_model.specs.declared.breaker.Which.TheVariants as which;
ghost use Rattle.breaker_tree.specs.Charge.{IsGivenBack};
ghost use Rattle.breaker_words.specs.Passes.{IsOf};
ghost use Rattle.breaker_words.specs.Views.{hold_of};
ghost use Rattle.breaker_words.specs.declared.view.View.{View};
ghost use Rattle.task_charges.specs.Charged.{HasPaid};
ghost use Rattle.task_charges.specs.Ended.{IsGivenUp, IsRefused};

use agg_model::{Child, Tripped};
use breaker_tree::{charge, give_back};
use breaker_words::{Pass, Trial, Words};

/// Begins a task: holds its first bytes at request, at least one. Where they are refused, the task holds nothing.
pub fn begin(words: &Words, pass: &mut Pass, wanted: u64) -> Result<(), Tripped>
    requires of { IsOf words.now pass.old }
    requires rest { pass.old.view.trial ≡ Trial.Rest }
    requires some { 1 ≤ wanted }
    requires room { pass.old.view.accounts.parent.hold + wanted ≤ pass.old.view.cap }

    ensures ok { IfOk result (λ _. HasPaid words.now.limits pass.old.view pass.new.view (pos wanted ∷ [])) }
    // Whatever the task's other amounts are.
    ensures err { IfErr result (λ t. (more : List ℤ) →
        IsRefused words.now.limits pass.old.view pass.new.view (pos wanted ∷ more) t) }

    // What the conditions of the next step speak of.
    ensures of { IsOf words.now pass.new }
    ensures trial { pass.new.view.trial ≡ Trial.Rest }
    ensures cap { pass.new.view.cap ≡ pass.old.view.cap }
    ensures held { OnOk result
        (hold_of pass.new.view which.Request ≡ hold_of pass.old.view which.Request + wanted) }
    ensures held_at_parent { OnOk result
        (pass.new.view.accounts.parent.hold ≡ pass.old.view.accounts.parent.hold + wanted) }
    ensures gone { OnErr result
        (hold_of pass.new.view which.Request ≡ hold_of pass.old.view which.Request) }
    ensures gone_at_parent { OnErr result
        (pass.new.view.accounts.parent.hold ≡ pass.old.view.accounts.parent.hold) }
{
    charge(words, pass, Child::Request, wanted)?;
    Ok(())
}

/// Holds `wanted` bytes at request in the place of the `held` ones: charges what is more, or gives back what is less;
/// where both are equal there is no step. Where the charge is refused, the task gives back all that it held.
///
/// `v` is the pass with which the task began, and `ns` are its amounts so far.
pub fn settle(words: &Words, pass: &mut Pass, held: u64, wanted: u64) -> Result<(), Tripped>
    requires of { IsOf words.now pass.old }
    requires rest { pass.old.view.trial ≡ Trial.Rest }
    requires held { held ≤ hold_of pass.old.view which.Request }
    requires room { pass.old.view.accounts.parent.hold + (wanted - held) ≤ pass.old.view.cap }

    ensures ok { IfOk result (λ _. (v : View) (ns : List ℤ) → HasPaid words.now.limits v pass.old.view ns →
        HasPaid words.now.limits v pass.new.view (ns ++ (pos wanted -ℤ pos held) ∷ [])) }
    // Whatever the task's other amounts are.
    ensures err { IfErr result (λ t. (v : View) (ns more : List ℤ) → HasPaid words.now.limits v pass.old.view ns →
        pos held ≡ int_sum ns →
        IsRefused words.now.limits v pass.new.view (ns ++ (pos wanted -ℤ pos held) ∷ more) t) }
    ensures idle { wanted ≡ held → pass.new ≡ pass.old }

    // What the conditions of the next step speak of.
    ensures of { IsOf words.now pass.new }
    ensures trial { pass.new.view.trial ≡ Trial.Rest }
    ensures cap { pass.new.view.cap ≡ pass.old.view.cap }
    ensures held { OnOk result
        (hold_of pass.new.view which.Request + held ≡ hold_of pass.old.view which.Request + wanted) }
    ensures held_at_parent { OnOk result
        (pass.new.view.accounts.parent.hold + held ≡ pass.old.view.accounts.parent.hold + wanted) }
    ensures gone { OnErr result
        (hold_of pass.new.view which.Request + held ≡ hold_of pass.old.view which.Request) }
    ensures gone_at_parent { OnErr result
        (pass.new.view.accounts.parent.hold + held ≡ pass.old.view.accounts.parent.hold) }
{
    if wanted > held {
        return raise(words, pass, held, wanted);
    }
    if wanted < held {
        give_back(words, pass, Child::Request, held - wanted);
        return Ok(());
    }
    Ok(())
}

/// Charges what `wanted` is above `held`, or gives back all that is held.
fn raise(words: &Words, pass: &mut Pass, held: u64, wanted: u64) -> Result<(), Tripped>
    requires of { IsOf words.now pass.old }
    requires rest { pass.old.view.trial ≡ Trial.Rest }
    requires more { held < wanted }
    requires held { held ≤ hold_of pass.old.view which.Request }
    requires room { pass.old.view.accounts.parent.hold + (wanted - held) ≤ pass.old.view.cap }

    ensures ok { IfOk result (λ _. (v : View) (ns : List ℤ) → HasPaid words.now.limits v pass.old.view ns →
        HasPaid words.now.limits v pass.new.view (ns ++ (pos wanted -ℤ pos held) ∷ [])) }
    ensures err { IfErr result (λ t. (v : View) (ns more : List ℤ) → HasPaid words.now.limits v pass.old.view ns →
        pos held ≡ int_sum ns →
        IsRefused words.now.limits v pass.new.view (ns ++ (pos wanted -ℤ pos held) ∷ more) t) }
    ensures of { IsOf words.now pass.new }
    ensures trial { pass.new.view.trial ≡ Trial.Rest }
    ensures cap { pass.new.view.cap ≡ pass.old.view.cap }
    ensures held { OnOk result
        (hold_of pass.new.view which.Request + held ≡ hold_of pass.old.view which.Request + wanted) }
    ensures held_at_parent { OnOk result
        (pass.new.view.accounts.parent.hold + held ≡ pass.old.view.accounts.parent.hold + wanted) }
    ensures gone { OnErr result
        (hold_of pass.new.view which.Request + held ≡ hold_of pass.old.view which.Request) }
    ensures gone_at_parent { OnErr result
        (pass.new.view.accounts.parent.hold + held ≡ pass.old.view.accounts.parent.hold) }
{
    if let Err(tripped) = charge(words, pass, Child::Request, wanted - held) {
        give_up(words, pass, held);
        return Err(tripped);
    }
    Ok(())
}

/// Gives back all that a task holds which cannot go on.
///
/// `v` is the pass with which the task began, and `ns` are its amounts so far.
pub fn give_up(words: &Words, pass: &mut Pass, held: u64)
    requires of { IsOf words.now pass.old }
    requires rest { pass.old.view.trial ≡ Trial.Rest }
    requires held { held ≤ hold_of pass.old.view which.Request }
    ensures of { IsOf words.now pass.new }
    ensures up { (v : View) (ns : List ℤ) → HasPaid words.now.limits v pass.old.view ns → pos held ≡ int_sum ns →
        IsGivenUp v pass.new.view ns }
    ensures given { IsGivenBack pass.old.view child.Request held pass.new.view }
{
    give_back(words, pass, Child::Request, held);
}
