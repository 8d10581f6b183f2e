// A charge is a step at the child and then one at the parent, each taken back where the next is refused.
ghost use Rattle.std.specs.Prelude.{◌≡◌, ◌+◌, ◌≤◌, IfErr, IfOk, OnErr, OnOk};
ghost use Rattle.agg_model.specs.Breakers.{which_of};
ghost use Rattle.breaker_words.specs.Views.{hold_of};
ghost use Rattle.breaker_words.specs.Passes.{IsOf};
ghost use Rattle.breaker_words.specs.Soundness.{IsBounded};
ghost use Rattle.breaker_tree.specs.Charge.{IsTripped, IsCharged, IsGivenBack, answer_alone};

use agg_model::{Child, Tripped, Which};
use breaker_words::{
    Pass, Trial, Words, give_child, give_parent, take_back_child, take_back_parent, try_child,
    try_parent, which_of,
};

/// Charges the amount, in bytes, at the child and at the parent. Where either refuses, nothing is held: the answer names
/// the breaker that refused, the total that it saw and its limit, and its trips rise by one.
///
/// Other passes' trials stand in the words until they are taken back, so a charge may be refused although all that is
/// granted leaves room for it. A pass that has the whole cap meets none: its own holds decide.
pub fn charge(words: &Words, pass: &mut Pass, child: Child, amount: u64) -> Result<(), Tripped>
    requires of { IsOf words.now pass.old }
    requires rest { pass.old.view.trial ≡ Trial.Rest }
    requires amount { 1 ≤ amount }
    requires room { pass.old.view.accounts.parent.hold + amount ≤ pass.old.view.cap }

    ensures of { IsOf words.now pass.new }
    ensures err { IfErr result (λ t. IsTripped words.now.limits pass.old.view child amount t pass.new.view) }
    ensures ok { IfOk result (λ _. IsCharged words.now.limits pass.old.view child amount pass.new.view) }
    ensures whole { pass.old.view.cap ≡ pass.old.view.total → result ≡ answer_alone words.now.limits pass.old.view child amount }

    // What the pass held before is within the limits.
    ensures bounded { IsBounded words.now.limits pass.old.view }

    // What the conditions of the next charge speak of.
    ensures trial { pass.new.view.trial ≡ Trial.Rest }
    ensures cap { pass.new.view.cap ≡ pass.old.view.cap }
    ensures kept { OnErr result (pass.new.view.accounts.parent.hold ≡ pass.old.view.accounts.parent.hold) }
    ensures raised { OnOk result (pass.new.view.accounts.parent.hold ≡ pass.old.view.accounts.parent.hold + amount) }
    ensures raised_child { OnOk result (hold_of pass.new.view (which_of child) ≡ hold_of pass.old.view (which_of child) + amount) }
{
    let step = try_child(words, pass, child, amount);
    if !step.granted {
        take_back_child(words, pass);
        let which = which_of(child);
        return Err(Tripped {
            which,
            wanted: step.total,
            limit: words.limit(which),
        });
    }
    let step = try_parent(words, pass);
    if !step.granted {
        take_back_parent(words, pass);
        take_back_child(words, pass);
        return Err(Tripped {
            which: Which::Parent,
            wanted: step.total,
            limit: words.limit(Which::Parent),
        });
    }
    Ok(())
}

/// Gives an amount, in bytes, that the pass holds at the child back at the parent and at the child. An amount of 0 makes
/// no step.
pub fn give_back(words: &Words, pass: &mut Pass, child: Child, amount: u64)
    requires of { IsOf words.now pass.old }
    requires rest { pass.old.view.trial ≡ Trial.Rest }
    requires held { amount ≤ hold_of pass.old.view (which_of child) }

    ensures of { IsOf words.now pass.new }
    ensures given { IsGivenBack pass.old.view child amount pass.new.view }

    // What the conditions of the next charge speak of.
    ensures trial { pass.new.view.trial ≡ Trial.Rest }
    ensures cap { pass.new.view.cap ≡ pass.old.view.cap }
    ensures lowered { pass.new.view.accounts.parent.hold + amount ≡ pass.old.view.accounts.parent.hold }
    ensures lowered_child { hold_of pass.new.view (which_of child) + amount ≡ hold_of pass.old.view (which_of child) }
{
    if amount > 0 {
        give_parent(words, pass, child, amount);
        give_child(words, pass);
    }
}
