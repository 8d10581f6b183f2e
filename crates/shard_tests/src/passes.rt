//! Two passes that charge step by step, in turn.
ghost use Rattle.std.specs.Prelude.{◌≡◌};
ghost use Rattle.breaker_words.specs.Passes.{IsOf};

use crate::pairs::pair_of;
use breaker_words::{
    Child, Limits, Pass, Step, Trial, Which, Words, give_child, give_parent, join, look,
    take_back_child, take_back_parent, try_child, try_parent,
};
use std::process::Abort;
use std::test::Fail;

/// What a trial of a pass that holds nothing is answered at the breaker of requests.
fn expect_at_child(rt: &impl Abort, words: &Words, pass: &mut Pass, amount: u64, step: Step)
    requires of { IsOf words.now pass.old }
    requires rest { pass.old.view.trial ≡ Trial.Rest }
    ensures of { IsOf words.now pass.new }
{
    assert!(rt; pass.hold(Which::Parent) == 0 && 1 <= amount && amount <= pass.cap());
    assert_eq!(rt; try_child(words, pass, Child::Request, amount), step);
}

// What it is answered at the parent then.
fn expect_at_parent(rt: &impl Abort, words: &Words, pass: &mut Pass, step: Step)
    requires of { IsOf words.now pass.old }
    ensures of { IsOf words.now pass.new }
{
    assert!(rt; matches!(pass.trial(), Trial::ChildGranted));
    assert_eq!(rt; try_parent(words, pass), step);
}

fn expect_rest(rt: &impl Abort, pass: &Pass)
    ensures { pass.now.view.trial ≡ Trial.Rest }
{
    assert!(rt; matches!(pass.trial(), Trial::Rest));
}

/// A trial that both grant.
pub(crate) fn expect_granted(
    rt: &impl Abort,
    words: &Words,
    pass: &mut Pass,
    amount: u64,
    step: Step,
)
    requires of { IsOf words.now pass.old }
    requires rest { pass.old.view.trial ≡ Trial.Rest }
    ensures of { IsOf words.now pass.new }
    ensures rest { pass.new.view.trial ≡ Trial.Rest }
{
    expect_at_child(rt, words, pass, amount, step);
    expect_at_parent(rt, words, pass, step);
    expect_rest(rt, pass);
}

// Takes back what the child refused.
fn expect_refusal_of_child(rt: &impl Abort, words: &Words, pass: &mut Pass, amount: u64)
    requires of { IsOf words.now pass.old }
    ensures of { IsOf words.now pass.new }
    ensures rest { pass.new.view.trial ≡ Trial.Rest }
{
    assert!(rt; matches!(pass.trial(), Trial::ChildRefused));
    assert_eq!(rt;
        (pass.trial_child(), pass.trial_amount()),
        (Child::Request, amount)
    );
    take_back_child(words, pass);
    assert_eq!(rt;
        (pass.hold(Which::Request), pass.trips(Which::Request)),
        (0, 1)
    );
}

// Takes back what the parent refused.
fn expect_refusal_of_parent(rt: &impl Abort, words: &Words, pass: &mut Pass)
    requires of { IsOf words.now pass.old }
{
    assert!(rt; matches!(pass.trial(), Trial::ParentRefused));
    take_back_parent(words, pass);
    take_back_child(words, pass);
    assert_eq!(rt;
        (pass.hold(Which::Request), pass.hold(Which::Parent)),
        (0, 0)
    );
    assert_eq!(rt;
        (pass.trips(Which::Request), pass.trips(Which::Parent)),
        (0, 1)
    );
}

// Gives back all that the pass holds.
fn give_all(rt: &impl Abort, words: &Words, pass: &mut Pass, amount: u64)
    requires of { IsOf words.now pass.old }
    requires rest { pass.old.view.trial ≡ Trial.Rest }
    ensures of { IsOf words.now pass.new }
    ensures rest { pass.new.view.trial ≡ Trial.Rest }
{
    assert!(rt; 1 <= amount && pass.hold(Which::Request) == amount);
    give_parent(words, pass, Child::Request, amount);
    give_child(words, pass);
}

// What the two passes have counted together.
fn expect_joined(rt: &impl Abort, words: &Words, mut a: Pass, b: Pass)
    requires of { IsOf words.now a }
    requires other { IsOf words.now b }
    requires rest { a.view.trial ≡ Trial.Rest }
    requires other_rest { b.view.trial ≡ Trial.Rest }
{
    join(words, &mut a, b);
    assert_eq!(rt; (a.cap(), a.total()), (200, 200));
    assert_eq!(rt;
        (a.granted(Which::Request), a.trips(Which::Request)),
        (110, 1)
    );
    assert_eq!(rt; look(words, &mut a, Which::Parent), 50);
    assert_eq!(rt; words.limit(Which::Request), 100);
}

const fn step(total: u64, granted: bool) -> Step {
    Step { total, granted }
}

#[test]
fn a_child_refuses_what_another_pass_holds_there(rt: HostRuntime) -> Result<(), Fail> {
    let limits = Limits {
        request: 100,
        fielddata: 100,
        inflight: 100,
        parent: 100,
    };
    let (words, mut a, mut b) = pair_of(rt.alloc(), limits, 200, 100)?;
    expect_granted(&rt, &words, &mut a, 60, step(60, true));
    expect_at_child(&rt, &words, &mut b, 50, step(110, false));
    expect_refusal_of_child(&rt, &words, &mut b, 50);
    give_all(&rt, &words, &mut a, 60);
    expect_granted(&rt, &words, &mut b, 50, step(50, true));
    expect_joined(&rt, &words, a, b);
    Ok(())
}

#[test]
fn what_the_parent_refuses_is_taken_back_at_both(rt: HostRuntime) -> Result<(), Fail> {
    let limits = Limits {
        request: 100,
        fielddata: 100,
        inflight: 100,
        parent: 80,
    };
    let (words, mut a, mut b) = pair_of(rt.alloc(), limits, 200, 100)?;
    expect_granted(&rt, &words, &mut a, 60, step(60, true));
    expect_at_child(&rt, &words, &mut b, 30, step(90, true));
    expect_at_parent(&rt, &words, &mut b, step(90, false));
    expect_refusal_of_parent(&rt, &words, &mut b);
    Ok(())
}
