//! A task that grows, stands still, shrinks and is refused.
ghost use Rattle.std.specs.Prelude.{◌≡◌};
ghost use Rattle.breaker_words.specs.Passes.{IsOf};

use agg_model::{Limits, Tripped, Which};
use breaker_words::{Pass, Trial, Words, set_ceiling};
use std::process::Abort;
use std::test::Fail;
use task_charges::{begin, give_up, settle};

// Asserts what is held at request and at the parent.
fn expect_held(rt: &impl Abort, pass: &Pass, held: u64, granted: u64, trips: u64) {
    assert_eq!(rt;
        (pass.hold(Which::Request), pass.hold(Which::Parent)),
        (held, held)
    );
    assert_eq!(rt;
        (pass.granted(Which::Request), pass.granted(Which::Parent)),
        (granted, granted)
    );
    assert_eq!(rt; pass.trips(Which::Request), trips);
}

// A task that begins with so many bytes.
fn expect_begun(rt: &impl Abort, words: &Words, pass: &mut Pass, wanted: u64)
    requires of { IsOf words.now pass.old }
    requires rest { pass.old.view.trial ≡ Trial.Rest }
    requires cap { pass.old.view.cap ≡ 20000 }
    ensures of { IsOf words.now pass.new }
    ensures rest { pass.new.view.trial ≡ Trial.Rest }
    ensures cap { pass.new.view.cap ≡ 20000 }
{
    assert!(rt; pass.hold(Which::Parent) == 0 && 1 <= wanted && wanted <= 5_000);
    assert_eq!(rt; begin(words, pass, wanted), Ok(()));
}

// A step of a task from one number of bytes to the next.
fn expect_step(
    rt: &impl Abort,
    words: &Words,
    pass: &mut Pass,
    held: u64,
    wanted: u64,
    outcome: Result<(), Tripped>,
)
    requires of { IsOf words.now pass.old }
    requires rest { pass.old.view.trial ≡ Trial.Rest }
    requires cap { pass.old.view.cap ≡ 20000 }
    ensures of { IsOf words.now pass.new }
    ensures rest { pass.new.view.trial ≡ Trial.Rest }
    ensures cap { pass.new.view.cap ≡ 20000 }
{
    assert!(rt; pass.hold(Which::Request) == held && pass.hold(Which::Parent) == held);
    assert!(rt; held <= 5_001 && wanted <= 5_001);
    assert_eq!(rt; settle(words, pass, held, wanted), outcome);
}

#[test]
fn a_task_holds_one_number_after_another(rt: HostRuntime) -> Result<(), Fail> {
    let limits = Limits {
        request: 5_000,
        fielddata: 10_000,
        inflight: 10_000,
        parent: 10_000,
    };
    let (words, mut pass) = Words::open(rt.alloc(), limits)?;
    set_ceiling(&words, &mut pass, 20_000);
    expect_begun(&rt, &words, &mut pass, 4_608);
    expect_step(&rt, &words, &mut pass, 4_608, 4_737, Ok(()));
    expect_step(&rt, &words, &mut pass, 4_737, 4_737, Ok(()));
    expect_step(&rt, &words, &mut pass, 4_737, 641, Ok(()));
    expect_held(&rt, &pass, 641, 4_737, 0);
    let refused = Tripped {
        which: Which::Request,
        wanted: 5_001,
        limit: 5_000,
    };
    expect_step(&rt, &words, &mut pass, 641, 5_001, Err(refused));
    expect_held(&rt, &pass, 0, 4_737, 1);
    expect_begun(&rt, &words, &mut pass, 5_000);
    assert!(rt; pass.hold(Which::Request) == 5_000);
    give_up(&words, &mut pass, 5_000);
    assert_eq!(rt; pass.hold(Which::Parent), 0);
    Ok(())
}
