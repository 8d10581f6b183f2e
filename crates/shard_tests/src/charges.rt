//! Passes that charge in turn, and in two threads at once.
ghost use Rattle.std.specs.Prelude.{◌≡◌, ◌+◌, ◌≤◌};
ghost use Rattle.breaker_words.specs.Passes.{IsOf};

use crate::pairs::pair_of;
use agg_model::{Child, Limits, Which};
use breaker_tree::{BreakerStats, Totals, Tripped, charge, close, give_back, stats};
use breaker_words::{Pass, Trial, Words, join};
use std::process::Abort;
use std::test::Fail;
use std::thread;

// What a charge of a pass that holds nothing is answered.
fn expect_charge(
    rt: &impl Abort,
    words: &Words,
    pass: &mut Pass,
    amount: u64,
    answer: Result<(), Tripped>,
)
    requires of { IsOf words.now pass.old }
    requires rest { pass.old.view.trial ≡ Trial.Rest }
    ensures of { IsOf words.now pass.new }
    ensures rest { pass.new.view.trial ≡ Trial.Rest }
{
    assert!(rt; pass.hold(Which::Parent) == 0 && 1 <= amount && amount <= pass.cap());
    assert_eq!(rt; charge(words, pass, Child::Request, amount), answer);
}

// Gives back all that the pass holds.
fn give_all_back(rt: &impl Abort, words: &Words, pass: &mut Pass, amount: u64)
    requires of { IsOf words.now pass.old }
    requires rest { pass.old.view.trial ≡ Trial.Rest }
    ensures of { IsOf words.now pass.new }
    ensures rest { pass.new.view.trial ≡ Trial.Rest }
{
    assert!(rt; pass.hold(Which::Request) == amount);
    give_back(words, pass, Child::Request, amount);
}

// What the words have counted, as they are read and as they are closed.
fn expect_totals(rt: &impl Abort, words: Words, mut pass: Pass, totals: Totals)
    requires of { IsOf words pass }
    requires rest { pass.view.trial ≡ Trial.Rest }
{
    assert!(rt; pass.cap() == pass.total());
    assert_eq!(rt; stats(&words, &mut pass), totals);
    assert_eq!(rt; close(words, pass), totals);
}

fn totals() -> Totals {
    let request = BreakerStats {
        limit: 100,
        estimated: 50,
        granted: 110,
        overhead: 100,
        tripped: 1,
    };
    let fielddata = BreakerStats {
        limit: 400,
        estimated: 0,
        granted: 0,
        overhead: 103,
        tripped: 0,
    };
    Totals {
        request,
        fielddata,
        inflight: BreakerStats {
            limit: 1000,
            overhead: 200,
            ..fielddata
        },
        parent: BreakerStats {
            tripped: 0,
            ..request
        },
    }
}

#[test]
fn a_pass_that_was_split_off_trips_and_then_charges(rt: HostRuntime) -> Result<(), Fail> {
    let limits = Limits {
        request: 100,
        fielddata: 400,
        inflight: 1000,
        parent: 100,
    };
    let (words, mut a, mut b) = pair_of(rt.alloc(), limits, 200, 100)?;
    expect_charge(&rt, &words, &mut a, 60, Ok(()));
    let tripped = Tripped {
        which: Which::Request,
        wanted: 110,
        limit: 100,
    };
    expect_charge(&rt, &words, &mut b, 50, Err(tripped));
    assert_eq!(rt; b.hold(Which::Request), 0);
    give_all_back(&rt, &words, &mut a, 60);
    expect_charge(&rt, &words, &mut b, 50, Ok(()));
    join(&words, &mut a, b);
    expect_totals(&rt, words, a, totals());
    Ok(())
}

// What a thread counted.
#[derive(Drop)]
struct Tally {
    granted: u64,
    refused: u64,
    ghost bounded: { (granted ≤ 1000) × (refused ≤ 1000) },
}

// One charge, given back where it was granted.
fn once(words: &Words, pass: &mut Pass) -> bool
    requires of { IsOf words.now pass.old }
    requires rest { pass.old.view.trial ≡ Trial.Rest }
    requires room { pass.old.view.accounts.parent.hold + 10 ≤ pass.old.view.cap }
    ensures of { IsOf words.now pass.new }
    ensures rest { pass.new.view.trial ≡ Trial.Rest }
    ensures hold { pass.new.view.accounts.parent.hold ≡ pass.old.view.accounts.parent.hold }
    ensures cap { pass.new.view.cap ≡ pass.old.view.cap }
{
    match charge(words, pass, Child::Request, 10) {
        Ok(()) => {
            give_back(words, pass, Child::Request, 10);
            true
        }
        Err(_) => false,
    }
}

fn work(words: &Words, mut pass: Pass) -> (Pass, Tally)
    requires of { IsOf words.now pass }
    requires rest { pass.view.trial ≡ Trial.Rest }
    requires room { pass.view.accounts.parent.hold + 10 ≤ pass.view.cap }
    ensures of { IsOf words.now result.0 }
    ensures rest { result.0.view.trial ≡ Trial.Rest }
    ensures cap { result.0.view.cap ≡ pass.view.cap }
{
    let mut granted = 0;
    let mut refused = 0;
    for done in 0..1000u64 {
        if once(words, &mut pass) {
            granted += 1;
        } else {
            refused += 1;
        }
    }
    (pass, Tally { granted, refused })
}

// What the joined pass says of what the threads counted.
fn expect_counted(rt: &impl Abort, pass: &Pass, one: &Tally, two: &Tally) {
    let granted = one.granted + two.granted;
    let refused = one.refused + two.refused;
    assert_eq!(rt; granted + refused, 2000);
    assert_eq!(rt;
        (pass.hold(Which::Request), pass.hold(Which::Parent)),
        (0, 0)
    );
    assert_eq!(rt; pass.granted(Which::Request), 10 * granted);
    assert_eq!(rt; pass.granted(Which::Parent), 10 * granted);
    assert_eq!(rt;
        (pass.trips(Which::Request), pass.trips(Which::Parent)),
        (refused, 0)
    );
}

#[test]
fn two_threads_count_what_the_passes_say(rt: HostRuntime) -> Result<(), Fail> {
    let limits = Limits {
        request: 10,
        fielddata: 10,
        inflight: 10,
        parent: 10,
    };
    let (words, a, b) = pair_of(rt.alloc(), limits, 20, 10)?;
    assert!(rt; a.hold(Which::Parent) == 0 && a.cap() == 10);
    assert!(rt; b.hold(Which::Parent) == 0 && b.cap() == 10);
    let ((mut a, one), (b, two)) = thread::join(&rt, || work(&words, a), || work(&words, b));
    join(&words, &mut a, b);
    expect_counted(&rt, &a, &one, &two);
    Ok(())
}
