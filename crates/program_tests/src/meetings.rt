//! Tasks that run at the same time, and charges that meet.
use crate::cases::{Case, columns_of};
use crate::ends::Wanted;
use crate::pools::Account;
use crate::scripts::{seven_shards, two_shards};
use shard_pool::{Gate, OpenGate, Point};
use std::alloc::Global;
use std::process::Abort;
use std::test::Fail;
use std::thread::Threads;
use test_gates::{HeldBack, MAX_TURNS, Meeting};

const TERMS: &[&str] = &[r#"{"aggs":{"t":{"terms":{"field":"t"}}}}"#];

/// All seven shards, in one batch.
const WHOLE: Case = Case {
    limit: 1_000_000,
    size: 8,
    bodies: TERMS,
    ends: &[Wanted::Whole([20, 12, 8])],
    request: Account {
        held: 770,
        granted: 38_936,
        trips: 0,
    },
};

// Asserts that no task goes on before so many are claimed.
fn expect_met<R: Threads + Abort + Sync>(
    rt: &R,
    alloc: Global,
    workers: u32,
    due: u32,
) -> Result<(), Fail> {
    let gate = Meeting::new(due, MAX_TURNS);
    let script = seven_shards(alloc, 0)?;
    let _columns = columns_of(rt, alloc, script, workers, &WHOLE, &gate)?;
    assert!(rt; gate.have_met(), "{workers}");
    Ok(())
}

/// Each task is claimed by a worker of its own.
#[test]
fn tasks_meet(rt: HostRuntime) -> Result<(), Fail> {
    expect_met(&rt, rt.alloc(), 2, 2)?;
    expect_met(&rt, rt.alloc(), 64, 7)
}

/// The first amount of each task is 4,608 bytes. The result of shard 0, one word, costs 641.
const IN_ORDER: Case = Case {
    limit: 5_200,
    size: 512,
    bodies: TERMS,
    ends: &[Wanted::Stopped(641 + 4_608)],
    request: Account {
        held: 0,
        granted: 4_737,
        trips: 1,
    },
};

/// The result of shard 1, two words, costs 770.
const SECOND_FIRST: Case = Case {
    limit: 5_200,
    size: 512,
    bodies: TERMS,
    ends: &[Wanted::Stopped(770 + 4_608)],
    request: Account {
        held: 0,
        granted: 4_866,
        trips: 1,
    },
};

// Asserts how the search of two shards is refused.
fn expect_refused<G: Gate, R: Threads + Abort + Sync>(
    rt: &R,
    alloc: Global,
    workers: u32,
    case: &Case,
    gate: &G,
) -> Result<(), Fail> {
    let columns = columns_of(rt, alloc, two_shards(alloc, 0)?, workers, case, gate)?;
    // Three values of 8 bytes and three words of one byte, times 1.03, rounded up.
    assert_eq!(rt; columns, 28);
    Ok(())
}

#[test]
fn charges_meet(rt: HostRuntime) -> Result<(), Fail> {
    expect_refused(&rt, rt.alloc(), 1, &IN_ORDER, &OpenGate)?;
    let gate = HeldBack::new(0, Point::Collected, 1);
    expect_refused(&rt, rt.alloc(), 2, &SECOND_FIRST, &gate)?;
    assert!(rt; gate.has_released());
    Ok(())
}
