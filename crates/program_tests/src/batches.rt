//! A search of seven shards, in batches of 8 and of 2.
use crate::parts::{Counts, cost_of, counts_of, counts_of_all};
use crate::pools::{Account, Call, Ran, run};
use crate::scripts::seven_shards;
use agg_model::{List, Partial};
use shard_pool::{Gate, OpenGate, Point, SearchEnd};
use std::alloc::Global;
use std::process::Abort;
use std::test::Fail;
use std::thread::Threads;
use test_gates::HeldBack;

/// The columns: 20 values of 8 bytes, `a` in seven dictionaries and `b` in five; times 1.03, rounded up.
const COLUMNS: u64 = 178;

/// What the tasks are granted: 4,096 and 512 each, and 128 and a byte for each word of a shard.
const TASKS: u64 = 7 * (4_096 + 512) + 12 * 129;

/// What the results of the seven shards cost.
const RESULTS: u64 = 7 * 512 + 12 * 129;

/// What a result with both words costs, and one with a single word.
const BOTH: u64 = 512 + 2 * 129;

const ONE: u64 = 512 + 129;

/// All documents, those with `a`, and those with `b`.
const ALL: Counts = [20, 12, 8];

// The parts of the only search, which is not refused.
fn only_parts(rt: &impl Abort, ends: List<SearchEnd>) -> Result<List<Partial>, Fail> {
    let mut ends = ends.into_vec();
    let Some(end) = ends.pop() else {
        return Err(Fail::new("no end"));
    };
    assert!(rt; ends.is_empty() && end.refused.is_none() && !end.memory && end.failures.is_empty());
    Ok(end.parts)
}

/// Runs the search, and gives its parts and what the pass has then.
fn ran<G: Gate, R: Threads + Abort + Sync>(
    rt: &R,
    alloc: Global,
    workers: u32,
    size: u32,
    gate: &G,
) -> Result<(List<Partial>, Account), Fail> {
    let call = Call {
        limit: 1_000_000,
        workers,
        size,
        bodies: &[r#"{"aggs":{"t":{"terms":{"field":"t"}}}}"#],
    };
    let Ran {
        ends,
        request,
        columns,
    } = run(rt, alloc, seven_shards(alloc, 0)?, call, gate)?;
    assert_eq!(rt; columns, COLUMNS);
    Ok((only_parts(rt, ends?)?, request))
}

fn counts_by_part(alloc: Global, parts: &List<Partial>) -> Result<Vec<Counts>, Fail> {
    let mut all = Vec::new(alloc);
    for part in parts.as_slice() {
        all.push(counts_of(part))?;
    }
    Ok(all)
}

/// The batch, the counts of each part, and what the pass has then.
struct Batches {
    size: u32,
    counts: &'static [Counts],
    request: Account,
}

/// One batch of all results, whoever brought which.
const ONE_BATCH: Batches = Batches {
    size: 8,
    counts: &[ALL],
    request: Account {
        held: BOTH,
        granted: TASKS + RESULTS,
        trips: 0,
    },
};

/// Shards 0 and 1, 2 and 3, 4 and 5; 6 alone, which has `a` only.
const IN_ORDER: Batches = Batches {
    size: 2,
    counts: &[[6, 4, 2], [6, 4, 2], [6, 2, 4], [2, 2, 0]],
    request: Account {
        held: 3 * BOTH + ONE,
        granted: TASKS + RESULTS - ONE,
        trips: 0,
    },
};

/// Shards 1 and 2, 3 and 4, 5 and 6; 0 alone, which has both words.
const FIRST_LAST: Batches = Batches {
    size: 2,
    counts: &[[5, 2, 3], [7, 4, 3], [4, 3, 1], [4, 3, 1]],
    request: Account {
        held: 4 * BOTH,
        granted: TASKS + RESULTS - BOTH,
        trips: 0,
    },
};

// Asserts the parts, and what the pass has.
fn expect<G: Gate, R: Threads + Abort + Sync>(
    rt: &R,
    alloc: Global,
    workers: u32,
    wanted: &Batches,
    gate: &G,
) -> Result<(), Fail> {
    let (parts, request) = ran(rt, alloc, workers, wanted.size, gate)?;
    let counts = counts_by_part(alloc, &parts)?;
    assert_eq!(rt; counts.as_slice(), wanted.counts, "{workers}");
    assert_eq!(rt; request, wanted.request, "{workers}");
    Ok(())
}

// The same where the first task is the last one that is collected.
fn expect_held_back<R: Threads + Abort + Sync>(
    rt: &R,
    alloc: Global,
    workers: u32,
    wanted: &Batches,
) -> Result<(), Fail> {
    let gate = HeldBack::new(0, Point::Collected, 6);
    expect(rt, alloc, workers, wanted, &gate)?;
    assert!(rt; gate.has_released());
    Ok(())
}

#[test]
fn one_batch_is_the_whole_whoever_brings_it(rt: HostRuntime) -> Result<(), Fail> {
    for workers in [1, 3, 64] {
        expect(&rt, rt.alloc(), workers, &ONE_BATCH, &OpenGate)?;
    }
    expect_held_back(&rt, rt.alloc(), 64, &ONE_BATCH)
}

#[test]
fn batches_of_two_are_those_of_the_arrivals(rt: HostRuntime) -> Result<(), Fail> {
    expect(&rt, rt.alloc(), 1, &IN_ORDER, &OpenGate)?;
    expect_held_back(&rt, rt.alloc(), 2, &FIRST_LAST)
}

// Asserts what was granted. The result that stays alone in its batch is not charged once more: it has one word or both.
fn expect_granted(rt: &impl Abort, granted: u64) {
    let alone = (TASKS + RESULTS).saturating_sub(granted);
    assert!(rt; alone == ONE || alone == BOTH, "{alone}");
}

// Asserts that the parts add up to the whole.
fn expect_whole<R: Threads + Abort + Sync>(
    rt: &R,
    alloc: Global,
    workers: u32,
) -> Result<(), Fail> {
    let (parts, request) = ran(rt, alloc, workers, 2, &OpenGate)?;
    assert_eq!(rt; parts.len(), 4);
    assert_eq!(rt; request.held, cost_of(parts.as_slice()));
    expect_granted(rt, request.granted);
    assert_eq!(rt; counts_of_all(alloc, parts)?, Some(ALL));
    Ok(())
}

#[test]
fn parts_of_any_arrivals_add_up(rt: HostRuntime) -> Result<(), Fail> {
    expect_whole(&rt, rt.alloc(), 3)?;
    expect_whole(&rt, rt.alloc(), 64)
}
