//! Charges that are refused, of one search and of two in one pool.
use crate::cases::{Case, columns_of};
use crate::ends::Wanted;
use crate::parts::Counts;
use crate::pools::Account;
use crate::scripts::{seven_empty_shards, seven_shards};
use shard_pool::{Gate, OpenGate, Point};
use std::alloc::Global;
use std::process::Abort;
use std::test::Fail;
use std::thread::Threads;
use test_gates::HeldBack;

/// One terms aggregation. A task begins with 4,608 bytes, and each word of its shard has 129 more.
const TERMS: &str = r#"{"aggs":{"t":{"terms":{"field":"t"}}}}"#;

/// The same, with partial results.
const PARTIAL: &str =
    r#"{"aggs":{"t":{"terms":{"field":"t"}}},"allow_partial_search_results":true}"#;

/// Two terms aggregations: 5,120 bytes, and 258 for each word.
const TWICE: &str = r#"{"aggs":{"t":{"terms":{"field":"t"}},"u":{"terms":{"field":"t"}}}}"#;

/// Hits alone: 4,096 bytes, and nothing at the end.
const HITS: &str = "{}";

/// What a search with one terms aggregation is granted in one batch: 33,804 for its tasks, and 5,132 for their merge.
const GRANTED: u64 = 38_936;

const ALL: Counts = [20, 12, 8];

fn check<G: Gate, R: Threads + Abort + Sync>(
    rt: &R,
    alloc: Global,
    workers: u32,
    case: &Case,
    gate: &G,
) -> Result<(), Fail> {
    let _columns = columns_of(rt, alloc, seven_shards(alloc, 0)?, workers, case, gate)?;
    Ok(())
}

/// One worker runs the tasks in their order.
const IN_ORDER: [Case; 6] = [
    // The results of shards 0, 1 and 2 are held, 770 bytes each. Shard 3 begins at 6,918, and its word is 129 too much.
    Case {
        limit: 7_000,
        size: 8,
        bodies: &[TERMS],
        ends: &[Wanted::Stopped(7_047)],
        request: Account {
            held: 0,
            granted: 3 * 4_866 + 4_608,
            trips: 1,
        },
    },
    // Batches of two hold less: of shards 0 to 3 the two merged results, and that of shard 4.
    Case {
        limit: 7_000,
        size: 2,
        bodies: &[TERMS],
        ends: &[Wanted::Stopped(7_047)],
        request: Account {
            held: 0,
            granted: 4 * 4_866 + 4_737 + 4_608 + 1_540 + 1_411,
            trips: 1,
        },
    },
    // Each of the four shards that are left out is refused as the first of them.
    Case {
        limit: 7_000,
        size: 8,
        bodies: &[PARTIAL],
        ends: &[Wanted::Without(&[3, 4, 5, 6], 7_047, [9, 5, 4])],
        request: Account {
            held: 770,
            granted: 3 * 4_866 + 4 * 4_608 + 2_310,
            trips: 4,
        },
    },
    // Shards 0 and 1, 2 and 3; shard 4 alone in the batch of the first that is left out.
    Case {
        limit: 7_000,
        size: 2,
        bodies: &[PARTIAL],
        ends: &[Wanted::Without(&[5, 6], 7_047, [16, 9, 7])],
        request: Account {
            held: 3 * 770,
            granted: 4 * 4_866 + 4_737 + 2 * 4_608 + 1_540 + 1_411,
            trips: 2,
        },
    },
    // A search that is stopped, at its shard 4 with 5,902 bytes held, gives all back, and the next one is whole.
    Case {
        limit: 11_000,
        size: 8,
        bodies: &[TWICE, TERMS],
        ends: &[Wanted::Stopped(11_022), Wanted::Whole(ALL)],
        request: Account {
            held: 770,
            granted: 3 * 5_636 + 5_378 + GRANTED,
            trips: 1,
        },
    },
    // Shards that one search leaves out are there for the next.
    Case {
        limit: 7_000,
        size: 8,
        bodies: &[PARTIAL, HITS],
        ends: &[
            Wanted::Without(&[3, 4, 5, 6], 7_047, [9, 5, 4]),
            Wanted::Whole([20, 0, 0]),
        ],
        request: Account {
            held: 770,
            granted: 3 * 4_866 + 4 * 4_608 + 2_310 + 7 * 4_096,
            trips: 4,
        },
    },
];

#[test]
fn one_worker_is_refused_at_the_first_total_above_the_limit(rt: HostRuntime) -> Result<(), Fail> {
    for case in &IN_ORDER {
        check(&rt, rt.alloc(), 1, case, &OpenGate)?;
    }
    Ok(())
}

/// Two searches that are both whole where their tasks are run in order: then 11,034 bytes are the most, at the second merge.
const BOTH_WHOLE: Case = Case {
    limit: 12_000,
    size: 8,
    bodies: &[TERMS, TERMS],
    ends: &[Wanted::Whole(ALL), Wanted::Whole(ALL)],
    request: Account {
        held: 2 * 770,
        granted: 2 * GRANTED,
        trips: 0,
    },
};

/// Where the first search's first task is held until the second search has ended, the other worker holds 4,362 bytes of
/// the first search while it runs the second, whose shards 0 to 3 cost 2,951. Shard 4 begins at 11,921.
const HELD_UP: [Case; 2] = [
    Case {
        limit: 12_000,
        size: 8,
        bodies: &[TERMS, TERMS],
        ends: &[Wanted::Whole(ALL), Wanted::Stopped(12_050)],
        request: Account {
            held: 770,
            granted: GRANTED + 3 * 4_866 + 4_737 + 4_608,
            trips: 1,
        },
    },
    Case {
        limit: 12_000,
        size: 8,
        bodies: &[TERMS, PARTIAL],
        ends: &[
            Wanted::Whole(ALL),
            Wanted::Without(&[4, 5, 6], 12_050, [12, 8, 4]),
        ],
        request: Account {
            held: 2 * 770,
            granted: GRANTED + 3 * 4_866 + 4_737 + 3 * 4_608 + 2_951,
            trips: 3,
        },
    },
];

// Asserts how the searches of a case end where the first task is held until the second search has merged its batch.
fn check_held_up<R: Threads + Abort + Sync>(
    rt: &R,
    alloc: Global,
    case: &Case,
) -> Result<(), Fail> {
    let gate = HeldBack::new(0, Point::Merged, 1);
    check(rt, alloc, 2, case, &gate)?;
    assert!(rt; gate.has_released());
    Ok(())
}

#[test]
fn a_refusal_stops_its_own_search_and_no_other(rt: HostRuntime) -> Result<(), Fail> {
    check(&rt, rt.alloc(), 1, &BOTH_WHOLE, &OpenGate)?;
    for case in &HELD_UP {
        check_held_up(&rt, rt.alloc(), case)?;
    }
    Ok(())
}

/// Sixteen levels of three filters: 64,570,080 buckets that exist from the start, of 19,284,930,560 bytes.
const FILTERS: &str = r#"{"aggs":
{"a":{"filters":{"filters":[{"match_all":{}},{"match_all":{}},{"match_all":{}}]},"aggs":
{"a":{"filters":{"filters":[{"match_all":{}},{"match_all":{}},{"match_all":{}}]},"aggs":
{"a":{"filters":{"filters":[{"match_all":{}},{"match_all":{}},{"match_all":{}}]},"aggs":
{"a":{"filters":{"filters":[{"match_all":{}},{"match_all":{}},{"match_all":{}}]},"aggs":
{"a":{"filters":{"filters":[{"match_all":{}},{"match_all":{}},{"match_all":{}}]},"aggs":
{"a":{"filters":{"filters":[{"match_all":{}},{"match_all":{}},{"match_all":{}}]},"aggs":
{"a":{"filters":{"filters":[{"match_all":{}},{"match_all":{}},{"match_all":{}}]},"aggs":
{"a":{"filters":{"filters":[{"match_all":{}},{"match_all":{}},{"match_all":{}}]},"aggs":
{"a":{"filters":{"filters":[{"match_all":{}},{"match_all":{}},{"match_all":{}}]},"aggs":
{"a":{"filters":{"filters":[{"match_all":{}},{"match_all":{}},{"match_all":{}}]},"aggs":
{"a":{"filters":{"filters":[{"match_all":{}},{"match_all":{}},{"match_all":{}}]},"aggs":
{"a":{"filters":{"filters":[{"match_all":{}},{"match_all":{}},{"match_all":{}}]},"aggs":
{"a":{"filters":{"filters":[{"match_all":{}},{"match_all":{}},{"match_all":{}}]},"aggs":
{"a":{"filters":{"filters":[{"match_all":{}},{"match_all":{}},{"match_all":{}}]},"aggs":
{"a":{"filters":{"filters":[{"match_all":{}},{"match_all":{}},{"match_all":{}}]},"aggs":
{"a":{"filters":{"filters":[{"match_all":{}},{"match_all":{}},{"match_all":{}}]}}}}}}}}}}}}}}}}}}}}}}}}}}}}}}}}}}"#;

/// A shard without documents charges what others do, and its empty trees before any is built.
const WITHOUT_DOCUMENTS: [Case; 2] = [
    // Each task answers its empty tree, of 512 bytes, and these are merged.
    Case {
        limit: 8_000,
        size: 8,
        bodies: &[TERMS],
        ends: &[Wanted::Whole([0, 0, 0])],
        request: Account {
            held: 512,
            granted: 7 * 4_608 + 7 * 512,
            trips: 0,
        },
    },
    Case {
        limit: 1_000_000,
        size: 8,
        bodies: &[FILTERS],
        ends: &[Wanted::Stopped(19_284_934_656)],
        request: Account {
            held: 0,
            granted: 0,
            trips: 1,
        },
    },
];

#[test]
fn shards_without_documents_charge_their_empty_trees(rt: HostRuntime) -> Result<(), Fail> {
    for case in &WITHOUT_DOCUMENTS {
        let script = seven_empty_shards(rt.alloc())?;
        let _columns = columns_of(&rt, rt.alloc(), script, 1, case, &OpenGate)?;
    }
    Ok(())
}
