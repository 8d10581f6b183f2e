//! Each read and each write of a run fails, one after another.

use crate::runs::{
    Ended, FailedCalls, INDEX, ONE_ANSWER, ONE_BODY, Setup, are_first_lines, expect_end, is_front,
    joined, line_count, run_in_memory,
};
use std::alloc::{AllocError, Global};
use std::process::Abort;
use std::test::Fail;
use std::thread::Threads;
use worker_gate::OpenGate;

/// More calls than any of the runs below has.
const MANY: u64 = 10_000;

/// What a script is answered where nothing fails.
struct Case {
    rest: &'static str,
    output: &'static str,
    status: u8,
}

/// A script that is answered to its end, and one that is refused behind an answer.
const CASES: [Case; 2] = [
    Case {
        rest: ONE_BODY,
        output: ONE_ANSWER,
        status: 0,
    },
    Case {
        rest: r#"


{}
{"aggs":{"t":{"terms":{"field":"t"}}}}
{}
"#,
        output: r#"{"errors":false,"items":[],"took":0}
{"_shards":{"failed":0,"skipped":0,"successful":1,"total":1},"aggregations":{"t":{"buckets":[],"doc_count_error_upper_bound":0,"sum_other_doc_count":0}},"hits":{"hits":[],"max_score":null,"total":{"relation":"eq","value":0}},"status":200,"timed_out":false,"took":0}
{"error":{"line":6,"number":36,"type":"missing_body"},"status":5}
"#,
        status: 5,
    },
];

/// Runs a case in which these calls fail.
fn run_case<R: Threads + Sync>(
    rt: &R,
    alloc: Global,
    case: &Case,
    piece: usize,
    faults: FailedCalls,
) -> Result<Ended, AllocError> {
    let setup = Setup {
        words: &[],
        piece,
        faults,
        rooms: &[],
    };
    run_in_memory(
        rt,
        alloc,
        joined(alloc, INDEX, case.rest)?,
        setup,
        &OpenGate,
    )
}

// Lets a read fail, where the run before it wrote so many lines, and gives how many are written now: the later the read that fails,
// the more. None where no read failed: then all is written, one line more than before.
fn expect_front<R: Abort + Threads + Sync>(
    rt: &R,
    alloc: Global,
    case: &Case,
    piece: usize,
    call: u64,
    before: usize,
) -> Result<Option<usize>, Fail> {
    let faults = FailedCalls {
        read: Some(call),
        write: None,
    };
    let ended = run_case(rt, alloc, case, piece, faults)?;
    let written = ended.sink.written();
    let lines = line_count(written);
    if ended.status != 3 {
        expect_end(rt, &ended, case.status, case.output);
        assert!(rt; before.checked_add(1) == Some(lines));
        return Ok(None);
    }
    assert!(rt; are_first_lines(written, case.output.as_bytes()), "{call}");
    assert!(rt; before <= lines, "{call}");
    Ok(Some(lines))
}

/// Lets one read after another fail, and answers how many could.
fn failed_reads<R: Abort + Threads + Sync>(
    rt: &R,
    alloc: Global,
    case: &Case,
    piece: usize,
) -> Result<u64, Fail> {
    let mut lines = 0usize;
    for call in 0..MANY {
        match expect_front(rt, alloc, case, piece, call, lines)? {
            Some(more) => lines = more,
            None => return Ok(call),
        }
    }
    Ok(MANY)
}

// Lets a write fail, and tells whether there was one; all is written where there was none.
fn expect_cut<R: Abort + Threads + Sync>(
    rt: &R,
    alloc: Global,
    case: &Case,
    piece: usize,
    call: u64,
) -> Result<bool, Fail> {
    let faults = FailedCalls {
        read: None,
        write: Some(call),
    };
    let ended = run_case(rt, alloc, case, piece, faults)?;
    if ended.status != 4 {
        expect_end(rt, &ended, case.status, case.output);
        return Ok(false);
    }
    let written = ended.sink.written();
    assert!(rt; is_front(written, case.output.as_bytes()), "{call}");
    assert!(rt; written.len() < case.output.len(), "{call}");
    Ok(true)
}

/// Lets one write after another fail, and answers how many could.
fn failed_writes<R: Abort + Threads + Sync>(
    rt: &R,
    alloc: Global,
    case: &Case,
    piece: usize,
) -> Result<u64, Fail> {
    for call in 0..MANY {
        if !expect_cut(rt, alloc, case, piece, call)? {
            return Ok(call);
        }
    }
    Ok(MANY)
}

/// How many calls it takes at least to move so many bytes.
fn calls_of(bytes: usize, piece: usize) -> u64 {
    bytes.div_ceil(piece.max(1)) as u64
}

// Asserts that at least as many reads fail as it takes to see all bytes and then the end, and as many writes as all lines take.
fn expect_faults<R: Abort + Threads + Sync>(
    rt: &R,
    alloc: Global,
    case: &Case,
    piece: usize,
) -> Result<(), Fail> {
    let input = joined(alloc, INDEX, case.rest)?;
    let reads = calls_of(input.len(), piece);
    let failed = failed_reads(rt, alloc, case, piece)?;
    assert!(rt;
        reads < failed && failed < MANY,
        "{failed} of reads of {piece}"
    );
    let writes = calls_of(case.output.len(), piece);
    let failed = failed_writes(rt, alloc, case, piece)?;
    assert!(rt;
        writes <= failed && failed < MANY,
        "{failed} of writes of {piece}"
    );
    Ok(())
}

#[test]
fn no_fault_is_swallowed(rt: HostRuntime) -> Result<(), Fail> {
    for case in &CASES {
        for piece in [1usize, 7, 65_536] {
            expect_faults(&rt, rt.alloc(), case, piece)?;
        }
    }
    Ok(())
}
