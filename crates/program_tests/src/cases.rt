//! Pools whose searches are to end so.
use crate::ends::{Wanted, has_ended};
use crate::pools::{Account, Call, Ran, run};
use agg_model::{Bytes, List};
use shard_pool::{Gate, SearchEnd};
use std::alloc::Global;
use std::process::Abort;
use std::test::Fail;
use std::thread::Threads;

/// The searches of a pool, how each is to end, and what the caller's pass has then.
pub(crate) struct Case {
    /// The limit of the request breaker, in bytes.
    pub(crate) limit: u64,
    /// The batch, 2 or more.
    pub(crate) size: u32,
    pub(crate) bodies: &'static [&'static str],
    pub(crate) ends: &'static [Wanted],
    pub(crate) request: Account,
}

// Asserts how each search ended.
fn expect_ends(
    rt: &impl Abort,
    alloc: Global,
    ends: List<SearchEnd>,
    case: &Case,
) -> Result<(), Fail> {
    assert_eq!(rt; ends.len(), case.ends.len());
    for (end, wanted) in ends.into_vec().into_iter().zip(case.ends) {
        assert!(rt;
            has_ended(alloc, end, case.limit, *wanted)?,
            "{}",
            case.limit
        );
    }
    Ok(())
}

/// Runs the searches of a case, asserts how each ended and what the pass has then, and gives what it holds for the columns, in bytes.
pub(crate) fn columns_of<G: Gate, R: Threads + Abort + Sync>(
    rt: &R,
    alloc: Global,
    script: Bytes,
    workers: u32,
    case: &Case,
    gate: &G,
) -> Result<u64, Fail> {
    let call = Call {
        limit: case.limit,
        workers,
        size: case.size,
        bodies: case.bodies,
    };
    let Ran {
        ends,
        request,
        columns,
    } = run(rt, alloc, script, call, gate)?;
    expect_ends(rt, alloc, ends?, case)?;
    assert_eq!(rt; request, case.request, "{workers}");
    Ok(columns)
}
