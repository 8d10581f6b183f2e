//! Want of memory. For runs outside the gate in which one allocation after another fails: `rt try --test --fail-alloc N`.
use crate::ends::{Wanted, has_ended};
use crate::pools::{Account, Call, Ran, run};
use crate::scripts::seven_shards;
use agg_model::List;
use shard_pool::{OpenGate, SearchEnd};
use std::alloc::{AllocError, Global};
use std::process::Abort;
use std::test::Fail;
use std::thread::Threads;

const TERMS: &str = r#"{"aggs":{"t":{"terms":{"field":"t"}}}}"#;

/// What is held for a search: nothing where it says that memory ran out, and has no parts; 770 bytes where it is answered whole;
/// none where it ended otherwise.
fn held_for(alloc: Global, end: SearchEnd, limit: u64) -> Result<Option<u64>, AllocError> {
    if end.memory {
        let is_empty = end.parts.is_empty() && end.refused.is_none();
        return Ok(is_empty.then_some(0));
    }
    let is_whole = has_ended(alloc, end, limit, Wanted::Whole([20, 12, 8]))?;
    Ok(is_whole.then_some(770))
}

/// What is held for all searches; none where one of them ended otherwise.
fn held_for_all(
    alloc: Global,
    ends: List<SearchEnd>,
    limit: u64,
) -> Result<Option<u64>, AllocError> {
    let mut all = 0u64;
    for end in ends.into_vec() {
        let Some(held) = held_for(alloc, end, limit)? else {
            return Ok(None);
        };
        all = all.saturating_add(held);
    }
    Ok(Some(all))
}

/// What a pass has that charged nothing.
const NOTHING: Account = Account {
    held: 0,
    granted: 0,
    trips: 0,
};

// Asserts that the pass holds what is held for the searches, and nothing where memory ran out before the pool was open.
fn expect_held<R: Threads + Abort + Sync>(rt: &R, alloc: Global, workers: u32) -> Result<(), Fail> {
    let call = Call {
        limit: 1_000_000,
        workers,
        size: 8,
        bodies: &[TERMS, TERMS],
    };
    let Ran { ends, request, .. } = run(rt, alloc, seven_shards(alloc, 0)?, call, &OpenGate)?;
    match ends {
        Ok(ends) => {
            let held = held_for_all(alloc, ends, call.limit)?;
            assert_eq!(rt; held, Some(request.held), "{workers}");
            assert_eq!(rt; request.trips, 0, "{workers}");
        }
        Err(AllocError) => assert_eq!(rt; request, NOTHING, "{workers}"),
    }
    Ok(())
}

/// With ample memory both searches are answered.
#[test]
fn where_memory_runs_out_a_search_says_so(rt: HostRuntime) -> Result<(), Fail> {
    expect_held(&rt, rt.alloc(), 1)?;
    expect_held(&rt, rt.alloc(), 3)
}
