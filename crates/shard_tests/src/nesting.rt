//! The rows at a nested path.
use crate::sample::sample_shard;
use nested_agg::rows_beneath;
use shard_columns::Shard;
use std::alloc::Global;
use std::process::Abort;
use std::test::Fail;

// Asserts what lies at the path within two rows, one behind the other.
fn expect_beneath(
    rt: &impl Abort,
    alloc: Global,
    shard: &Shard,
    first: u32,
    second: u32,
    rows: &[u32],
) -> Result<(), Fail> {
    assert!(rt; first < shard.len() && second < shard.len());
    let found = rows_beneath(alloc, shard, 0, [first, second].as_slice())?;
    assert_eq!(rt; found.as_slice(), rows);
    Ok(())
}

#[test]
fn rows_at_a_path_within_rows(rt: HostRuntime) -> Result<(), Fail> {
    let alloc = rt.alloc();
    let shard = sample_shard(alloc)?;
    assert!(rt; rows_beneath(alloc, &shard, 0, [].as_slice())?.is_empty());
    expect_beneath(&rt, alloc, &shard, 0, 2, [1, 2, 3, 2].as_slice())
}
