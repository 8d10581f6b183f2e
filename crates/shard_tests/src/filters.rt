//! The keys of rows at filters, filter and missing.
ghost use Rattle.std.specs.Prelude.{IfOk};
ghost use Rattle.filters_agg.specs.Filtering.{IsFiltering};

use crate::sample::sample_shard;
use agg_model::{Key, Kind, List, Probe, Query, Text};
use filters_agg::{key_count, keys};
use shard_columns::Shard;
use std::alloc::{AllocError, Global};
use std::process::Abort;
use std::test::Fail;

fn term(alloc: Global, word: &str) -> Result<Query, AllocError> {
    Ok(Query::Term {
        field: 0,
        value: Probe::Word(Text::of(alloc, word)?),
    })
}

// The filters "k" and "z", with or without an other bucket.
fn filters(alloc: Global, has_other: bool) -> Result<Kind, AllocError>
    ensures { IfOk result (λ k. IsFiltering k) }
{
    let mut filters = List::new(alloc);
    filters.push(term(alloc, "k")?)?;
    filters.push(term(alloc, "z")?)?;
    let other = if has_other {
        Some(Text::of(alloc, "rest")?)
    } else {
        None
    };
    Ok(Kind::Filters {
        names: None,
        filters,
        other,
    })
}

// The number of the only key, if there is one key and it is a number's.
fn only_number(keys: &[Key]) -> Option<u32> {
    match keys {
        [Key::Fixed(number)] => Some(*number),
        _ => None,
    }
}

// Asserts that the row has the one key of this number, or none.
fn expect_key(
    rt: &impl Abort,
    alloc: Global,
    shard: &Shard,
    row: u32,
    kind: &Kind,
    number: Option<u32>,
) -> Result<(), Fail>
    requires filtering { IsFiltering kind.now }
{
    assert!(rt; row < shard.len());
    let found = keys(alloc, shard, row, kind)?;
    assert_eq!(rt; found.len(), number.is_some() as usize);
    assert_eq!(rt; only_number(found.as_slice()), number);
    assert_eq!(rt; key_count(shard, row, kind), found.len() as u64);
    Ok(())
}

#[test]
fn keys_of_rows(rt: HostRuntime) -> Result<(), Fail> {
    let alloc = rt.alloc();
    let shard = sample_shard(alloc)?;
    let with_other = filters(alloc, true)?;
    expect_key(&rt, alloc, &shard, 0, &with_other, Some(2))?;
    expect_key(&rt, alloc, &shard, 1, &with_other, Some(0))?;
    let alone = filters(alloc, false)?;
    expect_key(&rt, alloc, &shard, 0, &alone, None)?;
    expect_key(&rt, alloc, &shard, 1, &alone, Some(0))?;
    let filter = Kind::Filter {
        query: term(alloc, "mm")?,
    };
    expect_key(&rt, alloc, &shard, 1, &filter, None)?;
    expect_key(&rt, alloc, &shard, 2, &filter, Some(0))?;
    let missing = Kind::Missing { field: 0 };
    expect_key(&rt, alloc, &shard, 0, &missing, Some(0))?;
    expect_key(&rt, alloc, &shard, 1, &missing, None)?;
    Ok(())
}
