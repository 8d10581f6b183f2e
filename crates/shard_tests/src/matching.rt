//! The rows that a query matches.
ghost use Rattle.std.specs.Prelude.{IfOk};
ghost use Rattle.shard_columns.specs.Built.{IsShardOf};
ghost use Rattle.shard_tests.specs.Example.{example_mapping};

use crate::sample::sample_shard;
use agg_model::{Boxed, Probe, Query, Text};
use column_query::{NumberSet, is_match, matched, matches, prepare};
use shard_columns::Shard;
use std::alloc::{AllocError, Global};
use std::process::Abort;
use std::test::Fail;

fn term(alloc: Global, word: &str) -> Result<Query, AllocError> {
    Ok(Query::Term {
        field: 0,
        value: Probe::Word(Text::of(alloc, word)?),
    })
}

/// Whether the document matches the query for a nested object with this word.
fn nested_term(alloc: Global, shard: &Shard, word: &str) -> Result<bool, AllocError>
    requires { IsShardOf example_mapping shard.now }
{
    let inner = Query::Term {
        field: 0,
        value: Probe::Word(Text::of(alloc, word)?),
    };
    let query = Query::Nested {
        path: 0,
        query: Boxed::new(alloc, inner)?,
    };
    let prepared = prepare(alloc, shard, &query)?;
    let bits = matched(alloc, shard, &query)?;
    if bits.len() != 1 || shard.len() == 0 {
        return Ok(false);
    }
    Ok(is_match(shard, &prepared, 0) && bits.get(0))
}

#[test]
fn a_document_matches_by_its_nested_objects(rt: HostRuntime) -> Result<(), Fail> {
    let alloc = rt.alloc();
    let shard = sample_shard(alloc)?;
    assert!(rt; nested_term(alloc, &shard, "mm")?);
    assert!(rt; !nested_term(alloc, &shard, "z")?);
    Ok(())
}

#[test]
fn a_row_matches_by_its_own_values(rt: HostRuntime) -> Result<(), Fail> {
    let alloc = rt.alloc();
    let shard = sample_shard(alloc)?;
    assert_eq!(rt; shard.len(), 4);
    let query = term(alloc, "mm")?;
    assert!(rt; !matches(&shard, &query, 0));
    assert!(rt; !matches(&shard, &query, 1));
    assert!(rt; matches(&shard, &query, 2));
    Ok(())
}

// Asserts that a set of the numbers has each of them, and none of the others.
fn expect_set(rt: &impl Abort, alloc: Global, numbers: &[i64], others: &[i64]) -> Result<(), Fail> {
    let set = NumberSet::of(alloc, Vec::from_slice(alloc, numbers)?)?;
    assert!(rt; numbers.iter().all(|number| set.contains(*number)));
    assert!(rt; !others.iter().any(|number| set.contains(*number)));
    Ok(())
}

const LEAST: i64 = i64::MIN;

const MOST: i64 = i64::MAX;

#[test]
fn a_set_has_the_numbers_of_its_list(rt: HostRuntime) -> Result<(), Fail> {
    let alloc = rt.alloc();
    expect_set(&rt, alloc, [].as_slice(), [LEAST, -1, 0, MOST].as_slice())?;
    expect_set(
        &rt,
        alloc,
        [MOST, -1, LEAST, 0].as_slice(),
        [LEAST + 1, -2, 1, MOST - 1].as_slice(),
    )?;
    // Repeats of a few that lie far apart, and of one.
    expect_set(
        &rt,
        alloc,
        [9_000, -70, 1, -70, 1, 1].as_slice(),
        [-71, -69, 0, 2, 8_999].as_slice(),
    )?;
    expect_set(
        &rt,
        alloc,
        [-7, -7, -7].as_slice(),
        [-8, -6, 0, 57].as_slice(),
    )?;
    // Close to one another at either end.
    expect_set(
        &rt,
        alloc,
        [LEAST + 64, LEAST, LEAST + 63].as_slice(),
        [LEAST + 1, LEAST + 65, LEAST + 128, MOST].as_slice(),
    )?;
    expect_set(
        &rt,
        alloc,
        [MOST, MOST - 64, MOST - 63].as_slice(),
        [MOST - 1, MOST - 65, 0, LEAST].as_slice(),
    )?;
    Ok(())
}

// Multiples of the step around 0, and the numbers behind them.
fn multiples(alloc: Global, step: i64) -> Result<(Vec<i64>, Vec<i64>), AllocError> {
    let mut numbers = Vec::new(alloc);
    let mut others = Vec::new(alloc);
    for place in -2_000..2_000 {
        let number = i64::saturating_mul(place, step);
        numbers.push(number)?;
        others.push(number.saturating_add(1))?;
    }
    Ok((numbers, others))
}

#[test]
fn a_set_has_the_numbers_of_a_long_list(rt: HostRuntime) -> Result<(), Fail> {
    let alloc = rt.alloc();
    for step in [3, 64, 65, 1_000_000].as_slice() {
        let (numbers, others) = multiples(alloc, *step)?;
        expect_set(&rt, alloc, numbers.as_slice(), others.as_slice())?;
    }
    Ok(())
}
