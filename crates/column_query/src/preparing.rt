//! Preparing a query for a shard.
ghost use Rattle.std.specs.Prelude.{◌≡◌, ◌<◌, length, true, IfOk, OnOk};
ghost use Rattle.std.specs.List.{list_all};
ghost use Rattle.shard_columns.specs.Built.{IsShard};
ghost use Rattle.column_query.specs.Made.{IsMade};
ghost use Rattle.column_query.specs.Prepared.{AddsNumber, StandForAll, TestsFor, BoundAsAll, HasIds, IsReady, AreReady};
ghost use Rattle.agg_evaluation.specs.Conditions.{looks_below};

use crate::bounds::{Bound, bound_of};
use crate::number_set::NumberSet;
use crate::numbers::number_of_probe;
use crate::prepared::{NumberTest, Prepared};
use agg_model::{Boxed, List, Probe, Query, RangeTest, Text};
use shard_columns::Shard;
use std::alloc::{AllocError, Global};
use std::collections::BTreeSet;

fn put(numbers: &mut Vec<i64>, number: Option<i64>) -> Result<(), AllocError>
    ensures { OnOk result (AddsNumber numbers.old.items number numbers.new.items) }
{
    if let Some(number) = number {
        numbers.push(number)?;
    }
    Ok(())
}

fn numbers_of(
    alloc: Global,
    shard: &Shard,
    field: u32,
    probes: &[Probe],
) -> Result<Vec<i64>, AllocError>
    requires built { IsShard shard.now }
    requires known { field < length shard.now.kinds }
    ensures { IfOk result (λ numbers. StandForAll shard.now.rows field probes.now numbers.items) }
{
    let mut numbers = Vec::with_capacity(alloc, probes.len())?;
    for probe in probes {
        put(&mut numbers, number_of_probe(shard, field, probe))?;
    }
    Ok(numbers)
}

// Where no row has a value, none of the list is looked up.
fn list_test(
    alloc: Global,
    shard: &Shard,
    field: u32,
    probes: &[Probe],
) -> Result<NumberTest, AllocError>
    requires built { IsShard shard.now }
    requires known { field < length shard.now.kinds }
    ensures { IfOk result (λ test. TestsFor shard.now.rows field probes.now test) }
{
    if shard.most_values(field) == 0 {
        return Ok(NumberTest::Is(None));
    }
    let numbers = numbers_of(alloc, shard, field, probes)?;
    Ok(NumberTest::OneOf(NumberSet::of(alloc, numbers)?))
}

fn bounds_of(
    alloc: Global,
    shard: &Shard,
    field: u32,
    tests: &[RangeTest],
) -> Result<Vec<Bound>, AllocError>
    requires { field < length shard.now.kinds }
    ensures { IfOk result (λ bounds. BoundAsAll shard.now.rows field tests.now bounds.items) }
{
    let mut bounds = Vec::new(alloc);
    for test in tests {
        bounds.push(bound_of(shard, field, test))?;
    }
    Ok(bounds)
}

fn ids_of(alloc: Global, values: &[Text]) -> Result<BTreeSet<Vec<u8>>, AllocError>
    ensures { IfOk result (λ ids. HasIds values.now ids.keys) }
{
    let mut ids = BTreeSet::new(alloc);
    for value in values {
        ids.insert(Vec::from_slice(alloc, value.as_str().as_bytes())?)?;
    }
    Ok(ids)
}

#[cycle(prepare_query)]
fn prepare_all(
    alloc: Global,
    shard: &Shard,
    queries: &List<Query>,
) -> Result<List<Prepared>, AllocError>
    requires built { IsShard shard.now }
    requires looks { list_all (looks_below (length shard.now.kinds)) queries.now ≡ true }
    ensures { IfOk result (λ prepared. AreReady shard.now queries.now prepared) }
{
    let mut prepared = List::new(alloc);
    for query in queries.as_slice() {
        prepared.push(prepare_query(alloc, shard, query)?)?;
    }
    Ok(prepared)
}

/// The query, which looks at fields of the shard, prepared for it.
#[cycle(prepare_query)]
pub(crate) fn prepare_query(
    alloc: Global,
    shard: &Shard,
    query: &Query,
) -> Result<Prepared, AllocError>
    requires built { IsShard shard.now }
    requires looks { looks_below (length shard.now.kinds) query.now ≡ true }
    ensures { IfOk result (λ prepared. IsReady shard.now query.now prepared) }
{
    match query {
        Query::All => Ok(Prepared::All),
        Query::Term { field, value } => Ok(Prepared::Values {
            field: *field,
            test: NumberTest::Is(number_of_probe(shard, *field, value)),
        }),
        Query::Terms { field, values } => Ok(Prepared::Values {
            field: *field,
            test: list_test(alloc, shard, *field, values.as_slice())?,
        }),
        Query::Range { field, tests } => Ok(Prepared::Values {
            field: *field,
            test: NumberTest::Within(bounds_of(alloc, shard, *field, tests.as_slice())?),
        }),
        Query::Exists { field } => Ok(Prepared::Exists { field: *field }),
        Query::Ids { values } => Ok(Prepared::Ids {
            ids: ids_of(alloc, values.as_slice())?,
        }),
        Query::Bool {
            must,
            must_not,
            should,
            minimum,
        } => Ok(Prepared::Bool {
            must: prepare_all(alloc, shard, must)?,
            must_not: prepare_all(alloc, shard, must_not)?,
            should: prepare_all(alloc, shard, should)?,
            minimum: *minimum,
        }),
        Query::Nested { path, query } => Ok(Prepared::Nested {
            path: *path,
            query: Boxed::new(alloc, prepare_query(alloc, shard, query.get())?)?,
        }),
    }
}

/// The query, prepared for the shard, for whose mapping it is made. It names fields and nested paths by their places in the
/// mapping, and may be asked of rows of any one context.
pub fn prepare(alloc: Global, shard: &Shard, query: &Query) -> Result<Prepared, AllocError>
    requires { IsMade shard.now query.now }
    ensures { IfOk result (λ prepared. IsReady shard.now query.now prepared) }
{
    prepare_query(alloc, shard, query)
}
