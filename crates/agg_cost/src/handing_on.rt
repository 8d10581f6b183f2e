//! The rows that an aggregation hands on to its children, and how many paths of keys lead to each.
ghost use Rattle.std.specs.Prelude.{◌≡◌, ◌+◌, IfOk, IsTrue, length, true};
ghost use Rattle.agg_cost.specs.Paths.{reached_by, AreAlike, AreBelow};
ghost use Rattle.agg_cost.specs.Staying.{stays};
ghost use Rattle.agg_evaluation.specs.Ceiling.{handed_on};
ghost use Rattle.agg_model.specs.declared.aggregation.Kind.TheVariants.{Nested as NestedKind};
ghost use Rattle.agg_evaluation.specs.Counted.{IsApart};
ghost use Rattle.filters_agg.specs.Filtering.{IsMadeFor};
ghost use Rattle.nested_agg.specs.Nesting.{goes_by_nesting};
ghost use Rattle.shard_columns.specs.Built.{IsShard};

use crate::key_counts::{counter_of, key_count};
use crate::paths::{RowPaths, put};
use agg_model::{Kind, List};
use nested_agg::under;
use shard_columns::Shard;
use std::alloc::{AllocError, Global};

// Each path to a row goes on through each of its keys.
fn by_keys(
    alloc: Global,
    shard: &Shard,
    kind: &Kind,
    reached: &[RowPaths],
) -> Result<Vec<RowPaths>, AllocError>
    requires stays { stays kind.now ≡ true }
    requires built { IsShard shard.now }
    requires made { IsMadeFor shard.now kind.now }
    requires in_range { AreBelow (length shard.now.rows) reached.now }
    ensures paths { IfOk result (λ found. AreAlike (reached_by shard.now.rows found.items)
        (handed_on shard.now.kinds shard.now.rows kind.now (reached_by shard.now.rows reached.now))) }
    ensures in_range { IfOk result (λ found. AreBelow (length shard.now.rows) found.items) }
{
    let counter = counter_of(alloc, shard, kind)?;
    let mut found = Vec::new(alloc);
    for from in reached {
        let keys = key_count(shard, kind, &counter, from.row);
        put(&mut found, from.row, from.paths.saturating_mul(keys))?;
    }
    Ok(found)
}

// Each path to a row goes on to each row at a nested path within it.
fn by_path(
    alloc: Global,
    shard: &Shard,
    path: u32,
    reached: &[RowPaths],
) -> Result<Vec<RowPaths>, AllocError>
    requires in_range { AreBelow (length shard.now.rows) reached.now }
    ensures paths { IfOk result (λ found. AreAlike (reached_by shard.now.rows found.items)
        (handed_on shard.now.kinds shard.now.rows (NestedKind (path + 1)) (reached_by shard.now.rows reached.now))) }
    ensures in_range { IfOk result (λ found. AreBelow (length shard.now.rows) found.items) }
{
    let mut found = Vec::new(alloc);
    for from in reached {
        for row in shard.children(from.row, path) {
            put(&mut found, *row, from.paths)?;
        }
    }
    Ok(found)
}

// Each path to a row goes on to each row that nesting leads to.
fn by_nesting(
    alloc: Global,
    shard: &Shard,
    kind: &Kind,
    reached: &[RowPaths],
) -> Result<Vec<RowPaths>, AllocError>
    requires nesting { IsTrue (goes_by_nesting kind.now) }
    requires built { IsShard shard.now }
    requires apart { IsApart shard.now.rows }
    requires in_range { AreBelow (length shard.now.rows) reached.now }
    ensures paths { IfOk result (λ found. AreAlike (reached_by shard.now.rows found.items)
        (handed_on shard.now.kinds shard.now.rows kind.now (reached_by shard.now.rows reached.now))) }
    ensures in_range { IfOk result (λ found. AreBelow (length shard.now.rows) found.items) }
{
    let mut found = Vec::new(alloc);
    for from in reached {
        let mut one = List::new(alloc);
        one.push(from.row)?;
        let rows = under(alloc, shard, kind, &one)?;
        for row in rows.as_slice() {
            put(&mut found, *row, from.paths)?;
        }
    }
    Ok(found)
}

/// The rows that the aggregation hands on of those that reach it, and the paths to each. Paths that come to one row one after
/// another are counted together. It takes time by the values of the rows, and by the rows within them or around them.
pub fn hand_on(
    alloc: Global,
    shard: &Shard,
    kind: &Kind,
    reached: &[RowPaths],
) -> Result<Vec<RowPaths>, AllocError>
    requires built { IsShard shard.now }
    requires apart { IsApart shard.now.rows }
    requires made { IsMadeFor shard.now kind.now }
    requires in_range { AreBelow (length shard.now.rows) reached.now }
    ensures paths { IfOk result (λ found. AreAlike (reached_by shard.now.rows found.items)
        (handed_on shard.now.kinds shard.now.rows kind.now (reached_by shard.now.rows reached.now))) }
    ensures in_range { IfOk result (λ found. AreBelow (length shard.now.rows) found.items) }
{
    match kind {
        Kind::Nested { context } => {
            let path = *context - 1;
            by_path(alloc, shard, path, reached)
        }
        Kind::ReverseNested { .. } => by_nesting(alloc, shard, kind, reached),
        Kind::Terms { .. }
        | Kind::Histogram { .. }
        | Kind::DateHistogram { .. }
        | Kind::Filters { .. }
        | Kind::Filter { .. }
        | Kind::Missing { .. }
        | Kind::Global
        | Kind::Composite { .. }
        | Kind::Sum { .. }
        | Kind::Min { .. }
        | Kind::Max { .. }
        | Kind::Avg { .. }
        | Kind::ValueCount { .. } => by_keys(alloc, shard, kind, reached),
    }
}
