//! The ceiling of a task, computed before it runs.
ghost use Rattle.std.specs.Prelude.{◌≡◌, IfOk, length, map, nat_lt};
ghost use Rattle.std.specs.List.{list_any};
ghost use Rattle.agg_cost.specs.Capped.{capped};
ghost use Rattle.shard_columns.specs.Made.{IsAggFor, IsSearchFor};
ghost use Rattle.agg_cost.specs.Nodes.{ceiling_by_nodes};
ghost use Rattle.agg_cost.specs.Paths.{reached_by, AreBelow};
ghost use Rattle.agg_evaluation.specs.Ceiling.{ceiling as ceiling_of, greatest_combinations, is_wide_at, node_bound};
ghost use Rattle.agg_evaluation.specs.Ceiling.{within_greatest as unless_greater};
ghost use Rattle.agg_evaluation.specs.Counted.{IsApart};
ghost use Rattle.agg_evaluation.specs.Keys.{keys};
ghost use Rattle.agg_evaluation.specs.Matching.{matched_roots as roots_matched};
ghost use Rattle.agg_evaluation.specs.Rows.{row_of, roots};
ghost use Rattle.agg_evaluation.specs.Trace.{is_global};
ghost use Rattle.agg_model.specs.declared.aggregation.Agg.{out-Agg};
ghost use Rattle.column_query.specs.Made.{IsMadeFor as IsQueryFor};
ghost use Rattle.composite_agg.specs.Sources.{IsComposite};
ghost use Rattle.filters_agg.specs.Filtering.{IsMadeFor};
ghost use Rattle.shard_columns.specs.Built.{IsShard};
ghost use Rattle.agg_cost.specs.Roots.{once_each, collected_by};

use crate::bounds::node_bytes;
use crate::paths::RowPaths;
use agg_model::costs::TASK_BYTES;
use agg_model::limits::MAX_COMBINATIONS;
use agg_model::{Agg, Kind, Query, Search};
use column_query::matched;
use shard_columns::Shard;
use std::alloc::{AllocError, Global};

/// The greatest ceiling, of a task and of a search, in bytes.
pub(crate) const GREATEST_CEILING: u64 = 1_125_899_906_842_624;

fn all_roots(alloc: Global, shard: &Shard) -> Result<Vec<RowPaths>, AllocError>
    ensures roots { IfOk result (λ found. reached_by shard.now.rows found.items ≡ once_each (roots shard.now.rows)) }
    ensures in_range { IfOk result (λ found. AreBelow (length shard.now.rows) found.items) }
{
    let mut found = Vec::new(alloc);
    for place in 0..shard.roots() {
        found.push(RowPaths {
            row: shard.root(place),
            paths: 1,
        })?;
    }
    Ok(found)
}

fn matched_roots(alloc: Global, shard: &Shard, query: &Query) -> Result<Vec<RowPaths>, AllocError>
    requires { IsQueryFor shard.now 0 query.now }
    ensures roots { IfOk result (λ found. reached_by shard.now.rows found.items ≡ once_each (roots_matched shard.now.rows query.now)) }
    ensures in_range { IfOk result (λ found. AreBelow (length shard.now.rows) found.items) }
{
    let bits = matched(alloc, shard, query)?;
    let mut found = Vec::new(alloc);
    for place in 0..shard.roots() {
        if bits.get(place) {
            found.push(RowPaths {
                row: shard.root(place),
                paths: 1,
            })?;
        }
    }
    Ok(found)
}

fn has_wide_row(shard: &Shard, composite: &Kind, reached: &[RowPaths]) -> bool
    requires built { IsShard shard.now }
    requires composite { IsComposite composite.now }
    requires in_range { AreBelow (length shard.now.rows) reached.now }
    ensures { result ≡ list_any (λ r. nat_lt greatest_combinations
        (length (keys shard.now.rows composite.now (row_of shard.now.rows r.row)))) reached.now }
{
    for from in reached {
        if composite_agg::key_count(shard, from.row, composite) > MAX_COMBINATIONS {
            return true;
        }
    }
    false
}

// Whether a row has more combinations than a composite aggregation may have.
fn is_wide(shard: &Shard, kind: &Kind, reached: &[RowPaths]) -> bool
    requires built { IsShard shard.now }
    requires made { IsMadeFor shard.now kind.now }
    requires in_range { AreBelow (length shard.now.rows) reached.now }
    ensures { result ≡ is_wide_at kind.now (map (λ r. row_of shard.now.rows r.row) reached.now) }
{
    match kind {
        Kind::Composite { .. } => has_wide_row(shard, kind, reached),
        Kind::Terms { .. }
        | Kind::Histogram { .. }
        | Kind::DateHistogram { .. }
        | Kind::Filters { .. }
        | Kind::Filter { .. }
        | Kind::Missing { .. }
        | Kind::Global
        | Kind::Nested { .. }
        | Kind::ReverseNested { .. }
        | Kind::Sum { .. }
        | Kind::Min { .. }
        | Kind::Max { .. }
        | Kind::Avg { .. }
        | Kind::ValueCount { .. } => false,
    }
}

// The bytes of an aggregation at the top. A global aggregation collects all roots, and each other the matched ones.
fn collected_bytes(
    alloc: Global,
    shard: &Shard,
    agg: &Agg,
    matched: &[RowPaths],
) -> Result<u64, AllocError>
    requires built { IsShard shard.now }
    requires apart { IsApart shard.now.rows }
    requires made { IsAggFor shard.now agg.now }
    requires in_range { AreBelow (length shard.now.rows) matched.now }
    ensures { IfOk result (λ bytes. bytes ≡ capped (node_bound shard.now.kinds shard.now.rows agg.now 1
        (collected_by (is_global (out-Agg agg.now).kind) shard.now.rows (reached_by shard.now.rows matched.now)))) }
{
    match &agg.kind {
        Kind::Global => {
            let roots = all_roots(alloc, shard)?;
            node_bytes(alloc, shard, agg, 1, roots.as_slice())
        }
        Kind::Terms { .. }
        | Kind::Histogram { .. }
        | Kind::DateHistogram { .. }
        | Kind::Filters { .. }
        | Kind::Filter { .. }
        | Kind::Missing { .. }
        | Kind::Nested { .. }
        | Kind::ReverseNested { .. }
        | Kind::Composite { .. }
        | Kind::Sum { .. }
        | Kind::Min { .. }
        | Kind::Max { .. }
        | Kind::Avg { .. }
        | Kind::ValueCount { .. } => node_bytes(alloc, shard, agg, 1, matched),
    }
}

pub(crate) fn within_greatest(bytes: u64) -> Option<u64>
    ensures { result ≡ unless_greater bytes }
{
    if bytes > GREATEST_CEILING {
        None
    } else {
        Some(bytes)
    }
}

/// The ceiling of a task, one search on one shard: twice the bytes that it can hold at most. None where that is above 2^50, or
/// where a matched root has more than 65,536 combinations at a composite aggregation. It goes through the rows once for each
/// aggregation, and takes memory by the rows that each hands on.
pub fn ceiling(alloc: Global, shard: &Shard, search: &Search) -> Result<Option<u64>, AllocError>
    requires built { IsShard shard.now }
    requires apart { IsApart shard.now.rows }
    requires made { IsSearchFor shard.now search.now }
    ensures exact { IfOk result (λ c. c ≡ ceiling_of shard.now.kinds search.now shard.now.rows) }
    ensures by_nodes { IfOk result (λ c. c ≡ ceiling_by_nodes shard.now.kinds search.now shard.now.rows) }
{
    let matched = matched_roots(alloc, shard, &search.query)?;
    let mut bytes = TASK_BYTES;
    for agg in search.aggs.as_slice() {
        if is_wide(shard, &agg.kind, matched.as_slice()) {
            return Ok(None);
        }
        bytes = bytes.saturating_add(collected_bytes(alloc, shard, agg, matched.as_slice())?);
    }
    Ok(within_greatest(bytes.saturating_mul(2)))
}
