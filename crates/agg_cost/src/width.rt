//! What tasks can hold at most, by bounds that read no row: the values that a row has at most of each aggregation's fields of keys.
//! Whether a search is too wide, by these bounds where they settle it.
ghost use Rattle.std.specs.Prelude.{◌≡◌, ◌+◌, ◌*◌, ◌^◌, ◌<◌, IfOk, IfSome, IsTrue, is_none, length, true};
ghost use Rattle.agg_cost.specs.Fields.{HasFields};
ghost use Rattle.agg_cost.specs.Searches.{AreApart, kinds_of};
ghost use Rattle.agg_cost.specs.Staying.{stays};
ghost use Rattle.agg_cost.specs.Widths.{HandsOnAtMost, HasCeilingAtMost, HasCombinationsAtMost, HasKeysAtMost};
ghost use Rattle.agg_cost.specs.Widths.{HasSumAtMost, HoldsAtMost, IsNarrow};
ghost use Rattle.agg_evaluation.specs.Ceiling.{key_bound, search_ceiling as ceiling_of_search};
ghost use Rattle.agg_evaluation.specs.SearchFits.{search_fits};
ghost use Rattle.agg_model.specs.declared.costs.TheConstants.{BUCKET_BYTES, NODE_BYTES};
ghost use Rattle.shard_columns.specs.Index.{rows_by_shard};
ghost use Rattle.shard_columns.specs.Made.{IsAggFor, IsSearchFor};

use crate::bounds::bucket_count;
use crate::key_bytes::key_bytes;
use crate::searches::search_ceiling;
use crate::task::within_greatest;
use agg_model::costs::{BUCKET_BYTES, NODE_BYTES, TASK_BYTES};
use agg_model::limits::MAX_COMBINATIONS;
use agg_model::{Agg, CompositeSource, Kind, List, Search};
use shard_columns::{Index, Shard};
use std::alloc::{AllocError, Global};

// How many combinations of keys a row has at most; none where 64 bits do not tell them.
fn most_combinations(shard: &Shard, sources: &List<CompositeSource>) -> Option<u64>
    ensures { IfSome result (λ most. HasCombinationsAtMost most sources.now shard.now.rows) }
{
    let mut most = 1_u64;
    for source in sources.as_slice() {
        let keys = u64::from(shard.most_values(source.field)).max(1);
        most = most.checked_mul(keys)?;
    }
    Some(most)
}

// How many keys a row has at most; none where 64 bits do not tell them.
fn most_keys(shard: &Shard, kind: &Kind) -> Option<u64>
    ensures { IfSome result (λ most. HasKeysAtMost most kind.now shard.now.rows) }
{
    match kind {
        Kind::Terms { field, .. } => Some(u64::from(shard.most_values(*field)).max(1)),
        Kind::Histogram { field, .. } => Some(u64::from(shard.most_values(*field)).max(1)),
        Kind::DateHistogram { field, .. } => Some(u64::from(shard.most_values(*field)).max(1)),
        Kind::Filters { filters, .. } => (filters.len() as u64).checked_add(1),
        Kind::Composite { sources, .. } => most_combinations(shard, sources),
        Kind::Filter { .. }
        | Kind::Missing { .. }
        | Kind::Global
        | Kind::Nested { .. }
        | Kind::ReverseNested { .. }
        | Kind::Sum { .. }
        | Kind::Min { .. }
        | Kind::Max { .. }
        | Kind::Avg { .. }
        | Kind::ValueCount { .. } => Some(1),
    }
}

// How many paths it makes at most of each that reaches a row, where it stays at the row: one for each key.
fn paths_by_keys(shard: &Shard, kind: &Kind) -> Option<u64>
    requires { stays kind.now ≡ true }
    ensures { IfSome result (λ most. HandsOnAtMost most shard.now.kinds shard.now.rows kind.now) }
{
    most_keys(shard, kind)
}

// How many paths the aggregation makes at most of each that reaches a row: one for each key, or for each row that nesting
// leads to.
fn most_paths(shard: &Shard, kind: &Kind) -> Option<u64>
    ensures { IfSome result (λ most. HandsOnAtMost most shard.now.kinds shard.now.rows kind.now) }
{
    match kind {
        Kind::Nested { .. } | Kind::ReverseNested { .. } => Some(u64::from(shard.len())),
        Kind::Terms { .. }
        | Kind::Histogram { .. }
        | Kind::DateHistogram { .. }
        | Kind::Filters { .. }
        | Kind::Filter { .. }
        | Kind::Missing { .. }
        | Kind::Global
        | Kind::Composite { .. }
        | Kind::Sum { .. }
        | Kind::Min { .. }
        | Kind::Max { .. }
        | Kind::Avg { .. }
        | Kind::ValueCount { .. } => paths_by_keys(shard, kind),
    }
}

// The bytes of so many nodes and their buckets; none where 64 bits do not tell them.
fn own_most(shard: &Shard, kind: &Kind, nodes: u64, buckets: u64) -> Option<u64>
    requires { HasFields shard.now kind.now }
    ensures fits { IfSome result (λ bytes. bytes < 2 ^ 64) }
    ensures exact { IfSome result (λ bytes. bytes ≡ nodes * NODE_BYTES + buckets * (BUCKET_BYTES + key_bound shard.now.kinds shard.now.rows kind.now)) }
{
    let bucket = BUCKET_BYTES.checked_add(key_bytes(shard, kind))?;
    let bytes = buckets.checked_mul(bucket)?;
    nodes.checked_mul(NODE_BYTES)?.checked_add(bytes)
}

// The bytes that so many nodes of the aggregation and of all below them hold at most, where at most so many paths lead to each
// row; none where 64 bits do not tell them.
fn node_most(shard: &Shard, agg: &Agg, nodes: u64, each: u64) -> Option<u64>
    requires { IsAggFor shard.now agg.now }
    ensures { IfSome result (λ most. HoldsAtMost most shard.now.kinds shard.now.rows agg.now nodes each) }
{
    let below = each.checked_mul(most_paths(shard, &agg.kind)?)?;
    let paths = below.checked_mul(u64::from(shard.len()))?;
    let buckets = bucket_count(&agg.kind, nodes, paths);
    let mut bytes = own_most(shard, &agg.kind, nodes, buckets)?;
    for child in agg.children.as_slice() {
        bytes = bytes.checked_add(node_most(shard, child, buckets, below)?)?;
    }
    Some(bytes)
}

// Whether no row can have more combinations than a composite aggregation may have.
fn is_narrow(shard: &Shard, kind: &Kind) -> bool
    ensures { IsTrue result → IsNarrow kind.now shard.now.rows }
{
    match kind {
        Kind::Composite { .. } => match most_keys(shard, kind) {
            Some(most) => most <= MAX_COMBINATIONS,
            None => false,
        },
        Kind::Terms { .. }
        | Kind::Histogram { .. }
        | Kind::DateHistogram { .. }
        | Kind::Filters { .. }
        | Kind::Filter { .. }
        | Kind::Missing { .. }
        | Kind::Global
        | Kind::Nested { .. }
        | Kind::ReverseNested { .. }
        | Kind::Sum { .. }
        | Kind::Min { .. }
        | Kind::Max { .. }
        | Kind::Avg { .. }
        | Kind::ValueCount { .. } => true,
    }
}

// What the ceiling of a task is at most; none where it may be too wide.
pub(crate) fn task_most(shard: &Shard, search: &Search) -> Option<u64>
    requires { IsSearchFor shard.now search.now }
    ensures { IfSome result (λ most. HasCeilingAtMost most shard.now.kinds search.now shard.now.rows) }
{
    let mut bytes = TASK_BYTES;
    for agg in search.aggs.as_slice() {
        if !is_narrow(shard, &agg.kind) {
            return None;
        }
        bytes = bytes.checked_add(node_most(shard, agg, 1, 1)?)?;
    }
    within_greatest(bytes.checked_mul(2)?)
}

// What the ceiling of a search is at most; none where it may be too wide.
fn search_most(index: &Index, search: &Search) -> Option<u64>
    requires { IsTrue (search_fits index.now.mapping search.now) }
    ensures { IfSome result (λ most. HasSumAtMost most (kinds_of index.now.mapping) search.now (rows_by_shard index.now.shards)) }
{
    let mut bytes = 0_u64;
    for shard in index.shards.as_slice() {
        bytes = bytes.checked_add(task_most(shard, search)?)?;
    }
    within_greatest(bytes)
}

/// Whether a search over all shards of an index is too wide, which is so where it has no ceiling by `search_ceiling`. The search is
/// made for the mapping of the index. Where a bound on the ceiling settles it, it takes time by the aggregations and shards alone, and
/// no memory; else as much as `search_ceiling`. It fails only where memory is wanting.
pub fn is_too_wide(alloc: Global, index: &Index, search: &Search) -> Result<bool, AllocError>
    requires apart { AreApart index.now.shards }
    requires made { IsTrue (search_fits index.now.mapping search.now) }
    ensures { IfOk result (λ wide. wide ≡ is_none (ceiling_of_search (kinds_of index.now.mapping) search.now (rows_by_shard index.now.shards))) }
{
    if search_most(index, search).is_some() {
        return Ok(false);
    }
    Ok(search_ceiling(alloc, index, search)?.is_none())
}
