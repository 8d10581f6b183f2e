//! What trees over no row cost, told without making one.
ghost use Rattle.std.specs.Prelude.{◌≡◌, ◌-◌, ◌^◌, IfOk, map, min, sum_by};
ghost use Rattle.agg_evaluation.specs.Cost.{node_cost};
ghost use Rattle.agg_evaluation.specs.Whole.{empty_node};
ghost use Rattle.growing_tree.specs.Starting.{start_count as number_from_start};

use agg_model::costs::{BUCKET_BYTES, NODE_BYTES};
use agg_model::{Agg, Kind, List};
use std::alloc::AllocError;

/// How many buckets of an aggregation exist from the start.
pub(crate) fn start_count(kind: &Kind) -> u64
    ensures { result ≡ min (number_from_start kind.now) (2 ^ 64 - 1) }
{
    match kind {
        Kind::Filters { filters, other, .. } => match other {
            Some(_) => (filters.len() as u64).saturating_add(1),
            None => filters.len() as u64,
        },
        Kind::Filter { .. }
        | Kind::Missing { .. }
        | Kind::Global
        | Kind::Nested { .. }
        | Kind::ReverseNested { .. } => 1,
        Kind::Terms { .. }
        | Kind::Histogram { .. }
        | Kind::DateHistogram { .. }
        | Kind::Composite { .. }
        | Kind::Sum { .. }
        | Kind::Min { .. }
        | Kind::Max { .. }
        | Kind::Avg { .. }
        | Kind::ValueCount { .. } => 0,
    }
}

/// What the trees of aggregations cost side by side before their first row, in bytes; 2^64 - 1 where that is more.
///
/// Nothing is built for it: time is linear in the aggregations, those below them counted, whatever the number of their buckets, and
/// no memory is taken.
#[cycle(empty)]
pub fn empty_bytes(aggs: &List<Agg>) -> u64
    ensures { result ≡ min (sum_by node_cost (map empty_node aggs.now)) (2 ^ 64 - 1) }
{
    let mut bytes = 0u64;
    for agg in aggs.as_slice() {
        let tree = tree_bytes(agg);
        bytes = bytes.saturating_add(tree);
    }
    bytes
}

// The keys of the buckets that exist from the start cost nothing.
#[cycle(empty)]
fn tree_bytes(agg: &Agg) -> u64
    ensures { result ≡ min (node_cost (empty_node agg.now)) (2 ^ 64 - 1) }
{
    let below = empty_bytes(&agg.children);
    let bucket = below.saturating_add(BUCKET_BYTES);
    let count = start_count(&agg.kind);
    let buckets = count.saturating_mul(bucket);
    buckets.saturating_add(NODE_BYTES)
}

/// What the children of a bucket cost before its first row, in bytes, in the time of `empty_bytes`; 2^64 - 1 or more is answered as
/// want of memory.
pub fn child_bytes(aggs: &List<Agg>) -> Result<u64, AllocError>
    ensures { IfOk result (λ n. n ≡ sum_by node_cost (map empty_node aggs.now)) }
{
    let bytes = empty_bytes(aggs);
    if bytes == u64::MAX {
        return Err(AllocError);
    }
    Ok(bytes)
}
