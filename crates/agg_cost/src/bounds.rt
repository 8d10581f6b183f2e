//! The bytes that an aggregation and all below it can hold.
ghost use Rattle.std.specs.Prelude.{◌≡◌, ◌+◌, ◌*◌, IfOk, List, length, map};
ghost use Rattle.agg_cost.specs.Capped.{capped};
ghost use Rattle.agg_cost.specs.Fields.{HasFields};
ghost use Rattle.shard_columns.specs.Made.{IsAggFor};
ghost use Rattle.agg_cost.specs.Paths.{reached_by, AreBelow};
ghost use Rattle.agg_evaluation.specs.Ceiling.{bucket_bound, key_bound, node_bound, path_count as number_of_paths};
ghost use Rattle.agg_evaluation.specs.Counted.{IsApart};
ghost use Rattle.agg_evaluation.specs.Rows.{PlacedRow};
ghost use Rattle.agg_evaluation.specs.Whole.{shape_of};
ghost use Rattle.agg_model.specs.declared.costs.TheConstants.{BUCKET_BYTES, NODE_BYTES};
ghost use Rattle.agg_model.specs.declared.mapping.FieldKind.{FieldKind};
ghost use Rattle.shard_columns.specs.Built.{IsShard};

use crate::handing_on::hand_on;
use crate::key_bytes::key_bytes;
use crate::paths::RowPaths;
use agg_model::costs::{BUCKET_BYTES, NODE_BYTES};
use agg_model::{Agg, Kind};
use shard_columns::Shard;
use std::alloc::{AllocError, Global};

fn path_count(reached: &[RowPaths]) -> u64
    ensures { (rows : List PlacedRow) → result ≡ capped (number_of_paths (reached_by rows reached.now)) }
{
    let mut count = 0_u64;
    for from in reached {
        count = count.saturating_add(from.paths);
    }
    count
}

// A bound on the buckets of so many nodes, to whose keys so many paths lead.
pub(crate) fn bucket_count(kind: &Kind, nodes: u64, paths: u64) -> u64
    ensures { (kinds : List FieldKind) (rows : List PlacedRow) → result ≡ capped (bucket_bound kinds rows kind.now (shape_of kind.now) nodes paths) }
{
    match kind {
        Kind::Terms { .. }
        | Kind::Histogram { .. }
        | Kind::DateHistogram { .. }
        | Kind::Composite { .. } => paths,
        Kind::Filters { filters, other, .. } => {
            let number = (filters.len() as u64).saturating_add(u64::from(other.is_some()));
            nodes.saturating_mul(number)
        }
        Kind::Filter { .. }
        | Kind::Missing { .. }
        | Kind::Global
        | Kind::Nested { .. }
        | Kind::ReverseNested { .. } => nodes,
        Kind::Sum { .. }
        | Kind::Min { .. }
        | Kind::Max { .. }
        | Kind::Avg { .. }
        | Kind::ValueCount { .. } => 0,
    }
}

// The bytes of so many nodes and their buckets.
fn own_bytes(shard: &Shard, kind: &Kind, nodes: u64, buckets: u64) -> u64
    requires { HasFields shard.now kind.now }
    ensures { result ≡ capped (nodes * NODE_BYTES + buckets * (BUCKET_BYTES + key_bound shard.now.kinds shard.now.rows kind.now)) }
{
    let bucket = BUCKET_BYTES.saturating_add(key_bytes(shard, kind));
    nodes
        .saturating_mul(NODE_BYTES)
        .saturating_add(buckets.saturating_mul(bucket))
}

/// The bytes of so many nodes of the aggregation and of all below them, where these rows reach them, or the greatest number of
/// 64 bits where it is above that. It goes through the rows once for each aggregation, and takes memory by the rows that each
/// hands on.
pub fn node_bytes(
    alloc: Global,
    shard: &Shard,
    agg: &Agg,
    nodes: u64,
    reached: &[RowPaths],
) -> Result<u64, AllocError>
    requires built { IsShard shard.now }
    requires apart { IsApart shard.now.rows }
    requires made { IsAggFor shard.now agg.now }
    requires in_range { AreBelow (length shard.now.rows) reached.now }
    ensures { IfOk result (λ bytes. bytes ≡ capped (node_bound shard.now.kinds shard.now.rows agg.now nodes (reached_by shard.now.rows reached.now))) }
{
    let handed = hand_on(alloc, shard, &agg.kind, reached)?;
    let buckets = bucket_count(&agg.kind, nodes, path_count(handed.as_slice()));
    let mut bytes = own_bytes(shard, &agg.kind, nodes, buckets);
    for child in agg.children.as_slice() {
        let below = node_bytes(alloc, shard, child, buckets, handed.as_slice())?;
        bytes = bytes.saturating_add(below);
    }
    Ok(bytes)
}
