//! Trees over no row.
ghost use Rattle.std.specs.Prelude.{◌≡◌, ◌+◌, [], IfOk, length, map};
ghost use Rattle.std.specs.Option.{option_map_or};
ghost use Rattle.agg_model.specs.declared.aggregation.Agg.{out-Agg};
ghost use Rattle.agg_model.specs.declared.partial.Node.TheVariants.{Keyed as KeyedNode};
ghost use Rattle.agg_evaluation.specs.Cost.{key_bytes};
ghost use Rattle.agg_evaluation.specs.Whole.{empty_node};
ghost use Rattle.shard_columns.specs.Columns.{Columns};
ghost use Rattle.growing_tree.specs.Codes.{code_key};
ghost use Rattle.growing_tree.specs.Decoded.{decoded, decoded_children};
ghost use Rattle.growing_tree.specs.Readiness.{IsKindReady};
ghost use Rattle.growing_tree.specs.Shown.{AreEmpty};
ghost use Rattle.growing_tree.specs.Trees.{IsAligned, level_node};
ghost use Rattle.growing_tree.specs.declared.ready.Ready.{out-Ready};

use crate::kinds::{are_metrics, code_bytes, is_terms};
use crate::measured::{Measured, no_columns};
use crate::number::Taken;
use crate::ready::{Ready, Table};
use crate::sums::sum;
use crate::tree::{Growing, Keyed, Level, Tree};
use agg_model::costs::BUCKET_BYTES;
use agg_model::{Agg, Kind, List, Query, Text};
use bucket_places::Places;
use shard_columns::Shard;
use std::alloc::{AllocError, Global};
use terms_agg::Counts;

/// What the bucket of a code costs before its first row, in bytes: 128 for itself, its key, and its children. More than 64 bits
/// of it are answered as want of memory. Time and memory are constant.
pub fn bucket_bytes(shard: &Shard, kind: &Kind, ready: &Ready, code: i64) -> Result<u64, AllocError>
    requires ready { IsKindReady shard.now kind.now (out-Ready ready.now).kind }
    ensures { IfOk result (λ n.
        n ≡ 128 + key_bytes (code_key shard.now (out-Ready ready.now).kind code) + (out-Ready ready.now).child_bytes) }
{
    let key = code_bytes(shard, kind, &ready.kind, code);
    sum(sum(BUCKET_BYTES, key)?, ready.child_bytes)
}

/// A bucket without rows.
#[cycle(begin)]
pub(crate) fn begin_bucket(
    alloc: Global,
    aggs: &List<Agg>,
    ready: &List<Ready>,
) -> Result<Growing, AllocError>
    ensures count { IfOk result (λ b. b.count ≡ 0) }
    ensures children { IfOk result (λ b. (shard : Columns) →
        decoded_children (map (decoded shard) ready.now) b.children.items ≡ map empty_node aggs.now) }
{
    Ok(Growing {
        count: 0,
        children: begin_trees(alloc, aggs, ready)?,
    })
}

/// The trees of aggregations side by side, each over no row. Errors and time as in `begin`.
#[cycle(begin)]
pub fn begin_trees(
    alloc: Global,
    aggs: &List<Agg>,
    ready: &List<Ready>,
) -> Result<Vec<Tree>, AllocError>
    ensures { IfOk result (λ trees. (shard : Columns) →
        decoded_children (map (decoded shard) ready.now) trees.items ≡ map empty_node aggs.now) }
{
    if ready.len() != aggs.len() {
        return Err(AllocError);
    }
    let mut trees = Vec::with_capacity(alloc, aggs.len())?;
    for place in 0..aggs.len() {
        let tree = begin(alloc, &aggs.as_slice()[place], &ready.as_slice()[place])?;
        trees.push(tree)?;
    }
    Ok(trees)
}

// No code, with this table.
fn no_codes(alloc: Global, table: Table) -> Result<Places, AllocError>
    ensures { IfOk result (λ places. places ≡ []) }
{
    if table.from_start {
        let places = Places::dense(alloc, table.width)?;
        return Ok(places);
    }
    Ok(Places::growing(alloc, table.width))
}

// The number of the buckets of filters.
fn count_of(filters: &List<Query>, other: &Option<Text>) -> Result<usize, AllocError>
    ensures { IfOk result (λ n. n ≡ option_map_or (λ name. length filters.now + 1) other.now (length filters.now)) }
{
    match other {
        Some(_) => filters.len().checked_add(1).ok_or(AllocError),
        None => Ok(filters.len()),
    }
}

// Buckets without rows.
#[cycle(begin)]
fn begin_buckets(
    alloc: Global,
    count: usize,
    aggs: &List<Agg>,
    ready: &List<Ready>,
) -> Result<Vec<Growing>, AllocError>
    ensures { IfOk result (λ bs. (shard : Columns) → AreEmpty (map (decoded shard) ready.now) (map empty_node aggs.now) count bs.items) }
{
    let mut buckets = Vec::new(alloc);
    while buckets.len() < count {
        let bucket = begin_bucket(alloc, aggs, ready)?;
        buckets.push(bucket)?;
    }
    Ok(buckets)
}

// Whether the terms of the aggregation have counters: rows have no other codes, and there is nothing below.
fn has_counters(agg: &Agg, table: Table) -> bool {
    is_terms(&agg.kind) && table.from_start && table.has_all_codes && agg.children.is_empty()
}

// No bucket of keys that rows bring.
fn begin_keyed(alloc: Global, agg: &Agg, table: Table) -> Result<Level, AllocError>
    ensures node { IfOk result (λ level. level_node level ≡ KeyedNode [] 0 0 0) }
    ensures aligned { IfOk result IsAligned }
{
    if has_counters(agg, table) {
        let counts = Counts::new(alloc, table.width)?;
        return Ok(Level::Counts(counts));
    }
    let places = no_codes(alloc, table)?;
    if are_metrics(&agg.children) {
        return Ok(Level::Measured(Measured {
            places,
            counts: Vec::new(alloc),
            columns: no_columns(alloc, agg.children.len())?,
        }));
    }
    Ok(Level::Keyed(Keyed {
        places,
        buckets: Vec::new(alloc),
    }))
}

/// The tree over no row: no bucket where rows bring the keys, each bucket that exists from the start with a count of 0, and the
/// metric of no value.
///
/// `AllocError` says that memory is wanted, or that `ready` has not so many children as the aggregation, at some level. Time
/// and memory are linear in the buckets that exist from the start, those below them counted, and in the codes of the tables that
/// their trees have from the start.
#[cycle(begin)]
pub fn begin(alloc: Global, agg: &Agg, ready: &Ready) -> Result<Tree, AllocError>
    ensures { IfOk result (λ tree. (shard : Columns) → decoded shard ready.now tree ≡ empty_node agg.now) }
{
    match &agg.kind {
        Kind::Terms { .. }
        | Kind::Histogram { .. }
        | Kind::DateHistogram { .. }
        | Kind::Composite { .. } => {
            let level = begin_keyed(alloc, agg, ready.table)?;
            Ok(Tree { level })
        }
        Kind::Sum { .. }
        | Kind::Min { .. }
        | Kind::Max { .. }
        | Kind::Avg { .. }
        | Kind::ValueCount { .. } => Ok(Tree {
            level: Level::Number(Taken::new()),
        }),
        Kind::Filters { filters, other, .. } => {
            let count = count_of(filters, other)?;
            let buckets = begin_buckets(alloc, count, &agg.children, &ready.children)?;
            Ok(Tree {
                level: Level::Fixed(buckets),
            })
        }
        Kind::Filter { .. }
        | Kind::Missing { .. }
        | Kind::Global
        | Kind::Nested { .. }
        | Kind::ReverseNested { .. } => {
            let buckets = begin_buckets(alloc, 1, &agg.children, &ready.children)?;
            Ok(Tree {
                level: Level::Fixed(buckets),
            })
        }
    }
}
