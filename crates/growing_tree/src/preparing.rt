//! Aggregations, prepared for a shard.
ghost use Rattle.std.specs.Prelude.{◌≡◌, All, IfOk, length};
ghost use Rattle.filters_agg.specs.Filtering.{IsMadeFor};
ghost use Rattle.shard_columns.specs.Built.{IsShard};
ghost use Rattle.shard_columns.specs.Made.{IsAggFor};
ghost use Rattle.growing_tree.specs.Readiness.{AreReadyFor, IsKindReady, IsReadyFor};

use crate::empty_trees::{child_bytes, start_count};
use crate::kinds::has_fixed_keys;
use crate::ready::{Ready, ReadyKind, Table};
use crate::table_room::TableRoom;
use agg_model::{Agg, Kind, List};
use date_agg::prepare as prepare_date_histogram;
use filters_agg::prepare as prepare_filters;
use histogram_agg::prepare as prepare_histogram;
use shard_columns::Shard;
use std::alloc::{AllocError, Global};
use terms_agg::{code_count, prepare as prepare_terms};

// A table of so few codes takes no more memory than a map, and less than a tree is charged.
const FEW_CODES: u32 = 16;

// What a code takes in a table, and what its counter takes, in bytes.
const PLACE_BYTES: u64 = 4;

const COUNTER_BYTES: u64 = 8;

// The table of whole numbers, of intervals and of periods, of which it is not known how many there are, is for so many: those
// from 0 on, or from the offset on. It takes 16 KiB.
const OPEN_WIDTH: u32 = 4096;

// The same of dates: the numbers of days up to 2059 lie below it, and those of longer periods.
const DATES_WIDTH: u32 = 32_768;

// What an aggregation of the kind needs of the shard.
fn prepare_kind(alloc: Global, shard: &Shard, kind: &Kind) -> Result<ReadyKind, AllocError>
    requires { IsMadeFor shard.now kind.now }
    ensures { IfOk result (λ ready. IsKindReady shard.now kind.now ready) }
{
    match kind {
        Kind::Terms { .. } => {
            let terms = prepare_terms(alloc, shard, kind)?;
            Ok(ReadyKind::Terms(terms))
        }
        Kind::Histogram { .. } => Ok(ReadyKind::Histogram(prepare_histogram(kind))),
        Kind::DateHistogram { .. } => Ok(ReadyKind::DateHistogram(prepare_date_histogram(kind))),
        Kind::Filters { .. } | Kind::Filter { .. } | Kind::Missing { .. } => {
            let filters = prepare_filters(alloc, shard, kind)?;
            Ok(ReadyKind::Filters(filters))
        }
        Kind::Composite { .. } => Ok(ReadyKind::Composite),
        Kind::Global | Kind::Nested { .. } | Kind::ReverseNested { .. } => Ok(ReadyKind::Single),
        Kind::Sum { .. }
        | Kind::Min { .. }
        | Kind::Max { .. }
        | Kind::Avg { .. }
        | Kind::ValueCount { .. } => Ok(ReadyKind::Metric),
    }
}

// How many buckets a tree of the aggregation may have; 2^64 - 1 where that is not known.
fn most_buckets(shard: &Shard, kind: &Kind, ready: &ReadyKind) -> u64
    requires ready { IsKindReady shard.now kind.now ready.now }
{
    match ready {
        ReadyKind::Single => 1,
        ReadyKind::Filters(_) => start_count(kind),
        ReadyKind::Terms(terms) => code_count(shard, terms).unwrap_or(u64::MAX),
        ReadyKind::Histogram(_)
        | ReadyKind::DateHistogram(_)
        | ReadyKind::Metric
        | ReadyKind::Composite => u64::MAX,
    }
}

// The table of each tree, where there may be so many trees. They have it from the start where all of them find room for it.
fn table_of(agg: &Agg, kind: &ReadyKind, codes: u64, trees: u64, room: &mut TableRoom) -> Table {
    let width = match kind {
        ReadyKind::Terms(_) | ReadyKind::Histogram(_) => {
            u32::try_from(codes).unwrap_or(OPEN_WIDTH)
        }
        ReadyKind::DateHistogram(_) => u32::try_from(codes).unwrap_or(DATES_WIDTH),
        ReadyKind::Filters(_) => u32::try_from(codes).unwrap_or(0),
        ReadyKind::Single | ReadyKind::Metric | ReadyKind::Composite => 0,
    };
    let has_all_codes = u64::from(width) == codes;
    let entry = if has_all_codes && agg.children.is_empty() {
        COUNTER_BYTES
    } else {
        PLACE_BYTES
    };
    let bytes = u64::from(width).saturating_mul(entry).saturating_mul(trees);
    Table {
        width,
        has_all_codes,
        from_start: has_fixed_keys(kind) || width <= FEW_CODES || room.take(bytes),
    }
}

// The aggregation and those below it, where there may be so many trees of it.
fn prepare_within(
    alloc: Global,
    shard: &Shard,
    agg: &Agg,
    trees: u64,
    room: &mut TableRoom,
) -> Result<Ready, AllocError>
    requires built { IsShard shard.now }
    requires made { IsAggFor shard.now agg.now }
    ensures ready { IfOk result (λ ready. IsReadyFor shard.now agg.now ready) }
{
    let kind = prepare_kind(alloc, shard, &agg.kind)?;
    let buckets = most_buckets(shard, &agg.kind, &kind);
    let table = table_of(agg, &kind, buckets, trees, room);
    let trees_below = trees.saturating_mul(buckets);
    let mut children = List::new(alloc);
    for child in agg.children.as_slice() {
        let ready = prepare_within(alloc, shard, child, trees_below, room)?;
        children.push(ready)?;
    }
    let bytes = child_bytes(&agg.children)?;
    Ok(Ready {
        kind,
        table,
        child_bytes: bytes,
        children,
    })
}

/// The aggregation and those below it, prepared for the shard; they are made for its mapping. A bucket whose children cost more
/// than 64 bits of bytes before its first row is answered as want of memory.
///
/// It takes time and memory by the aggregations, and by what each kind takes to prepare. One tree is to grow of the aggregation:
/// the codes of it and of those below are looked up in tables, or have counters, from the start where the task has room for those
/// of all their trees; any other tree gets its table once it has many codes.
pub fn prepare(
    alloc: Global,
    shard: &Shard,
    agg: &Agg,
    room: &mut TableRoom,
) -> Result<Ready, AllocError>
    requires built { IsShard shard.now }
    requires made { IsAggFor shard.now agg.now }
    ensures ready { IfOk result (λ ready. IsReadyFor shard.now agg.now ready) }
{
    prepare_within(alloc, shard, agg, 1, room)
}

/// Aggregations side by side, prepared for the shard: the children of buckets, of which any number may come, so that a tree gets a
/// table only once it has many codes.
pub fn prepare_all(
    alloc: Global,
    shard: &Shard,
    aggs: &List<Agg>,
) -> Result<List<Ready>, AllocError>
    requires built { IsShard shard.now }
    requires made { All (IsAggFor shard.now) aggs.now }
    ensures ready { IfOk result (λ ready. AreReadyFor shard.now aggs.now ready) }
    ensures many { IfOk result (λ ready. length ready ≡ length aggs.now) }
{
    let mut room = TableRoom::new();
    let mut all = List::new(alloc);
    for agg in aggs.as_slice() {
        let ready = prepare_within(alloc, shard, agg, u64::MAX, &mut room)?;
        all.push(ready)?;
    }
    Ok(all)
}
