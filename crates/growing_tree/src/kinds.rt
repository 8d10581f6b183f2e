//! What the kinds of aggregations make of codes and rows.
ghost use Rattle.std.specs.Prelude.{◌≡◌, ◌<◌, ◌∷◌, [], All, IfOk, IfSome, IsTrue, OnOk, length, map, option_to_list, pos};
ghost use Rattle.std.specs.List.{list_all};
ghost use Rattle.std.specs.List.Sorted.{IsStrictlyIncreasing};
ghost use Rattle.agg_model.specs.declared.aggregation.Agg.{out-Agg};
ghost use Rattle.agg_evaluation.specs.Cost.{key_bytes};
ghost use Rattle.agg_evaluation.specs.Rows.{row_of};
ghost use Rattle.agg_evaluation.specs.Shard.{is_terms as is_terms_kind};
ghost use Rattle.shard_columns.specs.Columns.{Columns};
ghost use Rattle.growing_tree.specs.Codes.{code_key, HasFixedKeys};
ghost use Rattle.growing_tree.specs.Readiness.{IsKindReady, is_keyed as is_keyed_kind, is_metric};
ghost use Rattle.agg_evaluation.specs.Keys.{keys};
ghost use Rattle.shard_columns.specs.Built.{IsShard};
ghost use Rattle.growth_laws.specs.Growth.{metric_with};
ghost use Rattle.growing_tree.specs.Shown.{HasBuckets, TakesRows};
ghost use Rattle.growing_tree.specs.Trees.{IsAligned};

use crate::number::Taken;
use crate::ready::ReadyKind;
use crate::tree::Level;
use agg_model::{Agg, Kind, List};
use date_agg::{
    codes as codes_of_dates, key_bytes as key_bytes_of_period, lone_code as lone_code_of_dates,
};
use filters_agg::codes as codes_of_filters;
use histogram_agg::{
    codes as codes_of_histogram, key_bytes as key_bytes_of_interval,
    lone_code as lone_code_of_histogram,
};
use shard_columns::Shard;
use std::alloc::AllocError;
use terms_agg::{
    codes as codes_of_terms, key_bytes as key_bytes_of_term, lone_code as lone_code_of_terms,
};

/// Whether a shard cuts the buckets.
pub(crate) fn is_terms(kind: &Kind) -> bool
    ensures { result ≡ is_terms_kind kind.now }
{
    match kind {
        Kind::Terms { .. } => true,
        Kind::Histogram { .. }
        | Kind::DateHistogram { .. }
        | Kind::Filters { .. }
        | Kind::Filter { .. }
        | Kind::Missing { .. }
        | Kind::Global
        | Kind::Nested { .. }
        | Kind::ReverseNested { .. }
        | Kind::Composite { .. }
        | Kind::Sum { .. }
        | Kind::Min { .. }
        | Kind::Max { .. }
        | Kind::Avg { .. }
        | Kind::ValueCount { .. } => false,
    }
}

/// Whether the codes are numbers of buckets that exist from the start.
pub(crate) fn has_fixed_keys(kind: &ReadyKind) -> bool
    ensures { IsTrue result → (shard : Columns) → HasFixedKeys shard kind.now }
{
    match kind {
        ReadyKind::Single | ReadyKind::Metric | ReadyKind::Filters(_) | ReadyKind::Composite =>
            true,
        ReadyKind::Terms(_) | ReadyKind::Histogram(_) | ReadyKind::DateHistogram(_) => false,
    }
}

/// Whether rows have their own keys.
pub(crate) fn is_keyed(kind: &ReadyKind) -> bool
    ensures { result ≡ is_keyed_kind kind.now }
{
    match kind {
        ReadyKind::Terms(_)
        | ReadyKind::Filters(_)
        | ReadyKind::Histogram(_)
        | ReadyKind::DateHistogram(_) => true,
        ReadyKind::Single | ReadyKind::Metric | ReadyKind::Composite => false,
    }
}

/// Whether the level has buckets.
pub(crate) fn has_buckets(level: &Level) -> bool
    ensures { IsTrue result → HasBuckets level.now }
{
    match level {
        Level::Keyed(_) | Level::Measured(_) | Level::Counts(_) | Level::Fixed(_) => true,
        Level::Number(_) => false,
    }
}

/// The number of a bucket that exists from the start.
pub(crate) fn place_of(code: i64) -> Result<usize, AllocError>
    ensures { IfOk result (λ place. code ≡ pos place) }
{
    usize::try_from(code).map_err(|_| AllocError)
}

/// The bytes of the key that a code stands for. The key of a bucket that exists from the start costs none; a number that is no
/// code of the shard costs what the key of that number would. Time and memory are constant.
pub fn code_bytes(shard: &Shard, kind: &Kind, ready: &ReadyKind, code: i64) -> u64
    requires ready { IsKindReady shard.now kind.now ready.now }
    ensures { result ≡ key_bytes (code_key shard.now ready.now code) }
{
    match ready {
        ReadyKind::Single | ReadyKind::Metric | ReadyKind::Filters(_) | ReadyKind::Composite => 0,
        ReadyKind::Terms(terms) => key_bytes_of_term(shard, terms, code),
        ReadyKind::Histogram(histogram) => key_bytes_of_interval(histogram, code),
        ReadyKind::DateHistogram(dates) => key_bytes_of_period(dates, code),
    }
}

/// Puts the codes of the keys of a row, in the order of the keys, in the place of what the list has: 0 for the one key of a
/// single bucket, and none for a metric. A composite has no codes, which is answered as want of memory: it never comes, since its
/// page grows elsewhere. Where memory is wanted, nothing is said of the list. It takes time by the row's values, and memory only
/// where the list has no room for the codes.
pub fn row_codes(
    shard: &Shard,
    kind: &Kind,
    ready: &ReadyKind,
    row: u32,
    codes: &mut Vec<i64>,
) -> Result<(), AllocError>
    requires ready { IsKindReady shard.now kind.now ready.now }
    requires built { IsShard shard.now }
    requires in_range { row < length shard.now.rows }
    ensures { OnOk result (map (code_key shard.now ready.now) codes.new.items
        ≡ keys shard.now.rows kind.now (row_of shard.now.rows row)) }
{
    match ready {
        ReadyKind::Single => {
            codes.clear();
            codes.push(0)?;
            Ok(())
        }
        ReadyKind::Terms(terms) => {
            codes_of_terms(shard, terms, row, codes)?;
            Ok(())
        }
        ReadyKind::Filters(filters) => {
            codes_of_filters(shard, filters, row, codes)?;
            Ok(())
        }
        ReadyKind::Histogram(histogram) => {
            codes_of_histogram(shard, histogram, row, codes)?;
            Ok(())
        }
        ReadyKind::DateHistogram(dates) => {
            codes_of_dates(shard, dates, row, codes)?;
            Ok(())
        }
        ReadyKind::Metric => {
            codes.clear();
            Ok(())
        }
        ReadyKind::Composite => Err(AllocError),
    }
}

/// The code of the row's one key, where that is told without a list; `Some(None)` says that the row has no key. Of another row
/// nothing is said: it has the codes that `row_codes` gives. Time is constant.
pub(crate) fn lone_code(
    shard: &Shard,
    kind: &Kind,
    ready: &ReadyKind,
    row: u32,
) -> Option<Option<i64>>
    requires ready { IsKindReady shard.now kind.now ready.now }
    requires built { IsShard shard.now }
    requires in_range { row < length shard.now.rows }
    ensures { IfSome result (λ code. map (code_key shard.now ready.now) (option_to_list code)
        ≡ keys shard.now.rows kind.now (row_of shard.now.rows row)) }
{
    match ready {
        ReadyKind::Terms(terms) => lone_code_of_terms(shard, terms, row),
        ReadyKind::Histogram(histogram) => lone_code_of_histogram(shard, histogram, row),
        ReadyKind::DateHistogram(dates) => lone_code_of_dates(shard, dates, row),
        ReadyKind::Single | ReadyKind::Metric | ReadyKind::Filters(_) | ReadyKind::Composite => {
            None
        }
    }
}

/// The values of more rows, in a metric.
pub(crate) fn take_rows(
    kind: &Kind,
    shard: &Shard,
    rows: &[u32],
    level: &mut Level,
) -> Result<(), AllocError>
    requires metric { IsTrue (is_metric kind.now) }
    requires in_range { All (λ n. n < length shard.now.rows) rows.now }
    ensures values { OnOk result (TakesRows kind.now (map (row_of shard.now.rows) rows.now) level.old level.new) }
    ensures aligned { IsAligned level.old → IsAligned level.new }
{
    match level {
        Level::Number(taken) => {
            for row in rows {
                take_row(kind, shard, *row, taken)?;
            }
            Ok(())
        }
        Level::Keyed(_) | Level::Measured(_) | Level::Counts(_) | Level::Fixed(_) => {
            Err(AllocError)
        }
    }
}

/// The values of one more row, in a metric.
pub(crate) fn take_one(
    kind: &Kind,
    shard: &Shard,
    row: u32,
    level: &mut Level,
) -> Result<(), AllocError>
    requires metric { IsTrue (is_metric kind.now) }
    requires in_range { row < length shard.now.rows }
    ensures values { OnOk result (TakesRows kind.now (row_of shard.now.rows row ∷ []) level.old level.new) }
    ensures aligned { IsAligned level.old → IsAligned level.new }
{
    match level {
        Level::Number(taken) => {
            take_row(kind, shard, row, taken)?;
            Ok(())
        }
        Level::Keyed(_) | Level::Measured(_) | Level::Counts(_) | Level::Fixed(_) => {
            Err(AllocError)
        }
    }
}

/// Whether all of the aggregations are metrics.
pub(crate) fn are_metrics(aggs: &List<Agg>) -> bool
    ensures { result ≡ list_all (λ a. is_metric (out-Agg a).kind) aggs.now }
{
    aggs.as_slice().iter().all(|agg| is_metric_kind(&agg.kind))
}

fn is_metric_kind(kind: &Kind) -> bool
    ensures { result ≡ is_metric kind.now }
{
    match kind {
        Kind::Sum { .. }
        | Kind::Min { .. }
        | Kind::Max { .. }
        | Kind::Avg { .. }
        | Kind::ValueCount { .. } => true,
        Kind::Terms { .. }
        | Kind::Histogram { .. }
        | Kind::DateHistogram { .. }
        | Kind::Filters { .. }
        | Kind::Filter { .. }
        | Kind::Missing { .. }
        | Kind::Global
        | Kind::Nested { .. }
        | Kind::ReverseNested { .. }
        | Kind::Composite { .. } => false,
    }
}

/// The values of one more row.
pub(crate) fn take_row(
    kind: &Kind,
    shard: &Shard,
    row: u32,
    taken: &mut Taken,
) -> Result<(), AllocError>
    requires metric { IsTrue (is_metric kind.now) }
    requires in_range { row < length shard.now.rows }
    ensures { OnOk result (taken.new ≡ metric_with kind.now (row_of shard.now.rows row) taken.old) }
{
    match kind {
        Kind::Sum { field, missing }
        | Kind::Min { field, missing }
        | Kind::Max { field, missing }
        | Kind::Avg { field, missing }
        | Kind::ValueCount { field, missing } => {
            taken.take_row(shard, row, *field, missing)?;
            Ok(())
        }
        Kind::Terms { .. }
        | Kind::Histogram { .. }
        | Kind::DateHistogram { .. }
        | Kind::Filters { .. }
        | Kind::Filter { .. }
        | Kind::Missing { .. }
        | Kind::Global
        | Kind::Nested { .. }
        | Kind::ReverseNested { .. }
        | Kind::Composite { .. } => unreachable!(),
    }
}

/// Whether each row is below the next.
pub(crate) fn ascend(rows: &[u32]) -> bool
    ensures { IsTrue result → IsStrictlyIncreasing rows.now }
{
    for place in 1..rows.len() {
        if rows[place - 1] >= rows[place] {
            return false;
        }
    }
    true
}
