//! Buckets below which there are metrics alone, or nothing. The counts of all buckets lie side by side, and so does what a metric
//! has taken in each, so that a row touches little memory.
ghost use Rattle.std.specs.Prelude.{◌≡◌, ◌≢◌, ◌<◌, ◌≤◌, ◌+◌, ◌++◌, ◌∷◌, [], ℕ, All, IfOk, IsTrue, OnOk, length, map, slice_index_or, slice_set};
ghost use Rattle.std.specs.List.{list_all};
ghost use Rattle.agg_model.specs.declared.aggregation.Agg.{out-Agg};
ghost use Rattle.agg_evaluation.specs.Rows.{row_of};
ghost use Rattle.growth_laws.specs.Growth.{metric_with};
ghost use Rattle.growing_tree.specs.Measures.{metrics_at, metrics_with, no_values, taken_at};
ghost use Rattle.growing_tree.specs.Readiness.{is_metric};

use crate::kinds::take_row;
use crate::number::Taken;
use crate::sums::sum;
use agg_model::{Agg, Kind, List};
use bucket_places::Places;
use shard_columns::Shard;
use std::alloc::{AllocError, Global};

/// The bucket at a place is that of the code at this place.
#[derive(Drop)]
pub(crate) struct Measured {
    pub(crate) places: Places,
    /// How many rows each bucket has.
    pub(crate) counts: Vec<u64>,
    /// For each metric below, what it has taken in each bucket.
    pub(crate) columns: Vec<Vec<Taken>>,
}

/// A column for each of so many metrics, of no bucket.
pub(crate) fn no_columns(alloc: Global, count: usize) -> Result<Vec<Vec<Taken>>, AllocError>
    ensures many { IfOk result (λ columns. length columns.items ≡ count) }
    ensures empty { IfOk result (λ columns. All (λ column. column.items ≡ []) columns.items) }
{
    let mut columns = Vec::with_capacity(alloc, count)?;
    for _column in 0..count {
        columns.push(Vec::new(alloc))?;
    }
    Ok(columns)
}

// One more row in the count of a bucket.
fn count_row(counts: &mut Vec<u64>, place: usize) -> Result<(), AllocError>
    ensures many { length counts.new.items ≡ length counts.old.items }
    ensures within { OnOk result (place < length counts.old.items) }
    ensures count { OnOk result (counts.new.items
        ≡ slice_set counts.old.items place (slice_index_or counts.old.items place 0 + 1)) }
{
    if place >= counts.len() {
        return Err(AllocError);
    }
    counts[place] = sum(counts[place], 1)?;
    Ok(())
}

// The values of one more row in the column of a metric, at the place of a bucket.
fn take_in_column(
    kind: &Kind,
    shard: &Shard,
    row: u32,
    place: usize,
    column: &mut Vec<Taken>,
) -> Result<(), AllocError>
    requires metric { IsTrue (is_metric kind.now) }
    requires in_range { row < length shard.now.rows }
    ensures here { OnOk result (taken_at column.new place
        ≡ metric_with kind.now (row_of shard.now.rows row) (taken_at column.old place)) }
    ensures others { OnOk result ((n : ℕ) → n ≢ place → taken_at column.new n ≡ taken_at column.old n) }
{
    if place >= column.len() {
        return Err(AllocError);
    }
    take_row(kind, shard, row, &mut column[place])?;
    Ok(())
}

// The same in the column of each metric.
fn take_in_columns(
    aggs: &List<Agg>,
    shard: &Shard,
    row: u32,
    place: usize,
    columns: &mut Vec<Vec<Taken>>,
) -> Result<(), AllocError>
    requires metrics { IsTrue (list_all (λ a. is_metric (out-Agg a).kind) aggs.now) }
    requires in_range { row < length shard.now.rows }
    ensures here { OnOk result (metrics_at columns.new.items place
        ≡ metrics_with aggs.now (row_of shard.now.rows row) (metrics_at columns.old.items place)) }
    ensures others { OnOk result ((n : ℕ) → n ≢ place → metrics_at columns.new.items n ≡ metrics_at columns.old.items n) }
{
    for child in 0..aggs.len() {
        if child >= columns.len() {
            return Err(AllocError);
        }
        take_in_column(
            &aggs.as_slice()[child].kind,
            shard,
            row,
            place,
            &mut columns[child],
        )?;
    }
    Ok(())
}

/// One more row in the bucket at a place, with its values in each of the metrics, which are those of the aggregations.
pub(crate) fn take_measured(
    aggs: &List<Agg>,
    shard: &Shard,
    row: u32,
    place: usize,
    counts: &mut Vec<u64>,
    columns: &mut Vec<Vec<Taken>>,
) -> Result<(), AllocError>
    requires metrics { IsTrue (list_all (λ a. is_metric (out-Agg a).kind) aggs.now) }
    requires in_range { row < length shard.now.rows }
    ensures many { length counts.new.items ≡ length counts.old.items }
    ensures within { OnOk result (place < length counts.old.items) }
    ensures count { OnOk result (counts.new.items
        ≡ slice_set counts.old.items place (slice_index_or counts.old.items place 0 + 1)) }
    ensures here { OnOk result (metrics_at columns.new.items place
        ≡ metrics_with aggs.now (row_of shard.now.rows row) (metrics_at columns.old.items place)) }
    ensures others { OnOk result ((n : ℕ) → n ≢ place → metrics_at columns.new.items n ≡ metrics_at columns.old.items n) }
{
    count_row(counts, place)?;
    take_in_columns(aggs, shard, row, place, columns)?;
    Ok(())
}

// A place behind all in a column.
fn begin_in_column(place: usize, column: &mut Vec<Taken>) -> Result<(), AllocError>
    ensures here { OnOk result (taken_at column.old place ≡ no_values) }
    ensures same { OnOk result ((n : ℕ) → taken_at column.new n ≡ taken_at column.old n) }
{
    if column.len() != place {
        return Err(AllocError);
    }
    column.push(Taken::new())?;
    Ok(())
}

// The same in each column.
fn begin_in_columns(place: usize, columns: &mut Vec<Vec<Taken>>) -> Result<(), AllocError>
    ensures here { OnOk result (metrics_at columns.old.items place ≡ map (λ column. no_values) columns.old.items) }
    ensures same { OnOk result ((n : ℕ) → metrics_at columns.new.items n ≡ metrics_at columns.old.items n) }
{
    for child in 0..columns.len() {
        begin_in_column(place, &mut columns[child])?;
    }
    Ok(())
}

/// A bucket without rows behind the others, below which there are so many metrics.
pub(crate) fn begin_measured(
    metrics: usize,
    counts: &mut Vec<u64>,
    columns: &mut Vec<Vec<Taken>>,
) -> Result<(), AllocError>
    ensures many { OnOk result (length columns.old.items ≡ metrics) }
    ensures few { length counts.new.items ≤ length counts.old.items + 1 }
    ensures count { OnOk result (counts.new.items ≡ counts.old.items ++ 0 ∷ []) }
    ensures here { OnOk result (metrics_at columns.old.items (length counts.old.items) ≡ map (λ column. no_values) columns.old.items) }
    ensures same { OnOk result ((n : ℕ) → metrics_at columns.new.items n ≡ metrics_at columns.old.items n) }
{
    if columns.len() != metrics {
        return Err(AllocError);
    }
    begin_in_columns(counts.len(), columns)?;
    counts.push(0)?;
    Ok(())
}
