//! The queries of an aggregation, prepared once for a shard before its rows are looked at.
ghost use Rattle.std.specs.Prelude.{◌≡◌, ◌∷◌, [], ◌<◌, ◌≤◌, IfOk, OnOk, length, map, pos, true};
ghost use Rattle.std.specs.List.{list_all};
ghost use Rattle.agg_evaluation.specs.Keys.{keys as keys_of_row};
ghost use Rattle.agg_evaluation.specs.Rows.{row_of};
ghost use Rattle.agg_model.specs.declared.aggregation.Kind.{Kind};
ghost use Rattle.agg_model.specs.declared.limits.TheConstants.{MAX_FILTERS};
ghost use Rattle.column_query.specs.Prepared.{AreReady, reads_below};
ghost use Rattle.filters_agg.specs.Filtering.{IsFiltering, IsMadeFor, AreMadeFor};
ghost use Rattle.filters_agg.specs.PreparedFilters.{IsReady, key_of, numbers_of_row};

use agg_model::{Kind, List, Query};
use column_query::{Prepared, is_match, prepare as prepare_query};
use shard_columns::Shard;
use std::alloc::{AllocError, Global};

/// The queries of a filters, a filter or a missing aggregation, prepared for one shard. A missing aggregation is a filter of
/// the rows without a value.
#[derive(Drop)]
pub struct PreparedFilters {
    /// One for each bucket, by the bucket's number.
    pub filters: List<Prepared>,
    /// Whether a row that no filter matches has a bucket, behind the others.
    pub has_other: bool,
}

fn prepare_all(
    alloc: Global,
    shard: &Shard,
    queries: &List<Query>,
) -> Result<List<Prepared>, AllocError>
    requires { AreMadeFor shard.now queries.now }
    ensures { IfOk result (λ prepared. AreReady shard.now queries.now prepared) }
{
    let mut prepared = List::new(alloc);
    for query in queries.as_slice() {
        prepared.push(prepare_query(alloc, shard, query)?)?;
    }
    Ok(prepared)
}

fn only(alloc: Global, filter: Prepared) -> Result<List<Prepared>, AllocError>
    ensures { IfOk result (λ filters. filters ≡ filter ∷ []) }
{
    let mut filters = List::new(alloc);
    filters.push(filter)?;
    Ok(filters)
}

// The prepared query that matches the rows without a value of the field.
fn without_value(alloc: Global, field: u32) -> Result<Prepared, AllocError>
    ensures { IfOk result (λ p. p ≡ Prepared.Bool [] (Prepared.Exists field ∷ []) [] 0) }
{
    Ok(Prepared::Bool {
        must: List::new(alloc),
        must_not: only(alloc, Prepared::Exists { field })?,
        should: List::new(alloc),
        minimum: 0,
    })
}

/// The aggregation's queries, prepared for the shard. The kind is a filters, a filter or a missing aggregation that is made for
/// the mapping of the shard. It takes time and memory by the queries, times the logarithm of their lists.
pub fn prepare(alloc: Global, shard: &Shard, kind: &Kind) -> Result<PreparedFilters, AllocError>
    requires filtering { IsFiltering kind.now }
    requires made { IsMadeFor shard.now kind.now }
    ensures { IfOk result (λ prepared. IsReady shard.now kind.now prepared) }
{
    match kind {
        Kind::Filters { filters, other, .. } => Ok(PreparedFilters {
            filters: prepare_all(alloc, shard, filters)?,
            has_other: other.is_some(),
        }),
        Kind::Filter { query } => Ok(PreparedFilters {
            filters: only(alloc, prepare_query(alloc, shard, query)?)?,
            has_other: false,
        }),
        Kind::Missing { field } => Ok(PreparedFilters {
            filters: only(alloc, without_value(alloc, *field)?)?,
            has_other: false,
        }),
        Kind::Terms { .. }
        | Kind::Histogram { .. }
        | Kind::DateHistogram { .. }
        | Kind::Global
        | Kind::Nested { .. }
        | Kind::ReverseNested { .. }
        | Kind::Composite { .. }
        | Kind::Sum { .. }
        | Kind::Min { .. }
        | Kind::Max { .. }
        | Kind::Avg { .. }
        | Kind::ValueCount { .. } => unreachable!(),
    }
}

/// Puts the numbers of the filters that match the row into `codes`, ascending, in the place of what it held; where none matches,
/// the number behind them if there is an other bucket. The filters are prepared for this shard. After want of memory `codes`
/// has some of the numbers. It takes time by the row's values that the filters read.
pub fn codes(
    shard: &Shard,
    prepared: &PreparedFilters,
    row: u32,
    codes: &mut Vec<i64>,
) -> Result<(), AllocError>
    requires fields { list_all (reads_below (length shard.now.kinds)) prepared.now.filters ≡ true }
    requires few { length prepared.now.filters ≤ MAX_FILTERS }
    requires in_range { row < length shard.now.rows }
    ensures numbers { OnOk result (codes.new.items ≡ map pos (numbers_of_row shard.now.rows prepared.now (row_of shard.now.rows row))) }
    ensures keys { OnOk result ((kind : Kind) → IsReady shard.now kind prepared.now →
        map key_of codes.new.items ≡ keys_of_row shard.now.rows kind (row_of shard.now.rows row)) }
{
    codes.clear();
    for (place, filter) in prepared.filters.as_slice().iter().enumerate() {
        if is_match(shard, filter, row) {
            codes.push(place as i64)?;
        }
    }
    if prepared.has_other && codes.is_empty() {
        codes.push(prepared.filters.len() as i64)?;
    }
    Ok(())
}

/// How many numbers `codes` gives. It takes no memory.
pub fn count(shard: &Shard, prepared: &PreparedFilters, row: u32) -> u64
    requires fields { list_all (reads_below (length shard.now.kinds)) prepared.now.filters ≡ true }
    requires in_range { row < length shard.now.rows }
    ensures numbers { result ≡ length (numbers_of_row shard.now.rows prepared.now (row_of shard.now.rows row)) }
    ensures keys { (kind : Kind) → IsReady shard.now kind prepared.now →
        result ≡ length (keys_of_row shard.now.rows kind (row_of shard.now.rows row)) }
{
    let mut count = 0;
    for filter in prepared.filters.as_slice() {
        if is_match(shard, filter, row) {
            count += 1;
        }
    }
    if prepared.has_other && count == 0 {
        1
    } else {
        count
    }
}
