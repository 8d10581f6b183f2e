//! The keys of a row, by the queries as they stand. For many rows prepare the queries first.
ghost use Rattle.std.specs.Prelude.{◌≡◌, ◌<◌, ◌≤◌, Bool, IfOk, length, map};
ghost use Rattle.agg_model.specs.declared.key.Key.TheVariants.{Fixed};
ghost use Rattle.agg_model.specs.declared.limits.TheConstants.{MAX_FILTERS};
ghost use Rattle.agg_evaluation.specs.Keys.{keys as keys_of_row, single_key as key_where};
ghost use Rattle.agg_evaluation.specs.Matching.{matches as matches_row};
ghost use Rattle.agg_evaluation.specs.Rows.{row_of};
ghost use Rattle.filters_agg.specs.Filtering.{IsFiltering};
ghost use Rattle.filters_agg.specs.Numbers.{numbers_where};

use agg_model::{Key, Kind, List, Query};
use column_query::matches;
use shard_columns::Shard;
use std::alloc::{AllocError, Global};

/// The keys of a row at a filters, a filter or a missing aggregation: the numbers of the filters that match, ascending, or the
/// number behind them where none does and there is an other bucket; 0 or nothing where the kind has one bucket. It goes through
/// each list of the queries for each value that they read.
pub fn keys(alloc: Global, shard: &Shard, row: u32, kind: &Kind) -> Result<List<Key>, AllocError>
    requires filtering { IsFiltering kind.now }
    requires in_range { row < length shard.now.rows }
    ensures { IfOk result (λ ks. ks ≡ keys_of_row shard.now.rows kind.now (row_of shard.now.rows row)) }
{
    match kind {
        Kind::Filters { filters, other, .. } => {
            keys_of_filters(alloc, shard, row, filters, other.is_some())
        }
        Kind::Filter { query } => single_key(alloc, matches(shard, query, row)),
        Kind::Missing { field } => single_key(alloc, shard.value_count(row, *field) == 0),
        Kind::Terms { .. }
        | Kind::Histogram { .. }
        | Kind::DateHistogram { .. }
        | Kind::Global
        | Kind::Nested { .. }
        | Kind::ReverseNested { .. }
        | Kind::Composite { .. }
        | Kind::Sum { .. }
        | Kind::Min { .. }
        | Kind::Max { .. }
        | Kind::Avg { .. }
        | Kind::ValueCount { .. } => unreachable!(),
    }
}

/// The number of keys that `keys` gives, with no key built: it takes no memory.
pub fn key_count(shard: &Shard, row: u32, kind: &Kind) -> u64
    requires filtering { IsFiltering kind.now }
    requires in_range { row < length shard.now.rows }
    ensures { result ≡ length (keys_of_row shard.now.rows kind.now (row_of shard.now.rows row)) }
{
    match kind {
        Kind::Filters { filters, other, .. } => {
            count_of_filters(shard, row, filters, other.is_some())
        }
        Kind::Filter { query } => u64::from(matches(shard, query, row)),
        Kind::Missing { field } => u64::from(shard.value_count(row, *field) == 0),
        Kind::Terms { .. }
        | Kind::Histogram { .. }
        | Kind::DateHistogram { .. }
        | Kind::Global
        | Kind::Nested { .. }
        | Kind::ReverseNested { .. }
        | Kind::Composite { .. }
        | Kind::Sum { .. }
        | Kind::Min { .. }
        | Kind::Max { .. }
        | Kind::Avg { .. }
        | Kind::ValueCount { .. } => unreachable!(),
    }
}

fn keys_of_filters(
    alloc: Global,
    shard: &Shard,
    row: u32,
    filters: &List<Query>,
    has_other: bool,
) -> Result<List<Key>, AllocError>
    requires few { length filters.now ≤ MAX_FILTERS }
    requires in_range { row < length shard.now.rows }
    ensures { IfOk result (λ ks. ks ≡ map Fixed (numbers_where has_other
        (map (λ q. matches_row shard.now.rows q (row_of shard.now.rows row)) filters.now))) }
{
    let mut keys = List::new(alloc);
    for (place, filter) in filters.as_slice().iter().enumerate() {
        if matches(shard, filter, row) {
            keys.push(Key::Fixed(place as u32))?;
        }
    }
    if has_other && keys.is_empty() {
        keys.push(Key::Fixed(filters.len() as u32))?;
    }
    Ok(keys)
}

// How many keys `keys_of_filters` gives.
fn count_of_filters(shard: &Shard, row: u32, filters: &List<Query>, has_other: bool) -> u64
    requires { row < length shard.now.rows }
    ensures { result ≡ length (numbers_where has_other
        (map (λ q. matches_row shard.now.rows q (row_of shard.now.rows row)) filters.now)) }
{
    let mut count = 0;
    for filter in filters.as_slice() {
        if matches(shard, filter, row) {
            count += 1;
        }
    }
    if has_other && count == 0 { 1 } else { count }
}

fn single_key(alloc: Global, there: bool) -> Result<List<Key>, AllocError>
    ensures { IfOk result (λ ks. ks ≡ key_where there) }
{
    let mut keys = List::new(alloc);
    if there {
        keys.push(Key::Fixed(0))?;
    }
    Ok(keys)
}
