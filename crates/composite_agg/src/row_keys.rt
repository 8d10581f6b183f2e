//! The keys of a row.
ghost use Rattle.std.specs.Prelude.{◌≡◌, ◌<◌, ◌≤◌, ◌^◌, ◌-◌, IfOk, length, flat_map, min};
ghost use Rattle.agg_evaluation.specs.Keys.{distinct_keys, keys as keys_of_row, source_keys as keys_of_source};
ghost use Rattle.agg_evaluation.specs.Ceiling.{combination_count, greatest_combinations};
ghost use Rattle.agg_evaluation.specs.Rows.{values_of, row_of};
ghost use Rattle.shard_columns.specs.Built.{IsShard};
ghost use Rattle.composite_agg.specs.Odometer.{keys_left};
ghost use Rattle.composite_agg.specs.Sources.{ArePositive, IsComposite, IsPositive, part_keys};

use crate::odometer::Combinations;
use crate::parts::new_part;
use agg_model::{CompositeSource, Key, Kind, List};
use shard_columns::Shard;
use std::alloc::{AllocError, Global};

/// The distinct keys of a row at a composite, ascending: each combination of one part for each source. The intervals of its
/// sources are above 0. It takes time and memory in proportion to the keys and the row's values.
pub fn keys(alloc: Global, shard: &Shard, row: u32, kind: &Kind) -> Result<List<Key>, AllocError>
    requires built { IsShard shard.now }
    requires in_range { row < length shard.now.rows }
    requires composite { IsComposite kind.now }
    requires few { length (keys_of_row shard.now.rows kind.now (row_of shard.now.rows row)) ≤ greatest_combinations }
    ensures { IfOk result (λ ks. ks ≡ keys_of_row shard.now.rows kind.now (row_of shard.now.rows row)) }
{
    match Combinations::of_row(alloc, shard, row, kind)? {
        Some(combinations) => keys_from(alloc, combinations),
        None => Ok(List::new(alloc)),
    }
}

// The keys of the combination that is chosen and of those behind it.
fn keys_from(alloc: Global, mut combinations: Combinations) -> Result<List<Key>, AllocError>
    ensures { IfOk result (λ ks. ks ≡ keys_left combinations.entry) }
{
    let mut keys = Vec::new(alloc);
    keys.push(combinations.key(alloc)?)?;
    'behind: while combinations.advance() {
        keys.push(combinations.key(alloc)?)?;
    }
    Ok(List::from_vec(keys))
}

/// The number of keys that `keys` gives, at most 2^64 - 1: the product of the numbers of the sources' parts, with no key built.
/// It takes time in proportion to the row's values, and no memory.
pub fn key_count(shard: &Shard, row: u32, kind: &Kind) -> u64
    requires built { IsShard shard.now }
    requires in_range { row < length shard.now.rows }
    requires composite { IsComposite kind.now }
    ensures { result ≡ min (length (keys_of_row shard.now.rows kind.now (row_of shard.now.rows row))) (2 ^ 64 - 1) }
{
    match kind {
        Kind::Composite { sources, .. } => combination_count_of(shard, row, sources.as_slice()),
        Kind::Terms { .. }
        | Kind::Histogram { .. }
        | Kind::DateHistogram { .. }
        | Kind::Filters { .. }
        | Kind::Filter { .. }
        | Kind::Missing { .. }
        | Kind::Global
        | Kind::Nested { .. }
        | Kind::ReverseNested { .. }
        | Kind::Sum { .. }
        | Kind::Min { .. }
        | Kind::Max { .. }
        | Kind::Avg { .. }
        | Kind::ValueCount { .. } => unreachable!(),
    }
}

fn combination_count_of(shard: &Shard, row: u32, sources: &[CompositeSource]) -> u64
    requires built { IsShard shard.now }
    requires in_range { row < length shard.now.rows }
    requires positive { ArePositive sources.now }
    ensures { result ≡ min (combination_count sources.now (row_of shard.now.rows row)) (2 ^ 64 - 1) }
{
    let mut count: u64 = 1;
    for source in sources {
        count = count.saturating_mul(source_key_count(shard, row, source));
    }
    count
}

// How many distinct parts a row has at a source, where null counts as one.
fn source_key_count(shard: &Shard, row: u32, source: &CompositeSource) -> u64
    requires built { IsShard shard.now }
    requires in_range { row < length shard.now.rows }
    requires positive { IsPositive source.now }
    ensures { result ≡ length (keys_of_source (row_of shard.now.rows row) source.now) }
{
    let count = value_key_count(shard, row, source);
    if count == 0 && source.missing_bucket {
        1
    } else {
        count
    }
}

fn value_key_count(shard: &Shard, row: u32, source: &CompositeSource) -> u64
    requires built { IsShard shard.now }
    requires in_range { row < length shard.now.rows }
    requires positive { IsPositive source.now }
    ensures { result ≡ length (distinct_keys (flat_map (part_keys source.now) (values_of source.now.field (row_of shard.now.rows row)))) }
{
    let values = shard.value_count(row, source.field);
    if values < 2 && source.interval.is_none() {
        // One value gives one part, whatever it is.
        return u64::from(values);
    }
    let mut count = 0;
    for place in 0..values {
        if new_part(shard, row, source, place).is_some() {
            count += 1;
        }
    }
    count
}
