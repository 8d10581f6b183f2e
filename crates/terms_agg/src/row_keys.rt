//! The keys of a row, by an aggregation that is not prepared.
ghost use Rattle.std.specs.Prelude.{◌≡◌, ◌<◌, ◌+◌, length, take, if◌then◌else◌, IfOk};
ghost use Rattle.agg_model.specs.Options.{TermsOptions};
ghost use Rattle.agg_evaluation.specs.Keys.{keys as keys_of_row};
ghost use Rattle.agg_evaluation.specs.Rows.{row_of, values_of};
ghost use Rattle.shard_columns.specs.Built.{IsShard};
ghost use Rattle.terms_agg.specs.Lent.{AreLent};
ghost use Rattle.terms_agg.specs.Prepared.{IsTerms, keys_of_values};

use crate::included::{cell_of, is_included};
use crate::prepared::key;
use crate::preparing::prepare;
use crate::row_codes::codes;
use crate::row_values::{RowValues, code_at, row_values};
use agg_model::{Key, Kind, List, Probe};
use shard_columns::Shard;
use std::alloc::{AllocError, Global};

/// The distinct keys of a row, ascending: those that `include` has, where it is given, and `exclude` has not. It prepares the
/// aggregation for this row alone: `prepare` and `codes` are for more than a few rows.
pub fn keys(alloc: Global, shard: &Shard, row: u32, kind: &Kind) -> Result<List<Key>, AllocError>
    requires built { IsShard shard.now }
    requires in_range { row < length shard.now.rows }
    requires terms { IsTerms shard.now kind.now }
    ensures { IfOk result (λ ks. ks ≡ keys_of_row shard.now.rows kind.now (row_of shard.now.rows row)) }
{
    let prepared = prepare(alloc, shard, kind)?;
    let mut found = Vec::new(alloc);
    codes(shard, &prepared, row, &mut found)?;
    let mut keys = List::new(alloc);
    for code in found.as_slice() {
        keys.push(key(alloc, shard, &prepared, *code)?)?;
    }
    Ok(keys)
}

// Whether the value at this place has a key that no value before has, and that is included.
fn adds_key(
    shard: &Shard,
    row: u32,
    field: u32,
    values: RowValues<'_>,
    place: u32,
    include: &Option<List<Probe>>,
    exclude: &List<Probe>,
) -> bool
    requires built { IsShard shard.now }
    requires known { field < length shard.now.kinds }
    requires in_range { row < length shard.now.rows }
    requires lent { AreLent shard.now field row values }
    requires there { place < length (values_of field (row_of shard.now.rows row)) }
    ensures { (t : TermsOptions) → t.include ≡ include.now → t.exclude ≡ exclude.now →
        length (keys_of_values t (take (place + 1) (values_of field (row_of shard.now.rows row))))
        ≡ length (keys_of_values t (take place (values_of field (row_of shard.now.rows row)))) + (if result then 1 else 0) }
{
    let code = code_at(values, place as usize);
    if place > 0 && code_at(values, place as usize - 1) == code {
        return false;
    }
    is_included(shard.value(row, field, place), include, exclude)
}

fn count_of_values(
    shard: &Shard,
    row: u32,
    field: u32,
    include: &Option<List<Probe>>,
    exclude: &List<Probe>,
) -> u64
    requires built { IsShard shard.now }
    requires known { field < length shard.now.kinds }
    requires in_range { row < length shard.now.rows }
    ensures { (t : TermsOptions) → t.include ≡ include.now → t.exclude ≡ exclude.now →
        result ≡ length (keys_of_values t (values_of field (row_of shard.now.rows row))) }
{
    let values = row_values(shard, row, field);
    let mut count = 0;
    for place in 0..shard.value_count(row, field) {
        if adds_key(shard, row, field, values, place, include, exclude) {
            count += 1;
        }
    }
    count
}

/// The number of keys that `keys` gives, with no key built: it takes no memory, and goes through `include` and `exclude` once
/// for each value of the row.
pub fn key_count(shard: &Shard, row: u32, kind: &Kind) -> u64
    requires built { IsShard shard.now }
    requires in_range { row < length shard.now.rows }
    requires terms { IsTerms shard.now kind.now }
    ensures { result ≡ length (keys_of_row shard.now.rows kind.now (row_of shard.now.rows row)) }
{
    match kind {
        Kind::Terms {
            field,
            include,
            exclude,
            missing,
            ..
        } => {
            if shard.value_count(row, *field) > 0 {
                return count_of_values(shard, row, *field, include, exclude);
            }
            match missing {
                Some(value) => u64::from(is_included(cell_of(value), include, exclude)),
                None => 0,
            }
        }
        Kind::Histogram { .. }
        | Kind::DateHistogram { .. }
        | Kind::Filters { .. }
        | Kind::Filter { .. }
        | Kind::Missing { .. }
        | Kind::Global
        | Kind::Nested { .. }
        | Kind::ReverseNested { .. }
        | Kind::Composite { .. }
        | Kind::Sum { .. }
        | Kind::Min { .. }
        | Kind::Max { .. }
        | Kind::Avg { .. }
        | Kind::ValueCount { .. } => unreachable!(),
    }
}
