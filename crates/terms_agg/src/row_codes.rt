//! The codes of a row.
ghost use Rattle.std.specs.Prelude.{◌≡◌, ◌<◌, ◌+◌, ◌++◌, ℕ, length, map, take, option_to_list, true, IfNone, IfSome, OnOk};
ghost use Rattle.std.specs.List.{list_all};
ghost use Rattle.agg_model.specs.Options.{TermsOptions};
ghost use Rattle.agg_model.specs.declared.aggregation.Kind.{Kind};
ghost use Rattle.agg_evaluation.specs.Keys.{keys as keys_of_row};
ghost use Rattle.agg_evaluation.specs.Rows.{row_of, values_of};
ghost use Rattle.shard_columns.specs.Built.{IsShard};
ghost use Rattle.shard_columns.specs.Columns.{Columns};
ghost use Rattle.terms_agg.specs.Codes.{is_code, key_of};
ghost use Rattle.terms_agg.specs.Lent.{codes_in, AreLent};
ghost use Rattle.terms_agg.specs.Prepared.{IsReadyFor, IsReady, keys_of_values};

use crate::prepared::{PreparedTerms, is_allowed};
use crate::row_values::{RowValues, code_at, row_values, value_count};
use shard_columns::Shard;
use std::alloc::AllocError;

// The code of the value at this place, where its key is allowed and is not that of the value before. Values ascend, so that
// equal ones stand side by side.
fn next_code(prepared: &PreparedTerms, values: RowValues<'_>, place: usize) -> Option<i64>
    requires { place < length (codes_in values) }
    ensures code { (shard : Columns) (row : ℕ) → AreLent shard prepared.now.field row values.entry →
        list_all (is_code shard prepared.now) (option_to_list result) ≡ true }
    ensures keys { (shard : Columns) (row : ℕ) → IsShard shard → AreLent shard prepared.now.field row values.entry →
        (t : TermsOptions) → IsReadyFor shard t prepared.now →
        keys_of_values t (take (place + 1) (values_of prepared.now.field (row_of shard.rows row)))
        ≡ keys_of_values t (take place (values_of prepared.now.field (row_of shard.rows row)))
        ++ map (key_of shard prepared.now) (option_to_list result) }
{
    let code = code_at(values, place);
    if place > 0 && code_at(values, place - 1) == code {
        return None;
    }
    if is_allowed(prepared, code) {
        Some(code)
    } else {
        None
    }
}

/// Puts the codes of the row's keys, each once and in the order of the keys, in the place of what the list has. It takes time
/// in proportion to the row's values, and memory only where the list has no room for them.
pub fn codes(
    shard: &Shard,
    prepared: &PreparedTerms,
    row: u32,
    codes: &mut Vec<i64>,
) -> Result<(), AllocError>
    requires built { IsShard shard.now }
    requires known { prepared.now.field < length shard.now.kinds }
    requires in_range { row < length shard.now.rows }
    ensures keys { OnOk result ((kind : Kind) → IsReady shard.now kind prepared.now →
        map (key_of shard.now prepared.now) codes.new.items ≡ keys_of_row shard.now.rows kind (row_of shard.now.rows row)) }
    ensures codes { OnOk result ((kind : Kind) → IsReady shard.now kind prepared.now →
        list_all (is_code shard.now prepared.now) codes.new.items ≡ true) }
{
    codes.clear();
    let values = row_values(shard, row, prepared.field);
    let count = value_count(values);
    if count == 0 {
        if let Some(code) = prepared.missing {
            codes.push(code)?;
        }
        return Ok(());
    }
    for place in 0..count {
        if let Some(code) = next_code(prepared, values, place) {
            codes.push(code)?;
        }
    }
    Ok(())
}

/// The code of the row's one key, where the row has at most one value of the field; `Some(None)` says that it has no key. `None`
/// comes only of a row of more values, which has the codes that `codes` gives. Time is constant, and no list is wanted.
pub fn lone_code(shard: &Shard, prepared: &PreparedTerms, row: u32) -> Option<Option<i64>>
    requires built { IsShard shard.now }
    requires known { prepared.now.field < length shard.now.kinds }
    requires in_range { row < length shard.now.rows }
    ensures keys { IfSome result (λ code. (kind : Kind) → IsReady shard.now kind prepared.now →
        map (key_of shard.now prepared.now) (option_to_list code) ≡ keys_of_row shard.now.rows kind (row_of shard.now.rows row)) }
    ensures codes { IfSome result (λ code. (kind : Kind) → IsReady shard.now kind prepared.now →
        list_all (is_code shard.now prepared.now) (option_to_list code) ≡ true) }
    ensures none { IfNone result (1 < length (values_of prepared.now.field (row_of shard.now.rows row))) }
{
    let values = row_values(shard, row, prepared.field);
    match value_count(values) {
        0 => Some(prepared.missing),
        1 => Some(next_code(prepared, values, 0)),
        _ => None,
    }
}

/// The number of the row's keys. It takes time in proportion to the row's values, and no memory.
pub fn count(shard: &Shard, prepared: &PreparedTerms, row: u32) -> u64
    requires built { IsShard shard.now }
    requires known { prepared.now.field < length shard.now.kinds }
    requires in_range { row < length shard.now.rows }
    ensures { (kind : Kind) → IsReady shard.now kind prepared.now →
        result ≡ length (keys_of_row shard.now.rows kind (row_of shard.now.rows row)) }
{
    let values = row_values(shard, row, prepared.field);
    let places = value_count(values);
    if places == 0 {
        return u64::from(prepared.missing.is_some());
    }
    let mut count = 0;
    for place in 0..places {
        if next_code(prepared, values, place).is_some() {
            count += 1;
        }
    }
    count
}
