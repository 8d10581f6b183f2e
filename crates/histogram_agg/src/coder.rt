//! The codes of a row, for whatever gives numbers their codes: histograms of numbers, and those of dates.
ghost use Rattle.std.specs.Prelude.{◌≡◌, ◌<◌, ◌++◌, ◌∷◌, [], ℕ, ℤ, Bool, Option, All, IfNone, IfSome, OnOk, length, option_to_list};
ghost use Rattle.agg_evaluation.specs.Rows.{row_of, values_of};
ghost use Rattle.shard_columns.specs.Lent.{wholes_in};
ghost use Rattle.histogram_agg.specs.RowCodes.{kept_codes, row_codes};

use shard_columns::Shard;
use std::alloc::AllocError;

/// What is prepared of a histogram before its rows come. A later number has no lower code.
pub trait Coder {
    ghost field_of: { Self → ℕ };

    ghost missing_of: { Self → Option ℤ };

    ghost can_code: { Self → ℤ → Type 0 };

    ghost code_of: { Self → ℤ → ℤ };

    ghost is_kept: { Self → ℤ → Bool };

    /// The field whose values have codes.
    fn field(&self) -> u32
        ensures { result ≡ field_of self.now };

    /// The code of a row without a value.
    fn missing(&self) -> Option<i64>
        ensures { result ≡ missing_of self.now };

    /// The code of a number.
    fn code(&self, number: i64) -> i64
        requires { can_code self.now number }
        ensures { result ≡ code_of self.now number };

    /// Whether the key of a code lies within the hard bounds.
    fn keeps(&self, code: i64) -> bool
        ensures { result ≡ is_kept self.now code };
}

/// Puts the codes of the row in the place of what the list has. It takes time in proportion to the row's values, and memory only
/// where the list has no room for them.
pub fn put_codes<C: Coder>(
    shard: &Shard,
    coder: &C,
    row: u32,
    codes: &mut Vec<i64>,
) -> Result<(), AllocError>
    requires in_range { row < length shard.now.rows }
    requires can { All (C.can_code coder.now) (wholes_in (values_of (C.field_of coder.now) (row_of shard.now.rows row))) }
    ensures { OnOk result (codes.new.items
        ≡ row_codes (C.missing_of coder.now) (C.code_of coder.now) (C.is_kept coder.now) (values_of (C.field_of coder.now) (row_of shard.now.rows row))) }
{
    codes.clear();
    let numbers = shard.numbers(row, coder.field());
    if numbers.is_empty() && shard.value_count(row, coder.field()) == 0 {
        if let Some(code) = coder.missing() {
            codes.push(code)?;
        }
        return Ok(());
    }
    push_codes(coder, numbers, codes)
}

/// How many codes `put_codes` gives. It takes no memory.
pub fn count_codes<C: Coder>(shard: &Shard, coder: &C, row: u32) -> u64
    requires in_range { row < length shard.now.rows }
    requires can { All (C.can_code coder.now) (wholes_in (values_of (C.field_of coder.now) (row_of shard.now.rows row))) }
    ensures { result ≡ length
        (row_codes (C.missing_of coder.now) (C.code_of coder.now) (C.is_kept coder.now) (values_of (C.field_of coder.now) (row_of shard.now.rows row))) }
{
    let numbers = shard.numbers(row, coder.field());
    if numbers.is_empty() && shard.value_count(row, coder.field()) == 0 {
        return u64::from(coder.missing().is_some());
    }
    count_kept(coder, numbers)
}

/// The one code of a row that has at most one number, if it has a code. Time is constant.
pub fn only_code<C: Coder>(shard: &Shard, coder: &C, row: u32) -> Option<Option<i64>>
    requires in_range { row < length shard.now.rows }
    requires can { All (C.can_code coder.now) (wholes_in (values_of (C.field_of coder.now) (row_of shard.now.rows row))) }
    ensures codes { IfSome result (λ code. option_to_list code
        ≡ row_codes (C.missing_of coder.now) (C.code_of coder.now) (C.is_kept coder.now) (values_of (C.field_of coder.now) (row_of shard.now.rows row))) }
    ensures none { IfNone result (1 < length (values_of (C.field_of coder.now) (row_of shard.now.rows row))) }
{
    match shard.numbers(row, coder.field()) {
        [] if shard.value_count(row, coder.field()) == 0 => Some(coder.missing()),
        // A value that is no number has no key.
        [] => Some(None),
        [number] => Some(kept_code(coder, *number)),
        _ => None,
    }
}

fn kept_code<C: Coder>(coder: &C, number: i64) -> Option<i64>
    requires { C.can_code coder.now number }
    ensures { option_to_list result ≡ kept_codes (C.code_of coder.now) (C.is_kept coder.now) (number ∷ []) }
{
    let code = coder.code(number);
    if coder.keeps(code) { Some(code) } else { None }
}

// The numbers ascend, so that equal codes stand side by side.
fn push_codes<C: Coder>(coder: &C, numbers: &[i64], codes: &mut Vec<i64>) -> Result<(), AllocError>
    requires { All (C.can_code coder.now) numbers.now }
    ensures { OnOk result (codes.new.items ≡ codes.old.items ++ kept_codes (C.code_of coder.now) (C.is_kept coder.now) numbers.now) }
{
    let mut last = None;
    for number in numbers {
        let code = coder.code(*number);
        if last != Some(code) {
            last = Some(code);
            if coder.keeps(code) {
                codes.push(code)?;
            }
        }
    }
    Ok(())
}

// How many codes `push_codes` puts.
fn count_kept<C: Coder>(coder: &C, numbers: &[i64]) -> u64
    requires { All (C.can_code coder.now) numbers.now }
    ensures { result ≡ length (kept_codes (C.code_of coder.now) (C.is_kept coder.now) numbers.now) }
{
    let mut count = 0;
    let mut last = None;
    for number in numbers {
        let code = coder.code(*number);
        if last != Some(code) {
            last = Some(code);
            if coder.keeps(code) {
                count += 1;
            }
        }
    }
    count
}
