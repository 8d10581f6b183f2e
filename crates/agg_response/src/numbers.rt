//! The numbers of an answer as JSON values.
ghost use Rattle.std.specs.Prelude.{◌≡◌, IfOk, IsTrue, string_bytes, ◌≤◌, ◌^◌, ◌&&◌, if◌then◌else◌, int_lt, nat_lt, pos, codes, []};
ghost use Rattle.serde_json.specs.Data.{null};
ghost use Rattle.serde_json.specs.View.{view};
ghost use Rattle.agg_spec.specs.AnswerTree.{value_of};
ghost use Rattle.agg_spec.specs.Average as average;
ghost use Rattle.agg_spec.specs.Json.{whole_number};
ghost use Rattle.agg_spec.specs.RangeCheck.{is_in_range};

use crate::values::{Json, text_value};
use serde_json::Value;
use std::alloc::{AllocError, Global};

/// The value of what there is not.
pub(crate) fn null_value() -> Json
    ensures { view result.value ≡ null }
{
    Json { value: Value::Null }
}

/// A whole number.
pub(crate) fn integer_value(n: i64) -> Json
    ensures { view result.value ≡ whole_number n }
{
    Json {
        value: Value::from(n),
    }
}

/// A wider number that lies in signed 64 bits.
pub(crate) fn wide_value(n: i128) -> Json
    requires { IsTrue (is_in_range n) }
    ensures { view result.value ≡ whole_number n }
{
    integer_value(n as i64)
}

/// A number that need not be there.
pub(crate) fn optional_value(n: Option<i64>) -> Json
    ensures { view result.value ≡ value_of n }
{
    match n {
        Some(n) => integer_value(n),
        None => null_value(),
    }
}

/// A minus sign where the sum is below 0 and the average is not cut to 0.
fn sign(sum: i128, millionths: u128) -> &'static str
    ensures { result.now ≡ (if int_lt sum (pos 0) && nat_lt 0 millionths then codes "-" else []) }
{
    if sum < 0 && millionths > 0 { "-" } else { "" }
}

/// The digits, with zeros in front of them, six or more in all.
fn six_digits(alloc: Global, n: u64) -> Result<String, AllocError>
    ensures { IfOk result (λ s. string_bytes s ≡ average.six_digits n) }
{
    format!(in alloc; "{n:06}")
}

/// So many millionths, with six decimals, behind the sum's sign.
fn millionths_text(alloc: Global, sum: i128, millionths: u128) -> Result<String, AllocError>
    requires { millionths ≤ 2 ^ 83 }
    ensures { IfOk result (λ s. string_bytes s ≡ average.millionths_text sum millionths) }
{
    let sign = sign(sum, millionths);
    let whole = (millionths / 1_000_000) as u64;
    let decimals = six_digits(alloc, (millionths % 1_000_000) as u64)?;
    format!(in alloc; "{sign}{whole}.{decimals}")
}

/// The average of so many values with this sum, cut toward zero after six decimals; null where there is no value.
pub(crate) fn average_value(alloc: Global, sum: i128, count: u64) -> Result<Json, AllocError>
    requires { IsTrue (is_in_range sum) }
    ensures { IfOk result (λ j. view j.value ≡ average.average sum count) }
{
    if count == 0 {
        return Ok(null_value());
    }
    let text = millionths_text(
        alloc,
        sum,
        sum.unsigned_abs() * 1_000_000 / u128::from(count),
    )?;
    text_value(alloc, text.as_str())
}
