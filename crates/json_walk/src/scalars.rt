//! The values that a JSON value stands for in a field. A number is whole where it is an integer of 64 bits, signed or
//! unsigned: `1.0`, `1e2` and `-0` are not.

ghost use Rattle.std.specs.Prelude.{◌≡◌, IfOk, option_map};
ghost use Rattle.std.specs.Str.{all_ascii_digits};
ghost use Rattle.serde_json.specs.View.{view};
ghost use Rattle.agg_reading.specs.Scalars.{digits_of, is_decimal, decimal_of, whole, word, flag, flag_of, within_64, instant, probe_of};

use crate::ranges::fits_kind;
use agg_model::limits::MAX_DIGITS;
use agg_model::{FieldKind, Probe, Text};
use date_text::read;
use serde_json::{Number, Value};
use std::alloc::{AllocError, Global};

/// Whether all bytes are decimal digits.
fn are_digits(bytes: &[u8]) -> bool
    ensures { result ≡ all_ascii_digits bytes.now }
{
    for b in bytes {
        if !b.is_ascii_digit() {
            return false;
        }
    }
    true
}

/// The text behind an optional `-`.
fn digits_of(text: &str) -> &[u8]
    ensures { result.now ≡ digits_of text.now }
{
    let bytes = text.as_bytes();
    if !bytes.is_empty() && bytes[0] == b'-' {
        &bytes[1..]
    } else {
        bytes
    }
}

/// Whether a text is an optional `-` and 1 to `MAX_DIGITS` digits.
fn is_decimal(text: &str) -> bool
    ensures { result ≡ is_decimal text.now }
{
    let digits = digits_of(text);
    0 < digits.len() && digits.len() <= MAX_DIGITS && are_digits(digits)
}

/// The number that a decimal text writes; none where the text is not an optional `-` and 1 to `MAX_DIGITS` digits.
#[tactic(auto, unfolding(agg_reading::specs::Scalars::decimal_of))]
pub fn decimal_of(text: &str) -> Option<i128>
    ensures { result ≡ decimal_of text.now }
{
    if !is_decimal(text) {
        return None;
    }
    text.parse::<i128>().ok()
}

/// The number of a whole JSON number or a decimal text; none for any other value.
#[tactic(auto, unfolding(agg_reading::specs::Scalars::whole))]
pub fn whole(value: &Value) -> Option<i128>
    ensures { result ≡ whole (view value.now) }
{
    match value {
        Value::Number(number) => number.as_i128(),
        Value::String(text) => decimal_of(text.as_str()),
        _ => None,
    }
}

/// The keyword of a text, a whole number in decimal, or a boolean's word; none for any other value.
#[tactic(auto, unfolding(agg_reading::specs::Scalars::word))]
pub fn word(alloc: Global, value: &Value) -> Result<Option<Text>, AllocError>
    ensures { IfOk result (λ w. w ≡ word (view value.now)) }
{
    match value {
        Value::Number(number) => match number.as_i128() {
            Some(n) => Ok(Some(Text::from_string(n.to_string(alloc)?))),
            None => Ok(None),
        },
        Value::String(text) => Ok(Some(Text::of(alloc, text.as_str())?)),
        Value::Bool(true) => Ok(Some(Text::of(alloc, "true")?)),
        Value::Bool(false) => Ok(Some(Text::of(alloc, "false")?)),
        _ => Ok(None),
    }
}

/// The boolean of the texts `true` and `false`.
fn flag_of(text: &str) -> Option<bool>
    ensures { result ≡ flag_of text.now }
{
    match text {
        "true" => Some(true),
        "false" => Some(false),
        _ => None,
    }
}

/// The boolean of a JSON boolean or of the texts `true` and `false`; none for any other value.
#[tactic(auto, unfolding(agg_reading::specs::Scalars::flag))]
pub fn flag(value: &Value) -> Option<bool>
    ensures { result ≡ flag (view value.now) }
{
    match value {
        Value::Bool(b) => Some(*b),
        Value::String(text) => flag_of(text.as_str()),
        _ => None,
    }
}

/// The number, where it is one of 64 bits, signed.
fn within_64(number: i128) -> Option<i128>
    ensures { result ≡ within_64 number }
{
    if fits_kind(FieldKind::Long, number) {
        Some(number)
    } else {
        None
    }
}

/// The instant of a whole number of 64 bits, signed, or of a text that names one in the range of dates; none for any other value.
#[tactic(auto, unfolding(agg_reading::specs::Scalars::instant))]
fn instant(value: &Value) -> Option<i128>
    ensures { result ≡ instant (view value.now) }
{
    match value {
        Value::Number(number) => match number.as_i128() {
            Some(n) => within_64(n),
            None => None,
        },
        Value::String(text) => match read(text.as_str()) {
            Ok(found) => Some(i128::from(found)),
            Err(_) => None,
        },
        _ => None,
    }
}

/// What a query asks a field of this kind for; none where the value is none for such a field.
#[tactic(auto, unfolding(agg_reading::specs::Scalars::probe_of))]
pub fn probe_of(alloc: Global, kind: FieldKind, value: &Value) -> Result<Option<Probe>, AllocError>
    ensures { IfOk result (λ p. p ≡ probe_of kind (view value.now)) }
{
    match kind {
        FieldKind::Keyword => Ok(word(alloc, value)?.map(Probe::Word)),
        FieldKind::Boolean => Ok(flag(value).map(Probe::Flag)),
        FieldKind::Long | FieldKind::Integer | FieldKind::Short | FieldKind::Byte => {
            Ok(whole(value).map(Probe::Whole))
        }
        FieldKind::Date => Ok(instant(value).map(Probe::Whole)),
    }
}
