//! The values that a document gives a field. A refusal has the path of the member.

ghost use Rattle.std.specs.Prelude.{◌≡◌};
ghost use Rattle.lent_json.specs.View.{view};
ghost use Rattle.date_spec.specs.DateTexts.{read_date};
ghost use Rattle.agg_reading.specs.Scalars.{word};
ghost use Rattle.agg_reading.specs.Document.{number_value, word_value, is_ignored, document_flag, instant_value, date_value, scalar_at};
ghost use Rattle.document_rows.specs.Faults.{Gives};

use crate::fault::ItemFault;
use crate::refusal::refuse;
use agg_model::item_refusal::{KEYWORD_TOO_LONG, NUMBER_OUT_OF_RANGE, WRONG_FIELD_TYPE};
use agg_model::limits::MAX_KEYWORD;
use agg_model::{FieldKind, Scalar};
use date_text::{DateFault, read};
use json_walk::{fits_kind, is_longer};
use lent_json::{Lent, flag, whole, word};
use std::alloc::Global;

/// The value of a field of numbers or dates: `WRONG_FIELD_TYPE` where there is no whole number, `NUMBER_OUT_OF_RANGE`
/// where it lies outside the range of the kind.
fn number(
    alloc: Global,
    kind: FieldKind,
    path: &str,
    found: Option<i128>,
) -> Result<Option<Scalar>, ItemFault>
    ensures { Gives (λ x. x) result (number_value kind path.now found) }
{
    let Some(number) = found else {
        return refuse(alloc, WRONG_FIELD_TYPE, path);
    };
    if !fits_kind(kind, number) {
        return refuse(alloc, NUMBER_OUT_OF_RANGE, path);
    }
    Ok(Some(Scalar::Whole(number as i64)))
}

/// Whether a keyword has more characters than `ignore_above`.
fn is_ignored(above: Option<u32>, word: &str) -> bool
    ensures { result ≡ is_ignored above word.now }
{
    match above {
        Some(most) => is_longer(word, most),
        None => false,
    }
}

/// The value of a keyword field: none where it is longer than `ignore_above`; `WRONG_FIELD_TYPE` where the value is no
/// text, whole number or boolean, `KEYWORD_TOO_LONG` where it has too many bytes.
fn keyword(
    alloc: Global,
    above: Option<u32>,
    path: &str,
    value: &Lent<'_>,
) -> Result<Option<Scalar>, ItemFault>
    ensures { Gives (λ x. x) result (word_value above path.now (word (view value.now))) }
{
    let Some(word) = word(alloc, value)? else {
        return refuse(alloc, WRONG_FIELD_TYPE, path);
    };
    if is_ignored(above, word.as_str()) {
        return Ok(None);
    }
    if word.len() > MAX_KEYWORD {
        return refuse(alloc, KEYWORD_TOO_LONG, path);
    }
    Ok(Some(Scalar::Word(word)))
}

/// The value of a date field for a text: `WRONG_FIELD_TYPE` where it names no instant, `NUMBER_OUT_OF_RANGE` where that
/// lies outside the range of dates.
fn dated(alloc: Global, path: &str, text: &str) -> Result<Option<Scalar>, ItemFault>
    ensures { Gives (λ x. x) result (instant_value path.now (read_date text.now)) }
{
    match read(text) {
        Ok(instant) => Ok(Some(Scalar::Whole(instant))),
        Err(DateFault::Malformed) => refuse(alloc, WRONG_FIELD_TYPE, path),
        Err(DateFault::OutOfRange) => refuse(alloc, NUMBER_OUT_OF_RANGE, path),
    }
}

/// The value of a date field: a whole number of milliseconds, or the instant that a text names.
fn date(alloc: Global, path: &str, value: &Lent<'_>) -> Result<Option<Scalar>, ItemFault>
    ensures { Gives (λ x. x) result (date_value path.now (view value.now)) }
{
    match value {
        Lent::Number(found) => number(alloc, FieldKind::Date, path, found.as_i128()),
        Lent::String(text) => dated(alloc, path, text),
        _ => refuse(alloc, WRONG_FIELD_TYPE, path),
    }
}

/// The boolean of a value; the empty text counts as false.
fn document_flag(value: &Lent<'_>) -> Option<bool>
    ensures { result ≡ document_flag (view value.now) }
{
    match value {
        Lent::String(text) if text.is_empty() => Some(false),
        _ => flag(value),
    }
}

/// The value of a field of this kind; none where `ignore_above` leaves it out. Refused are a value of the wrong type
/// with `WRONG_FIELD_TYPE`, a number or date out of range with `NUMBER_OUT_OF_RANGE`, and a keyword above `MAX_KEYWORD` bytes
/// with `KEYWORD_TOO_LONG`.
#[tactic(auto, unfolding(agg_reading::specs::Document::scalar_at))]
pub fn scalar(
    alloc: Global,
    kind: FieldKind,
    above: Option<u32>,
    path: &str,
    value: &Lent<'_>,
) -> Result<Option<Scalar>, ItemFault>
    ensures { Gives (λ x. x) result (scalar_at kind above path.now (view value.now)) }
{
    match kind {
        FieldKind::Keyword => keyword(alloc, above, path, value),
        FieldKind::Boolean => match document_flag(value) {
            Some(flag) => Ok(Some(Scalar::Flag(flag))),
            None => refuse(alloc, WRONG_FIELD_TYPE, path),
        },
        FieldKind::Long | FieldKind::Integer | FieldKind::Short | FieldKind::Byte => {
            number(alloc, kind, path, whole(value))
        }
        FieldKind::Date => date(alloc, path, value),
    }
}
