//! Texts to instants.
ghost use Rattle.std.specs.Prelude.{◌≡◌, ◌≤◌, Some, length, true};
ghost use Rattle.std.specs.List.{position_or_len};
ghost use Rattle.std.specs.Str.Parse.{signed_digits_value};
ghost use Rattle.date_spec.specs.DateTexts as definition;
ghost use Rattle.date_spec.specs.DateTexts.{begins_offset, clock_length, digits_of, is_millis, ranged, read_date};

use crate::clocks::{is_clock, shown_at, whole};
use crate::offsets::ahead_of;
use crate::shapes::{are_digits, has_shape};
use date_spec::{DateFault, GREATEST_INSTANT, LEAST_INSTANT};

/// The form in which most instants come, in which `0` stands for any digit.
const FULL: &[u8] = b"0000-00-00T00:00:00.000Z";

/// A text without a leading `-`.
fn digits_of(text: &[u8]) -> &[u8]
    ensures { result.now ≡ digits_of text.now }
{
    match text {
        [b'-', digits @ ..] => digits,
        _ => text,
    }
}

/// Whether a text is an optional `-` and 5 to 19 digits.
fn is_millis(text: &[u8]) -> bool
    ensures { result ≡ is_millis text.now }
{
    let digits = digits_of(text);
    if digits.len() < 5 {
        return false;
    }
    if digits.len() > 19 {
        return false;
    }
    are_digits(digits)
}

/// Whether an offset begins with this byte.
fn begins_offset(byte: u8) -> bool
    ensures { result ≡ begins_offset byte }
{
    matches!(byte, b'Z' | b'+' | b'-')
}

/// The place of the first byte that begins an offset, or the length.
fn offset_place(text: &[u8]) -> usize
    ensures place { result ≡ position_or_len begins_offset text.now }
    ensures bound { result ≤ length text.now }
{
    for (index, byte) in text.iter().enumerate() {
        if begins_offset(*byte) {
            return index;
        }
    }
    text.len()
}

/// How many bytes stand before the offset.
fn clock_length(text: &[u8]) -> usize
    ensures { result ≡ clock_length text.now }
{
    if text.len() < 10 {
        return 10;
    }
    10 + offset_place(&text[10..])
}

/// The instant that a clock and an offset behind it name.
fn instant_of_clock(clock: &[u8], offset: &[u8]) -> Option<i64>
    ensures { result ≡ definition.instant_of_clock clock.now offset.now }
{
    if !is_clock(clock, offset) {
        return None;
    }
    shown_at(&whole(clock), ahead_of(offset)?)
}

/// What a date field reads where a text names this instant, or none.
fn ranged(instant: Option<i64>) -> Result<i64, DateFault>
    ensures { result ≡ ranged instant }
{
    match instant {
        None => Err(DateFault::Malformed),
        Some(instant) if instant < LEAST_INSTANT || instant > GREATEST_INSTANT => {
            Err(DateFault::OutOfRange)
        }
        Some(instant) => Ok(instant),
    }
}

/// The instant of so many milliseconds, where a text is an optional `-` and digits.
fn read_millis(text: &str) -> Result<i64, DateFault>
    requires { is_millis text.now ≡ true }
    ensures { result ≡ ranged (Some (signed_digits_value 10 text.now)) }
{
    match text.parse::<i64>() {
        Ok(instant) => ranged(Some(instant)),
        Err(_) => Err(DateFault::OutOfRange),
    }
}

/// The instant that a text names, in milliseconds from 1970-01-01T00:00:00.000Z.
///
/// Texts are `YYYY`, `YYYY-MM` or `YYYY-MM-DD`, the last also with `T` and `hh:mm` or `hh:mm:ss`, after seconds with `.` and one
/// to nine digits, and after a time with `Z` or an offset `+hh:mm`, `+hhmm` or `+hh`, or `-` in the place of `+`; or an optional
/// `-` and 5 to 19 digits, which are the milliseconds. Every other text is `Malformed`, and so is one that names a day or a
/// time that there is not. An instant before `LEAST_INSTANT` or after `GREATEST_INSTANT` is `OutOfRange`.
///
/// It takes no memory.
pub fn read(text: &str) -> Result<i64, DateFault>
    ensures { result ≡ read_date text.now }
{
    let bytes = text.as_bytes();
    if has_shape(bytes, FULL) {
        return ranged(shown_at(&bytes[..23], 0));
    }
    if is_millis(bytes) {
        return read_millis(text);
    }
    let (clock, offset) = bytes.split_at(clock_length(bytes).min(bytes.len()));
    ranged(instant_of_clock(clock, offset))
}
