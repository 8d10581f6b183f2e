//! Sizes in bytes, and the limits of circuit breakers.

ghost use Rattle.std.specs.Prelude.{◌≡◌, ◌≤◌, ◌*◌, ◌/◌, ◌^◌, IfSome, drop};
ghost use Rattle.std.specs.Char.{is_ascii_digit};
ghost use Rattle.std.specs.List.{prefix_len};
ghost use Rattle.std.specs.Str.{str_eq_ignore_ascii_case};
ghost use Rattle.agg_settings.specs.Sizes.{bytes_of_unit, front_digits, size_from, unit_in};
ghost use Rattle.agg_settings.specs.Limits.{amount_of, bytes_in, limit_of, IsBounded};

use crate::numbers::{digit_count, number_in, number_of};
use agg_model::limits::MAX_BYTE_SIZE;

/// What the text of a limit says.
#[derive(Clone, Copy)]
pub(crate) enum Amount {
    Bytes(u64),
    /// A share of the heap, in per cent.
    Percent(u64),
}

/// Whether both are one word, letters of either case.
fn is_word(text: &[u8], word: &str) -> bool
    ensures { result ≡ str_eq_ignore_ascii_case text.now word.now }
{
    text.eq_ignore_ascii_case(word.as_bytes())
}

/// The bytes of a unit; none for any other text.
#[tactic(auto, unfolding(crate::specs::Sizes::bytes_of_unit))]
fn bytes_of_unit(unit: &[u8]) -> Option<u64>
    ensures value { result ≡ bytes_of_unit unit.now }
    ensures high { IfSome result (λ n. n ≤ MAX_BYTE_SIZE) }
{
    if is_word(unit, "b") {
        Some(1)
    } else if is_word(unit, "kb") {
        Some(1 << 10)
    } else if is_word(unit, "mb") {
        Some(1 << 20)
    } else if is_word(unit, "gb") {
        Some(1 << 30)
    } else if is_word(unit, "tb") {
        Some(1 << 40)
    } else if is_word(unit, "pb") {
        Some(1 << 50)
    } else {
        None
    }
}

/// The size from `least` bytes to 1pb that digits and a unit say; none for any other text.
#[tactic(auto, unfolding(crate::specs::Sizes::size_from))]
pub(crate) fn size_from(least: u64, text: &[u8]) -> Option<u64>
    ensures value { result ≡ size_from least text.now }
    ensures low { IfSome result (λ n. least ≤ n) }
    ensures high { IfSome result (λ n. n ≤ MAX_BYTE_SIZE) }
{
    let count = digit_count(text);
    match (number_of(&text[..count]), bytes_of_unit(&text[count..])) {
        (Some(number), Some(unit)) => {
            let bytes = number * unit as u128;
            if least as u128 <= bytes && bytes <= MAX_BYTE_SIZE as u128 {
                Some(bytes as u64)
            } else {
                None
            }
        }
        _ => None,
    }
}

/// What the text of a limit says: `0`, a whole percentage from 0 to 100, or a size up to 1pb; none for any other text.
#[tactic(auto, unfolding(crate::specs::Limits::amount_of))]
pub(crate) fn amount_of(text: &[u8]) -> Option<Amount>
    ensures value { result ≡ amount_of text.now }
    ensures bounded { IfSome result IsBounded }
{
    if text == b"0".as_slice() {
        return Some(Amount::Bytes(0));
    }
    let count = digit_count(text);
    if &text[count..] == b"%".as_slice() {
        match number_in(0, 100, &text[..count]) {
            Some(percent) => Some(Amount::Percent(percent)),
            None => None,
        }
    } else {
        match size_from(0, text) {
            Some(bytes) => Some(Amount::Bytes(bytes)),
            None => None,
        }
    }
}

/// The bytes of a limit, a percentage of the heap rounded down.
pub(crate) fn bytes_in(heap: u64, amount: Amount) -> u64
    requires { IsBounded amount }
    ensures value { result ≡ bytes_in heap amount }
    ensures high { heap ≤ MAX_BYTE_SIZE → result ≤ MAX_BYTE_SIZE }
{
    match amount {
        Amount::Bytes(bytes) => bytes,
        Amount::Percent(percent) => (heap as u128 * percent as u128 / 100) as u64,
    }
}

/// The bytes that the text of a circuit breaker's limit says, with a heap of `heap` bytes; none where the text is none
/// of `0`, a whole percentage from 0 to 100 with `%`, and a size up to 1pb. A size is digits and one of `b`, `kb`,
/// `mb`, `gb`, `tb` and `pb`, its letters of either case, in powers of 1,024.
pub fn byte_size(text: &[u8], heap: u64) -> Option<u64>
    ensures value { result ≡ limit_of heap text.now }
    ensures high { heap ≤ MAX_BYTE_SIZE → IfSome result (λ n. n ≤ MAX_BYTE_SIZE) }
{
    match amount_of(text) {
        Some(amount) => Some(bytes_in(heap, amount)),
        None => None,
    }
}
