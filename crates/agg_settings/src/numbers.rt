//! Numbers on the command line: 1 to 20 decimal digits, and nothing else.

ghost use Rattle.std.specs.Prelude.{◌≡◌, ◌<◌, ◌≤◌, ◌^◌, IfSome, length, true};
ghost use Rattle.std.specs.Char.{is_ascii_digit};
ghost use Rattle.std.specs.List.{prefix_len};
ghost use Rattle.std.specs.Str.{all_ascii_digits};
ghost use Rattle.std.specs.Str.Parse.{digits_value};
ghost use Rattle.agg_settings.specs.Numbers.{is_number, number_of, number_in};

/// The most digits that a number has; with them it fits 128 bits also as a count of petabytes.
const MOST_DIGITS: usize = 20;

/// How many digits stand at the front.
pub(crate) fn digit_count(text: &[u8]) -> usize
    ensures count { result ≡ prefix_len is_ascii_digit text.now }
    ensures within { result ≤ length text.now }
{
    for i in 0..text.len() {
        if !text[i].is_ascii_digit() {
            return i;
        }
    }
    text.len()
}

/// Whether all bytes are decimal digits.
fn are_digits(bytes: &[u8]) -> bool
    ensures { result ≡ all_ascii_digits bytes.now }
{
    for byte in bytes {
        if !byte.is_ascii_digit() {
            return false;
        }
    }
    true
}

/// The number that up to 20 digits write.
fn value_of(digits: &[u8]) -> u128
    requires digits { all_ascii_digits digits.now ≡ true }
    requires few { length digits.now ≤ 20 }
    ensures value { result ≡ digits_value 10 digits.now }
    ensures small { result < 10 ^ 20 }
{
    let mut value = 0;
    for digit in digits {
        value = value * 10 + (*digit - b'0') as u128;
    }
    value
}

/// The number that a text writes; none where it is not 1 to 20 digits.
#[tactic(auto, unfolding(crate::specs::Numbers::number_of))]
pub(crate) fn number_of(text: &[u8]) -> Option<u128>
    ensures value { result ≡ number_of text.now }
    ensures small { IfSome result (λ n. n < 10 ^ 20) }
{
    if 0 < text.len() && text.len() <= MOST_DIGITS && are_digits(text) {
        Some(value_of(text))
    } else {
        None
    }
}

/// The number from `least` to `most` that a text writes; none for any other text.
#[tactic(auto, unfolding(crate::specs::Numbers::number_in))]
pub(crate) fn number_in(least: u64, most: u64, text: &[u8]) -> Option<u64>
    ensures value { result ≡ number_in least most text.now }
    ensures low { IfSome result (λ n. least ≤ n) }
    ensures high { IfSome result (λ n. n ≤ most) }
{
    match number_of(text) {
        Some(number) if least as u128 <= number && number <= most as u128 => Some(number as u64),
        _ => None,
    }
}
