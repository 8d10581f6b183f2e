//! What a field keeps of a value.

ghost use Rattle.std.specs.Prelude.{◌≡◌, true, FitsSigned};
ghost use Rattle.std.specs.Int.{w64};
ghost use Rattle.agg_reading.specs.Scalars.{may_be_stored, stored, is_longer};
ghost use Rattle.agg_model.specs.FieldKinds.{fits_kind};

use agg_model::{FieldKind, Probe, Scalar};
use date_spec::{GREATEST_INSTANT, LEAST_INSTANT};

/// Whether a whole number lies in the range of a field of this kind: 64, 32, 16 or 8 bits, signed, or the range of dates.
pub fn fits_kind(kind: FieldKind, number: i128) -> bool
    ensures { result ≡ fits_kind kind number }
{
    match kind {
        FieldKind::Integer => -2_147_483_648 <= number && number < 2_147_483_648,
        FieldKind::Short => -32_768 <= number && number < 32_768,
        FieldKind::Byte => -128 <= number && number < 128,
        FieldKind::Long | FieldKind::Keyword | FieldKind::Boolean => {
            -9_223_372_036_854_775_808 <= number && number < 9_223_372_036_854_775_808
        }
        FieldKind::Date => {
            i128::from(LEAST_INSTANT) <= number && number <= i128::from(GREATEST_INSTANT)
        }
    }
}

/// Whether a row may have the number in a field of this kind: one of 64 bits, and of dates one in their range.
fn may_be_stored(kind: FieldKind, number: i128) -> bool
    ensures stored { result ≡ may_be_stored kind number }
    ensures bits { result ≡ true → FitsSigned w64 number }
{
    match kind {
        FieldKind::Date => fits_kind(FieldKind::Date, number),
        FieldKind::Long
        | FieldKind::Integer
        | FieldKind::Short
        | FieldKind::Byte
        | FieldKind::Keyword
        | FieldKind::Boolean => fits_kind(FieldKind::Long, number),
    }
}

/// The same value as the value of a row in a field of this kind, whose whole numbers have 64 bits and whose dates lie in
/// their range; none where it does not fit.
pub fn stored(kind: FieldKind, probe: Probe) -> Option<Scalar>
    ensures { result ≡ stored kind probe }
{
    match probe {
        Probe::Whole(number) => {
            if may_be_stored(kind, number) {
                Some(Scalar::Whole(number as i64))
            } else {
                None
            }
        }
        Probe::Word(word) => Some(Scalar::Word(word)),
        Probe::Flag(flag) => Some(Scalar::Flag(flag)),
    }
}

/// Whether a text has more Unicode characters than this.
pub fn is_longer(text: &str, most: u32) -> bool
    ensures { result ≡ is_longer text.now most }
{
    text.chars().count() > most as usize
}
