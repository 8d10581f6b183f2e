//! Offsets from UTC.
ghost use Rattle.std.specs.Prelude.{◌≡◌, ◌≤◌, Some, None, if◌then◌else◌, IfSome};
ghost use Rattle.date_spec.specs.DateTexts as definition;
ghost use Rattle.date_spec.specs.DateTexts.{is_offset, minutes_of};
ghost use Rattle.date_text.specs.Parts.{IsOffset, parts_of};

use crate::shapes::{has_shape, number};

const MAX_MINUTES: u16 = 18 * 60;

/// The hours and the minutes of an offset without its sign; none where it has the shape of none.
fn parts_of(offset: &[u8]) -> Option<(u16, u16)>
    ensures parts { result ≡ parts_of offset.now }
    ensures bound { IfSome result (λ parts. (parts.0 ≤ 99) × (parts.1 ≤ 99)) }
{
    if has_shape(offset, b"00") {
        Some((number(offset), 0))
    } else if has_shape(offset, b"0000") {
        Some((number(&offset[..2]), number(&offset[2..])))
    } else if has_shape(offset, b"00:00") {
        Some((number(&offset[..2]), number(&offset[3..])))
    } else {
        None
    }
}

/// The minutes of an offset without its sign; none where it is no offset.
fn minutes_of(offset: &[u8]) -> Option<u16>
    ensures minutes { result ≡ (if is_offset offset.now then Some (minutes_of offset.now) else None) }
    ensures bound { IfSome result (λ minutes. minutes ≤ 1080) }
{
    let (hours, minutes) = parts_of(offset)?;
    let in_all = hours * 60 + minutes;
    if minutes >= 60 {
        return None;
    }
    if in_all > MAX_MINUTES {
        return None;
    }
    Some(in_all)
}

/// The milliseconds by which a clock with this offset is ahead of UTC; none where it is no offset.
pub fn ahead_of(offset: &[u8]) -> Option<i64>
    ensures ahead { result ≡ definition.ahead_of offset.now }
    ensures bound { IfSome result IsOffset }
{
    let Some((sign, hours)) = offset.split_first() else {
        return Some(0);
    };
    let sign = *sign;
    if hours.is_empty() {
        return if sign == b'Z' { Some(0) } else { None };
    }
    let millis = i64::from(minutes_of(hours)?) * 60_000;
    match sign {
        b'+' => Some(millis),
        b'-' => Some(-millis),
        _ => None,
    }
}
