//! What a clock shows: a date, and a time of day behind it.
ghost use Rattle.std.specs.Prelude.{◌≡◌, ◌≤◌, ◌≤ℤ◌, pos, neg_ℤ, IsTrue, IfSome, length};
ghost use Rattle.date_spec.specs.DateTexts as definition;
ghost use Rattle.date_spec.specs.DateTexts.{date_in, may_leave_off, time_in, whole_clock};
ghost use Rattle.date_text.specs.Parts.{IsOffset, IsWhole, numbered, timed};

use crate::calendar::{DAY_MILLIS, day_number, time_millis};
use crate::shapes::{has_shape, number};

/// The longest clock, in which `0` stands for any digit.
const LONGEST: &[u8] = b"0000-00-00T00:00:00.000000000";

/// What a clock shows that is left out.
const LEFT_OUT: [u8; 23] = *b"0000-01-01T00:00:00.000";

/// Whether a clock of this length may stand before an offset of this length, where both are counted in bytes.
fn may_leave_off(clock: usize, offset: usize) -> bool
    ensures value { result ≡ may_leave_off clock offset }
    ensures bound { IsTrue result → clock ≤ 29 }
{
    match clock {
        16 | 19 | 21..=29 => true,
        4 | 7 | 10 => offset == 0,
        _ => false,
    }
}

/// Whether this is a clock that may stand before this offset.
pub(crate) fn is_clock(clock: &[u8], offset: &[u8]) -> bool
    ensures { result ≡ definition.is_clock clock.now offset.now }
{
    may_leave_off(clock.len(), offset.len()) && has_shape(clock, &LONGEST[..clock.len()])
}

/// The clock with what is left out.
#[tactic(auto, unfolding(date_spec::specs::DateTexts::whole_clock))]
pub(crate) fn whole(clock: &[u8]) -> [u8; 23]
    ensures { result ≡ whole_clock clock.now }
{
    let mut whole = LEFT_OUT;
    let shown = clock.len().min(whole.len());
    whole[..shown].copy_from_slice(&clock[..shown]);
    whole
}

/// The number of the day that a clock shows; none where the calendar does not have the date.
fn day_of(clock: &[u8]) -> Option<i64>
    requires long { length clock.now ≡ 23 }
    requires whole { IsWhole clock.now }
    ensures number { result ≡ numbered (date_in clock.now) }
    ensures bound { IfSome result (λ day. (neg_ℤ (pos 5_000_000) ≤ℤ day) × (day ≤ℤ pos 5_000_000)) }
{
    let year = number(&clock[..4]);
    let month = number(&clock[5..7]);
    let day = number(&clock[8..10]);
    day_number(year, month, day)
}

/// The milliseconds since midnight that a clock shows; none where no clock shows this time.
fn time_of(clock: &[u8]) -> Option<i64>
    requires long { length clock.now ≡ 23 }
    requires whole { IsWhole clock.now }
    ensures millis { result ≡ timed (time_in clock.now) }
    ensures bound { IfSome result (λ millis. (pos 0 ≤ℤ millis) × (millis ≤ℤ pos 86_399_999)) }
{
    let hour = number(&clock[11..13]);
    let minute = number(&clock[14..16]);
    let second = number(&clock[17..19]);
    let milli = number(&clock[20..23]);
    time_millis(hour, minute, second, milli)
}

/// The instant at which a clock so many milliseconds ahead of UTC shows this; none where the calendar does not have the date,
/// or no clock shows the time.
pub(crate) fn shown_at(clock: &[u8], ahead: i64) -> Option<i64>
    requires long { length clock.now ≡ 23 }
    requires whole { IsWhole clock.now }
    requires offset { IsOffset ahead }
    ensures { result ≡ definition.shown_at clock.now ahead }
{
    let day = day_of(clock)?;
    let time = time_of(clock)?;
    Some(day * DAY_MILLIS + time - ahead)
}
