//! Days by their numbers, and times of day in milliseconds.
ghost use Rattle.std.specs.Prelude.{◌≡◌, ◌<◌, ◌≤◌, ◌≤ℤ◌, pos, neg_ℤ, unsigned_abs, IfSome, IsTrue};
ghost use Rattle.std.specs.Int.{int_div_euclid, int_rem_euclid};
ghost use Rattle.date_spec.specs.Instants.{date_at, is_in_range};
ghost use Rattle.date_text.specs.Parts.{numbered, timed};

use jiff_core::civil::Date;

/// The milliseconds of a day.
pub(crate) const DAY_MILLIS: i64 = 86_400_000;

/// The number of the day with this date; none where the calendar does not have it.
pub(crate) fn day_number(year: u16, month: u16, day: u16) -> Option<i64>
    requires year { year ≤ 9999 }
    requires month { month ≤ 99 }
    requires day { day ≤ 99 }
    ensures number { result ≡ numbered (record { year = year; month = month; day = day }) }
    ensures bound { IfSome result (λ day. (neg_ℤ (pos 5_000_000) ≤ℤ day) × (day ≤ℤ pos 5_000_000)) }
{
    match Date::new(year as i16, month as i8, day as i8) {
        Ok(date) => Some(i64::from(date.to_unix_epoch_day())),
        Err(_) => None,
    }
}

/// The milliseconds since midnight; none where no clock shows this time.
pub(crate) fn time_millis(hour: u16, minute: u16, second: u16, milli: u16) -> Option<i64>
    ensures millis { result ≡ timed (record { hour = hour; minute = minute; second = second; milli = milli }) }
    ensures bound { IfSome result (λ millis. (pos 0 ≤ℤ millis) × (millis ≤ℤ pos 86_399_999)) }
{
    if hour >= 24 || minute >= 60 || second >= 60 || milli >= 1000 {
        return None;
    }
    let minutes = i64::from(hour) * 60 + i64::from(minute);
    Some((minutes * 60 + i64::from(second)) * 1000 + i64::from(milli))
}

/// The number of the day at an instant, in UTC.
fn day_at(instant: i64) -> i64
    ensures { result ≡ int_div_euclid instant (pos 86_400_000) }
{
    instant.div_euclid(DAY_MILLIS)
}

/// The date that a clock in UTC shows at an instant.
pub(crate) fn date_at(instant: i64) -> Date
    requires { IsTrue (is_in_range instant) }
    ensures { date_at instant ≡ record { year = unsigned_abs result.year; month = result.month; day = result.day } }
{
    match Date::from_unix_epoch_day(day_at(instant)) {
        Ok(date) => date,
        Err(_) => unreachable!(),
    }
}

/// The milliseconds since midnight at an instant, in UTC.
pub(crate) fn millis_at(instant: i64) -> u32
    ensures millis { result ≡ unsigned_abs (int_rem_euclid instant (pos 86_400_000)) }
    ensures bound { result < 86_400_000 }
{
    instant.rem_euclid(DAY_MILLIS) as u32
}
