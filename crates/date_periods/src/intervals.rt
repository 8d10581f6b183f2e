//! Periods of one length: days, weeks and fixed intervals.
ghost use Rattle.std.specs.Prelude.{◌≡◌, ◌<◌, ◌≤◌, ◌^◌, ◌≤ℤ◌, ◌*ℤ◌, ◌+ℤ◌, ◌-ℤ◌, pos, neg_ℤ};
ghost use Rattle.std.specs.Int.{int_div_euclid};
ghost use Rattle.date_spec.specs.Periods as definition;

const DAY_MILLIS: i64 = 86_400_000;

const WEEK_MILLIS: i64 = 604_800_000;

/// From midnight of 1969-12-29, a Monday, to that of 1970-01-01.
const SINCE_MONDAY: i64 = 259_200_000;

/// The number of the interval that holds a local time, rounded down before 1970 too.
pub(crate) fn interval_number(millis: u64, local: i64) -> i64
    requires positive { 0 < millis }
    requires small { millis < 2 ^ 62 }
    requires low { neg_ℤ (pos (2 ^ 62)) ≤ℤ local }
    requires high { local ≤ℤ pos 253_402_300_799_999 }
    ensures number { result ≡ int_div_euclid local (pos millis) }
    ensures low { neg_ℤ (pos (2 ^ 62)) ≤ℤ result }
    ensures high { result ≤ℤ pos 253_402_300_799_999 }
{
    local.div_euclid(millis as i64)
}

/// The local time at which the interval of this number begins.
pub(crate) fn interval_start(millis: u64, number: i64) -> i64
    requires small { millis < 2 ^ 62 }
    requires low { neg_ℤ (pos (2 ^ 62)) ≤ℤ (number *ℤ pos millis) }
    requires high { (number *ℤ pos millis) ≤ℤ pos (2 ^ 62) }
    ensures { result ≡ number *ℤ pos millis }
{
    number * millis as i64
}

/// The number of the week that holds a local time.
pub(crate) fn week_number(local: i64) -> i64
    requires low { neg_ℤ (pos (2 ^ 62)) ≤ℤ local }
    requires high { local ≤ℤ pos 253_402_300_799_999 }
    ensures number { result ≡ int_div_euclid (local -ℤ definition.first_monday) (pos definition.week_millis) }
    ensures low { neg_ℤ (pos (2 ^ 62)) ≤ℤ result }
    ensures high { result ≤ℤ pos 253_402_300_799_999 }
{
    (local + SINCE_MONDAY).div_euclid(WEEK_MILLIS)
}

/// The local time at which the week of this number begins.
pub(crate) fn week_start(number: i64) -> i64
    requires low { neg_ℤ (pos (2 ^ 62)) ≤ℤ ((number *ℤ pos definition.week_millis) +ℤ definition.first_monday) }
    requires high { ((number *ℤ pos definition.week_millis) +ℤ definition.first_monday) ≤ℤ pos 253_402_300_799_999 }
    ensures { result ≡ (number *ℤ pos definition.week_millis) +ℤ definition.first_monday }
{
    number * WEEK_MILLIS - SINCE_MONDAY
}

/// The day that holds a local time.
pub(crate) fn day_at(local: i64) -> i64
    requires low { neg_ℤ (pos 74_790_000_000_000) ≤ℤ local }
    requires high { local ≤ℤ pos 253_402_300_799_999 }
    ensures day { result ≡ definition.day_at local }
    ensures low { neg_ℤ (pos 865_625) ≤ℤ result }
    ensures high { result ≤ℤ pos 2_932_896 }
{
    local.div_euclid(DAY_MILLIS)
}

/// The local time at which a day begins.
pub(crate) fn midnight(day: i64) -> i64
    requires low { neg_ℤ (pos 865_625) ≤ℤ day }
    requires high { day ≤ℤ pos 2_932_896 }
    ensures { result ≡ definition.midnight day }
{
    day * DAY_MILLIS
}
