//! The keys of a date histogram.
ghost use Rattle.std.specs.Prelude.{◌≡◌, ◌≤ℤ◌};
ghost use Rattle.date_spec.specs.declared.range.TheConstants.{GREATEST_INSTANT};
ghost use Rattle.date_spec.specs.Periods.{IsBetweenKeys, IsInstant, IsPeriod, IsZone, key_after, period_key, steps_between};

use crate::codes::{code_of, key_of_code};
use crate::numbers::number_of;
use date_spec::Period;

/// The key of an instant of a date field: the instant at which its period begins, in a zone that is so many milliseconds ahead
/// of UTC.
pub fn key_of(period: Period, zone: i64, instant: i64) -> i64
    requires period { IsPeriod period }
    requires zone { IsZone zone }
    requires instant { IsInstant instant }
    ensures { result ≡ period_key period zone instant }
{
    key_of_code(period, zone, code_of(period, zone, instant))
}

/// The number of periods between two keys.
pub fn steps(period: Period, zone: i64, from: i64, to: i64) -> u64
    requires period { IsPeriod period }
    requires zone { IsZone zone }
    requires from { IsBetweenKeys period zone from }
    requires to { IsBetweenKeys period zone to }
    ensures { result ≡ steps_between period zone from to }
{
    let from = number_of(period, from + zone);
    let to = number_of(period, to + zone);
    (to - from).unsigned_abs()
}

/// The key that is `n` periods after a key, where it lies not after the last instant of a date field.
pub fn after(period: Period, zone: i64, key: i64, n: u64) -> i64
    requires period { IsPeriod period }
    requires zone { IsZone zone }
    requires key { IsBetweenKeys period zone key }
    requires reached { key_after period zone key n ≤ℤ GREATEST_INSTANT }
    ensures { result ≡ key_after period zone key n }
{
    let code = number_of(period, key + zone) + n as i64;
    key_of_code(period, zone, code)
}
