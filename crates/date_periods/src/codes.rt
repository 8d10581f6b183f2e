//! Codes: the numbers of periods, which stand for keys while rows are collected. They follow one another as the keys do.
ghost use Rattle.std.specs.Prelude.{◌≡◌, ℤ, ◌+ℤ◌, ◌-ℤ◌, ◌<ℤ◌};
ghost use Rattle.date_spec.specs.declared.period.Period.{Period};
ghost use Rattle.date_spec.specs.Periods.{IsInstant, IsPeriod, IsZone, number_of, start_of};
ghost use Rattle.date_periods.specs.Reach.{IsCode};

use crate::numbers;
use date_spec::Period;

/// The code of an instant of a date field, in a zone that is so many milliseconds ahead of UTC.
pub fn code_of(period: Period, zone: i64, instant: i64) -> i64
    requires period { IsPeriod period }
    requires zone { IsZone zone }
    requires instant { IsInstant instant }
    ensures number { result ≡ number_of period (instant +ℤ zone) }
    ensures code { IsCode period zone result }
{
    numbers::number_of(period, instant + zone)
}

/// The key that a code stands for: the instant at which its period begins.
pub fn key_of_code(period: Period, zone: i64, code: i64) -> i64
    requires period { IsPeriod period }
    requires zone { IsZone zone }
    requires code { IsCode period zone code }
    ensures { result ≡ start_of period code -ℤ zone }
{
    numbers::start_of(period, code) - zone
}

/// Of two codes the greater one has the later key, so that different codes have different keys.
pub fn keys_rise_with_codes()
    ensures { (p : Period) (zone code other : ℤ) → IsPeriod p → IsZone zone → IsCode p zone code → code <ℤ other →
        (start_of p code -ℤ zone) <ℤ (start_of p other -ℤ zone) }
{}
