//! The numbers of periods, and where they begin.
ghost use Rattle.std.specs.Prelude.{◌≡◌, ◌^◌, ◌≤ℤ◌, pos, neg_ℤ};
ghost use Rattle.date_spec.specs.Periods as definition;
ghost use Rattle.date_spec.specs.Periods.{IsPeriod};
ghost use Rattle.date_periods.specs.Reach.{IsLocal, IsNumber};

use crate::calendar::{first_day, month_of_day};
use crate::intervals::{
    day_at, interval_number, interval_start, midnight, week_number, week_start,
};
use date_spec::Period;

const QUARTER_MONTHS: i64 = 3;

const YEAR_MONTHS: i64 = 12;

/// The number of the period that holds a local time, in milliseconds.
pub(crate) fn number_of(period: Period, local: i64) -> i64
    requires period { IsPeriod period }
    requires local { IsLocal period local }
    ensures number { result ≡ definition.number_of period local }
    ensures low { neg_ℤ (pos (2 ^ 62)) ≤ℤ result }
    ensures high { result ≤ℤ pos 253_402_300_799_999 }
{
    match period {
        Period::Fixed(millis) => interval_number(millis, local),
        Period::Week => week_number(local),
        Period::Month => month_of_day(day_at(local)),
        Period::Quarter => month_of_day(day_at(local)).div_euclid(QUARTER_MONTHS),
        Period::Year => month_of_day(day_at(local)).div_euclid(YEAR_MONTHS),
    }
}

/// The local time at which the period of this number begins, in milliseconds.
pub(crate) fn start_of(period: Period, number: i64) -> i64
    requires period { IsPeriod period }
    requires number { IsNumber period number }
    requires local { IsLocal period (definition.start_of period number) }
    ensures { result ≡ definition.start_of period number }
{
    match period {
        Period::Fixed(millis) => interval_start(millis, number),
        Period::Week => week_start(number),
        Period::Month => midnight(first_day(number)),
        Period::Quarter => midnight(first_day(number * QUARTER_MONTHS)),
        Period::Year => midnight(first_day(number * YEAR_MONTHS)),
    }
}
