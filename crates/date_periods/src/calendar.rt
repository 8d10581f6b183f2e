//! Months and their first days.
ghost use Rattle.std.specs.Prelude.{◌≡◌, ◌≤ℤ◌, pos, neg_ℤ};
ghost use Rattle.date_spec.specs.Periods as definition;

use jiff_core::civil::Date;

const YEAR_MONTHS: i64 = 12;

/// The number of the month that holds a day, both counted as the definitions do.
pub(crate) fn month_of_day(day: i64) -> i64
    requires from { neg_ℤ (pos 865_625) ≤ℤ day }
    requires until { day ≤ℤ pos 2_932_896 }
    ensures month { result ≡ definition.month_of_day day }
    ensures low { neg_ℤ (pos 4800) ≤ℤ result }
    ensures high { result ≤ℤ pos 119_999 }
{
    match Date::from_unix_epoch_day(day) {
        Ok(date) => i64::from(date.year) * YEAR_MONTHS + i64::from(date.month) - 1,
        Err(_) => unreachable!(),
    }
}

/// The first day of the month of this number.
pub(crate) fn first_day(month: i64) -> i64
    requires from { neg_ℤ (pos 4800) ≤ℤ month }
    requires until { month ≤ℤ pos 119_999 }
    ensures day { result ≡ definition.first_day month }
    ensures low { neg_ℤ (pos 865_625) ≤ℤ result }
    ensures high { result ≤ℤ pos 2_932_896 }
{
    let year = month.div_euclid(YEAR_MONTHS);
    let of_year = month - year * YEAR_MONTHS;
    match Date::new(year as i16, of_year as i8 + 1, 1) {
        Ok(date) => i64::from(date.to_unix_epoch_day()),
        Err(_) => unreachable!(),
    }
}
