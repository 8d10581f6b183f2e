//! Laws of the definitions. Each function has a law as its contract, over all values of the definitions, and does nothing.
ghost use Rattle.std.specs.Prelude.{◌≡◌, ◌≤◌, ◌+ℤ◌, ◌≤ℤ◌, ◌∷◌, [], List, Ok, Some, codes, false, map, neg_ℤ, pos, true, ℕ, ℤ};
ghost use Rattle.date_spec.specs.Calendar.{Date, date_of, day_number, days_before_year, is_date, is_leap, month_lengths};
ghost use Rattle.date_spec.specs.DateTexts.{ahead_of, printed, printed_with, read_date};
ghost use Rattle.date_spec.specs.Instants.{date_at, instant_at, is_in_range};
ghost use Rattle.date_spec.specs.Shapes.{has_shape};

use crate::range::{GREATEST_INSTANT, LEAST_INSTANT};

/// Days are counted from 1970-01-01, which is day 0; 0000-01-01 is day -719,528. Of the years that end a century only every
/// fourth has a leap day: 2000 has one, 1900 and 2100 have none. Four hundred years have 146,097 days.
pub fn the_calendar_is_the_gregorian_one()
    ensures epoch { day_number (record { year = 1970; month = 1; day = 1 }) ≡ pos 0 }
    ensures first { day_number (record { year = 0; month = 1; day = 1 }) ≡ neg_ℤ (pos 719_528) }
    ensures leap_days { map (λ year. is_date (record { year = year; month = 2; day = 29 })) (1900 ∷ 2000 ∷ 2023 ∷ 2024 ∷ 2100 ∷ [])
        ≡ false ∷ true ∷ false ∷ true ∷ false ∷ [] }
    ensures cycle { days_before_year 400 ≡ 146_097 }
    ensures months { month_lengths 2023 ≡ 31 ∷ 28 ∷ 31 ∷ 30 ∷ 31 ∷ 30 ∷ 31 ∷ 31 ∷ 30 ∷ 31 ∷ 30 ∷ 31 ∷ [] }
{}

/// A date that the calendar has is the date of its number, so that no two have one number.
pub fn day_numbers_name_dates()
    ensures { (d : Date) → is_date d ≡ true → date_of (day_number d) ≡ d }
{}

/// From 0000-01-01 on each number is that of a date that the calendar has.
pub fn dates_have_day_numbers()
    ensures calendar { (number : ℤ) → neg_ℤ (pos 719_528) ≤ℤ number → is_date (date_of number) ≡ true }
    ensures number { (number : ℤ) → neg_ℤ (pos 719_528) ≤ℤ number → day_number (date_of number) ≡ number }
{}

/// The range begins with 0000-01-01, and ends a millisecond before 9999-12-31.
pub fn the_range_is_the_years_without_their_last_day()
    ensures least { LEAST_INSTANT ≡ instant_at (record { year = 0; month = 1; day = 1 }) (record { hour = 0; minute = 0; second = 0; milli = 0 }) (pos 0) }
    ensures greatest { GREATEST_INSTANT +ℤ pos 1 ≡ instant_at (record { year = 9999; month = 12; day = 31 }) (record { hour = 0; minute = 0; second = 0; milli = 0 }) (pos 0) }
{}

/// What is printed of an instant reads as the instant. A clock that is ahead of UTC shows the instant with its offset added; where
/// that has a date of the years 0000 to 9999, what is printed of it with the offset behind it reads as the instant too.
pub fn what_is_printed_reads_as_the_instant()
    ensures utc { (instant : ℤ) → is_in_range instant ≡ true → read_date (printed instant) ≡ Ok instant }
    ensures offset { (instant ahead : ℤ) (offset : List ℕ) → is_in_range instant ≡ true → ahead_of offset ≡ Some ahead
        → LEAST_INSTANT ≤ℤ (instant +ℤ ahead) → (date_at (instant +ℤ ahead)).year ≤ 9999
        → read_date (printed_with offset (instant +ℤ ahead)) ≡ Ok instant }
{}

/// Instants are printed in one form, no two of them as one text; and a text of that form that reads as an instant is what the
/// instant prints as.
pub fn printing_is_the_one_text_of_its_form()
    ensures form { (instant : ℤ) → is_in_range instant ≡ true → has_shape (codes "0000-00-00T00:00:00.000Z") (printed instant) ≡ true }
    ensures apart { (first second : ℤ) → is_in_range first ≡ true → is_in_range second ≡ true → printed first ≡ printed second → first ≡ second }
    ensures only { (text : List ℕ) (instant : ℤ) → has_shape (codes "0000-00-00T00:00:00.000Z") text ≡ true → read_date text ≡ Ok instant →
        text ≡ printed instant }
{}
