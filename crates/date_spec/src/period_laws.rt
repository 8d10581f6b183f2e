//! Laws of the periods of a date histogram. Each function has a law as its contract, over all periods and zones and over all
//! instants of a date field, and does nothing.
ghost use Rattle.std.specs.Prelude.{◌≡◌, ◌↔◌, ◌<◌, ◌+◌, ◌-◌, ◌*◌, ◌/◌, ℕ, suc, ℤ, pos, ◌+ℤ◌, ◌≤ℤ◌, ◌<ℤ◌, true};
ghost use Rattle.std.specs.Int.{int_rem_euclid};
ghost use Rattle.date_spec.specs.declared.period.Period.{Period};
ghost use Rattle.date_spec.specs.declared.period.Period.TheVariants.{Month, Quarter, Week, Year};
ghost use Rattle.date_spec.specs.Calendar.{Date, day_number, is_date};
ghost use Rattle.date_spec.specs.Instants.{day_millis};
ghost use Rattle.date_spec.specs.Periods.{IsBetweenKeys, IsInstant, IsPeriod, IsZone};
ghost use Rattle.date_spec.specs.Periods.{day_at, key_after, midnight, number_of, period_key, start_of, steps_between};

/// A key is the start of the period that holds its instant: the instant does not lie before it, and lies before the next key.
pub fn keys_begin_the_periods_of_their_instants()
    ensures begun { (p : Period) (zone instant : ℤ) → IsPeriod p → IsZone zone → IsInstant instant → period_key p zone instant ≤ℤ instant }
    ensures ahead { (p : Period) (zone instant : ℤ) → IsPeriod p → IsZone zone → IsInstant instant → instant <ℤ key_after p zone (period_key p zone instant) 1 }
{}

/// Two instants have one key exactly where no period begins between them.
pub fn instants_of_one_period_have_one_key()
    ensures { (p : Period) (zone earlier later : ℤ) → IsPeriod p → IsZone zone → IsInstant earlier → IsInstant later → earlier ≤ℤ later →
        (period_key p zone later ≡ period_key p zone earlier) ↔ (later <ℤ key_after p zone (period_key p zone earlier) 1) }
{}

/// A later instant has no earlier key.
pub fn keys_rise_with_instants()
    ensures { (p : Period) (zone earlier later : ℤ) → IsPeriod p → IsZone zone → IsInstant earlier → earlier ≤ℤ later →
        period_key p zone earlier ≤ℤ period_key p zone later }
{}

/// A key is its own key, and one between the first key and the last instant.
pub fn keys_are_their_own_keys()
    ensures own { (p : Period) (zone instant : ℤ) → IsPeriod p → IsZone zone → IsInstant instant →
        period_key p zone (period_key p zone instant) ≡ period_key p zone instant }
    ensures between { (p : Period) (zone instant : ℤ) → IsPeriod p → IsZone zone → IsInstant instant →
        IsBetweenKeys p zone (period_key p zone instant) }
{}

/// The steps from a key to a later one lead there, and so many periods further are so many steps away.
pub fn steps_lead_from_key_to_key()
    ensures arrive { (p : Period) (zone earlier later : ℤ) → IsPeriod p → IsZone zone → IsInstant earlier → earlier ≤ℤ later →
        key_after p zone (period_key p zone earlier) (steps_between p zone (period_key p zone earlier) (period_key p zone later)) ≡ period_key p zone later }
    ensures count { (p : Period) (zone instant : ℤ) (n : ℕ) → IsPeriod p → IsZone zone → IsInstant instant →
        steps_between p zone (period_key p zone instant) (key_after p zone (period_key p zone instant) n) ≡ n }
    ensures own { (p : Period) (zone instant : ℤ) (n : ℕ) → IsPeriod p → IsZone zone → IsInstant instant →
        period_key p zone (key_after p zone (period_key p zone instant) n) ≡ key_after p zone (period_key p zone instant) n }
    ensures rise { (p : Period) (zone instant : ℤ) (n : ℕ) → IsPeriod p → IsZone zone → IsInstant instant →
        key_after p zone (period_key p zone instant) n <ℤ key_after p zone (period_key p zone instant) (suc n) }
{}

/// No period further is the key itself, and each further one begins where the next key of the last does.
pub fn keys_follow_one_another()
    ensures first { (p : Period) (zone instant : ℤ) → IsPeriod p → IsZone zone → IsInstant instant →
        key_after p zone (period_key p zone instant) 0 ≡ period_key p zone instant }
    ensures next { (p : Period) (zone instant : ℤ) (n : ℕ) → IsPeriod p → IsZone zone → IsInstant instant →
        key_after p zone (key_after p zone (period_key p zone instant) n) 1 ≡ key_after p zone (period_key p zone instant) (suc n) }
{}

/// A week begins at midnight before a Monday: 1970-01-01 is day 0 and a Thursday, so that Mondays are the days 4, 11, 18 and so on.
pub fn weeks_begin_on_mondays()
    ensures midnight { (zone instant : ℤ) → period_key Week zone instant +ℤ zone ≡ midnight (day_at (period_key Week zone instant +ℤ zone)) }
    ensures monday { (zone instant : ℤ) → int_rem_euclid (day_at (period_key Week zone instant +ℤ zone)) (pos 7) ≡ pos 4 }
{}

/// Months, quarters and years begin at midnight before their first day, wherever in them a local time lies.
pub fn calendar_periods_begin_with_their_first_day()
    ensures month { (d : Date) (time : ℕ) → is_date d ≡ true → time < day_millis →
        start_of Month (number_of Month (midnight (day_number d) +ℤ pos time)) ≡ midnight (day_number (record { year = d.year; month = d.month; day = 1 })) }
    ensures quarter { (d : Date) (time : ℕ) → is_date d ≡ true → time < day_millis →
        start_of Quarter (number_of Quarter (midnight (day_number d) +ℤ pos time))
        ≡ midnight (day_number (record { year = d.year; month = (d.month - 1) / 3 * 3 + 1; day = 1 })) }
    ensures year { (d : Date) (time : ℕ) → is_date d ≡ true → time < day_millis →
        start_of Year (number_of Year (midnight (day_number d) +ℤ pos time)) ≡ midnight (day_number (record { year = d.year; month = 1; day = 1 })) }
{}
