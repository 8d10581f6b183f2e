//! The keys of a date histogram as they follow one another. Each call takes constant time and no memory.
ghost use Rattle.std.specs.Prelude.{◌≡◌, ◌≤ℤ◌};
ghost use Rattle.date_spec.specs.declared.range.TheConstants.{GREATEST_INSTANT};
ghost use Rattle.date_spec.specs.Periods.{IsBetweenKeys, IsInstant, IsPeriod, IsZone, key_after, period_key, steps_between};
ghost use Rattle.date_agg.specs.Codes.{IsDated};
ghost use Rattle.date_agg.specs.Grid.{OfDates};

use agg_model::Kind;
use date_spec::Period;

// The period and the zone of a date histogram.
fn grid_of(kind: &Kind) -> (Period, i64)
    requires { IsDated kind.now }
    ensures period { IsPeriod result.0 }
    ensures zone { IsZone result.1 }
    ensures kind { OfDates (λ period zone. result ≡ (period, zone)) kind.now }
{
    match kind {
        Kind::DateHistogram { period, zone, .. } => (*period, *zone),
        Kind::Terms { .. }
        | Kind::Histogram { .. }
        | Kind::Filters { .. }
        | Kind::Filter { .. }
        | Kind::Missing { .. }
        | Kind::Global
        | Kind::Nested { .. }
        | Kind::ReverseNested { .. }
        | Kind::Composite { .. }
        | Kind::Sum { .. }
        | Kind::Min { .. }
        | Kind::Max { .. }
        | Kind::Avg { .. }
        | Kind::ValueCount { .. } => unreachable!(),
    }
}

/// The key of an instant of a date field: the instant at which its period begins.
pub fn key_of(kind: &Kind, value: i64) -> i64
    requires dated { IsDated kind.now }
    requires instant { IsInstant value }
    ensures { OfDates (λ period zone. result ≡ period_key period zone value) kind.now }
{
    let (period, zone) = grid_of(kind);
    date_periods::key_of(period, zone, value)
}

/// The number of periods from one key to a later or equal one.
pub fn steps(kind: &Kind, from: i64, to: i64) -> u64
    requires dated { IsDated kind.now }
    requires from { OfDates (λ period zone. IsBetweenKeys period zone from) kind.now }
    requires to { OfDates (λ period zone. IsBetweenKeys period zone to) kind.now }
    ensures { OfDates (λ period zone. result ≡ steps_between period zone from to) kind.now }
{
    let (period, zone) = grid_of(kind);
    date_periods::steps(period, zone, from, to)
}

/// The key that is `n` periods after a key, where it lies not after the last instant of a date field.
pub fn after(kind: &Kind, key: i64, n: u64) -> i64
    requires dated { IsDated kind.now }
    requires key { OfDates (λ period zone. IsBetweenKeys period zone key) kind.now }
    requires reached { OfDates (λ period zone. key_after period zone key n ≤ℤ GREATEST_INSTANT) kind.now }
    ensures { OfDates (λ period zone. result ≡ key_after period zone key n) kind.now }
{
    let (period, zone) = grid_of(kind);
    date_periods::after(period, zone, key, n)
}
