//! The prepared form of a date histogram.
ghost use Rattle.std.specs.Prelude.{◌+ℤ◌, ◌≤ℤ◌, IsTrue};
ghost use Rattle.date_spec.specs.declared.range.TheConstants.{GREATEST_INSTANT, LEAST_INSTANT};
ghost use Rattle.date_spec.specs.Periods.{IsZone, number_of};
ghost use Rattle.agg_evaluation.specs.Spacings.{is_period};

use date_spec::Period;

/// A date histogram, prepared. The code of a key is the number of its period, and the keys within the hard bounds are those of
/// the codes from `first` to `last`: so no row asks where a period begins.
#[derive(Clone, Copy)]
pub struct PreparedDateHistogram {
    pub(crate) field: u32,
    pub(crate) period: Period,
    pub(crate) zone: i64,
    pub(crate) first: i64,
    pub(crate) last: i64,
    /// The code of a row without a value.
    pub(crate) missing: Option<i64>,
    ghost has_period: { IsTrue (is_period period) },
    ghost has_zone: { IsZone zone },
    ghost low: { number_of period (LEAST_INSTANT +ℤ zone) ≤ℤ first },
    ghost high: { last ≤ℤ number_of period (GREATEST_INSTANT +ℤ zone) },
}
