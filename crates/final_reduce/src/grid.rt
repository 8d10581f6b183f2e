// Where the keys of a histogram lie. Its intervals follow one another by their numbers, over numbers and over dates.
ghost use Rattle.std.specs.Prelude.{◌≡◌, ◌^◌, ◌≤ℤ◌, pos, ◌-ℤ◌, IsTrue};
ghost use Rattle.agg_evaluation.specs.Conditions.{is_spaced};
ghost use Rattle.agg_evaluation.specs.Finishable.{is_near};
ghost use Rattle.agg_evaluation.specs.Spacings as intervals;
ghost use Rattle.final_reduce.specs.Steps.{IsNearNumber, is_bound};

use agg_model::{Bounds, Spacing};
use date_periods::{code_of, key_of_code};
use date_spec::LEAST_INSTANT;

/// Where the keys of a histogram lie, and how far its gaps are filled.
#[derive(Clone, Copy)]
pub(crate) struct Grid {
    pub(crate) spacing: Spacing,
    pub(crate) extended: Bounds,
    pub(crate) hard: Bounds,
}

/// The number of the interval that holds a value.
pub(crate) fn number_at(grid: Grid, value: i128) -> i128
    requires spaced { IsTrue (is_spaced grid.spacing grid.extended grid.hard) }
    requires near { IsTrue (is_near grid.spacing value) }
    ensures number { result ≡ intervals.number_at grid.spacing value }
    ensures near { IsNearNumber grid.spacing result }
    ensures low { (pos 0 -ℤ pos (2 ^ 80)) ≤ℤ result }
    ensures high { result ≤ℤ pos (2 ^ 80) }
{
    match grid.spacing {
        Spacing::Numbers { interval, offset } => {
            (value - i128::from(offset)).div_euclid(i128::from(interval))
        }
        // A key before the first instant is that of the first instant.
        Spacing::Dates { period, zone } => {
            let instant = value.max(i128::from(LEAST_INSTANT)) as i64;
            i128::from(code_of(period, zone, instant))
        }
    }
}

/// The number of the interval that holds a bound.
pub(crate) fn number_of_bound(grid: Grid, bound: i64) -> i128
    requires spaced { IsTrue (is_spaced grid.spacing grid.extended grid.hard) }
    requires bound { IsTrue (is_bound grid.spacing bound) }
    ensures number { result ≡ intervals.number_at grid.spacing bound }
    ensures near { IsNearNumber grid.spacing result }
    ensures low { (pos 0 -ℤ pos (2 ^ 80)) ≤ℤ result }
    ensures high { result ≤ℤ pos (2 ^ 80) }
{
    number_at(grid, i128::from(bound))
}

/// Where the interval of this number begins.
pub(crate) fn start_at(grid: Grid, number: i128) -> i128
    requires spaced { IsTrue (is_spaced grid.spacing grid.extended grid.hard) }
    requires near { IsNearNumber grid.spacing number }
    ensures { result ≡ intervals.start_at grid.spacing number }
{
    match grid.spacing {
        Spacing::Numbers { interval, offset } => {
            number * i128::from(interval) + i128::from(offset)
        }
        Spacing::Dates { period, zone } => i128::from(key_of_code(period, zone, number as i64)),
    }
}
