//! The intervals of a histogram.
ghost use Rattle.std.specs.Prelude.{◌≡◌, ◌<◌, ◌^◌, IfSome};
ghost use Rattle.agg_model.specs.declared.aggregation.Spacing.TheVariants.{Numbers};
ghost use Rattle.agg_model.specs.declared.key.Key.TheVariants.{Whole};
ghost use Rattle.agg_evaluation.specs.Keys.{is_between as is_between_bounds};
ghost use Rattle.agg_evaluation.specs.Spacings.{interval_start as start_of_interval};

use agg_model::Bounds;

// Numbers below it have 63 bits.
const NEAR: u64 = 1 << 63;

/// The key of a number: the start of its interval, rounded down for negative numbers too. The interval is not 0.
pub fn interval_start(interval: u64, offset: u64, number: i64) -> i128
    requires positive { 0 < interval }
    ensures { result ≡ start_of_interval (Numbers interval offset) number }
{
    if interval < NEAR && offset < NEAR {
        if let Some(start) = near_start(interval, offset, number) {
            return start;
        }
    }
    far_start(interval, offset, number)
}

// The same where the distance has 64 bits: such numbers are divided in a fraction of the time of longer ones.
fn near_start(interval: u64, offset: u64, number: i64) -> Option<i128>
    requires positive { 0 < interval }
    requires small { interval < 2 ^ 63 }
    requires near { offset < 2 ^ 63 }
    ensures { IfSome result (λ start. start ≡ start_of_interval (Numbers interval offset) number) }
{
    let distance = number.checked_sub(offset as i64)?;
    let beyond = distance.rem_euclid(interval as i64);
    Some(i128::from(number) - i128::from(beyond))
}

// The same for all.
fn far_start(interval: u64, offset: u64, number: i64) -> i128
    requires positive { 0 < interval }
    ensures { result ≡ start_of_interval (Numbers interval offset) number }
{
    let number = i128::from(number);
    let offset = i128::from(offset);
    number - (number - offset).rem_euclid(i128::from(interval))
}

/// Whether a key lies within the bounds that are given.
pub(crate) fn is_between(bounds: Bounds, key: i128) -> bool
    ensures { result ≡ is_between_bounds bounds (Whole key) }
{
    bounds.min.is_none_or(|least| i128::from(least) <= key)
        && bounds
            .max
            .is_none_or(|greatest| key <= i128::from(greatest))
}
