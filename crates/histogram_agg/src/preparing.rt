//! Preparing a histogram, and what its codes stand for.
ghost use Rattle.std.specs.Prelude.{◌≡◌, ℕ, ℤ, ◌<◌, ◌^◌, ◌-ℤ◌, pos, List, IsTrue, map, filter, flat_map, option_to_list};
ghost use Rattle.std.specs.Int.{int_div_euclid};
ghost use Rattle.agg_model.specs.declared.aggregation.Spacing.TheVariants.{Numbers};
ghost use Rattle.agg_model.specs.declared.aggregation.Kind.{Kind};
ghost use Rattle.agg_model.specs.declared.mapping.Mapping.{Mapping};
ghost use Rattle.agg_model.specs.Options.{HistogramOptions, histogram_kind};
ghost use Rattle.agg_model.specs.declared.key.Key.TheVariants.{Whole};
ghost use Rattle.agg_evaluation.specs.Cost.{key_bytes as bytes_of_key};
ghost use Rattle.agg_evaluation.specs.Keys.{distinct_keys, interval_key, is_between as is_between_bounds};
ghost use Rattle.agg_evaluation.specs.SearchFits.{histogram_made};
ghost use Rattle.histogram_agg.specs.declared.prepared.PreparedHistogram.{PreparedHistogram};
ghost use Rattle.histogram_agg.specs.Codes.{IsSpaced, IsReady, key_of, start_of};

use crate::intervals::is_between;
use crate::prepared::PreparedHistogram;
use agg_model::{Bounds, Key, Kind, Scalar};

const NUMBER_KEY_BYTES: u64 = 8;

/// The intervals from the offset to the start of the number's, rounded down for negative numbers too.
pub(crate) fn code_of(interval: u64, offset: u64, number: i64) -> i64
    requires below { offset < interval }
    requires small { interval < 2 ^ 63 }
    ensures { result ≡ int_div_euclid (number -ℤ pos offset) (pos interval) }
{
    // Numbers of 64 bits are divided in a fraction of the time of longer ones.
    match number.checked_sub(offset as i64) {
        Some(distance) => distance.div_euclid(interval as i64),
        None => far_code(interval, offset, number),
    }
}

// The same where the distance has more than 64 bits.
fn far_code(interval: u64, offset: u64, number: i64) -> i64
    requires below { offset < interval }
    requires small { interval < 2 ^ 63 }
    ensures { result ≡ int_div_euclid (number -ℤ pos offset) (pos interval) }
{
    let distance = i128::from(number) - i128::from(offset);
    distance.div_euclid(i128::from(interval)) as i64
}

fn start(interval: u64, offset: u64, code: i64) -> i128
    requires small { interval < 2 ^ 63 }
    ensures { result ≡ start_of interval offset code }
{
    i128::from(code) * i128::from(interval) + i128::from(offset)
}

/// Whether the key of a code lies within the hard bounds.
pub(crate) fn is_allowed(prepared: &PreparedHistogram, code: i64) -> bool
    ensures { result ≡ is_between_bounds prepared.now.hard (key_of prepared.now code) }
{
    is_between(
        prepared.hard,
        start(prepared.interval, prepared.offset, code),
    )
}

// The code of the value that stands for a missing one, if there is one within the bounds.
fn code_of_missing(
    interval: u64,
    offset: u64,
    hard: Bounds,
    missing: &Option<Scalar>,
) -> Option<i64>
    requires below { offset < interval }
    requires small { interval < 2 ^ 63 }
    ensures { map (λ c. Whole (start_of interval offset c)) (option_to_list result)
        ≡ filter (is_between_bounds hard) (distinct_keys (flat_map (interval_key (Numbers interval offset)) (option_to_list missing.now))) }
{
    match missing {
        Some(Scalar::Whole(number)) => {
            let code = code_of(interval, offset, *number);
            if is_between(hard, start(interval, offset, code)) {
                Some(code)
            } else {
                None
            }
        }
        Some(Scalar::Word(_) | Scalar::Flag(_)) | None => None,
    }
}

/// The histogram, prepared. Its offset is below its interval, which has 63 bits. It takes no memory.
pub fn prepare(kind: &Kind) -> PreparedHistogram
    requires { IsSpaced kind.now }
    ensures { IsReady kind.now result }
{
    match kind {
        Kind::Histogram {
            field,
            interval,
            offset,
            hard,
            missing,
            ..
        } => {
            let missing = code_of_missing(*interval, *offset, *hard, missing);
            PreparedHistogram {
                field: *field,
                interval: *interval,
                offset: *offset,
                hard: *hard,
                missing,
            }
        }
        Kind::Terms { .. }
        | Kind::DateHistogram { .. }
        | Kind::Filters { .. }
        | Kind::Filter { .. }
        | Kind::Missing { .. }
        | Kind::Global
        | Kind::Nested { .. }
        | Kind::ReverseNested { .. }
        | Kind::Composite { .. }
        | Kind::Sum { .. }
        | Kind::Min { .. }
        | Kind::Max { .. }
        | Kind::Avg { .. }
        | Kind::ValueCount { .. } => unreachable!(),
    }
}

/// The key that a code stands for, the start of its interval.
pub fn key(prepared: &PreparedHistogram, code: i64) -> Key
    ensures { result ≡ key_of prepared.now code }
{
    Key::Whole(start(prepared.interval, prepared.offset, code))
}

/// The bytes by which the key of a code is charged.
pub fn key_bytes(_prepared: &PreparedHistogram, _code: i64) -> u64
    ensures { result ≡ bytes_of_key (key_of _prepared.now _code) }
{
    NUMBER_KEY_BYTES
}

/// A histogram of numbers that is made for a mapping can be prepared.
pub fn made_histograms_can_be_prepared()
    ensures { (m : Mapping) (children : List Kind) (h : HistogramOptions) (interval offset : ℕ) → h.spacing ≡ Numbers interval offset →
        IsTrue (histogram_made m children h) → IsSpaced (histogram_kind h) }
{}

/// Different codes have different keys.
pub fn codes_have_keys_of_their_own()
    ensures { (p : PreparedHistogram) (c d : ℤ) → key_of p c ≡ key_of p d → c ≡ d }
{}
