//! Preparing a date histogram.
ghost use Rattle.std.specs.Prelude.{◌≡◌, ◌+ℤ◌, ◌≤ℤ◌, int_le, true, List, IsTrue, option_to_list};
ghost use Rattle.std.specs.Option.{option_map_or};
ghost use Rattle.date_spec.specs.declared.period.Period.{Period};
ghost use Rattle.date_spec.specs.Instants.{is_in_range};
ghost use Rattle.date_spec.specs.Periods.{IsPeriod, IsZone, number_of};
ghost use Rattle.date_periods.specs.Reach.{IsCode};
ghost use Rattle.agg_model.specs.declared.aggregation.Kind.{Kind};
ghost use Rattle.agg_model.specs.declared.aggregation.Spacing.TheVariants.{Dates};
ghost use Rattle.agg_model.specs.declared.mapping.FieldKind.TheVariants.{Date};
ghost use Rattle.agg_model.specs.declared.mapping.Mapping.{Mapping};
ghost use Rattle.agg_model.specs.Options.{HistogramOptions, histogram_kind};
ghost use Rattle.agg_evaluation.specs.SearchFits.{histogram_made, is_missing};
ghost use Rattle.agg_evaluation.specs.Spacings.{number_at, start_at};
ghost use Rattle.shard_columns.specs.Built.{IsShardOf};
ghost use Rattle.shard_columns.specs.Columns.{Columns};
ghost use Rattle.shard_columns.specs.Lent.{wholes_in};
ghost use Rattle.histogram_agg.specs.RowCodes.{kept_codes};
ghost use Rattle.date_agg.specs.Codes.{IsDated, IsReady, is_from_to};
ghost use Rattle.date_agg.specs.Dates.{HoldsDates};

use crate::prepared::PreparedDateHistogram;
use agg_model::{Kind, Scalar};
use date_periods::{code_of, key_of_code};
use date_spec::{GREATEST_INSTANT, LEAST_INSTANT, Period};

// The first code whose key does not lie before the bound; without a bound that of the first instant of a date field.
fn first_code(period: Period, zone: i64, bound: Option<i64>) -> i64
    requires period { IsPeriod period }
    requires zone { IsZone zone }
    requires bound { IsTrue (option_map_or is_in_range bound true) }
    ensures codes { (code : _) → IsCode period zone code →
        int_le result code ≡ option_map_or (λ least. int_le least (start_at (Dates period zone) code)) bound true }
    ensures low { number_of period (LEAST_INSTANT +ℤ zone) ≤ℤ result }
{
    let Some(instant) = bound else {
        return code_of(period, zone, LEAST_INSTANT);
    };
    let code = code_of(period, zone, instant);
    if key_of_code(period, zone, code) < instant {
        code + 1
    } else {
        code
    }
}

// The last code whose key does not lie behind the bound; without a bound that of the last instant of a date field.
fn last_code(period: Period, zone: i64, bound: Option<i64>) -> i64
    requires period { IsPeriod period }
    requires zone { IsZone zone }
    requires bound { IsTrue (option_map_or is_in_range bound true) }
    ensures codes { (code : _) → IsCode period zone code →
        int_le code result ≡ option_map_or (λ greatest. int_le (start_at (Dates period zone) code) greatest) bound true }
    ensures high { result ≤ℤ number_of period (GREATEST_INSTANT +ℤ zone) }
{
    code_of(period, zone, bound.unwrap_or(GREATEST_INSTANT))
}

// The code of the value that stands for a missing one, where it is one of the codes from `first` to `last`.
fn missing_code(
    period: Period,
    zone: i64,
    first: i64,
    last: i64,
    missing: &Option<Scalar>,
) -> Option<i64>
    requires period { IsPeriod period }
    requires zone { IsZone zone }
    requires missing { IsTrue (is_missing Date missing.now) }
    ensures { option_to_list result ≡ kept_codes (number_at (Dates period zone)) (is_from_to first last) (wholes_in (option_to_list missing.now)) }
{
    match missing {
        Some(Scalar::Whole(instant)) => {
            let code = code_of(period, zone, *instant);
            if first <= code && code <= last {
                Some(code)
            } else {
                None
            }
        }
        Some(Scalar::Word(_) | Scalar::Flag(_)) | None => None,
    }
}

/// The date histogram, prepared. It takes no memory.
pub fn prepare(kind: &Kind) -> PreparedDateHistogram
    requires { IsDated kind.now }
    ensures { IsReady kind.now result }
{
    match kind {
        Kind::DateHistogram {
            field,
            period,
            zone,
            hard,
            missing,
            ..
        } => {
            let first = first_code(*period, *zone, hard.min);
            let last = last_code(*period, *zone, hard.max);
            PreparedDateHistogram {
                field: *field,
                period: *period,
                zone: *zone,
                first,
                last,
                missing: missing_code(*period, *zone, first, last, missing),
            }
        }
        Kind::Terms { .. }
        | Kind::Histogram { .. }
        | Kind::Filters { .. }
        | Kind::Filter { .. }
        | Kind::Missing { .. }
        | Kind::Global
        | Kind::Nested { .. }
        | Kind::ReverseNested { .. }
        | Kind::Composite { .. }
        | Kind::Sum { .. }
        | Kind::Min { .. }
        | Kind::Max { .. }
        | Kind::Avg { .. }
        | Kind::ValueCount { .. } => unreachable!(),
    }
}

/// A date histogram that is made for a mapping can be prepared, and in the mapping's shards its field is one of dates.
pub fn made_date_histograms_can_be_prepared()
    ensures prepared { (m : Mapping) (children : List Kind) (h : HistogramOptions) (p : Period) (zone : _) → h.spacing ≡ Dates p zone →
        IsTrue (histogram_made m children h) → IsDated (histogram_kind h) }
    ensures dates { (m : Mapping) (shard : Columns) (children : List Kind) (h : HistogramOptions) (p : Period) (zone : _) → h.spacing ≡ Dates p zone →
        IsShardOf m shard → IsTrue (histogram_made m children h) → HoldsDates shard h.field }
{}
