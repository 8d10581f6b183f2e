//! The kind `date_histogram` ('Date histogram aggregation').

ghost use Rattle.std.specs.Prelude.{◌≡◌};
ghost use Rattle.serde_json.specs.View.{view, members_view};
ghost use Rattle.json_walk.specs.Places.{pointer};
ghost use Rattle.agg_reading.specs.Reading.{Gives};
ghost use Rattle.agg_reading.specs.DateHistogram.{date_ranges_in, date_counts_in, period_in, date_histogram_in, date_histogram_at};

use crate::bounds::{UNBOUNDED, check_bounds, date_bounds_in};
use crate::fields::date_field_in;
use crate::orders::{orders_in, orders_or};
use crate::periods::{calendar_in, fixed_in, zone_in};
use agg_mapping::OrderedMapping;
use agg_model::body_refusal::{MISSING_MEMBER, OUT_OF_RANGE, UNKNOWN_MEMBER, WRONG_TYPE};
use agg_model::{Bounds, Field, FieldKind, Kind, List, Scalar};
use agg_query::missing_in;
use agg_reading::{NamedOrder, RequestFault};
use date_spec::Period;
use json_walk::{At, check_names, object, truth_in, whole_in};
use serde_json::{Map, Value};
use std::alloc::Global;

/// The period of the calendar and the fixed one, where they are given, extended bounds, hard bounds, and whether the
/// buckets are keyed.
#[tactic(auto, unfolding(agg_reading::specs::DateHistogram::date_ranges_in))]
fn ranges(
    alloc: Global,
    at: &At<'_>,
    members: &Map<String, Value>,
) -> Result<(Option<Period>, Option<Period>, Bounds, Bounds, bool), RequestFault>
    ensures { Gives (λ x. x) result (date_ranges_in (pointer at.now) (members_view members.now.entries)) }
{
    let calendar = calendar_in(alloc, at, members)?;
    let extended = date_bounds_in(alloc, "extended_bounds", at, members)?;
    let fixed = fixed_in(alloc, at, members)?;
    let hard = date_bounds_in(alloc, "hard_bounds", at, members)?;
    let keyed = truth_in(alloc, "keyed", at, members)?;
    Ok((
        calendar,
        fixed,
        extended.unwrap_or(UNBOUNDED),
        hard.unwrap_or(UNBOUNDED),
        keyed.unwrap_or(false),
    ))
}

/// The least count of a bucket that is shown, the value of rows without one, the orders, and how many milliseconds the
/// zone is ahead of UTC.
#[tactic(auto, unfolding(agg_reading::specs::DateHistogram::date_counts_in))]
fn counts(
    alloc: Global,
    kind: FieldKind,
    at: &At<'_>,
    members: &Map<String, Value>,
) -> Result<(u64, Option<Scalar>, List<NamedOrder>, i64), RequestFault>
    ensures { Gives (λ x. x) result (date_counts_in kind (pointer at.now) (members_view members.now.entries)) }
{
    let least = whole_in(
        alloc,
        0,
        9_223_372_036_854_775_807,
        "min_doc_count",
        at,
        members,
    )?;
    let missing = missing_in(alloc, kind, at, members)?;
    let order = orders_in(alloc, at, members)?;
    let zone = zone_in(alloc, at, members)?;
    let order = orders_or(alloc, order, "_key", false)?;
    Ok((least.unwrap_or(0), missing, order, zone.unwrap_or(0)))
}

/// The one period that is given. The object is refused with `MISSING_MEMBER` where there is none, and the member
/// `fixed_interval` with `OUT_OF_RANGE` where there are two.
fn sole_period(
    alloc: Global,
    at: &At<'_>,
    calendar: Option<Period>,
    fixed: Option<Period>,
) -> Result<Period, RequestFault>
    ensures { Gives (λ p. p) result (period_in (pointer at.now) calendar fixed) }
{
    match (calendar, fixed) {
        (None, None) => at.refuse(alloc, MISSING_MEMBER),
        (Some(period), None) | (None, Some(period)) => Ok(period),
        (Some(_), Some(_)) => At::Member(at, "fixed_interval").refuse(alloc, OUT_OF_RANGE),
    }
}

/// The members beside `field`, over the field at this place.
#[tactic(auto, unfolding(agg_reading::specs::DateHistogram::date_histogram_in))]
fn date_histogram_over(
    alloc: Global,
    place: u32,
    field: &Field,
    at: &At<'_>,
    members: &Map<String, Value>,
) -> Result<(Kind, List<NamedOrder>), RequestFault>
    ensures { Gives (λ x. x) result (date_histogram_in (place, field.now) (pointer at.now) (members_view members.now.entries)) }
{
    let (calendar, fixed, extended, hard, keyed) = ranges(alloc, at, members)?;
    let (min_doc_count, missing, order, zone) = counts(alloc, field.kind, at, members)?;
    let period = sole_period(alloc, at, calendar, fixed)?;
    check_bounds(alloc, at, extended, hard)?;
    let kind = Kind::DateHistogram {
        field: place,
        period,
        zone,
        min_doc_count,
        extended,
        hard,
        keyed,
        order: List::new(alloc),
        missing,
    };
    Ok((kind, order))
}

/// The kind `date_histogram`, without orders, and the orders as written: by key ascending where none is given.
#[tactic(auto, unfolding(agg_reading::specs::DateHistogram::date_histogram_at))]
pub fn date_histogram(
    alloc: Global,
    mapping: &OrderedMapping<'_>,
    at: &At<'_>,
    value: &Value,
) -> Result<(Kind, List<NamedOrder>), RequestFault>
    ensures { Gives (λ x. x) result (date_histogram_at mapping.now (pointer at.now) (view value.now)) }
{
    let members = object(alloc, WRONG_TYPE, at, value)?;
    check_names(
        alloc,
        UNKNOWN_MEMBER,
        at,
        members,
        &[
            "calendar_interval",
            "extended_bounds",
            "field",
            "fixed_interval",
            "hard_bounds",
            "keyed",
            "min_doc_count",
            "missing",
            "order",
            "time_zone",
        ],
    )?;
    let (place, field) = date_field_in(alloc, mapping, at, members)?;
    date_histogram_over(alloc, place, field, at, members)
}
