//! The kind `histogram` ('Histogram aggregation').

ghost use Rattle.std.specs.Prelude.{◌≡◌};
ghost use Rattle.serde_json.specs.View.{view, members_view};
ghost use Rattle.json_walk.specs.Places.{pointer};
ghost use Rattle.agg_reading.specs.Reading.{Gives};
ghost use Rattle.agg_reading.specs.Histogram.{histogram_ranges_in, histogram_counts_in, histogram_rules, histogram_in, histogram_at};

use crate::bounds::{UNBOUNDED, check_bounds, number_bounds_in};
use crate::fields::whole_field_in;
use crate::orders::{orders_in, orders_or};
use agg_mapping::OrderedMapping;
use agg_model::body_refusal::{MISSING_MEMBER, OUT_OF_RANGE, UNKNOWN_MEMBER, WRONG_TYPE};
use agg_model::{Bounds, Field, FieldKind, Kind, List, Scalar};
use agg_query::missing_in;
use agg_reading::{NamedOrder, RequestFault};
use json_walk::{At, check_names, object, truth_in, whole_in};
use serde_json::{Map, Value};
use std::alloc::Global;

/// Extended bounds, hard bounds, the interval where it is given, and whether the buckets are keyed.
#[tactic(auto, unfolding(agg_reading::specs::Histogram::histogram_ranges_in))]
fn ranges(
    alloc: Global,
    at: &At<'_>,
    members: &Map<String, Value>,
) -> Result<(Bounds, Bounds, Option<u64>, bool), RequestFault>
    ensures { Gives (λ x. x) result (histogram_ranges_in (pointer at.now) (members_view members.now.entries)) }
{
    let extended = number_bounds_in(alloc, "extended_bounds", at, members)?;
    let hard = number_bounds_in(alloc, "hard_bounds", at, members)?;
    let interval = whole_in(alloc, 1, 9_223_372_036_854_775_807, "interval", at, members)?;
    let keyed = truth_in(alloc, "keyed", at, members)?;
    Ok((
        extended.unwrap_or(UNBOUNDED),
        hard.unwrap_or(UNBOUNDED),
        interval,
        keyed.unwrap_or(false),
    ))
}

/// The least count of a bucket that is shown, the value of rows without one, the offset, and the orders.
#[tactic(auto, unfolding(agg_reading::specs::Histogram::histogram_counts_in))]
fn counts(
    alloc: Global,
    kind: FieldKind,
    at: &At<'_>,
    members: &Map<String, Value>,
) -> Result<(u64, Option<Scalar>, u64, List<NamedOrder>), RequestFault>
    ensures { Gives (λ x. x) result (histogram_counts_in kind (pointer at.now) (members_view members.now.entries)) }
{
    let least = whole_in(
        alloc,
        0,
        9_223_372_036_854_775_807,
        "min_doc_count",
        at,
        members,
    )?;
    let missing = missing_in(alloc, kind, at, members)?;
    let offset = whole_in(alloc, 0, 18_446_744_073_709_551_615, "offset", at, members)?;
    let order = orders_in(alloc, at, members)?;
    let order = orders_or(alloc, order, "_key", false)?;
    Ok((least.unwrap_or(0), missing, offset.unwrap_or(0), order))
}

/// The rules between members: the offset is below the interval, and the extended bounds lie within the hard bounds. Else
/// the member `offset` or `extended_bounds` is refused with `OUT_OF_RANGE`.
#[tactic(auto, unfolding(agg_reading::specs::Histogram::histogram_rules))]
fn check_rules(
    alloc: Global,
    at: &At<'_>,
    interval: u64,
    offset: u64,
    extended: Bounds,
    hard: Bounds,
) -> Result<(), RequestFault>
    ensures { Gives (λ u. u) result (histogram_rules (pointer at.now) interval offset extended hard) }
{
    if offset >= interval {
        return At::Member(at, "offset").refuse(alloc, OUT_OF_RANGE);
    }
    check_bounds(alloc, at, extended, hard)
}

/// The members beside `field`, over the field at this place.
#[tactic(auto, unfolding(agg_reading::specs::Histogram::histogram_in))]
fn histogram_over(
    alloc: Global,
    place: u32,
    field: &Field,
    at: &At<'_>,
    members: &Map<String, Value>,
) -> Result<(Kind, List<NamedOrder>), RequestFault>
    ensures { Gives (λ x. x) result (histogram_in (place, field.now) (pointer at.now) (members_view members.now.entries)) }
{
    let (extended, hard, interval, keyed) = ranges(alloc, at, members)?;
    let (min_doc_count, missing, offset, order) = counts(alloc, field.kind, at, members)?;
    let Some(interval) = interval else {
        return at.refuse(alloc, MISSING_MEMBER);
    };
    check_rules(alloc, at, interval, offset, extended, hard)?;
    let kind = Kind::Histogram {
        field: place,
        interval,
        offset,
        min_doc_count,
        extended,
        hard,
        keyed,
        order: List::new(alloc),
        missing,
    };
    Ok((kind, order))
}

/// The kind `histogram`, without orders, and the orders as written: by key ascending where none is given.
#[tactic(auto, unfolding(agg_reading::specs::Histogram::histogram_at))]
pub fn histogram(
    alloc: Global,
    mapping: &OrderedMapping<'_>,
    at: &At<'_>,
    value: &Value,
) -> Result<(Kind, List<NamedOrder>), RequestFault>
    ensures { Gives (λ x. x) result (histogram_at mapping.now (pointer at.now) (view value.now)) }
{
    let members = object(alloc, WRONG_TYPE, at, value)?;
    check_names(
        alloc,
        UNKNOWN_MEMBER,
        at,
        members,
        &[
            "extended_bounds",
            "field",
            "hard_bounds",
            "interval",
            "keyed",
            "min_doc_count",
            "missing",
            "offset",
            "order",
        ],
    )?;
    let (place, field) = whole_field_in(alloc, mapping, at, members)?;
    histogram_over(alloc, place, field, at, members)
}
