//! The bounds of histograms ('Histogram aggregation': `extended_bounds`, `hard_bounds`).

ghost use Rattle.std.specs.Prelude.{◌≡◌};
ghost use Rattle.serde_json.specs.View.{view, members_view};
ghost use Rattle.json_walk.specs.Places.{pointer};
ghost use Rattle.agg_reading.specs.Reading.{Gives};
ghost use Rattle.agg_reading.specs.Json.{optional};
ghost use Rattle.agg_reading.specs.Numbers.{signed_at};
ghost use Rattle.agg_reading.specs.Scalars.{instant};
ghost use Rattle.agg_reading.specs.Histogram.{ordered_bounds, bounds_at, bounds_rule};
ghost use Rattle.agg_reading.specs.DateHistogram.{dated, instant_at};
ghost use Rattle.agg_model.specs.BoundsOrder.{is_at_most, lies_within};

use agg_model::body_refusal::{OUT_OF_RANGE, UNKNOWN_MEMBER, WRONG_TYPE};
use agg_model::{Bounds, FieldKind, Scalar};
use agg_query::missing;
use agg_reading::RequestFault;
use json_walk::{At, check_names, member, object, signed_in};
use serde_json::{Map, Value};
use std::alloc::Global;

/// Bounds that hold always.
pub const UNBOUNDED: Bounds = Bounds {
    min: None,
    max: None,
};

/// Whether one bound is at most the other; a bound that is not given holds always.
fn is_at_most(least: Option<i64>, most: Option<i64>) -> bool
    ensures { result ≡ is_at_most least most }
{
    match (least, most) {
        (Some(least), Some(most)) => least <= most,
        _ => true,
    }
}

/// Bounds, refused with `OUT_OF_RANGE` where the least is above the greatest.
fn ordered_bounds(
    alloc: Global,
    at: &At<'_>,
    min: Option<i64>,
    max: Option<i64>,
) -> Result<Bounds, RequestFault>
    ensures { Gives (λ x. x) result (ordered_bounds (pointer at.now) min max) }
{
    if is_at_most(min, max) {
        Ok(Bounds { min, max })
    } else {
        at.refuse(alloc, OUT_OF_RANGE)
    }
}

/// Bounds of numbers: an object with `min` and `max`, each a whole number of signed 64 bits that may be absent.
#[tactic(auto, unfolding(agg_reading::specs::Histogram::bounds_at))]
fn number_bounds(alloc: Global, at: &At<'_>, value: &Value) -> Result<Bounds, RequestFault>
    ensures { Gives (λ x. x) result (bounds_at signed_at (pointer at.now) (view value.now)) }
{
    let members = object(alloc, WRONG_TYPE, at, value)?;
    check_names(alloc, UNKNOWN_MEMBER, at, members, &["max", "min"])?;
    let max = signed_in(alloc, "max", at, members)?;
    let min = signed_in(alloc, "min", at, members)?;
    ordered_bounds(alloc, at, min, max)
}

/// The bounds of numbers in the member of this name; none where it is absent.
pub fn number_bounds_in(
    alloc: Global,
    name: &str,
    at: &At<'_>,
    members: &Map<String, Value>,
) -> Result<Option<Bounds>, RequestFault>
    ensures { Gives (λ x. x) result
        (optional (bounds_at signed_at) name.now (pointer at.now) (members_view members.now.entries)) }
{
    match member(members, name) {
        None => Ok(None),
        Some(value) => Ok(Some(number_bounds(alloc, &At::Member(at, name), value)?)),
    }
}

/// The instant in the range of dates that a number or a text names; any other value is refused with `OUT_OF_RANGE`.
fn dated(alloc: Global, at: &At<'_>, value: &Value) -> Result<i64, RequestFault>
    ensures { Gives (λ n. n) result (dated (pointer at.now) (instant (view value.now))) }
{
    match missing(alloc, FieldKind::Date, at, value)? {
        Scalar::Whole(instant) => Ok(instant),
        Scalar::Word(_) | Scalar::Flag(_) => unreachable!(),
    }
}

/// An instant in the range of dates. A value that is neither number nor text is refused with `WRONG_TYPE`, one that names
/// no such instant with `OUT_OF_RANGE`.
#[tactic(auto, unfolding(agg_reading::specs::DateHistogram::instant_at))]
fn instant(alloc: Global, at: &At<'_>, value: &Value) -> Result<i64, RequestFault>
    ensures { Gives (λ n. n) result (instant_at (pointer at.now) (view value.now)) }
{
    match value {
        Value::Number(_) | Value::String(_) => dated(alloc, at, value),
        Value::Null | Value::Bool(_) | Value::Array(_) | Value::Object(_) => {
            at.refuse(alloc, WRONG_TYPE)
        }
    }
}

/// The instant in the member of this name; none where it is absent.
fn instant_in(
    alloc: Global,
    name: &str,
    at: &At<'_>,
    members: &Map<String, Value>,
) -> Result<Option<i64>, RequestFault>
    ensures { Gives (λ x. x) result (optional instant_at name.now (pointer at.now) (members_view members.now.entries)) }
{
    match member(members, name) {
        None => Ok(None),
        Some(value) => Ok(Some(instant(alloc, &At::Member(at, name), value)?)),
    }
}

/// Bounds of dates: an object with `min` and `max`, each an instant in the range of dates that may be absent.
#[tactic(auto, unfolding(agg_reading::specs::Histogram::bounds_at))]
fn date_bounds(alloc: Global, at: &At<'_>, value: &Value) -> Result<Bounds, RequestFault>
    ensures { Gives (λ x. x) result (bounds_at instant_at (pointer at.now) (view value.now)) }
{
    let members = object(alloc, WRONG_TYPE, at, value)?;
    check_names(alloc, UNKNOWN_MEMBER, at, members, &["max", "min"])?;
    let max = instant_in(alloc, "max", at, members)?;
    let min = instant_in(alloc, "min", at, members)?;
    ordered_bounds(alloc, at, min, max)
}

/// The bounds of dates in the member of this name; none where it is absent.
pub fn date_bounds_in(
    alloc: Global,
    name: &str,
    at: &At<'_>,
    members: &Map<String, Value>,
) -> Result<Option<Bounds>, RequestFault>
    ensures { Gives (λ x. x) result
        (optional (bounds_at instant_at) name.now (pointer at.now) (members_view members.now.entries)) }
{
    match member(members, name) {
        None => Ok(None),
        Some(value) => Ok(Some(date_bounds(alloc, &At::Member(at, name), value)?)),
    }
}

/// Whether each extended bound that is given lies between the hard bounds that are given.
fn lies_within(extended: Bounds, hard: Bounds) -> bool
    ensures { result ≡ lies_within extended hard }
{
    is_at_most(hard.min, extended.min)
        && is_at_most(extended.min, hard.max)
        && is_at_most(hard.min, extended.max)
        && is_at_most(extended.max, hard.max)
}

/// Refuses the member `extended_bounds` with `OUT_OF_RANGE` where these bounds do not lie within the hard ones.
pub fn check_bounds(
    alloc: Global,
    at: &At<'_>,
    extended: Bounds,
    hard: Bounds,
) -> Result<(), RequestFault>
    ensures { Gives (λ u. u) result (bounds_rule (pointer at.now) extended hard) }
{
    if lies_within(extended, hard) {
        Ok(())
    } else {
        At::Member(at, "extended_bounds").refuse(alloc, OUT_OF_RANGE)
    }
}
