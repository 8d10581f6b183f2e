//! Metrics, and the kinds of one bucket beside `filter` ('Metrics aggregations', 'Missing aggregation', 'Global
//! aggregation', 'Nested aggregation', 'Reverse nested aggregation').

ghost use Rattle.std.specs.Prelude.{◌≡◌, codes};
ghost use Rattle.serde_json.specs.Find.{get_member};
ghost use Rattle.serde_json.specs.View.{view, members_view};
ghost use Rattle.json_walk.specs.Places.{pointer};
ghost use Rattle.agg_reading.specs.Reading.{Gives};
ghost use Rattle.agg_reading.specs.Metrics.{metered_in, number_metric_at, extreme_at, any_metric_at, missing_kind_at, global_at, nested_context_at, enclosing_at, outer_of, outer_context_at};

use crate::fields::{enclosing, number_field_in, whole_field_in};
use agg_mapping::OrderedMapping;
use agg_model::body_refusal::{NO_SUCH_PATH, UNKNOWN_MEMBER, WRONG_TYPE};
use agg_model::{Field, Kind, Scalar};
use agg_query::{field_in, missing_in, path_in};
use agg_reading::RequestFault;
use json_walk::{At, check_names, member, object, text};
use serde_json::{Map, Value};
use std::alloc::Global;

/// The field's place, and the value of rows without one; none where `missing` is absent.
#[tactic(auto, unfolding(agg_reading::specs::Metrics::metered_in))]
fn metered(
    alloc: Global,
    place: u32,
    field: &Field,
    at: &At<'_>,
    members: &Map<String, Value>,
) -> Result<(u32, Option<Scalar>), RequestFault>
    ensures { Gives (λ x. x) result (metered_in (place, field.now) (pointer at.now) (members_view members.now.entries)) }
{
    let missing = missing_in(alloc, field.kind, at, members)?;
    Ok((place, missing))
}

/// What `sum` and `avg` say: a field of whole numbers by its place, and the value of rows without one.
#[tactic(auto, unfolding(agg_reading::specs::Metrics::number_metric_at))]
pub fn number_metric(
    alloc: Global,
    mapping: &OrderedMapping<'_>,
    at: &At<'_>,
    value: &Value,
) -> Result<(u32, Option<Scalar>), RequestFault>
    ensures { Gives (λ x. x) result (number_metric_at mapping.now (pointer at.now) (view value.now)) }
{
    let members = object(alloc, WRONG_TYPE, at, value)?;
    check_names(alloc, UNKNOWN_MEMBER, at, members, &["field", "missing"])?;
    let (place, field) = whole_field_in(alloc, mapping, at, members)?;
    metered(alloc, place, field, at, members)
}

/// What `min` and `max` say: a field of whole numbers or dates by its place, and the value of rows without one.
#[tactic(auto, unfolding(agg_reading::specs::Metrics::extreme_at))]
pub fn extreme(
    alloc: Global,
    mapping: &OrderedMapping<'_>,
    at: &At<'_>,
    value: &Value,
) -> Result<(u32, Option<Scalar>), RequestFault>
    ensures { Gives (λ x. x) result (extreme_at mapping.now (pointer at.now) (view value.now)) }
{
    let members = object(alloc, WRONG_TYPE, at, value)?;
    check_names(alloc, UNKNOWN_MEMBER, at, members, &["field", "missing"])?;
    let (place, field) = number_field_in(alloc, mapping, at, members)?;
    metered(alloc, place, field, at, members)
}

/// What `value_count` says: a field of any type by its place, and the value of rows without one.
#[tactic(auto, unfolding(agg_reading::specs::Metrics::any_metric_at))]
pub fn any_metric(
    alloc: Global,
    mapping: &OrderedMapping<'_>,
    at: &At<'_>,
    value: &Value,
) -> Result<(u32, Option<Scalar>), RequestFault>
    ensures { Gives (λ x. x) result (any_metric_at mapping.now (pointer at.now) (view value.now)) }
{
    let members = object(alloc, WRONG_TYPE, at, value)?;
    check_names(alloc, UNKNOWN_MEMBER, at, members, &["field", "missing"])?;
    let (place, field) = field_in(alloc, mapping, at, members)?;
    metered(alloc, place, field, at, members)
}

/// The kind `missing`.
#[tactic(auto, unfolding(agg_reading::specs::Metrics::missing_kind_at))]
pub fn missing(
    alloc: Global,
    mapping: &OrderedMapping<'_>,
    at: &At<'_>,
    value: &Value,
) -> Result<Kind, RequestFault>
    ensures { Gives (λ k. k) result (missing_kind_at mapping.now (pointer at.now) (view value.now)) }
{
    let members = object(alloc, WRONG_TYPE, at, value)?;
    check_names(alloc, UNKNOWN_MEMBER, at, members, &["field"])?;
    let (place, _) = field_in(alloc, mapping, at, members)?;
    Ok(Kind::Missing { field: place })
}

/// The kind `global`, an object without members.
#[tactic(auto, unfolding(agg_reading::specs::Metrics::global_at))]
pub fn global(alloc: Global, at: &At<'_>, value: &Value) -> Result<Kind, RequestFault>
    ensures { Gives (λ k. k) result (global_at (pointer at.now) (view value.now)) }
{
    let members = object(alloc, WRONG_TYPE, at, value)?;
    check_names(alloc, UNKNOWN_MEMBER, at, members, &[])?;
    Ok(Kind::Global)
}

/// The context that `nested` names, a nested path strictly beneath this context.
#[tactic(auto, unfolding(agg_reading::specs::Metrics::nested_context_at))]
pub fn nested_context(
    alloc: Global,
    mapping: &OrderedMapping<'_>,
    context: u32,
    at: &At<'_>,
    value: &Value,
) -> Result<u32, RequestFault>
    ensures { Gives (λ x. x) result (nested_context_at mapping.now context (pointer at.now) (view value.now)) }
{
    let members = object(alloc, WRONG_TYPE, at, value)?;
    check_names(alloc, UNKNOWN_MEMBER, at, members, &["path"])?;
    let (place, _) = path_in(alloc, mapping, context, at, members)?;
    Ok(place + 1)
}

/// The context that the member `path` names, or the root where it is absent. The root itself has none: `NO_SUCH_PATH`
/// at `at`.
fn outer(
    alloc: Global,
    mapping: &OrderedMapping<'_>,
    context: u32,
    at: &At<'_>,
    members: &Map<String, Value>,
) -> Result<u32, RequestFault>
    ensures { Gives (λ x. x) result
        (outer_of mapping.now context (pointer at.now) (get_member (codes "path") (members_view members.now.entries))) }
{
    match member(members, "path") {
        None if context == 0 => at.refuse(alloc, NO_SUCH_PATH),
        None => Ok(0),
        Some(value) => {
            let at = At::Member(at, "path");
            let path = text(alloc, WRONG_TYPE, &at, value)?;
            enclosing(alloc, mapping, context, &at, path)
        }
    }
}

/// The context that `reverse_nested` names, a nested path that strictly encloses this context, or the root.
#[tactic(auto, unfolding(agg_reading::specs::Metrics::outer_context_at))]
pub fn outer_context(
    alloc: Global,
    mapping: &OrderedMapping<'_>,
    context: u32,
    at: &At<'_>,
    value: &Value,
) -> Result<u32, RequestFault>
    ensures { Gives (λ x. x) result (outer_context_at mapping.now context (pointer at.now) (view value.now)) }
{
    let members = object(alloc, WRONG_TYPE, at, value)?;
    check_names(alloc, UNKNOWN_MEMBER, at, members, &["path"])?;
    outer(alloc, mapping, context, at, members)
}
