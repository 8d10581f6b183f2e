//! Mappings.

ghost use Rattle.std.specs.Prelude.{◌≡◌, [], codes, IfOk, IfErr, Ok};
ghost use Rattle.serde_json.specs.View.{view, members_view};
ghost use Rattle.json_walk.specs.Places.{pointer};
ghost use Rattle.agg_reading.specs.Reading.{Gives};
ghost use Rattle.agg_reading.specs.Json.{optional};
ghost use Rattle.agg_reading.specs.Mapping.{dynamic_at, found_in, mapping_at};
ghost use Rattle.agg_mapping.specs.Arranged.{arranged};
ghost use Rattle.agg_mapping.specs.Faults.{Refuses};
ghost use Rattle.agg_model.specs.MappingOrder.{IsOrdered};

use crate::collected::Collected;
use crate::fault::{MapFault, map_fault};
use crate::numbering::numbered;
use crate::properties::{REFUSED, properties_in};
use agg_model::Mapping;
use agg_model::limits::MAX_PROPERTY_LEVELS;
use agg_reading::RequestFault;
use json_walk::{At, check_names, member, object};
use serde_json::{Map, Value};
use std::alloc::Global;

/// Whether `dynamic` is strict: `false`, `"false"` or `"strict"`.
#[tactic(auto, unfolding(agg_reading::specs::Mapping::dynamic_at))]
fn dynamic(alloc: Global, at: &At<'_>, value: &Value) -> Result<bool, RequestFault>
    ensures { Gives (λ x. x) result (dynamic_at (pointer at.now) (view value.now)) }
{
    match value {
        Value::Bool(false) => Ok(false),
        Value::String(word) => match word.as_str() {
            "strict" => Ok(true),
            "false" => Ok(false),
            _ => at.refuse(alloc, REFUSED),
        },
        _ => at.refuse(alloc, REFUSED),
    }
}

/// The member `dynamic`; none where it is absent.
fn dynamic_in(
    alloc: Global,
    at: &At<'_>,
    members: &Map<String, Value>,
) -> Result<Option<bool>, RequestFault>
    ensures { Gives (λ x. x) result (optional dynamic_at (codes "dynamic") (pointer at.now) (members_view members.now.entries)) }
{
    match member(members, "dynamic") {
        None => Ok(None),
        Some(value) => Ok(Some(dynamic(alloc, &At::Member(at, "dynamic"), value)?)),
    }
}

/// What the member `properties` has; nothing where it is absent.
#[tactic(auto, unfolding(agg_reading::specs::Mapping::found_in))]
fn found_in(
    alloc: Global,
    at: &At<'_>,
    members: &Map<String, Value>,
) -> Result<Collected, RequestFault>
    ensures { Gives arranged result (found_in (pointer at.now) (members_view members.now.entries)) }
{
    let found = Collected::new(alloc);
    properties_in(alloc, MAX_PROPERTY_LEVELS, "", "", at, found, members)
}

/// The mapping that a value is.
#[tactic(auto, unfolding(agg_reading::specs::Mapping::mapping_at))]
pub(crate) fn mapping(alloc: Global, at: &At<'_>, value: &Value) -> Result<Mapping, RequestFault>
    ensures value { Gives (λ m. m) result (mapping_at (pointer at.now) (view value.now)) }
    ensures ordered { IfOk result IsOrdered }
{
    let members = object(alloc, REFUSED, at, value)?;
    check_names(alloc, REFUSED, at, members, &["dynamic", "properties"])?;
    let strict = dynamic_in(alloc, at, members)?;
    let found = found_in(alloc, at, members)?;
    Ok(numbered(alloc, strict.unwrap_or(false), found)?)
}

/// The mapping that a JSON value is: the members `dynamic` and `properties` of an object, where properties are at most
/// `MAX_PATHS` fields and nested paths, at most `MAX_PROPERTY_LEVELS` levels deep. The first thing in the walk that
/// breaks a rule is refused with its pointer.
pub fn mapping_of(alloc: Global, value: &Value) -> Result<Mapping, MapFault>
    ensures mapping { IfOk result (λ m. mapping_at [] (view value.now) ≡ Ok m) }
    ensures ordered { IfOk result IsOrdered }
    ensures refused { IfErr result (Refuses (mapping_at [] (view value.now))) }
{
    match mapping(alloc, &At::Start(""), value) {
        Ok(mapping) => Ok(mapping),
        Err(fault) => Err(map_fault(alloc, fault)),
    }
}
