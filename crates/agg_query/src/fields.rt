//! Fields and nested paths that a search names.

ghost use Rattle.std.specs.Prelude.{◌<◌, IfOk};
ghost use Rattle.serde_json.specs.View.{members_view};
ghost use Rattle.json_walk.specs.Places.{pointer};
ghost use Rattle.agg_reading.specs.Reading.{Gives};
ghost use Rattle.agg_reading.specs.Fields.{field_at};
ghost use Rattle.agg_reading.specs.Leaves.{field_in};
ghost use Rattle.agg_reading.specs.Query.{nested_at, path_in};

use agg_mapping::OrderedMapping;
use agg_model::body_refusal::{NO_SUCH_FIELD, NO_SUCH_PATH, WRONG_TYPE};
use agg_model::limits::MAX_PATHS;
use agg_model::{Field, NestedPath};
use agg_reading::RequestFault;
use json_walk::{At, required, text};
use serde_json::{Map, Value};
use std::alloc::Global;

/// The field of this path and its place; a path that no field has is refused with `NO_SUCH_FIELD` at `at`.
#[tactic(auto, unfolding(agg_reading::specs::Fields::field_at))]
pub fn field<'m>(
    alloc: Global,
    mapping: &OrderedMapping<'m>,
    at: &At<'_>,
    path: &str,
) -> Result<(u32, &'m Field), RequestFault>
    ensures { Gives (λ f. (f.0, f.1.now)) result (field_at mapping.now (pointer at.now) path.now) }
{
    let Some((place, found)) = mapping.find_field(path.as_bytes()) else {
        return at.refuse(alloc, NO_SUCH_FIELD);
    };
    Ok((place, found))
}

/// The field that the member `field` names, and its place. The object is refused with `MISSING_MEMBER` where the member
/// is absent, the member with `WRONG_TYPE` where it is no text and with `NO_SUCH_FIELD` where no field has its path.
#[tactic(auto, unfolding(agg_reading::specs::Leaves::field_in))]
pub fn field_in<'m>(
    alloc: Global,
    mapping: &OrderedMapping<'m>,
    at: &At<'_>,
    members: &Map<String, Value>,
) -> Result<(u32, &'m Field), RequestFault>
    ensures { Gives (λ f. (f.0, f.1.now)) result (field_in mapping.now (pointer at.now) (members_view members.now.entries)) }
{
    let value = required(alloc, at, members, "field")?;
    let at = At::Member(at, "field");
    let path = text(alloc, WRONG_TYPE, &at, value)?;
    field(alloc, mapping, &at, path)
}

/// The nested path of this name and its place; one that is not in the mapping, or not strictly beneath the context, is
/// refused with `NO_SUCH_PATH` at `at`.
#[tactic(auto, unfolding(agg_reading::specs::Query::nested_at))]
pub fn nested<'m>(
    alloc: Global,
    mapping: &OrderedMapping<'m>,
    context: u32,
    at: &At<'_>,
    path: &str,
) -> Result<(u32, &'m NestedPath), RequestFault>
    ensures value { Gives (λ p. (p.0, p.1.now)) result (nested_at mapping.now context (pointer at.now) path.now) }
    ensures few { IfOk result (λ p. p.0 < MAX_PATHS) }
{
    if !mapping.is_in_context(context, path.as_bytes()) {
        return at.refuse(alloc, NO_SUCH_PATH);
    }
    let Some((place, found)) = mapping.find_nested(path.as_bytes()) else {
        return at.refuse(alloc, NO_SUCH_PATH);
    };
    Ok((place, found))
}

/// The nested path that the member `path` names, and its place. The object is refused with `MISSING_MEMBER` where the
/// member is absent, the member with `WRONG_TYPE` where it is no text and with `NO_SUCH_PATH` where it names no nested
/// path strictly beneath the context.
#[tactic(auto, unfolding(agg_reading::specs::Query::path_in))]
pub fn path_in<'m>(
    alloc: Global,
    mapping: &OrderedMapping<'m>,
    context: u32,
    at: &At<'_>,
    members: &Map<String, Value>,
) -> Result<(u32, &'m NestedPath), RequestFault>
    ensures value { Gives (λ p. (p.0, p.1.now)) result
        (path_in mapping.now context (pointer at.now) (members_view members.now.entries)) }
    ensures few { IfOk result (λ p. p.0 < MAX_PATHS) }
{
    let value = required(alloc, at, members, "path")?;
    let at = At::Member(at, "path");
    let path = text(alloc, WRONG_TYPE, &at, value)?;
    nested(alloc, mapping, context, &at, path)
}
