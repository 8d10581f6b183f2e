//! The walk of `properties`. A refusal of an index line is `BAD_INDEX_LINE`.

ghost use Rattle.std.specs.Prelude.{◌≡◌, ◌++◌, ◌==◌, ◌≤◌, IfOk, codes, string_bytes};
ghost use Rattle.std.specs.List.{list_any};
ghost use Rattle.serde_json.specs.Find.{get_member};
ghost use Rattle.serde_json.specs.View.{view, members_view};
ghost use Rattle.json_walk.specs.Places.{pointer};
ghost use Rattle.agg_reading.specs.Reading.{Gives};
ghost use Rattle.agg_reading.specs.Json.{known, optional};
ghost use Rattle.agg_reading.specs.Properties.{is_field_name, type_named, type_at, type_in, leaf_names, format_at, bound_at, leaf_at, fields_from, properties_at, properties_of, inner_at, property_at};
ghost use Rattle.agg_reading.specs.Pointer.{member_step};
ghost use Rattle.agg_mapping.specs.Arranged.{arranged};

use crate::collected::Collected;
use agg_model::limits::{MAX_FIELD_NAME, MAX_IGNORE_ABOVE};
use agg_model::script_refusal::BAD_INDEX_LINE;
use agg_model::{FieldKind, Text};
use agg_reading::{FieldType, FoundField, RequestFault};
use json_walk::{At, check_names, member, object, text};
use serde_json::{Map, Value};
use std::alloc::{AllocError, Global};

/// `BAD_INDEX_LINE` as the readers of JSON take it.
pub(crate) const REFUSED: u16 = BAD_INDEX_LINE as u16;

/// Whether a name holds a dot.
fn has_dot(name: &[u8]) -> bool
    ensures { result ≡ list_any (λ b. b == 46) name.now }
{
    for b in name {
        if *b == b'.' {
            return true;
        }
    }
    false
}

/// Whether a name is 1 to `MAX_FIELD_NAME` bytes without a dot.
#[tactic(auto, unfolding(agg_reading::specs::Properties::is_field_name))]
fn is_field_name(name: &str) -> bool
    ensures { result ≡ is_field_name name.now }
{
    0 < name.len() && name.len() <= MAX_FIELD_NAME && !has_dot(name.as_bytes())
}

/// The type that a word names.
#[tactic(auto, unfolding(agg_reading::specs::Properties::type_named))]
fn type_named(word: &str) -> Option<FieldType>
    ensures { result ≡ type_named word.now }
{
    match word {
        "long" => Some(FieldType::Leaf(FieldKind::Long)),
        "integer" => Some(FieldType::Leaf(FieldKind::Integer)),
        "short" => Some(FieldType::Leaf(FieldKind::Short)),
        "byte" => Some(FieldType::Leaf(FieldKind::Byte)),
        "keyword" => Some(FieldType::Leaf(FieldKind::Keyword)),
        "boolean" => Some(FieldType::Leaf(FieldKind::Boolean)),
        "date" => Some(FieldType::Leaf(FieldKind::Date)),
        "object" => Some(FieldType::Object),
        "nested" => Some(FieldType::Nested),
        _ => None,
    }
}

/// The type in a member `type`.
#[tactic(auto, unfolding(agg_reading::specs::Properties::type_at))]
fn type_at(alloc: Global, at: &At<'_>, value: &Value) -> Result<FieldType, RequestFault>
    ensures { Gives (λ x. x) result (type_at (pointer at.now) (view value.now)) }
{
    let word = text(alloc, REFUSED, at, value)?;
    match type_named(word) {
        Some(found) => Ok(found),
        None => at.refuse(alloc, REFUSED),
    }
}

/// The type of a field object: an object where it has `properties` and no `type`.
#[tactic(auto, unfolding(agg_reading::specs::Properties::type_in))]
fn type_in(
    alloc: Global,
    at: &At<'_>,
    members: &Map<String, Value>,
) -> Result<FieldType, RequestFault>
    ensures { Gives (λ x. x) result (type_in (pointer at.now) (members_view members.now.entries)) }
{
    if let Some(value) = member(members, "type") {
        return Ok(type_at(alloc, &At::Member(at, "type"), value)?);
    }
    if member(members, "properties").is_some() {
        return Ok(FieldType::Object);
    }
    at.refuse(alloc, REFUSED)
}

/// Refuses a member that a field of this kind may not have.
fn check_leaf_names(
    alloc: Global,
    kind: FieldKind,
    at: &At<'_>,
    members: &Map<String, Value>,
) -> Result<(), RequestFault>
    ensures { Gives (λ u. u) result (known BAD_INDEX_LINE (leaf_names kind) (pointer at.now) (members_view members.now.entries)) }
{
    match kind {
        FieldKind::Keyword => check_names(
            alloc,
            REFUSED,
            at,
            members,
            &[
                "doc_values",
                "eager_global_ordinals",
                "ignore_above",
                "index",
                "store",
                "type",
            ],
        ),
        FieldKind::Long
        | FieldKind::Integer
        | FieldKind::Short
        | FieldKind::Byte
        | FieldKind::Boolean => check_names(
            alloc,
            REFUSED,
            at,
            members,
            &["doc_values", "index", "store", "type"],
        ),
        FieldKind::Date => check_names(
            alloc,
            REFUSED,
            at,
            members,
            &["doc_values", "format", "index", "store", "type"],
        ),
    }
}

/// Refuses a value that is not the one format of dates.
#[tactic(auto, unfolding(agg_reading::specs::Properties::format_at))]
fn check_format(alloc: Global, at: &At<'_>, value: &Value) -> Result<(), RequestFault>
    ensures { Gives (λ u. u) result (format_at (pointer at.now) (view value.now)) }
{
    match text(alloc, REFUSED, at, value)? {
        "strict_date_optional_time||epoch_millis" => Ok(()),
        _ => at.refuse(alloc, REFUSED),
    }
}

/// Refuses a member `format` that is not the one format of dates.
fn check_format_in(
    alloc: Global,
    at: &At<'_>,
    members: &Map<String, Value>,
) -> Result<Option<()>, RequestFault>
    ensures { Gives (λ u. u) result (optional format_at (codes "format") (pointer at.now) (members_view members.now.entries)) }
{
    match member(members, "format") {
        None => Ok(None),
        Some(value) => {
            check_format(alloc, &At::Member(at, "format"), value)?;
            Ok(Some(()))
        }
    }
}

/// A whole number from 0 to `MAX_IGNORE_ABOVE`.
#[tactic(auto, unfolding(agg_reading::specs::Properties::bound_at))]
fn bound(alloc: Global, at: &At<'_>, value: &Value) -> Result<u32, RequestFault>
    ensures { Gives (λ x. x) result (bound_at (pointer at.now) (view value.now)) }
{
    let Some(number) = value.as_number() else {
        return at.refuse(alloc, REFUSED);
    };
    match number.as_u64() {
        Some(n) if n <= MAX_IGNORE_ABOVE => Ok(n as u32),
        _ => at.refuse(alloc, REFUSED),
    }
}

/// The bound on the characters of a keyword; none where `ignore_above` is absent.
fn ignore_above_in(
    alloc: Global,
    at: &At<'_>,
    members: &Map<String, Value>,
) -> Result<Option<u32>, RequestFault>
    ensures { Gives (λ x. x) result (optional bound_at (codes "ignore_above") (pointer at.now) (members_view members.now.entries)) }
{
    match member(members, "ignore_above") {
        None => Ok(None),
        Some(value) => Ok(Some(bound(alloc, &At::Member(at, "ignore_above"), value)?)),
    }
}

/// The two texts, one behind the other.
fn joined(alloc: Global, front: &str, name: &str) -> Result<String, AllocError>
    ensures { IfOk result (λ s. string_bytes s ≡ front.now ++ name.now) }
{
    let mut path = String::from_str(alloc, front)?;
    path.push_str(name)?;
    Ok(path)
}

/// A field as the walk finds it.
fn found_field(
    alloc: Global,
    kind: FieldKind,
    ignore_above: Option<u32>,
    within: &str,
    path: &str,
) -> Result<FoundField, AllocError>
    ensures { IfOk result (λ f. f ≡ record { path = path.now; kind = kind; ignore_above = ignore_above; within = within.now }) }
{
    Ok(FoundField {
        path: Text::of(alloc, path)?,
        kind,
        ignore_above,
        within: Text::of(alloc, within)?,
    })
}

/// A scalar field, within a nested path or the root.
#[tactic(auto, unfolding(agg_reading::specs::Properties::leaf_at))]
fn leaf(
    alloc: Global,
    kind: FieldKind,
    within: &str,
    path: &str,
    at: &At<'_>,
    found: Collected,
    members: &Map<String, Value>,
) -> Result<Collected, RequestFault>
    ensures { Gives arranged result (leaf_at kind within.now path.now (pointer at.now) (arranged found) (members_view members.now.entries)) }
{
    if found.is_full() {
        return at.refuse(alloc, REFUSED);
    }
    check_leaf_names(alloc, kind, at, members)?;
    check_format_in(alloc, at, members)?;
    let above = ignore_above_in(alloc, at, members)?;
    Ok(found.with_field(found_field(alloc, kind, above, within, path)?)?)
}

/// The fields of an object, whose paths begin with `front`.
#[cycle(property)]
#[tactic(auto, unfolding(agg_reading::specs::Properties::fields_from))]
fn fields(
    alloc: Global,
    left: u32,
    within: &str,
    front: &str,
    at: &At<'_>,
    before: Collected,
    members: &Map<String, Value>,
) -> Result<Collected, RequestFault>
    ensures { Gives arranged result (fields_from (property_at left) within.now front.now (pointer at.now) (arranged before) (members_view members.now.entries)) }
{
    let mut found = before;
    for (name, value) in members {
        let at = At::Member(&*at, name.as_str());
        if !is_field_name(name.as_str()) {
            return at.refuse(alloc, REFUSED);
        }
        let path = joined(alloc, front, name.as_str())?;
        found = property(alloc, left, within, path.as_str(), &at, found, value)?;
    }
    Ok(found)
}

/// The fields of a member `properties`.
#[cycle(property)]
#[tactic(auto, unfolding(agg_reading::specs::Properties::properties_at))]
fn properties(
    alloc: Global,
    left: u32,
    within: &str,
    front: &str,
    at: &At<'_>,
    found: Collected,
    value: &Value,
) -> Result<Collected, RequestFault>
    ensures { Gives arranged result (properties_at (property_at left) within.now front.now (pointer at.now) (arranged found) (view value.now)) }
{
    let members = object(alloc, REFUSED, &*at, value)?;
    fields(alloc, left, within, front, &*at, found, members)
}

/// The fields of the member `properties` of an object; none where it is absent.
#[cycle(property)]
pub(crate) fn properties_in(
    alloc: Global,
    left: u32,
    within: &str,
    front: &str,
    at: &At<'_>,
    found: Collected,
    members: &Map<String, Value>,
) -> Result<Collected, RequestFault>
    ensures { Gives arranged result (properties_of (property_at left) within.now front.now (pointer at.now ++ member_step (codes "properties")) (arranged found) (get_member (codes "properties") (members_view members.now.entries))) }
{
    match member(members, "properties") {
        None => Ok(found),
        Some(value) => properties(
            alloc,
            left,
            within,
            front,
            &At::Member(&*at, "properties"),
            found,
            value,
        ),
    }
}

/// What stands within an object, which need not have properties.
#[cycle(property)]
#[tactic(auto, unfolding(agg_reading::specs::Properties::inner_at))]
fn inner(
    alloc: Global,
    left: u32,
    within: &str,
    path: &str,
    at: &At<'_>,
    found: Collected,
    members: &Map<String, Value>,
) -> Result<Collected, RequestFault>
    ensures { Gives arranged result (inner_at (property_at left) within.now path.now (pointer at.now) (arranged found) (members_view members.now.entries)) }
{
    check_names(alloc, REFUSED, &*at, members, &["properties", "type"])?;
    let front = joined(alloc, path, ".")?;
    properties_in(alloc, left, within, front.as_str(), &*at, found, members)
}

/// One field, where so many levels of properties may still nest.
#[cycle(property)]
#[tactic(auto, unfolding(agg_reading::specs::Properties::property_at))]
fn property(
    alloc: Global,
    left: u32,
    within: &str,
    path: &str,
    at: &At<'_>,
    found: Collected,
    value: &Value,
) -> Result<Collected, RequestFault>
    ensures { Gives arranged result (property_at left within.now path.now (pointer at.now) (arranged found) (view value.now)) }
{
    if left == 0 {
        return at.refuse(alloc, REFUSED);
    }
    let members = object(alloc, REFUSED, &*at, value)?;
    match type_in(alloc, &*at, members)? {
        FieldType::Leaf(kind) => leaf(alloc, kind, within, path, &*at, found, members),
        FieldType::Object => {
            let found = found.with_object(alloc, path)?;
            inner(alloc, left - 1, within, path, &*at, found, members)
        }
        FieldType::Nested => {
            if found.is_full() {
                return at.refuse(alloc, REFUSED);
            }
            let found = found.with_nested(alloc, within, path)?;
            inner(alloc, left - 1, path, path, &*at, found, members)
        }
    }
}
