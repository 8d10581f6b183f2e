//! Index lines: a name, settings and a mapping.

ghost use Rattle.std.specs.Prelude.{◌≡◌, ◌≤◌, ◌++◌, [], codes, IfOk, IfErr, IfSome, Ok, Some};
ghost use Rattle.serde_json.specs.View.{view, members_view};
ghost use Rattle.agg_model.specs.declared.limits.TheConstants.{MAX_SHARDS};
ghost use Rattle.json_walk.specs.Places.{pointer};
ghost use Rattle.agg_reading.specs.Reading.{Gives};
ghost use Rattle.agg_reading.specs.Json.{optional};
ghost use Rattle.agg_reading.specs.Pointer.{member_step};
ghost use Rattle.agg_reading.specs.Mapping.{mapping_at, empty_mapping};
ghost use Rattle.agg_reading.specs.IndexLine.{shards_at, shards_named, inner_shards, inner_shards_of, agreed, agreed_all, settings_at, index_name_at, index_value_at, index_line_at};
ghost use Rattle.agg_mapping.specs.Faults.{Refuses};
ghost use Rattle.agg_mapping.specs.Shards.{both_numbers};
ghost use Rattle.agg_model.specs.MappingOrder.{IsOrdered};

use crate::fault::{MapFault, map_fault};
use crate::mapping::mapping;
use crate::properties::REFUSED;
use agg_model::limits::{MAX_INDEX_NAME, MAX_SHARDS};
use agg_model::{List, Mapping, Text};
use agg_reading::{IndexLine, RequestFault};
use json_walk::{At, check_names, member, object, reading, text, whole};
use serde_json::{Map, Value};
use std::alloc::Global;

/// A number of shards: a whole number or decimal text from 1 to `MAX_SHARDS`.
#[tactic(auto, unfolding(agg_reading::specs::IndexLine::shards_at))]
fn shards(alloc: Global, at: &At<'_>, value: &Value) -> Result<u32, RequestFault>
    ensures { Gives (λ x. x) result (shards_at (pointer at.now) (view value.now)) }
{
    match whole(value) {
        Some(n) if 1 <= n && n <= i128::from(MAX_SHARDS) => Ok(n as u32),
        _ => at.refuse(alloc, REFUSED),
    }
}

/// The number of shards in the member of this name; none where it is absent.
#[tactic(auto, unfolding(agg_reading::specs::IndexLine::shards_named))]
fn shards_named(
    alloc: Global,
    name: &str,
    at: &At<'_>,
    members: &Map<String, Value>,
) -> Result<Option<u32>, RequestFault>
    ensures { Gives (λ x. x) result (shards_named name.now (pointer at.now) (members_view members.now.entries)) }
{
    match member(members, name) {
        None => Ok(None),
        Some(value) => Ok(Some(shards(alloc, &At::Member(at, name), value)?)),
    }
}

/// Both numbers among these members, the dotted name first.
fn both_numbers(
    alloc: Global,
    at: &At<'_>,
    members: &Map<String, Value>,
) -> Result<(Option<u32>, Option<u32>), RequestFault>
    ensures { Gives (λ x. x) result (both_numbers (pointer at.now) (members_view members.now.entries)) }
{
    let dotted = shards_named(alloc, "index.number_of_shards", at, members)?;
    let plain = shards_named(alloc, "number_of_shards", at, members)?;
    Ok((dotted, plain))
}

/// Both numbers within a member `index` that is an object; any other `index` has no effect.
fn numbers_within(
    alloc: Global,
    at: &At<'_>,
    value: &Value,
) -> Result<(Option<u32>, Option<u32>), RequestFault>
    ensures { Gives (λ x. x) result (inner_shards_of (pointer at.now) (Some (view value.now))) }
{
    match value {
        Value::Object(members) => both_numbers(alloc, at, members),
        _ => Ok((None, None)),
    }
}

/// Both numbers within an object `index`; none where it is absent.
#[tactic(auto, unfolding(agg_reading::specs::IndexLine::inner_shards))]
fn inner_shards(
    alloc: Global,
    at: &At<'_>,
    members: &Map<String, Value>,
) -> Result<(Option<u32>, Option<u32>), RequestFault>
    ensures { Gives (λ x. x) result (inner_shards (pointer at.now) (members_view members.now.entries)) }
{
    match member(members, "index") {
        None => Ok((None, None)),
        Some(value) => numbers_within(alloc, &At::Member(at, "index"), value),
    }
}

/// A further number, which is refused where it differs from the one before.
#[tactic(auto, unfolding(agg_reading::specs::IndexLine::agreed))]
fn agreed(
    alloc: Global,
    before: Option<u32>,
    at: &At<'_>,
    further: Option<u32>,
) -> Result<Option<u32>, RequestFault>
    ensures { Gives (λ x. x) result (agreed before (pointer at.now) further) }
{
    match (before, further) {
        (None, further) => Ok(further),
        (Some(n), None) => Ok(Some(n)),
        (Some(n), Some(other)) if n == other => Ok(Some(n)),
        (Some(_), Some(_)) => at.refuse(alloc, REFUSED),
    }
}

/// A further number in the member of this name.
fn agreed_at(
    alloc: Global,
    before: Option<u32>,
    name: &str,
    at: &At<'_>,
    further: Option<u32>,
) -> Result<Option<u32>, RequestFault>
    ensures { Gives (λ x. x) result (agreed before (pointer at.now ++ member_step name.now) further) }
{
    agreed(alloc, before, &At::Member(at, name), further)
}

/// The number that all four places agree on, compared in byte order of their pointers.
#[tactic(auto, unfolding(agg_reading::specs::IndexLine::agreed_all))]
fn agreed_all(
    alloc: Global,
    at: &At<'_>,
    dotted: Option<u32>,
    inner: (Option<u32>, Option<u32>),
    plain: Option<u32>,
) -> Result<Option<u32>, RequestFault>
    ensures { Gives (λ x. x) result (agreed_all (pointer at.now) dotted inner plain) }
{
    let index = At::Member(at, "index");
    let one = agreed_at(alloc, dotted, "index.number_of_shards", &index, inner.0)?;
    let two = agreed_at(alloc, one, "number_of_shards", &index, inner.1)?;
    agreed_at(alloc, two, "number_of_shards", at, plain)
}

/// The number of shards that settings give, 1 where they give none.
#[tactic(auto, unfolding(agg_reading::specs::IndexLine::settings_at))]
fn settings(alloc: Global, at: &At<'_>, value: &Value) -> Result<u32, RequestFault>
    ensures { Gives (λ x. x) result (settings_at (pointer at.now) (view value.now)) }
{
    let members = object(alloc, REFUSED, at, value)?;
    let inner = inner_shards(alloc, at, members)?;
    let dotted = shards_named(alloc, "index.number_of_shards", at, members)?;
    let plain = shards_named(alloc, "number_of_shards", at, members)?;
    let shards = agreed_all(alloc, at, dotted, inner, plain)?;
    Ok(shards.unwrap_or(1))
}

/// The name of an index: a text of 1 to `MAX_INDEX_NAME` bytes.
#[tactic(auto, unfolding(agg_reading::specs::IndexLine::index_name_at))]
fn index_name<'v>(alloc: Global, at: &At<'_>, value: &'v Value) -> Result<&'v str, RequestFault>
    ensures { Gives (λ s. s.now) result (index_name_at (pointer at.now) (view value.now)) }
{
    let name = text(alloc, REFUSED, at, value)?;
    if 0 < name.len() && name.len() <= MAX_INDEX_NAME {
        Ok(name)
    } else {
        at.refuse(alloc, REFUSED)
    }
}

/// The member `index`; none where it is absent.
fn index_name_in(
    alloc: Global,
    at: &At<'_>,
    members: &Map<String, Value>,
) -> Result<Option<Text>, RequestFault>
    ensures { Gives (λ x. x) result (optional index_name_at (codes "index") (pointer at.now) (members_view members.now.entries)) }
{
    let Some(value) = member(members, "index") else {
        return Ok(None);
    };
    let name = index_name(alloc, &At::Member(at, "index"), value)?;
    Ok(Some(Text::of(alloc, name)?))
}

/// The member `mappings`; none where it is absent.
fn mapping_in(
    alloc: Global,
    at: &At<'_>,
    members: &Map<String, Value>,
) -> Result<Option<Mapping>, RequestFault>
    ensures value { Gives (λ x. x) result (optional mapping_at (codes "mappings") (pointer at.now) (members_view members.now.entries)) }
    ensures ordered { IfOk result (λ o. IfSome o IsOrdered) }
{
    match member(members, "mappings") {
        None => Ok(None),
        Some(value) => Ok(Some(mapping(alloc, &At::Member(at, "mappings"), value)?)),
    }
}

/// The member `settings`; none where it is absent.
fn settings_in(
    alloc: Global,
    at: &At<'_>,
    members: &Map<String, Value>,
) -> Result<Option<u32>, RequestFault>
    ensures { Gives (λ x. x) result (optional settings_at (codes "settings") (pointer at.now) (members_view members.now.entries)) }
{
    match member(members, "settings") {
        None => Ok(None),
        Some(value) => Ok(Some(settings(alloc, &At::Member(at, "settings"), value)?)),
    }
}

/// A mapping without fields, which ignores all names; it takes no memory.
fn empty_mapping(alloc: Global) -> Mapping
    ensures value { result ≡ empty_mapping }
    ensures ordered { IsOrdered result }
{
    Mapping {
        fields: List::new(alloc),
        nested: List::new(alloc),
        objects: List::new(alloc),
        strict: false,
    }
}

/// The index line that a value is.
#[tactic(auto, unfolding(agg_reading::specs::IndexLine::index_value_at))]
fn index_value(alloc: Global, value: &Value) -> Result<IndexLine, RequestFault>
    ensures value { Gives (λ x. x) result (index_value_at (view value.now)) }
    ensures ordered { IfOk result (λ line. IsOrdered line.mapping) }
{
    let at = At::Start("");
    let members = object(alloc, REFUSED, &at, value)?;
    check_names(
        alloc,
        REFUSED,
        &at,
        members,
        &["index", "mappings", "settings"],
    )?;
    let name = index_name_in(alloc, &at, members)?;
    let mapping = mapping_in(alloc, &at, members)?;
    let shards = settings_in(alloc, &at, members)?;
    let Some(name) = name else {
        return at.refuse(alloc, REFUSED);
    };
    Ok(IndexLine {
        name,
        mapping: mapping.unwrap_or(empty_mapping(alloc)),
        shards: shards.unwrap_or(1),
    })
}

/// The index line that the bytes are, or the first refusal in its walk.
#[tactic(auto, unfolding(agg_reading::specs::IndexLine::index_line_at))]
fn index_line(alloc: Global, line: &[u8]) -> Result<IndexLine, RequestFault>
    ensures value { Gives (λ x. x) result (index_line_at line.now) }
    ensures ordered { IfOk result (λ read. IsOrdered read.mapping) }
{
    let Some(value) = reading(alloc, line)? else {
        return At::Start("").refuse(alloc, REFUSED);
    };
    index_value(alloc, &value)
}

/// The index line that the bytes are: an object with `index`, a text of 1 to `MAX_INDEX_NAME` bytes, and at will
/// `settings` and `mappings`. The first thing in the walk that breaks a rule is refused with its pointer, which is
/// empty where the bytes are no JSON object.
pub fn index_line_of(alloc: Global, line: &[u8]) -> Result<IndexLine, MapFault>
    ensures line { IfOk result (λ read. index_line_at line.now ≡ Ok read) }
    ensures ordered { IfOk result (λ read. IsOrdered read.mapping) }
    ensures shards { IfOk result (λ read. (1 ≤ read.shards) × (read.shards ≤ MAX_SHARDS)) }
    ensures refused { IfErr result (Refuses (index_line_at line.now)) }
{
    match index_line(alloc, line) {
        Ok(read) => Ok(read),
        Err(fault) => Err(map_fault(alloc, fault)),
    }
}
