//! The parts of a value, each found or refused. Members stand in byte order of their names.

ghost use Rattle.std.specs.Prelude.{◌≡◌, option_map, map, [], None, Some};
ghost use Rattle.serde_json.specs.Find.{get_member};
ghost use Rattle.serde_json.specs.View.{view, members_view, items_view};
ghost use Rattle.json_walk.specs.Places.{pointer};
ghost use Rattle.agg_reading.specs.Reading.{Gives};
ghost use Rattle.agg_reading.specs.Json.{object_at, list_at, text_at, required, sole, sole_at, sole_besides, known, is_among};

use crate::at::At;
use agg_model::body_refusal::MISSING_MEMBER;
use agg_reading::RequestFault;
use serde_json::{Map, Value};
use std::alloc::Global;

/// The members of an object; any other value is refused with this number.
#[tactic(auto, unfolding(agg_reading::specs::Json::object_at))]
pub fn object<'v>(
    alloc: Global,
    code: u16,
    at: &At<'_>,
    value: &'v Value,
) -> Result<&'v Map<String, Value>, RequestFault>
    ensures { Gives (λ m. members_view m.now.entries) result (object_at code (pointer at.now) (view value.now)) }
{
    match value.as_object() {
        Some(members) => Ok(members),
        None => at.refuse(alloc, code),
    }
}

/// The items of a list; any other value is refused with this number.
#[tactic(auto, unfolding(agg_reading::specs::Json::list_at))]
pub fn list<'v>(
    alloc: Global,
    code: u16,
    at: &At<'_>,
    value: &'v Value,
) -> Result<&'v Vec<Value>, RequestFault>
    ensures { Gives (λ v. items_view v.now.items) result (list_at code (pointer at.now) (view value.now)) }
{
    match value.as_array() {
        Some(found) => Ok(found),
        None => at.refuse(alloc, code),
    }
}

/// A text; any other value is refused with this number.
#[tactic(auto, unfolding(agg_reading::specs::Json::text_at))]
pub fn text<'v>(
    alloc: Global,
    code: u16,
    at: &At<'_>,
    value: &'v Value,
) -> Result<&'v str, RequestFault>
    ensures { Gives (λ s. s.now) result (text_at code (pointer at.now) (view value.now)) }
{
    match value.as_str() {
        Some(found) => Ok(found),
        None => at.refuse(alloc, code),
    }
}

/// The member of this name, `null` too; none where it is absent.
pub fn member<'v>(members: &'v Map<String, Value>, name: &str) -> Option<&'v Value>
    ensures { option_map (λ v. view v.now) result ≡ get_member name.now (members_view members.now.entries) }
{
    members.get(name)
}

/// The member of this name; the object is refused with `MISSING_MEMBER` where it is absent.
#[tactic(auto, unfolding(agg_reading::specs::Json::required))]
pub fn required<'v>(
    alloc: Global,
    at: &At<'_>,
    members: &'v Map<String, Value>,
    name: &str,
) -> Result<&'v Value, RequestFault>
    ensures { Gives (λ v. view v.now) result (required name.now (pointer at.now) (members_view members.now.entries)) }
{
    match member(members, name) {
        Some(found) => Ok(found),
        None => at.refuse(alloc, MISSING_MEMBER),
    }
}

/// The name and value of the only member; none where there is no member or more than one.
pub fn sole_member(members: &Map<String, Value>) -> Option<(&str, &Value)>
    ensures { option_map (λ m. (m.0.now, view m.1.now)) result ≡ sole (members_view members.now.entries) }
{
    let mut all = members.iter();
    let (name, value) = all.next()?;
    if all.next().is_some() {
        return None;
    }
    Some((name.as_str(), value))
}

/// Whether the name is one of the names.
pub fn is_one_of(name: &str, names: &[&str]) -> bool
    ensures { result ≡ is_among (map (λ n. n.now) names.now) name.now }
{
    for n in names {
        if name == *n {
            return true;
        }
    }
    false
}

/// The only member that has none of the names; none where there is no such member or more than one.
#[tactic(auto, unfolding(agg_reading::specs::Json::sole_besides))]
pub fn sole_besides<'v>(
    members: &'v Map<String, Value>,
    names: &[&str],
) -> Option<(&'v str, &'v Value)>
    ensures { option_map (λ m. (m.0.now, view m.1.now)) result
        ≡ sole_besides (map (λ n. n.now) names.now) None (members_view members.now.entries) }
{
    let mut found = None;
    for (key, value) in members {
        if is_one_of(key.as_str(), names) {
            continue;
        }
        if found.is_some() {
            return None;
        }
        found = Some((key.as_str(), value));
    }
    found
}

/// Refuses, with this number, the first member in byte order that has none of the names.
#[tactic(auto, unfolding(agg_reading::specs::Json::known))]
pub fn check_names(
    alloc: Global,
    code: u16,
    at: &At<'_>,
    members: &Map<String, Value>,
    names: &[&str],
) -> Result<(), RequestFault>
    ensures { Gives (λ u. u) result
        (known code (map (λ n. n.now) names.now) (pointer at.now) (members_view members.now.entries)) }
{
    for (key, _) in members {
        if !is_one_of(key.as_str(), names) {
            return At::Member(at, key.as_str()).refuse(alloc, code);
        }
    }
    Ok(())
}
