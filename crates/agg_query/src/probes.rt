//! The values that JSON stands for in a field: what a query, `include`, `exclude` or `missing` asks for.

ghost use Rattle.std.specs.Prelude.{◌≡◌, [], codes};
ghost use Rattle.serde_json.specs.View.{view, items_view, members_view};
ghost use Rattle.json_walk.specs.Places.{pointer};
ghost use Rattle.agg_reading.specs.Reading.{Gives};
ghost use Rattle.agg_reading.specs.Json.{optional};
ghost use Rattle.agg_reading.specs.Leaves.{value_at, values_from, values_at};
ghost use Rattle.agg_reading.specs.Terms.{missing_at};

use agg_model::body_refusal::{LIMIT_EXCEEDED, OUT_OF_RANGE, WRONG_TYPE};
use agg_model::limits::MAX_LIST_VALUES;
use agg_model::{FieldKind, List, Probe, Scalar};
use agg_reading::RequestFault;
use json_walk::{At, list, member, probe_of, stored};
use serde_json::{Map, Value};
use std::alloc::Global;

/// What the value is for a field of this kind; a value that is none for such a field is refused with `OUT_OF_RANGE`.
#[tactic(auto, unfolding(agg_reading::specs::Leaves::value_at))]
pub fn probe(
    alloc: Global,
    kind: FieldKind,
    at: &At<'_>,
    value: &Value,
) -> Result<Probe, RequestFault>
    ensures { Gives (λ p. p) result (value_at kind (pointer at.now) (view value.now)) }
{
    match probe_of(alloc, kind, value)? {
        Some(found) => Ok(found),
        None => at.refuse(alloc, OUT_OF_RANGE),
    }
}

/// The values of the items, for a field of this kind. The first item that is none is refused with `OUT_OF_RANGE`, one
/// beyond `MAX_LIST_VALUES` with `LIMIT_EXCEEDED`, each at its place.
#[tactic(auto, unfolding(agg_reading::specs::Leaves::values_from))]
fn probes(
    alloc: Global,
    kind: FieldKind,
    at: &At<'_>,
    items: &Vec<Value>,
) -> Result<List<Probe>, RequestFault>
    ensures { Gives (λ ps. ps) result (values_from kind (pointer at.now) 0 [] (items_view items.now.items)) }
{
    let mut found = List::new(alloc);
    for (place, item) in items.iter().enumerate() {
        let at = At::Item(at, place);
        if place >= MAX_LIST_VALUES {
            return at.refuse(alloc, LIMIT_EXCEEDED);
        }
        found.push(probe(alloc, kind, &at, item)?)?;
    }
    Ok(found)
}

/// The values of a list, for a field of this kind. A value that is no list is refused with `WRONG_TYPE`, the first item
/// that is none for such a field with `OUT_OF_RANGE`, and an item beyond `MAX_LIST_VALUES` with `LIMIT_EXCEEDED`.
#[tactic(auto, unfolding(agg_reading::specs::Leaves::values_at))]
pub fn probe_list(
    alloc: Global,
    kind: FieldKind,
    at: &At<'_>,
    value: &Value,
) -> Result<List<Probe>, RequestFault>
    ensures { Gives (λ ps. ps) result (values_at kind (pointer at.now) (view value.now)) }
{
    let items = list(alloc, WRONG_TYPE, at, value)?;
    probes(alloc, kind, at, items)
}

/// The values of the list in the member of this name, for a field of this kind; none where the member is absent.
pub fn probe_list_in(
    alloc: Global,
    kind: FieldKind,
    name: &str,
    at: &At<'_>,
    members: &Map<String, Value>,
) -> Result<Option<List<Probe>>, RequestFault>
    ensures { Gives (λ ps. ps) result
        (optional (values_at kind) name.now (pointer at.now) (members_view members.now.entries)) }
{
    match member(members, name) {
        None => Ok(None),
        Some(value) => Ok(Some(probe_list(alloc, kind, &At::Member(at, name), value)?)),
    }
}

/// What the value is in a row, for a field of this kind; refused with `OUT_OF_RANGE` where it is none for such a field,
/// a whole number beyond signed 64 bits, or a date beyond the range of dates.
#[tactic(auto, unfolding(agg_reading::specs::Terms::missing_at))]
pub fn missing(
    alloc: Global,
    kind: FieldKind,
    at: &At<'_>,
    value: &Value,
) -> Result<Scalar, RequestFault>
    ensures { Gives (λ s. s) result (missing_at kind (pointer at.now) (view value.now)) }
{
    match stored(kind, probe(alloc, kind, at, value)?) {
        Some(found) => Ok(found),
        None => at.refuse(alloc, OUT_OF_RANGE),
    }
}

/// The value of the member `missing` in a row, for a field of this kind; none where the member is absent.
pub fn missing_in(
    alloc: Global,
    kind: FieldKind,
    at: &At<'_>,
    members: &Map<String, Value>,
) -> Result<Option<Scalar>, RequestFault>
    ensures { Gives (λ s. s) result
        (optional (missing_at kind) (codes "missing") (pointer at.now) (members_view members.now.entries)) }
{
    match member(members, "missing") {
        None => Ok(None),
        Some(value) => Ok(Some(missing(alloc, kind, &At::Member(at, "missing"), value)?)),
    }
}
