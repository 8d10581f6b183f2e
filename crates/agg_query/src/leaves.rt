//! The queries that hold no other ('Query DSL': term-level queries).

ghost use Rattle.std.specs.Prelude.{◌≡◌, ◌∷◌, [], None, codes};
ghost use Rattle.serde_json.specs.View.{view, items_view, members_view};
ghost use Rattle.json_walk.specs.Places.{pointer};
ghost use Rattle.agg_reading.specs.Reading.{Gives, or_refuse};
ghost use Rattle.agg_reading.specs.Json.{sole_besides};
ghost use Rattle.agg_reading.specs.Leaves.{about, match_all_at, boxed_value, term_value, term_at, terms_at, test_at, tests_at, range_at, exists_at, ids_from, ids_at};

use crate::fields::{field, field_in};
use crate::probes::{probe, probe_list};
use agg_mapping::OrderedMapping;
use agg_model::body_refusal::{
    LIMIT_EXCEEDED, NO_SUCH_FIELD, NOT_ONE_MEMBER, UNKNOWN_MEMBER, WRONG_TYPE,
};
use agg_model::limits::MAX_LIST_VALUES;
use agg_model::{FieldKind, List, Probe, Query, RangeOp, RangeTest, Text};
use agg_reading::RequestFault;
use json_walk::{At, check_names, list, member, object, required, sole_besides, text};
use serde_json::{Map, Value};
use std::alloc::Global;

/// The only member beside `boost`; the object is refused with `NOT_ONE_MEMBER` where there is no such member or more
/// than one.
fn sole_subject<'v>(
    alloc: Global,
    at: &At<'_>,
    members: &'v Map<String, Value>,
) -> Result<(&'v str, &'v Value), RequestFault>
    ensures { Gives (λ x. (x.0.now, view x.1.now)) result
        (or_refuse NOT_ONE_MEMBER (pointer at.now) (sole_besides (codes "boost" ∷ []) None (members_view members.now.entries))) }
{
    let Some((path, said)) = sole_besides(members, &["boost"]) else {
        return at.refuse(alloc, NOT_ONE_MEMBER);
    };
    Ok((path, said))
}

/// The one field that an object names beside `boost`, and what is said of it.
#[tactic(auto, unfolding(agg_reading::specs::Leaves::about))]
fn subject<'v>(
    alloc: Global,
    at: &At<'_>,
    value: &'v Value,
) -> Result<(&'v str, &'v Value), RequestFault>
    ensures { Gives (λ x. (x.0.now, view x.1.now)) result (about (pointer at.now) (view value.now)) }
{
    let members = object(alloc, WRONG_TYPE, at, value)?;
    sole_subject(alloc, at, members)
}

/// `match_all`.
#[tactic(auto, unfolding(agg_reading::specs::Leaves::match_all_at))]
pub fn match_all(alloc: Global, at: &At<'_>, value: &Value) -> Result<Query, RequestFault>
    ensures { Gives (λ q. q) result (match_all_at (pointer at.now) (view value.now)) }
{
    let members = object(alloc, WRONG_TYPE, at, value)?;
    check_names(alloc, UNKNOWN_MEMBER, at, members, &["boost"])?;
    Ok(Query::All)
}

/// The value of a term in an object of its own.
#[tactic(auto, unfolding(agg_reading::specs::Leaves::boxed_value))]
fn boxed_value(
    alloc: Global,
    kind: FieldKind,
    at: &At<'_>,
    members: &Map<String, Value>,
) -> Result<Probe, RequestFault>
    ensures { Gives (λ p. p) result (boxed_value kind (pointer at.now) (members_view members.now.entries)) }
{
    check_names(alloc, UNKNOWN_MEMBER, at, members, &["boost", "value"])?;
    let value = required(alloc, at, members, "value")?;
    probe(alloc, kind, &At::Member(at, "value"), value)
}

/// The value of a term, as it stands or in an object of its own.
fn term_value(
    alloc: Global,
    kind: FieldKind,
    at: &At<'_>,
    value: &Value,
) -> Result<Probe, RequestFault>
    ensures { Gives (λ p. p) result (term_value kind (pointer at.now) (view value.now)) }
{
    match value {
        Value::Object(members) => boxed_value(alloc, kind, at, members),
        _ => probe(alloc, kind, at, value),
    }
}

/// `term`: one value of a field.
#[tactic(auto, unfolding(agg_reading::specs::Leaves::term_at))]
pub fn term(
    alloc: Global,
    mapping: &OrderedMapping<'_>,
    at: &At<'_>,
    value: &Value,
) -> Result<Query, RequestFault>
    ensures { Gives (λ q. q) result (term_at mapping.now (pointer at.now) (view value.now)) }
{
    let (path, said) = subject(alloc, at, value)?;
    let at = At::Member(at, path);
    let (place, field) = field(alloc, mapping, &at, path)?;
    Ok(Query::Term {
        field: place,
        value: term_value(alloc, field.kind, &at, said)?,
    })
}

/// `terms`: a list of at most `MAX_LIST_VALUES` values of a field.
#[tactic(auto, unfolding(agg_reading::specs::Leaves::terms_at))]
pub fn terms(
    alloc: Global,
    mapping: &OrderedMapping<'_>,
    at: &At<'_>,
    value: &Value,
) -> Result<Query, RequestFault>
    ensures { Gives (λ q. q) result (terms_at mapping.now (pointer at.now) (view value.now)) }
{
    let (path, said) = subject(alloc, at, value)?;
    let at = At::Member(at, path);
    let (place, field) = field(alloc, mapping, &at, path)?;
    Ok(Query::Terms {
        field: place,
        values: probe_list(alloc, field.kind, &at, said)?,
    })
}

/// One more test of a range after those before, from the member of this name; `null` is absent.
#[tactic(auto, unfolding(agg_reading::specs::Leaves::test_at))]
fn add_test(
    alloc: Global,
    op: RangeOp,
    name: &str,
    kind: FieldKind,
    at: &At<'_>,
    tests: &mut List<RangeTest>,
    members: &Map<String, Value>,
) -> Result<(), RequestFault>
    ensures { Gives (λ _. tests.new) result
        (test_at op name.now kind (pointer at.now) tests.old (members_view members.now.entries)) }
{
    match member(members, name) {
        None | Some(Value::Null) => Ok(()),
        Some(found) => {
            let value = probe(alloc, kind, &At::Member(at, name), found)?;
            tests.push(RangeTest { op, value })?;
            Ok(())
        }
    }
}

/// The tests of a range, in the order gt, gte, lt, lte.
#[tactic(auto, unfolding(agg_reading::specs::Leaves::tests_at))]
fn tests(
    alloc: Global,
    kind: FieldKind,
    at: &At<'_>,
    value: &Value,
) -> Result<List<RangeTest>, RequestFault>
    ensures { Gives (λ ts. ts) result (tests_at kind (pointer at.now) (view value.now)) }
{
    let members = object(alloc, WRONG_TYPE, at, value)?;
    check_names(
        alloc,
        UNKNOWN_MEMBER,
        at,
        members,
        &["boost", "gt", "gte", "lt", "lte"],
    )?;
    let mut tests = List::new(alloc);
    add_test(alloc, RangeOp::Gt, "gt", kind, at, &mut tests, members)?;
    add_test(alloc, RangeOp::Gte, "gte", kind, at, &mut tests, members)?;
    add_test(alloc, RangeOp::Lt, "lt", kind, at, &mut tests, members)?;
    add_test(alloc, RangeOp::Lte, "lte", kind, at, &mut tests, members)?;
    Ok(tests)
}

/// `range`: tests of a field of whole numbers, dates or keywords; one of booleans is refused with `NO_SUCH_FIELD`.
#[tactic(auto, unfolding(agg_reading::specs::Leaves::range_at))]
pub fn range(
    alloc: Global,
    mapping: &OrderedMapping<'_>,
    at: &At<'_>,
    value: &Value,
) -> Result<Query, RequestFault>
    ensures { Gives (λ q. q) result (range_at mapping.now (pointer at.now) (view value.now)) }
{
    let (path, said) = subject(alloc, at, value)?;
    let field_at = At::Member(at, path);
    let (place, field) = field(alloc, mapping, &field_at, path)?;
    match field.kind {
        FieldKind::Boolean => field_at.refuse(alloc, NO_SUCH_FIELD),
        FieldKind::Long
        | FieldKind::Integer
        | FieldKind::Short
        | FieldKind::Byte
        | FieldKind::Keyword
        | FieldKind::Date => Ok(Query::Range {
            field: place,
            tests: tests(alloc, field.kind, &field_at, said)?,
        }),
    }
}

/// `exists`: a field that has a value.
#[tactic(auto, unfolding(agg_reading::specs::Leaves::exists_at))]
pub fn exists(
    alloc: Global,
    mapping: &OrderedMapping<'_>,
    at: &At<'_>,
    value: &Value,
) -> Result<Query, RequestFault>
    ensures { Gives (λ q. q) result (exists_at mapping.now (pointer at.now) (view value.now)) }
{
    let members = object(alloc, WRONG_TYPE, at, value)?;
    check_names(alloc, UNKNOWN_MEMBER, at, members, &["boost", "field"])?;
    let (place, _) = field_in(alloc, mapping, at, members)?;
    Ok(Query::Exists { field: place })
}

/// The ids of the items. The first item that is no text is refused with `WRONG_TYPE`, one beyond `MAX_LIST_VALUES` with
/// `LIMIT_EXCEEDED`, each at its place.
#[tactic(auto, unfolding(agg_reading::specs::Leaves::ids_from))]
fn id_list(alloc: Global, at: &At<'_>, items: &Vec<Value>) -> Result<List<Text>, RequestFault>
    ensures { Gives (λ ids. ids) result (ids_from (pointer at.now) 0 [] (items_view items.now.items)) }
{
    let mut ids = List::new(alloc);
    for (place, item) in items.iter().enumerate() {
        let at = At::Item(at, place);
        if place >= MAX_LIST_VALUES {
            return at.refuse(alloc, LIMIT_EXCEEDED);
        }
        let id = text(alloc, WRONG_TYPE, &at, item)?;
        ids.push(Text::of(alloc, id)?)?;
    }
    Ok(ids)
}

/// `ids`: a list of at most `MAX_LIST_VALUES` ids of documents.
#[tactic(auto, unfolding(agg_reading::specs::Leaves::ids_at))]
pub fn ids(alloc: Global, at: &At<'_>, value: &Value) -> Result<Query, RequestFault>
    ensures { Gives (λ q. q) result (ids_at (pointer at.now) (view value.now)) }
{
    let members = object(alloc, WRONG_TYPE, at, value)?;
    check_names(alloc, UNKNOWN_MEMBER, at, members, &["boost", "values"])?;
    let said = required(alloc, at, members, "values")?;
    let at = At::Member(at, "values");
    let items = list(alloc, WRONG_TYPE, &at, said)?;
    Ok(Query::Ids {
        values: id_list(alloc, &at, items)?,
    })
}
