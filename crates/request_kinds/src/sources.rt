//! The sources of a composite aggregation ('Composite aggregation').

ghost use Rattle.std.specs.Prelude.{◌≡◌, [], Some};
ghost use Rattle.serde_json.specs.View.{view, items_view, members_view};
ghost use Rattle.json_walk.specs.Places.{pointer};
ghost use Rattle.agg_reading.specs.Reading.{Gives};
ghost use Rattle.agg_reading.specs.Composite.{source_named, terms_source_at, histogram_source_at, source_by, source_at, source_name_at, sole_of, named_source_at, sources_from, some_sources, sources_at};

use crate::fields::whole_field_in;
use crate::names::check_name;
use crate::orders::direction_in;
use agg_mapping::OrderedMapping;
use agg_model::body_refusal::{
    LIMIT_EXCEEDED, MISSING_MEMBER, NOT_ONE_MEMBER, OUT_OF_RANGE, UNKNOWN_KIND, UNKNOWN_MEMBER,
    WRONG_TYPE,
};
use agg_model::limits::MAX_SOURCES;
use agg_model::{CompositeSource, FieldKind, List, Text};
use agg_query::field_in;
use agg_reading::{RequestFault, SourceName};
use json_walk::{At, check_names, list, object, sole_member, truth_in, whole_in};
use serde_json::{Map, Value};
use std::alloc::Global;

/// A source, and the kind of its field.
pub type Source = (CompositeSource, FieldKind);

/// The kind of source of this name.
#[tactic(auto, unfolding(agg_reading::specs::Composite::source_named))]
fn source_named(name: &str) -> Option<SourceName>
    ensures { result ≡ source_named name.now }
{
    match name {
        "histogram" => Some(SourceName::Histogram),
        "terms" => Some(SourceName::Terms),
        _ => None,
    }
}

/// A source of terms.
#[tactic(auto, unfolding(agg_reading::specs::Composite::terms_source_at))]
fn terms_source(
    alloc: Global,
    mapping: &OrderedMapping<'_>,
    name: &str,
    at: &At<'_>,
    value: &Value,
) -> Result<Source, RequestFault>
    ensures { Gives (λ x. x) result (terms_source_at mapping.now name.now (pointer at.now) (view value.now)) }
{
    let members = object(alloc, WRONG_TYPE, at, value)?;
    check_names(
        alloc,
        UNKNOWN_MEMBER,
        at,
        members,
        &["field", "missing_bucket", "order"],
    )?;
    let (place, field) = field_in(alloc, mapping, at, members)?;
    let missing = truth_in(alloc, "missing_bucket", at, members)?;
    let descending = direction_in(alloc, at, members)?;
    let source = CompositeSource {
        name: Text::of(alloc, name)?,
        field: place,
        interval: None,
        descending: descending.unwrap_or(false),
        missing_bucket: missing.unwrap_or(false),
    };
    Ok((source, field.kind))
}

/// A source of intervals.
#[tactic(auto, unfolding(agg_reading::specs::Composite::histogram_source_at))]
fn histogram_source(
    alloc: Global,
    mapping: &OrderedMapping<'_>,
    name: &str,
    at: &At<'_>,
    value: &Value,
) -> Result<Source, RequestFault>
    ensures { Gives (λ x. x) result (histogram_source_at mapping.now name.now (pointer at.now) (view value.now)) }
{
    let members = object(alloc, WRONG_TYPE, at, value)?;
    check_names(
        alloc,
        UNKNOWN_MEMBER,
        at,
        members,
        &["field", "interval", "missing_bucket", "order"],
    )?;
    let (place, field) = whole_field_in(alloc, mapping, at, members)?;
    let said = whole_in(alloc, 1, 9_223_372_036_854_775_807, "interval", at, members)?;
    let missing = truth_in(alloc, "missing_bucket", at, members)?;
    let descending = direction_in(alloc, at, members)?;
    let Some(interval) = said else {
        return at.refuse(alloc, MISSING_MEMBER);
    };
    let source = CompositeSource {
        name: Text::of(alloc, name)?,
        field: place,
        interval: Some(interval),
        descending: descending.unwrap_or(false),
        missing_bucket: missing.unwrap_or(false),
    };
    Ok((source, field.kind))
}

/// A source of this kind; an unknown kind is refused with `UNKNOWN_KIND` at `at`.
fn source_by(
    alloc: Global,
    kind: Option<SourceName>,
    mapping: &OrderedMapping<'_>,
    name: &str,
    at: &At<'_>,
    value: &Value,
) -> Result<Source, RequestFault>
    ensures { Gives (λ x. x) result (source_by kind mapping.now name.now (pointer at.now) (view value.now)) }
{
    match kind {
        None => at.refuse(alloc, UNKNOWN_KIND),
        Some(SourceName::Terms) => terms_source(alloc, mapping, name, at, value),
        Some(SourceName::Histogram) => histogram_source(alloc, mapping, name, at, value),
    }
}

/// The object under a source's name: its kind, and what is said of it.
#[tactic(auto, unfolding(agg_reading::specs::Composite::source_at, agg_reading::specs::Json::sole_at))]
fn source(
    alloc: Global,
    mapping: &OrderedMapping<'_>,
    name: &str,
    at: &At<'_>,
    value: &Value,
) -> Result<Source, RequestFault>
    ensures { Gives (λ x. x) result (source_at mapping.now name.now (pointer at.now) (view value.now)) }
{
    let members = object(alloc, WRONG_TYPE, at, value)?;
    let Some((kind, said)) = sole_member(members) else {
        return at.refuse(alloc, NOT_ONE_MEMBER);
    };
    let at = At::Member(at, kind);
    source_by(alloc, source_named(kind), mapping, name, &at, said)
}

/// Refuses a source with a bad name; one without a name is left to `named_source`.
fn check_source_name(alloc: Global, at: &At<'_>, value: &Value) -> Result<(), RequestFault>
    ensures { Gives (λ u. u) result (source_name_at (pointer at.now) (sole_of (view value.now))) }
{
    let Value::Object(members) = value else {
        return Ok(());
    };
    match sole_member(members) {
        None => Ok(()),
        Some((name, _)) => check_name(alloc, &At::Member(at, name), name),
    }
}

/// A source: an object of one member, from its name to its kind.
#[tactic(auto, unfolding(agg_reading::specs::Composite::named_source_at, agg_reading::specs::Json::sole_at))]
fn named_source(
    alloc: Global,
    mapping: &OrderedMapping<'_>,
    at: &At<'_>,
    value: &Value,
) -> Result<Source, RequestFault>
    ensures { Gives (λ x. x) result (named_source_at mapping.now (pointer at.now) (view value.now)) }
{
    let members = object(alloc, WRONG_TYPE, at, value)?;
    let Some((name, said)) = sole_member(members) else {
        return at.refuse(alloc, NOT_ONE_MEMBER);
    };
    source(alloc, mapping, name, &At::Member(at, name), said)
}

/// The sources of the items. One beyond `MAX_SOURCES` is refused with `LIMIT_EXCEEDED` at its place.
#[tactic(auto, unfolding(agg_reading::specs::Composite::sources_from))]
fn source_list(
    alloc: Global,
    mapping: &OrderedMapping<'_>,
    at: &At<'_>,
    items: &Vec<Value>,
) -> Result<List<Source>, RequestFault>
    ensures { Gives (λ x. x) result (sources_from mapping.now (pointer at.now) 0 [] (items_view items.now.items)) }
{
    let mut sources = List::new(alloc);
    for (place, item) in items.iter().enumerate() {
        let at = At::Item(at, place);
        check_source_name(alloc, &at, item)?;
        if place >= MAX_SOURCES {
            return at.refuse(alloc, LIMIT_EXCEEDED);
        }
        sources.push(named_source(alloc, mapping, &at, item)?)?;
    }
    Ok(sources)
}

/// The sources of a list, which is refused with `OUT_OF_RANGE` where it is empty.
fn some_sources(
    alloc: Global,
    mapping: &OrderedMapping<'_>,
    at: &At<'_>,
    items: &Vec<Value>,
) -> Result<List<Source>, RequestFault>
    ensures { Gives (λ x. x) result (some_sources mapping.now (pointer at.now) (items_view items.now.items)) }
{
    if items.is_empty() {
        return at.refuse(alloc, OUT_OF_RANGE);
    }
    source_list(alloc, mapping, at, items)
}

/// A list of 1 to `MAX_SOURCES` sources.
#[tactic(auto, unfolding(agg_reading::specs::Composite::sources_at))]
pub fn sources(
    alloc: Global,
    mapping: &OrderedMapping<'_>,
    at: &At<'_>,
    value: &Value,
) -> Result<List<Source>, RequestFault>
    ensures { Gives (λ x. x) result (sources_at mapping.now (pointer at.now) (view value.now)) }
{
    let items = list(alloc, WRONG_TYPE, at, value)?;
    some_sources(alloc, mapping, at, items)
}
