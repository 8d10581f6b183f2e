//! The kind `filters` ('Filters aggregation').

ghost use Rattle.std.specs.Prelude.{◌≡◌, ◌≤◌, [], IfOk, IfSome, codes, option_copied};
ghost use Rattle.serde_json.specs.Data.{array, object};
ghost use Rattle.serde_json.specs.View.{view, items_view, members_view};
ghost use Rattle.json_walk.specs.Places.{pointer};
ghost use Rattle.agg_reading.specs.Reading.{Gives};
ghost use Rattle.agg_reading.specs.Json.{optional, is_among};
ghost use Rattle.agg_reading.specs.Filters.{listed_from, named_from, filter_list_at, is_taken, free_key, other_of, filters_in, filters_at};

use crate::names::check_name;
use crate::numbers::text_in;
use agg_mapping::OrderedMapping;
use agg_model::body_refusal::{
    LIMIT_EXCEEDED, MISSING_MEMBER, OUT_OF_RANGE, UNKNOWN_MEMBER, WRONG_TYPE,
};
use agg_model::limits::{MAX_FILTERS, MAX_QUERIES};
use agg_model::{Kind, List, Query, Text};
use agg_query::counted_query_at;
use agg_reading::RequestFault;
use json_walk::{At, check_names, member, object, truth_in};
use serde_json::{Map, Value};
use std::alloc::Global;

/// The names of filters, where they have names, the filters, and how many queries of the search were begun up to the
/// last of them.
type FilterList = (Option<List<Text>>, List<Query>, u32);

/// The filters of the items, over rows of this context, where so many queries were begun before.
#[tactic(auto, unfolding(agg_reading::specs::Filters::listed_from))]
fn listed(
    alloc: Global,
    mapping: &OrderedMapping<'_>,
    context: u32,
    before: u32,
    at: &At<'_>,
    items: &Vec<Value>,
) -> Result<(List<Query>, u32), RequestFault>
    requires count { before ≤ MAX_QUERIES }
    ensures value { Gives (λ x. x) result
        (listed_from mapping.now context (pointer at.now) 0 [] before (items_view items.now.items)) }
    ensures count { IfOk result (λ x. x.1 ≤ MAX_QUERIES) }
{
    let mut filters = List::new(alloc);
    let mut count = before;
    for (place, item) in items.iter().enumerate() {
        let at = At::Item(&*at, place);
        if place >= MAX_FILTERS {
            return at.refuse(alloc, LIMIT_EXCEEDED);
        }
        let (query, after) = counted_query_at(alloc, mapping, context, count, &at, item)?;
        filters.push(query)?;
        count = after;
    }
    Ok((filters, count))
}

/// The names and filters of the members, likewise.
#[tactic(auto, unfolding(agg_reading::specs::Filters::named_from))]
fn named(
    alloc: Global,
    mapping: &OrderedMapping<'_>,
    context: u32,
    before: u32,
    at: &At<'_>,
    members: &Map<String, Value>,
) -> Result<(List<Text>, List<Query>, u32), RequestFault>
    requires count { before ≤ MAX_QUERIES }
    ensures value { Gives (λ x. x) result
        (named_from mapping.now context (pointer at.now) [] [] before (members_view members.now.entries)) }
    ensures count { IfOk result (λ x. x.2 ≤ MAX_QUERIES) }
{
    let mut names = List::new(alloc);
    let mut filters = List::new(alloc);
    let mut count = before;
    for (name, value) in members {
        let at = At::Member(&*at, name.as_str());
        check_name(alloc, &at, name.as_str())?;
        if names.len() >= MAX_FILTERS {
            return at.refuse(alloc, LIMIT_EXCEEDED);
        }
        let (query, after) = counted_query_at(alloc, mapping, context, count, &at, value)?;
        names.push(Text::of(alloc, name.as_str())?)?;
        filters.push(query)?;
        count = after;
    }
    Ok((names, filters, count))
}

/// A list of filters, which is refused with `OUT_OF_RANGE` where it is empty.
fn filter_items(
    alloc: Global,
    mapping: &OrderedMapping<'_>,
    context: u32,
    before: u32,
    at: &At<'_>,
    items: &Vec<Value>,
) -> Result<FilterList, RequestFault>
    requires count { before ≤ MAX_QUERIES }
    ensures value { Gives (λ x. x) result (filter_list_at mapping.now context before (pointer at.now) (array (items_view items.now.items))) }
    ensures count { IfOk result (λ x. x.2 ≤ MAX_QUERIES) }
{
    if items.is_empty() {
        return at.refuse(alloc, OUT_OF_RANGE);
    }
    let (filters, count) = listed(alloc, mapping, context, before, at, items)?;
    Ok((None, filters, count))
}

/// An object of filters, which is refused with `OUT_OF_RANGE` where it is empty.
fn filter_members(
    alloc: Global,
    mapping: &OrderedMapping<'_>,
    context: u32,
    before: u32,
    at: &At<'_>,
    members: &Map<String, Value>,
) -> Result<FilterList, RequestFault>
    requires count { before ≤ MAX_QUERIES }
    ensures value { Gives (λ x. x) result (filter_list_at mapping.now context before (pointer at.now) (object (members_view members.now.entries))) }
    ensures count { IfOk result (λ x. x.2 ≤ MAX_QUERIES) }
{
    if members.is_empty() {
        return at.refuse(alloc, OUT_OF_RANGE);
    }
    let (names, filters, count) = named(alloc, mapping, context, before, at, members)?;
    Ok((Some(names), filters, count))
}

/// An object or list of 1 to `MAX_FILTERS` filters; any other value is refused with `WRONG_TYPE`.
#[tactic(auto, unfolding(agg_reading::specs::Filters::filter_list_at))]
fn filter_list(
    alloc: Global,
    mapping: &OrderedMapping<'_>,
    context: u32,
    before: u32,
    at: &At<'_>,
    value: &Value,
) -> Result<FilterList, RequestFault>
    requires count { before ≤ MAX_QUERIES }
    ensures value { Gives (λ x. x) result (filter_list_at mapping.now context before (pointer at.now) (view value.now)) }
    ensures count { IfOk result (λ x. x.2 ≤ MAX_QUERIES) }
{
    match value {
        Value::Array(items) => filter_items(alloc, mapping, context, before, at, items),
        Value::Object(members) => filter_members(alloc, mapping, context, before, at, members),
        _ => at.refuse(alloc, WRONG_TYPE),
    }
}

/// The filters in the member `filters`; none where it is absent.
fn filter_list_in(
    alloc: Global,
    mapping: &OrderedMapping<'_>,
    context: u32,
    before: u32,
    at: &At<'_>,
    members: &Map<String, Value>,
) -> Result<Option<FilterList>, RequestFault>
    requires count { before ≤ MAX_QUERIES }
    ensures value { Gives (λ x. x) result
        (optional (filter_list_at mapping.now context before) (codes "filters") (pointer at.now) (members_view members.now.entries)) }
    ensures count { IfOk result (λ o. IfSome o (λ x. x.2 ≤ MAX_QUERIES)) }
{
    match member(members, "filters") {
        None => Ok(None),
        Some(value) => {
            let at = At::Member(at, "filters");
            Ok(Some(filter_list(alloc, mapping, context, before, &at, value)?))
        }
    }
}

/// Whether a filter has this name.
fn is_taken(names: &Option<List<Text>>, key: &str) -> bool
    ensures { result ≡ is_taken names.now key.now }
{
    match names {
        None => false,
        Some(names) => is_among(names.as_slice(), key),
    }
}

/// Whether a text is one of the texts.
fn is_among(texts: &[Text], text: &str) -> bool
    ensures { result ≡ is_among texts.now text.now }
{
    for other in texts {
        if text == other.as_str() {
            return true;
        }
    }
    false
}

/// A key of the other bucket, which is refused with `OUT_OF_RANGE` where a filter has it.
fn free_key(
    alloc: Global,
    at: &At<'_>,
    names: &Option<List<Text>>,
    key: &str,
) -> Result<Option<Text>, RequestFault>
    ensures { Gives (λ k. k) result (free_key (pointer at.now) names.now key.now) }
{
    if is_taken(names, key) {
        return At::Member(at, "other_bucket_key").refuse(alloc, OUT_OF_RANGE);
    }
    Ok(Some(Text::of(alloc, key)?))
}

/// The key of the other bucket; none where it is off. A key switches it on.
#[tactic(auto, unfolding(agg_reading::specs::Filters::other_of))]
fn other_key(
    alloc: Global,
    at: &At<'_>,
    names: &Option<List<Text>>,
    on: Option<bool>,
    key: Option<&str>,
) -> Result<Option<Text>, RequestFault>
    ensures { Gives (λ k. k) result (other_of (pointer at.now) names.now on (option_copied key.entry)) }
{
    match key {
        Some(key) => free_key(alloc, at, names, key),
        None if on.unwrap_or(false) => free_key(alloc, at, names, "_other_"),
        None => Ok(None),
    }
}

/// The kind from its members.
#[tactic(auto, unfolding(agg_reading::specs::Filters::filters_in))]
fn filters_from(
    alloc: Global,
    mapping: &OrderedMapping<'_>,
    context: u32,
    before: u32,
    at: &At<'_>,
    members: &Map<String, Value>,
) -> Result<(Kind, u32), RequestFault>
    requires count { before ≤ MAX_QUERIES }
    ensures value { Gives (λ x. x) result (filters_in mapping.now context before (pointer at.now) (members_view members.now.entries)) }
    ensures count { IfOk result (λ x. x.1 ≤ MAX_QUERIES) }
{
    let said = filter_list_in(alloc, mapping, context, before, at, members)?;
    let on = truth_in(alloc, "other_bucket", at, members)?;
    let key = text_in(alloc, "other_bucket_key", at, members)?;
    let Some((names, filters, count)) = said else {
        return at.refuse(alloc, MISSING_MEMBER);
    };
    let other = other_key(alloc, at, &names, on, key)?;
    let kind = Kind::Filters {
        names,
        filters,
        other,
    };
    Ok((kind, count))
}

/// The kind `filters`, and how many queries of the search were begun up to its end, where so many were begun before.
#[tactic(auto, unfolding(agg_reading::specs::Filters::filters_at))]
pub fn filters(
    alloc: Global,
    mapping: &OrderedMapping<'_>,
    context: u32,
    before: u32,
    at: &At<'_>,
    value: &Value,
) -> Result<(Kind, u32), RequestFault>
    requires count { before ≤ MAX_QUERIES }
    ensures value { Gives (λ x. x) result (filters_at mapping.now context before (pointer at.now) (view value.now)) }
    ensures count { IfOk result (λ x. x.1 ≤ MAX_QUERIES) }
{
    let members = object(alloc, WRONG_TYPE, at, value)?;
    check_names(
        alloc,
        UNKNOWN_MEMBER,
        at,
        members,
        &["filters", "other_bucket", "other_bucket_key"],
    )?;
    filters_from(alloc, mapping, context, before, at, members)
}
