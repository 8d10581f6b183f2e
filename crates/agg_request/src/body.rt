//! The body of a search ('Search API').

ghost use Rattle.std.specs.Prelude.{◌≡◌, ◌≤◌, codes};
ghost use Rattle.serde_json.specs.Find.{get_member};
ghost use Rattle.serde_json.specs.View.{view, members_view};
ghost use Rattle.agg_reading.specs.Reading.{Gives};
ghost use Rattle.agg_reading.specs.Request.{query_or_all, search_in, search_value_at, search_of};
ghost use Rattle.agg_model.specs.MappingOrder.{IsOrdered};

use crate::parts::has_both;
use crate::tree::aggregations_in;
use agg_mapping::OrderedMapping;
use agg_model::body_refusal::{BODY_NOT_OBJECT, NOT_ONE_MEMBER, UNKNOWN_MEMBER};
use agg_model::limits::MAX_QUERIES;
use agg_model::{Mapping, Query, Search};
use agg_query::counted_query_at;
use agg_reading::RequestFault;
use json_walk::{At, check_names, json, member, object, truth_in};
use request_pipes::{Around, fitted_pipes};
use serde_json::{Map, Value};
use std::alloc::Global;

/// The query of the search, where so many were begun before it; `match_all` where it is absent.
fn query_or_all(
    alloc: Global,
    mapping: &OrderedMapping<'_>,
    before: u32,
    members: &Map<String, Value>,
) -> Result<Query, RequestFault>
    requires count { before ≤ MAX_QUERIES }
    ensures { Gives (λ q. q) result (query_or_all mapping.now before (get_member (codes "query") (members_view members.now.entries))) }
{
    match member(members, "query") {
        None => Ok(Query::All),
        Some(value) => {
            let at = At::Start("");
            let at = At::Member(&at, "query");
            let (query, _) = counted_query_at(alloc, mapping, 0, before, &at, value)?;
            Ok(query)
        }
    }
}

/// The search of the members, whose body has so many bytes.
#[tactic(auto, unfolding(agg_reading::specs::Request::search_in))]
fn search_in(
    alloc: Global,
    mapping: &OrderedMapping<'_>,
    body_bytes: u64,
    members: &Map<String, Value>,
) -> Result<Search, RequestFault>
    ensures { Gives (λ s. s) result (search_in mapping.now body_bytes (members_view members.now.entries)) }
{
    let (found, counts) = aggregations_in(alloc, mapping, &At::Start(""), members)?;
    let partial = truth_in(
        alloc,
        "allow_partial_search_results",
        &At::Start(""),
        members,
    )?;
    let query = query_or_all(alloc, mapping, counts.queries, members)?;
    let pipes = fitted_pipes(alloc, Around::Other, found.aggs.as_slice(), &found.pipes)?;
    Ok(Search {
        query,
        aggs: found.aggs,
        body_bytes,
        partial: partial.unwrap_or(false),
        pipes,
    })
}

/// The search that a value is.
#[tactic(auto, unfolding(agg_reading::specs::Request::search_value_at))]
fn search_value(
    alloc: Global,
    mapping: &OrderedMapping<'_>,
    body_bytes: u64,
    value: &Value,
) -> Result<Search, RequestFault>
    ensures { Gives (λ s. s) result (search_value_at mapping.now body_bytes (view value.now)) }
{
    let at = At::Start("");
    let members = object(alloc, BODY_NOT_OBJECT, &at, value)?;
    if has_both(members) {
        return at.refuse(alloc, NOT_ONE_MEMBER);
    }
    check_names(
        alloc,
        UNKNOWN_MEMBER,
        &at,
        members,
        &[
            "_source",
            "aggregations",
            "aggs",
            "allow_partial_search_results",
            "docvalue_fields",
            "explain",
            "fields",
            "from",
            "query",
            "seq_no_primary_term",
            "size",
            "sort",
            "stored_fields",
            "timeout",
            "track_scores",
            "track_total_hits",
            "version",
        ],
    )?;
    search_in(alloc, mapping, body_bytes, members)
}

/// The search that the bytes of a body are: `aggs` or `aggregations`, `allow_partial_search_results`, and `query`. Bytes
/// that `serde_json` does not read are `NotJson`. Else the first thing in the walk that breaks a rule is refused with its
/// number in `agg_model::body_refusal` and its pointer.
#[tactic(auto, unfolding(agg_reading::specs::Request::search_of))]
pub fn search_of(alloc: Global, body: &[u8], mapping: &Mapping) -> Result<Search, RequestFault>
    requires { IsOrdered mapping.now }
    ensures { Gives (λ s. s) result (search_of mapping.now body.now) }
{
    let value = json(alloc, body)?;
    search_value(
        alloc,
        &OrderedMapping::of(mapping),
        body.len() as u64,
        &value,
    )
}
