//! A kind by its name.

ghost use Rattle.std.specs.Prelude.{◌≡◌, ◌≤◌, [], IfOk};
ghost use Rattle.serde_json.specs.View.{view};
ghost use Rattle.json_walk.specs.Places.{pointer};
ghost use Rattle.agg_reading.specs.Reading.{Gives};
ghost use Rattle.agg_reading.specs.Aggregations.{kind_name, kind_at};

use crate::composite::composite;
use crate::date_histogram::date_histogram;
use crate::filters::filters;
use crate::histogram::histogram;
use crate::metrics::{
    any_metric, extreme, global, missing, nested_context, number_metric, outer_context,
};
use crate::terms::terms;
use agg_mapping::OrderedMapping;
use agg_model::limits::MAX_QUERIES;
use agg_model::{Kind, List};
use agg_query::counted_query_at;
use agg_reading::{KindName, NamedOrder, ReadKind, RequestFault};
use json_walk::At;
use serde_json::Value;
use std::alloc::Global;

/// The kind of this name.
#[tactic(auto, unfolding(agg_reading::specs::Aggregations::kind_name))]
pub fn kind_name(name: &str) -> Option<KindName>
    ensures { result ≡ kind_name name.now }
{
    match name {
        "avg" => Some(KindName::Avg),
        "composite" => Some(KindName::Composite),
        "date_histogram" => Some(KindName::DateHistogram),
        "filter" => Some(KindName::Filter),
        "filters" => Some(KindName::Filters),
        "global" => Some(KindName::Global),
        "histogram" => Some(KindName::Histogram),
        "max" => Some(KindName::Max),
        "min" => Some(KindName::Min),
        "missing" => Some(KindName::Missing),
        "nested" => Some(KindName::Nested),
        "reverse_nested" => Some(KindName::ReverseNested),
        "sum" => Some(KindName::Sum),
        "terms" => Some(KindName::Terms),
        "value_count" => Some(KindName::ValueCount),
        _ => None,
    }
}

/// A kind without orders.
fn plain(alloc: Global, within: u32, queries: u32, kind: Kind) -> ReadKind
    ensures { result ≡ record { kind = kind; order = []; within = within; queries = queries } }
{
    ReadKind {
        kind,
        order: List::new(alloc),
        within,
        queries,
    }
}

/// A kind with its orders as written.
fn ordered(within: u32, queries: u32, kind: Kind, order: List<NamedOrder>) -> ReadKind
    ensures { result ≡ record { kind = kind; order = order; within = within; queries = queries } }
{
    ReadKind {
        kind,
        order,
        within,
        queries,
    }
}

/// What stands under the name of a kind: the kind, over rows of this context, and how many queries of the search were
/// begun up to its end, where so many were begun before. Refused with the pointer of the first thing that breaks a rule.
#[tactic(auto, unfolding(agg_reading::specs::Aggregations::kind_at))]
pub fn kind_at(
    alloc: Global,
    name: KindName,
    mapping: &OrderedMapping<'_>,
    context: u32,
    before: u32,
    at: &At<'_>,
    value: &Value,
) -> Result<ReadKind, RequestFault>
    requires count { before ≤ MAX_QUERIES }
    ensures value { Gives (λ k. k) result (kind_at name mapping.now context before (pointer at.now) (view value.now)) }
    ensures count { IfOk result (λ k. k.queries ≤ MAX_QUERIES) }
{
    match name {
        KindName::Terms => {
            let (kind, order) = terms(alloc, mapping, at, value)?;
            Ok(ordered(context, before, kind, order))
        }
        KindName::Histogram => {
            let (kind, order) = histogram(alloc, mapping, at, value)?;
            Ok(ordered(context, before, kind, order))
        }
        KindName::DateHistogram => {
            let (kind, order) = date_histogram(alloc, mapping, at, value)?;
            Ok(ordered(context, before, kind, order))
        }
        KindName::Filters => {
            let (kind, count) = filters(alloc, mapping, context, before, at, value)?;
            Ok(plain(alloc, context, count, kind))
        }
        KindName::Filter => {
            let (query, count) = counted_query_at(alloc, mapping, context, before, at, value)?;
            Ok(plain(alloc, context, count, Kind::Filter { query }))
        }
        KindName::Missing => {
            let kind = missing(alloc, mapping, at, value)?;
            Ok(plain(alloc, context, before, kind))
        }
        KindName::Global => {
            let kind = global(alloc, at, value)?;
            Ok(plain(alloc, 0, before, kind))
        }
        KindName::Nested => {
            let inner = nested_context(alloc, mapping, context, at, value)?;
            Ok(plain(alloc, inner, before, Kind::Nested { context: inner }))
        }
        KindName::ReverseNested => {
            let outer = outer_context(alloc, mapping, context, at, value)?;
            Ok(plain(alloc, outer, before, Kind::ReverseNested { context: outer }))
        }
        KindName::Composite => {
            let kind = composite(alloc, mapping, at, value)?;
            Ok(plain(alloc, context, before, kind))
        }
        KindName::Sum => {
            let (field, missing) = number_metric(alloc, mapping, at, value)?;
            Ok(plain(alloc, context, before, Kind::Sum { field, missing }))
        }
        KindName::Min => {
            let (field, missing) = extreme(alloc, mapping, at, value)?;
            Ok(plain(alloc, context, before, Kind::Min { field, missing }))
        }
        KindName::Max => {
            let (field, missing) = extreme(alloc, mapping, at, value)?;
            Ok(plain(alloc, context, before, Kind::Max { field, missing }))
        }
        KindName::Avg => {
            let (field, missing) = number_metric(alloc, mapping, at, value)?;
            Ok(plain(alloc, context, before, Kind::Avg { field, missing }))
        }
        KindName::ValueCount => {
            let (field, missing) = any_metric(alloc, mapping, at, value)?;
            Ok(plain(alloc, context, before, Kind::ValueCount { field, missing }))
        }
    }
}
