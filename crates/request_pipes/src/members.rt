//! What pipelines say, as written ('Pipeline aggregations', 'Bucket sort aggregation').
ghost use Rattle.std.specs.Prelude.{◌≡◌, [], IfOk, codes};
ghost use Rattle.serde_json.specs.View.{items_view, members_view, view};
ghost use Rattle.json_walk.specs.Places.{pointer};
ghost use Rattle.agg_reading.specs.Json.{optional};
ghost use Rattle.agg_reading.specs.Pipelines.{bucket_sort_at, path_at, pipe_kind_at, pipe_name, sort_order_at, sort_orders_at, sort_orders_from};
ghost use Rattle.agg_reading.specs.Reading.{Gives};

use agg_model::body_refusal::{NOT_ONE_MEMBER, OUT_OF_RANGE, UNKNOWN_MEMBER, WRONG_TYPE};
use agg_model::limits::{MAX_ORDERS, MAX_SIZE};
use agg_model::{List, Text};
use agg_reading::{NamedOrder, NamedPath, PipeName, ReadPipeKind, RequestFault};
use json_walk::{At, check_names, list, member, object, required, sole_member, text};
use request_kinds::{direction, small_in};
use serde_json::{Map, Value};
use std::alloc::Global;

/// The pipeline of this name.
#[tactic(auto, unfolding(agg_reading::specs::Pipelines::pipe_name))]
pub fn pipe_name(name: &str) -> Option<PipeName>
    ensures { result ≡ pipe_name name.now }
{
    match name {
        "bucket_sort" => Some(PipeName::BucketSort),
        "cumulative_sum" => Some(PipeName::CumulativeSum),
        "derivative" => Some(PipeName::Derivative),
        "max_bucket" => Some(PipeName::MaxBucket),
        "min_bucket" => Some(PipeName::MinBucket),
        "sum_bucket" => Some(PipeName::SumBucket),
        _ => None,
    }
}

/// The path in an object whose one member is `buckets_path`. It keeps its pointer, since it is looked up later.
#[tactic(auto, unfolding(agg_reading::specs::Pipelines::path_at))]
fn path_at(alloc: Global, at: &At<'_>, value: &Value) -> Result<NamedPath, RequestFault>
    ensures { Gives (λ p. p) result (path_at (pointer at.now) (view value.now)) }
{
    let members = object(alloc, WRONG_TYPE, at, value)?;
    check_names(alloc, UNKNOWN_MEMBER, at, members, &["buckets_path"])?;
    let said = required(alloc, at, members, "buckets_path")?;
    let at = At::Member(at, "buckets_path");
    let path = text(alloc, WRONG_TYPE, &at, said)?;
    Ok(NamedPath {
        path: Text::of(alloc, path)?,
        at: at.text(alloc)?,
    })
}

/// An order of `sort`: an object of one member, from a path to an object whose one member is the direction.
#[tactic(auto, unfolding(agg_reading::specs::Pipelines::sort_order_at, agg_reading::specs::Json::sole_at))]
fn sort_order(
    alloc: Global,
    at: &At<'_>,
    members: &Map<String, Value>,
) -> Result<NamedOrder, RequestFault>
    ensures { Gives (λ o. o) result (sort_order_at (pointer at.now) (members_view members.now.entries)) }
{
    let Some((path, value)) = sole_member(members) else {
        return at.refuse(alloc, NOT_ONE_MEMBER);
    };
    let at = At::Member(at, path);
    let inner = object(alloc, WRONG_TYPE, &at, value)?;
    check_names(alloc, UNKNOWN_MEMBER, &at, inner, &["order"])?;
    let said = required(alloc, &at, inner, "order")?;
    let descending = direction(alloc, &At::Member(&at, "order"), said)?;
    Ok(NamedOrder {
        name: Text::of(alloc, path)?,
        descending,
        at: at.text(alloc)?,
    })
}

/// The orders of the items.
#[tactic(auto, unfolding(agg_reading::specs::Pipelines::sort_orders_from))]
fn sort_order_list(
    alloc: Global,
    at: &At<'_>,
    items: &Vec<Value>,
) -> Result<List<NamedOrder>, RequestFault>
    ensures { Gives (λ os. os) result (sort_orders_from (pointer at.now) 0 [] (items_view items.now.items)) }
{
    let mut orders = List::new(alloc);
    for (place, item) in items.iter().enumerate() {
        let at = At::Item(at, place);
        let members = object(alloc, WRONG_TYPE, &at, item)?;
        orders.push(sort_order(alloc, &at, members)?)?;
    }
    Ok(orders)
}

/// A list of at most `MAX_ORDERS` orders; a longer one is refused with `OUT_OF_RANGE`.
#[tactic(auto, unfolding(agg_reading::specs::Pipelines::sort_orders_at), using(request_kinds::proofs::Lists::counted))]
fn sort_orders(alloc: Global, at: &At<'_>, value: &Value) -> Result<List<NamedOrder>, RequestFault>
    ensures { Gives (λ os. os) result (sort_orders_at (pointer at.now) (view value.now)) }
{
    let items = list(alloc, WRONG_TYPE, at, value)?;
    if items.len() > MAX_ORDERS {
        return at.refuse(alloc, OUT_OF_RANGE);
    }
    sort_order_list(alloc, at, items)
}

/// The orders in the member `sort`; none where it is absent.
fn sort_orders_in(
    alloc: Global,
    at: &At<'_>,
    members: &Map<String, Value>,
) -> Result<Option<List<NamedOrder>>, RequestFault>
    ensures { Gives (λ os. os) result
        (optional sort_orders_at (codes "sort") (pointer at.now) (members_view members.now.entries)) }
{
    match member(members, "sort") {
        None => Ok(None),
        Some(value) => Ok(Some(sort_orders(alloc, &At::Member(at, "sort"), value)?)),
    }
}

/// What a `bucket_sort` says: `from`, `size` and `sort`, each of them optional.
#[tactic(auto, unfolding(agg_reading::specs::Pipelines::bucket_sort_at))]
fn bucket_sort(alloc: Global, at: &At<'_>, value: &Value) -> Result<ReadPipeKind, RequestFault>
    ensures { Gives (λ k. k) result (bucket_sort_at (pointer at.now) (view value.now)) }
{
    let members = object(alloc, WRONG_TYPE, at, value)?;
    check_names(
        alloc,
        UNKNOWN_MEMBER,
        at,
        members,
        &["from", "size", "sort"],
    )?;
    let from = small_in(alloc, 0, MAX_SIZE, "from", at, members)?;
    let size = small_in(alloc, 0, MAX_SIZE, "size", at, members)?;
    let sort = sort_orders_in(alloc, at, members)?;
    Ok(ReadPipeKind::BucketSort {
        sort: sort.unwrap_or(List::new(alloc)),
        from: from.unwrap_or(0),
        size,
    })
}

/// What stands under the name of a pipeline. Refused with the pointer of the first thing that breaks a rule.
#[tactic(auto, unfolding(agg_reading::specs::Pipelines::pipe_kind_at))]
pub fn pipe_kind_at(
    alloc: Global,
    name: PipeName,
    at: &At<'_>,
    value: &Value,
) -> Result<ReadPipeKind, RequestFault>
    ensures { Gives (λ k. k) result (pipe_kind_at name (pointer at.now) (view value.now)) }
{
    match name {
        PipeName::BucketSort => bucket_sort(alloc, at, value),
        PipeName::CumulativeSum => Ok(ReadPipeKind::CumulativeSum(path_at(alloc, at, value)?)),
        PipeName::Derivative => Ok(ReadPipeKind::Derivative(path_at(alloc, at, value)?)),
        PipeName::MaxBucket => Ok(ReadPipeKind::MaxBucket(path_at(alloc, at, value)?)),
        PipeName::MinBucket => Ok(ReadPipeKind::MinBucket(path_at(alloc, at, value)?)),
        PipeName::SumBucket => Ok(ReadPipeKind::SumBucket(path_at(alloc, at, value)?)),
    }
}
