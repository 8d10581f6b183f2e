//! The empty partial result.
ghost use Rattle.std.specs.Prelude.{◌≡◌, ◌+◌, IfOk, [], map, length};
ghost use Rattle.std.specs.List.{range_with_len};
ghost use Rattle.std.specs.Option.{option_map_or};
ghost use Rattle.agg_evaluation.specs.Whole.{empty_node, whole};
ghost use Rattle.partial_result.specs.Beginning.{empty_buckets_of};

use agg_model::{Agg, Bucket, Key, Kind, List, Metric, Node, Partial, Query, Search, Text};
use std::alloc::{AllocError, Global};

/// The partial result of no shard: a node for each aggregation at the top, and in it the buckets that exist from the
/// start. More than 2^32 - 1 such buckets in one node count as want of memory, since their keys have 32 bits.
pub fn empty(alloc: Global, search: &Search) -> Result<Partial, AllocError>
    ensures whole { IfOk result (λ p. p ≡ whole search.now []) }
{
    Ok(Partial {
        hits: 0,
        nodes: empty_nodes(alloc, &search.aggs)?,
    })
}

/// The nodes of aggregations side by side over no rows, with the limit of `empty`.
#[cycle(empty)]
pub fn empty_nodes(alloc: Global, aggs: &List<Agg>) -> Result<List<Node>, AllocError>
    ensures { IfOk result (λ nodes. nodes ≡ map empty_node aggs.now) }
{
    let mut nodes = List::new(alloc);
    for agg in aggs.as_slice() {
        nodes.push(empty_node_of(alloc, agg)?)?;
    }
    Ok(nodes)
}

#[cycle(empty)]
fn empty_node_of(alloc: Global, agg: &Agg) -> Result<Node, AllocError>
    ensures { IfOk result (λ node. node ≡ empty_node agg.now) }
{
    match &agg.kind {
        Kind::Terms { .. }
        | Kind::Histogram { .. }
        | Kind::DateHistogram { .. }
        | Kind::Composite { .. } => Ok(Node::Keyed {
            buckets: List::new(alloc),
            error: 0,
            full: 0,
            cut: 0,
        }),
        Kind::Filters { filters, other, .. } => Ok(Node::Fixed {
            buckets: empty_buckets(alloc, &agg.children, number_of_filters(filters, other)?)?,
        }),
        Kind::Filter { .. }
        | Kind::Missing { .. }
        | Kind::Global
        | Kind::Nested { .. }
        | Kind::ReverseNested { .. } => Ok(Node::Fixed {
            buckets: empty_buckets(alloc, &agg.children, 1)?,
        }),
        Kind::Sum { .. }
        | Kind::Min { .. }
        | Kind::Max { .. }
        | Kind::Avg { .. }
        | Kind::ValueCount { .. } => Ok(Node::Number(Metric {
            count: 0,
            sum: 0,
            least: None,
            greatest: None,
        })),
    }
}

#[cycle(empty)]
fn empty_buckets(
    alloc: Global,
    children: &List<Agg>,
    number: u32,
) -> Result<List<Bucket>, AllocError>
    ensures { IfOk result (λ buckets. buckets ≡ empty_buckets_of (map empty_node children.now) (range_with_len 0 number)) }
{
    let mut buckets = List::new(alloc);
    for place in 0..number {
        buckets.push(Bucket {
            key: Key::Fixed(place),
            count: 0,
            covered: 0,
            children: empty_nodes(alloc, children)?,
        })?;
    }
    Ok(buckets)
}

/// The number of filters, and of the other bucket where there is one.
fn number_of_filters(filters: &List<Query>, other: &Option<Text>) -> Result<u32, AllocError>
    ensures { IfOk result (λ n. n ≡ option_map_or (λ _. length filters.now + 1) other.now (length filters.now)) }
{
    let Ok(number) = u32::try_from(filters.len()) else {
        return Err(AllocError);
    };
    match other {
        Some(_) if number == u32::MAX => Err(AllocError),
        Some(_) => Ok(number + 1),
        None => Ok(number),
    }
}
