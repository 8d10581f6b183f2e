//! The union of two partial results (Elasticsearch Reference 8, 'Aggregations': the reduce phase).
ghost use Rattle.std.specs.Prelude.{◌≡◌, IfOk, IsTrue, map, [], ◌∷◌};
ghost use Rattle.std.specs.Int.{int_min, int_max};
ghost use Rattle.agg_model.specs.declared.aggregation.Search.{Search as AnySearch};
ghost use Rattle.agg_evaluation.specs.Whole.{whole};
ghost use Rattle.agg_evaluation.specs.Trees.{is_result_of, numbers_fit};
ghost use Rattle.partial_result.specs.Merged.{merged, merged_bucket, merged_metric, merged_nodes, either_or, other_bucket, united, IsPassed};

use agg_model::{Bucket, Key, List, Metric, Node, Partial};
use std::alloc::{AllocError, Global};
use std::cmp::Ordering;
use std::collections::VecDeque;

/// The union of two partial results of one search: keys are united, counts, errors, cuts and metrics added, the least
/// and the greatest taken. It takes time in proportion to the buckets of both. Nothing is promised of results of two
/// searches, and sums that do not fit their types stay at the greatest value. After want of memory both are spent.
pub fn merge(alloc: Global, into: Partial, other: Partial) -> Result<Partial, AllocError>
    ensures whole { IfOk result (λ p. (search : AnySearch) →
        IsTrue (is_result_of search into) → IsTrue (is_result_of search other) →
        IsTrue (numbers_fit (whole search (into ∷ other ∷ []))) → p ≡ whole search (into ∷ other ∷ [])) }
{
    Ok(Partial {
        hits: into.hits.saturating_add(other.hits),
        nodes: merge_children(alloc, other.nodes, into.nodes)?,
    })
}

/// Nodes of two shapes are of no one aggregation; the first then stays.
#[cycle(merge)]
fn merge_node(alloc: Global, other: Node, into: Node) -> Result<Node, AllocError>
    ensures { IfOk result (λ n. n ≡ merged other into) }
{
    match other {
        Node::Keyed {
            buckets: more,
            error: more_error,
            full: more_full,
            cut: more_cut,
        } => match into {
            Node::Keyed {
                buckets,
                error,
                full,
                cut,
            } => Ok(Node::Keyed {
                buckets: merge_buckets(alloc, more, buckets)?,
                error: error.saturating_add(more_error),
                full: full.saturating_add(more_full),
                cut: cut.saturating_add(more_cut),
            }),
            Node::Fixed { buckets } => Ok(Node::Fixed { buckets }),
            Node::Number(metric) => Ok(Node::Number(metric)),
        },
        Node::Fixed { buckets: more } => match into {
            Node::Fixed { buckets } => Ok(Node::Fixed {
                buckets: merge_buckets(alloc, more, buckets)?,
            }),
            Node::Keyed {
                buckets,
                error,
                full,
                cut,
            } => Ok(Node::Keyed {
                buckets,
                error,
                full,
                cut,
            }),
            Node::Number(metric) => Ok(Node::Number(metric)),
        },
        Node::Number(more) => match into {
            Node::Number(metric) => Ok(Node::Number(merge_metric(more, metric))),
            Node::Keyed {
                buckets,
                error,
                full,
                cut,
            } => Ok(Node::Keyed {
                buckets,
                error,
                full,
                cut,
            }),
            Node::Fixed { buckets } => Ok(Node::Fixed { buckets }),
        },
    }
}

/// Both lists ascend by key, so each bucket is moved once.
#[cycle(merge)]
fn merge_buckets(
    alloc: Global,
    other: List<Bucket>,
    into: List<Bucket>,
) -> Result<List<Bucket>, AllocError>
    ensures { IfOk result (λ bs. bs ≡ united (map other_bucket other) into) }
{
    let mut merged = Vec::new(alloc);
    let mut rest = VecDeque::from_vec(into.into_vec());
    for bucket in other.into_vec() {
        match pass_to(&mut merged, &mut rest, &bucket.key)? {
            Some(mine) => merged.push(merge_bucket(alloc, bucket, mine)?)?,
            None => merged.push(bucket)?,
        }
    }
    for mine in rest {
        merged.push(mine)?;
    }
    Ok(List::from_vec(merged))
}

/// Moves the buckets of lesser keys from the front of `rest` to the end of `merged`, and takes the bucket of the
/// key itself where it comes next.
fn pass_to(
    merged: &mut Vec<Bucket>,
    rest: &mut VecDeque<Bucket>,
    key: &Key,
) -> Result<Option<Bucket>, AllocError>
    ensures { IfOk result (λ found. IsPassed key.now merged.old.items rest.old.items found merged.new.items rest.new.items) }
{
    while let Some(first) = rest.front() {
        match key.cmp(&first.key) {
            Ordering::Less => return Ok(None),
            Ordering::Equal => return Ok(rest.pop_front()),
            Ordering::Greater => merged.push(rest.pop_front().unwrap())?,
        }
    }
    Ok(None)
}

#[cycle(merge)]
fn merge_bucket(alloc: Global, other: Bucket, into: Bucket) -> Result<Bucket, AllocError>
    ensures { IfOk result (λ b. b ≡ merged_bucket other into) }
{
    Ok(Bucket {
        key: into.key,
        count: into.count.saturating_add(other.count),
        covered: into.covered.saturating_add(other.covered),
        children: merge_children(alloc, other.children, into.children)?,
    })
}

/// Children pair by place.
#[cycle(merge)]
fn merge_children(
    alloc: Global,
    other: List<Node>,
    into: List<Node>,
) -> Result<List<Node>, AllocError>
    ensures { IfOk result (λ ns. ns ≡ merged_nodes other into) }
{
    let mut children = Vec::new(alloc);
    let mut left = into.into_vec().into_iter();
    for more in other.into_vec() {
        match left.next() {
            Some(child) => children.push(merge_node(alloc, more, child)?)?,
            None => return Ok(List::from_vec(children)),
        }
    }
    for child in left {
        children.push(child)?;
    }
    Ok(List::from_vec(children))
}

fn merge_metric(more: Metric, metric: Metric) -> Metric
    ensures { result ≡ merged_metric more metric }
{
    Metric {
        count: metric.count.saturating_add(more.count),
        sum: metric.sum.saturating_add(more.sum),
        least: least(metric.least, more.least),
        greatest: greatest(metric.greatest, more.greatest),
    }
}

fn least(one: Option<i64>, other: Option<i64>) -> Option<i64>
    ensures { result ≡ either_or int_min one other }
{
    match (one, other) {
        (Some(a), Some(b)) => Some(a.min(b)),
        (Some(a), None) => Some(a),
        (None, other) => other,
    }
}

fn greatest(one: Option<i64>, other: Option<i64>) -> Option<i64>
    ensures { result ≡ either_or int_max one other }
{
    match (one, other) {
        (Some(a), Some(b)) => Some(a.max(b)),
        (Some(a), None) => Some(a),
        (None, other) => other,
    }
}
