ghost use Rattle.std.specs.Prelude.{◌≡◌, ◌<◌, ◌≤◌, ◌^◌, IfOk, OnOk, length, map, sum_by, unwrap_or, if◌then◌else◌, ◌==◌};
ghost use Rattle.agg_evaluation.specs.Orders.{bucket_count};
ghost use Rattle.agg_evaluation.specs.Shard.{trimmed_node, with_covered};
ghost use Rattle.bucket_order.specs.Kinds.{child_kinds};
ghost use Rattle.terms_agg.specs.Trim.{trimmed, trimmed_some, last_count, node_buckets};

use agg_model::{Agg, Bucket, Kind, List, Node, Order};
use bucket_order::{first_buckets, sort_by_key};
use std::alloc::{AllocError, Global};

/// The number of documents in all the buckets together.
fn total_count(buckets: &[Bucket]) -> u64
    requires { sum_by bucket_count buckets.now < 2 ^ 64 }
    ensures { result ≡ sum_by bucket_count buckets.now }
{
    buckets.iter().map(|bucket| bucket.count).sum()
}

fn last_kept_count(kept: &[Bucket]) -> u64
    ensures { result ≡ last_count kept.now }
{
    match kept.last() {
        Some(bucket) => bucket.count,
        None => 0,
    }
}

// The count of the last term kept, where as many are kept as may be. By descending count, no term that is left out has more
// documents; in another order it may.
fn error_of(kept: &[Bucket], is_full: bool) -> u64
    ensures { result ≡ (if is_full then last_count kept.now else 0) }
{
    if is_full { last_kept_count(kept) } else { 0 }
}

fn set_covered(buckets: &mut Vec<Bucket>, covered: u64)
    ensures { buckets.new.items ≡ map (with_covered covered) buckets.old.items }
{
    for bucket in buckets.iter_mut() {
        bucket.covered = covered;
    }
}

fn trim_buckets(
    alloc: Global,
    children: &List<Agg>,
    shard_size: u32,
    order: &List<Order>,
    total: u64,
    buckets: Vec<Bucket>,
) -> Result<Node, AllocError>
    requires { sum_by bucket_count buckets.items ≤ total }
    ensures { IfOk result (λ n. n ≡ trimmed_node (child_kinds children.now) shard_size order.now total buckets.items) }
{
    let mut kept = first_buckets(alloc, children, order, shard_size as usize, buckets)?;
    let is_full = kept.len() == shard_size as usize;
    let error = error_of(kept.as_slice(), is_full);
    let cut = total - total_count(kept.as_slice());
    set_covered(&mut kept, error);
    sort_by_key(&mut kept)?;
    Ok(Node::Keyed {
        buckets: List::from_vec(kept),
        error,
        full: u32::from(is_full),
        cut,
    })
}

/// What a shard answers of the terms in `node`: the first `shard_size` in the order of the aggregation, ascending
/// by key, with the number of documents that it left out. Where as many terms are kept as may be, the error is the
/// count of the last one in the order: by descending count, no term that is left out has more documents. The node
/// holds all terms of the shard; nothing is cut of a node without terms, and of a kind other than terms.
pub fn trim(alloc: Global, agg: &Agg, node: Node) -> Result<Node, AllocError>
    requires { sum_by bucket_count (node_buckets node) < 2 ^ 64 }
    ensures { IfOk result (λ n. n ≡ trimmed agg.now node) }
{
    match &agg.kind {
        Kind::Terms {
            shard_size,
            order,
            ..
        } => match node {
            Node::Keyed { buckets, .. } => {
                let all = buckets.into_vec();
                let total = total_count(all.as_slice());
                trim_buckets(alloc, &agg.children, *shard_size, order, total, all)
            }
            Node::Fixed { buckets } => Ok(Node::Fixed { buckets }),
            Node::Number(metric) => Ok(Node::Number(metric)),
        },
        Kind::Histogram { .. }
        | Kind::DateHistogram { .. }
        | Kind::Filters { .. }
        | Kind::Filter { .. }
        | Kind::Missing { .. }
        | Kind::Global
        | Kind::Nested { .. }
        | Kind::ReverseNested { .. }
        | Kind::Composite { .. }
        | Kind::Sum { .. }
        | Kind::Min { .. }
        | Kind::Max { .. }
        | Kind::Avg { .. }
        | Kind::ValueCount { .. } => Ok(node),
    }
}

/// The same of some terms of the shard, where all its terms have `total` documents together: the first `shard_size` of these,
/// and what is left out of the total. A kind other than terms keeps all buckets.
pub fn trim_some(
    alloc: Global,
    agg: &Agg,
    total: u64,
    buckets: Vec<Bucket>,
) -> Result<Node, AllocError>
    requires { sum_by bucket_count buckets.items ≤ total }
    ensures { IfOk result (λ n. n ≡ trimmed_some agg.now total buckets.items) }
{
    match &agg.kind {
        Kind::Terms {
            shard_size,
            order,
            ..
        } => trim_buckets(alloc, &agg.children, *shard_size, order, total, buckets),
        Kind::Histogram { .. }
        | Kind::DateHistogram { .. }
        | Kind::Filters { .. }
        | Kind::Filter { .. }
        | Kind::Missing { .. }
        | Kind::Global
        | Kind::Nested { .. }
        | Kind::ReverseNested { .. }
        | Kind::Composite { .. }
        | Kind::Sum { .. }
        | Kind::Min { .. }
        | Kind::Max { .. }
        | Kind::Avg { .. }
        | Kind::ValueCount { .. } => Ok(Node::Keyed {
            buckets: List::from_vec(buckets),
            error: 0,
            full: 0,
            cut: 0,
        }),
    }
}
