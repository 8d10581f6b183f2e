// What stands of a whole: at each level the buckets that the answer returns, and of those what stands below.
ghost use Rattle.std.specs.Prelude.{◌≡◌, IfOk, IsTrue, map};
ghost use Rattle.agg_evaluation.specs.Trees.{have_children, pass_each};
ghost use Rattle.agg_evaluation.specs.Finishable.{is_finishable};
ghost use Rattle.final_reduce.specs.Standing.{cutter, cut_nodes, cut_bucket as bucket_cut};

use crate::returned::returned_buckets;
use agg_model::{Agg, Bucket, List, Node};
use std::alloc::{AllocError, Global};

/// What stands of nodes side by side. Terms are sorted once, those of a level before what is below them, and what is left out is
/// gone.
#[cycle(cut)]
pub(crate) fn cut_each(
    alloc: Global,
    aggs: &List<Agg>,
    nodes: List<Node>,
) -> Result<List<Node>, AllocError>
    requires nodes { IsTrue (pass_each (map is_finishable aggs.now) nodes) }
    ensures { IfOk result (λ standing. standing ≡ cut_nodes (map cutter aggs.now) nodes) }
{
    let mut standing = Vec::with_capacity(alloc, nodes.len())?;
    let mut left = nodes.into_vec().into_iter();
    for agg in aggs.as_slice() {
        match left.next() {
            Some(node) => standing.push(cut_node(alloc, agg, node)?)?,
            None => return Ok(List::from_vec(standing)),
        }
    }
    Ok(List::from_vec(standing))
}

#[cycle(cut)]
fn cut_node(alloc: Global, agg: &Agg, node: Node) -> Result<Node, AllocError>
    requires node { IsTrue (is_finishable agg.now node) }
    ensures { IfOk result (λ n. n ≡ (cutter agg.now).cut node) }
{
    match node {
        Node::Keyed {
            buckets,
            error,
            full,
            cut,
        } => {
            let returned = returned_buckets(agg, buckets)?;
            let other = cut + returned.beyond;
            let below = cut_below(alloc, &agg.children, returned.buckets)?;
            Ok(Node::Keyed {
                buckets: below,
                error,
                full,
                cut: other,
            })
        }
        Node::Fixed { buckets } => {
            let below = cut_below(alloc, &agg.children, buckets)?;
            Ok(Node::Fixed { buckets: below })
        }
        Node::Number(metric) => Ok(Node::Number(metric)),
    }
}

// Without children nothing is below a bucket, and none is looked at.
#[cycle(cut)]
fn cut_below(
    alloc: Global,
    children: &List<Agg>,
    buckets: List<Bucket>,
) -> Result<List<Bucket>, AllocError>
    requires children { IsTrue (have_children (map is_finishable children.now) buckets) }
    ensures { IfOk result (λ standing. standing ≡ map (bucket_cut (map cutter children.now)) buckets) }
{
    if children.is_empty() {
        return Ok(buckets);
    }
    let mut standing = Vec::with_capacity(alloc, buckets.len())?;
    for bucket in buckets.into_vec() {
        standing.push(cut_bucket(alloc, children, bucket)?)?;
    }
    Ok(List::from_vec(standing))
}

#[cycle(cut)]
fn cut_bucket(alloc: Global, children: &List<Agg>, bucket: Bucket) -> Result<Bucket, AllocError>
    requires children { IsTrue (pass_each (map is_finishable children.now) bucket.children) }
    ensures { IfOk result (λ b. b ≡ bucket_cut (map cutter children.now) bucket) }
{
    Ok(Bucket {
        key: bucket.key,
        count: bucket.count,
        covered: bucket.covered,
        children: cut_each(alloc, children, bucket.children)?,
    })
}
