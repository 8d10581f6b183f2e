//! The first buckets in an order.
ghost use Rattle.std.specs.Prelude.{◌≡◌, ◌≤◌, ◌++◌, ◌∷◌, [], IfOk, IsTrue, OnOk, length, take};
ghost use Rattle.std.specs.List.{insert};
ghost use Rattle.agg_evaluation.specs.Orders.{bucket_cmp};
ghost use Rattle.bucket_order.specs.Kinds.{child_kinds};
ghost use Rattle.bucket_order.specs.Ordered.{AreOrdered};
ghost use Rattle.list_laws.specs.Sorting.{insert_sorted, sorted};

use crate::compare::compare_buckets;
use crate::sort::sort_buckets;
use agg_model::{Agg, Bucket, List, Order};
use std::alloc::{AllocError, Global};

// So few are kept beside the others, each new one put into its place; more are cut of the sorted buckets.
const MOST_BESIDE: usize = 64;

// Whether a bucket comes behind all of these, which are in order.
fn is_last(children: &List<Agg>, orders: &List<Order>, bucket: &Bucket, kept: &[Bucket]) -> bool
    requires ordered { AreOrdered children.now orders.now kept.now }
    ensures { IsTrue result → insert_sorted (bucket_cmp (child_kinds children.now) orders.now) bucket.now kept.now ≡ kept.now ++ bucket.now ∷ [] }
{
    match kept.last() {
        Some(last) => !compare_buckets(children, orders, bucket, last).is_le(),
        None => false,
    }
}

// The place of a bucket: before the first that it is at most.
fn place_in(children: &List<Agg>, orders: &List<Order>, bucket: &Bucket, kept: &[Bucket]) -> usize
    ensures within { result ≤ length kept.now }
    ensures place { insert_sorted (bucket_cmp (child_kinds children.now) orders.now) bucket.now kept.now ≡ insert kept.now result bucket.now }
{
    for place in 0..kept.len() {
        if compare_buckets(children, orders, bucket, &kept[place]).is_le() {
            return place;
        }
    }
    kept.len()
}

// One more bucket among those that are kept, in order, of which there are `count` at most.
fn put(
    children: &List<Agg>,
    orders: &List<Order>,
    count: usize,
    bucket: Bucket,
    kept: &mut Vec<Bucket>,
) -> Result<(), AllocError>
    requires ordered { AreOrdered children.now orders.now kept.old.items }
    requires few { length kept.old.items ≤ count }
    ensures { OnOk result (kept.new.items ≡ take count (insert_sorted (bucket_cmp (child_kinds children.now) orders.now) bucket kept.old.items)) }
{
    if kept.len() == count && is_last(children, orders, &bucket, kept.as_slice()) {
        return Ok(());
    }
    let place = place_in(children, orders, &bucket, kept.as_slice());
    kept.insert(place, bucket)?;
    kept.truncate(count);
    Ok(())
}

/// The first `count` buckets in the order of the list, in this order, where `children` are the aggregations below. Where few are
/// wanted it takes time by the buckets, and else by sorting them.
pub fn first_buckets(
    alloc: Global,
    children: &List<Agg>,
    orders: &List<Order>,
    count: usize,
    buckets: Vec<Bucket>,
) -> Result<Vec<Bucket>, AllocError>
    ensures { IfOk result (λ kept. kept.items ≡ take count (sorted (bucket_cmp (child_kinds children.now) orders.now) buckets.items)) }
{
    let mut left = buckets;
    if count > MOST_BESIDE {
        sort_buckets(children, orders, &mut left)?;
        left.truncate(count);
        return Ok(left);
    }
    let mut kept = Vec::new(alloc);
    while let Some(bucket) = left.pop() {
        put(children, orders, count, bucket, &mut kept)?;
    }
    Ok(kept)
}
