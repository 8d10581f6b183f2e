//! Buckets that are sorted and cut ('Bucket sort aggregation').
ghost use Rattle.std.specs.Prelude.{◌≡◌, OnOk};
ghost use Rattle.list_laws.specs.Sorting.{sorted};
ghost use Rattle.agg_spec.specs.Pipelines.{bucket_sort_cmp, cut_from as cut_items};
ghost use Rattle.bucket_order.specs.Kinds.{child_kinds};

use crate::remarked::RemarkedBucket;
use crate::values::value_at;
use agg_model::{Agg, BucketAnswer, List, PipeOrder};
use bucket_order::compare_values;
use std::alloc::AllocError;
use std::cmp::Ordering;

/// The order of two buckets by the orders of a `bucket_sort` in turn; those that are alike in all compare alike.
fn compare_buckets(
    children: &List<Agg>,
    sort: &List<PipeOrder>,
    a: &BucketAnswer,
    b: &BucketAnswer,
) -> Ordering
    ensures { result ≡ bucket_sort_cmp (child_kinds children.now) sort.now a.now b.now }
{
    for order in sort.as_slice() {
        let ordering = compare_values(
            order.descending,
            value_at(children, order.path, a),
            value_at(children, order.path, b),
        );
        if ordering != Ordering::Equal {
            return ordering;
        }
    }
    Ordering::Equal
}

/// Puts buckets in the order of a `bucket_sort`, those that are alike in the order in which they stand.
pub(crate) fn sort_buckets(
    children: &List<Agg>,
    sort: &List<PipeOrder>,
    buckets: &mut Vec<RemarkedBucket>,
) -> Result<(), AllocError>
    ensures { OnOk result (buckets.new.items ≡ sorted (λ a b. bucket_sort_cmp (child_kinds children.now) sort.now a.bucket b.bucket) buckets.old.items) }
{
    buckets.sort_by(|a, b| compare_buckets(children, sort, &a.bucket, &b.bucket))
}

/// Keeps the buckets from a place on, as many as the size says; the others are let go.
pub(crate) fn cut_from(from: u32, size: Option<u32>, buckets: &mut Vec<RemarkedBucket>)
    ensures { buckets.new.items ≡ cut_items from size buckets.old.items }
{
    let start = buckets.len().min(from as usize);
    let left = buckets.len() - start;
    let kept = match size {
        Some(size) => left.min(size as usize),
        None => left,
    };
    buckets.as_mut_slice().rotate_left(start);
    buckets.truncate(kept);
}
