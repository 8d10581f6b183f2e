ghost use Rattle.std.specs.Prelude.{◌≡◌, OnOk, IsTrue, IsPermutation, length};
ghost use Rattle.std.specs.List.{list_all};
ghost use Rattle.list_laws.specs.Sorting.{sorted};
ghost use Rattle.agg_evaluation.specs.Shard.{sorted_by_key};
ghost use Rattle.agg_evaluation.specs.Orders.{bucket_cmp, bucket_key, composite_cmp};
ghost use Rattle.agg_evaluation.specs.CompositeKeys.{is_composite_of};
ghost use Rattle.bucket_order.specs.Kinds.{child_kinds};

use crate::compare::{compare_buckets, compare_keys};
use crate::composite::compare_composites;
use agg_model::{Agg, Bucket, CompositeSource, List, Order};
use std::alloc::AllocError;

/// Puts buckets in the order of the list, where `children` are the aggregations below.
pub fn sort_buckets(
    children: &List<Agg>,
    orders: &List<Order>,
    buckets: &mut Vec<Bucket>,
) -> Result<(), AllocError>
    ensures same { IsPermutation buckets.old.items buckets.new.items }
    ensures sorted { OnOk result (buckets.new.items ≡ sorted (bucket_cmp (child_kinds children.now) orders.now) buckets.old.items) }
{
    buckets.sort_by(|a, b| compare_buckets(children, orders, a, b))
}

/// Puts buckets in ascending order of their keys.
pub fn sort_by_key(buckets: &mut Vec<Bucket>) -> Result<(), AllocError>
    ensures same { IsPermutation buckets.old.items buckets.new.items }
    ensures sorted { OnOk result (buckets.new.items ≡ sorted_by_key buckets.old.items) }
{
    buckets.sort_by(|a, b| compare_keys(&a.key, &b.key))
}

/// Puts buckets of composite keys in the order of the sources, which is total only on keys with a part for each source.
/// So it has a condition on keys, by the word that a search's `after` is asked by (`is_composite_of`). All other orders
/// have none.
pub fn sort_composites(
    sources: &List<CompositeSource>,
    buckets: &mut Vec<Bucket>,
) -> Result<(), AllocError>
    requires { IsTrue (list_all (λ b. is_composite_of (length sources.now) (bucket_key b)) buckets.old.items) }
    ensures same { IsPermutation buckets.old.items buckets.new.items }
    ensures sorted { OnOk result (buckets.new.items ≡ sorted (λ a b. composite_cmp sources.now (bucket_key a) (bucket_key b)) buckets.old.items) }
{
    buckets.sort_by(|a, b| compare_composites(sources, &a.key, &b.key))
}
