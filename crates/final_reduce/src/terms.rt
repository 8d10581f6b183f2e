// The terms that an answer returns.
ghost use Rattle.std.specs.Prelude.{◌≡◌, ◌<◌, ◌≤◌, ◌^◌, IfOk, map, take, drop, sum_by};
ghost use Rattle.list_laws.specs.Sorting.{sorted};
ghost use Rattle.agg_evaluation.specs.Orders.{bucket_cmp, bucket_count};
ghost use Rattle.agg_spec.specs.Filling.{frequent};
ghost use Rattle.bucket_order.specs.Kinds.{child_kinds};
ghost use Rattle.final_reduce.specs.Standing.{ordered_terms};

use agg_model::{Agg, Bucket, List, Order};
use bucket_order::sort_buckets;
use std::alloc::{AllocError, Global};

/// The terms that are returned, and the number of documents of those beyond them.
#[derive(Drop)]
pub(crate) struct Returned {
    pub(crate) buckets: List<Bucket>,
    pub(crate) beyond: u64,
}

fn total_count(buckets: &[Bucket]) -> u64
    requires { sum_by bucket_count buckets.now < 2 ^ 64 }
    ensures { result ≡ sum_by bucket_count buckets.now }
{
    buckets.iter().map(|bucket| bucket.count).sum()
}

pub(crate) fn keep_frequent(min_doc_count: u64, buckets: &mut Vec<Bucket>)
    ensures { buckets.new.items ≡ frequent min_doc_count buckets.old.items }
{
    buckets.retain(|bucket| bucket.count >= min_doc_count);
}

pub(crate) fn returned_terms(
    children: &List<Agg>,
    size: u32,
    min_doc_count: u64,
    order: &List<Order>,
    buckets: List<Bucket>,
) -> Result<Returned, AllocError>
    requires { sum_by bucket_count buckets < 2 ^ 64 }
    ensures returned { IfOk result (λ r. r.buckets ≡ take size (ordered_terms (child_kinds children.now) min_doc_count order.now buckets)) }
    ensures beyond { IfOk result (λ r. r.beyond ≡ sum_by bucket_count (drop size (ordered_terms (child_kinds children.now) min_doc_count order.now buckets))) }
    ensures within { IfOk result (λ r. r.beyond ≤ sum_by bucket_count buckets) }
{
    let mut terms = buckets.into_vec();
    keep_frequent(min_doc_count, &mut terms);
    sort_buckets(children, order, &mut terms)?;
    let total = total_count(terms.as_slice());
    terms.truncate(size as usize);
    let beyond = total - total_count(terms.as_slice());
    Ok(Returned {
        buckets: List::from_vec(terms),
        beyond,
    })
}
