//! The least and the greatest value of buckets ('Min bucket aggregation', 'Max bucket aggregation').
ghost use Rattle.std.specs.Prelude.{◌≡◌, IfOk};
ghost use Rattle.agg_spec.specs.Pipelines.{greatest_value as greatest_of, keys_with as keys_of, least_value as least_of, values_of};
ghost use Rattle.bucket_order.specs.Kinds.{child_kinds};
ghost use Rattle.pipeline_agg.specs.Bounds.{greater as greater_of, lesser as lesser_of};

use crate::values::value_at;
use agg_model::{Agg, BucketAnswer, Copying, Key, List, PipePath};
use std::alloc::{AllocError, Global};

/// The lesser of two values, where null is none.
fn lesser(least: Option<i128>, value: Option<i128>) -> Option<i128>
    ensures { result ≡ lesser_of least value }
{
    match (least, value) {
        (Some(m), Some(n)) => Some(m.min(n)),
        (Some(m), None) => Some(m),
        (None, value) => value,
    }
}

/// The greater of two values, where null is none.
fn greater(greatest: Option<i128>, value: Option<i128>) -> Option<i128>
    ensures { result ≡ greater_of greatest value }
{
    match (greatest, value) {
        (Some(m), Some(n)) => Some(m.max(n)),
        (Some(m), None) => Some(m),
        (None, value) => value,
    }
}

/// The least value of buckets that is not null; none where there is no such value.
pub(crate) fn least_value(
    children: &List<Agg>,
    path: PipePath,
    buckets: &[BucketAnswer],
) -> Option<i128>
    ensures { result ≡ least_of (values_of (child_kinds children.now) path buckets.now) }
{
    let mut least = None;
    for bucket in buckets {
        least = lesser(least, value_at(children, path, bucket));
    }
    least
}

/// The greatest value of buckets that is not null; none where there is no such value.
pub(crate) fn greatest_value(
    children: &List<Agg>,
    path: PipePath,
    buckets: &[BucketAnswer],
) -> Option<i128>
    ensures { result ≡ greatest_of (values_of (child_kinds children.now) path buckets.now) }
{
    let mut greatest = None;
    for bucket in buckets {
        greatest = greater(greatest, value_at(children, path, bucket));
    }
    greatest
}

/// The keys of the buckets that have the value, in the order of the buckets; none where it is null.
pub(crate) fn keys_with(
    alloc: Global,
    children: &List<Agg>,
    path: PipePath,
    value: Option<i128>,
    buckets: &[BucketAnswer],
) -> Result<List<Key>, AllocError>
    ensures { IfOk result (λ keys. keys ≡ keys_of (child_kinds children.now) path value buckets.now) }
{
    let mut keys = List::new(alloc);
    for bucket in buckets {
        if value.is_some() && value_at(children, path, bucket) == value {
            keys.push(bucket.key.copy(alloc)?)?;
        }
    }
    Ok(keys)
}
