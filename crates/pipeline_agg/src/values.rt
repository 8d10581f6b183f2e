//! The values of buckets that pipelines are made of ('Pipeline aggregations', `buckets_path`).
ghost use Rattle.std.specs.Prelude.{◌≡◌, IsTrue};
ghost use Rattle.agg_spec.specs.Pipelines.{sum_of_values as sum_of, value_at as value_of_bucket, values_of};
ghost use Rattle.bucket_order.specs.Kinds.{child_kinds};
ghost use Rattle.pipeline_agg.specs.Bounds.{AreBucketsInRange, AreInRange, is_small};
ghost use Rattle.agg_evaluation.specs.Orders.{metric_value};
ghost use Rattle.agg_model.specs.declared.answer.BucketAnswer.{out-BucketAnswer};
ghost use Rattle.agg_spec.specs.RangeCheck.{sum_in_range};

use agg_model::{Agg, BucketAnswer, Kind, List, Metric, PipePath};
use bucket_order::value_of;

/// The value of a metric; that of a sum is of 64 bits where it prints.
fn number_of(kind: &Kind, metric: Metric) -> Option<i128>
    ensures value { result ≡ metric_value kind.now metric }
    ensures small { IsTrue (sum_in_range kind.now metric.sum) → IsTrue (is_small result) }
{
    value_of(kind, &metric)
}

/// The value of a path at a bucket, where `children` are the aggregations below its aggregation; none where it is null.
pub(crate) fn value_at(children: &List<Agg>, path: PipePath, bucket: &BucketAnswer) -> Option<i128>
    ensures value { result ≡ value_of_bucket (child_kinds children.now) path bucket.now }
    ensures small { AreInRange children.now (out-BucketAnswer bucket.now).children → IsTrue (is_small result) }
{
    match path {
        PipePath::Count => Some(i128::from(bucket.count)),
        PipePath::Child(place) => {
            let agg = children.get(place as usize)?;
            let node = bucket.children.get(place as usize)?;
            number_of(&agg.kind, node.metric)
        }
    }
}

/// The sum of the values of buckets; null adds nothing.
pub(crate) fn sum_of_values(children: &List<Agg>, path: PipePath, buckets: &[BucketAnswer]) -> i128
    requires in_range { AreBucketsInRange children.now buckets.now }
    ensures { result ≡ sum_of (values_of (child_kinds children.now) path buckets.now) }
{
    let mut sum = 0;
    for bucket in buckets {
        sum += value_at(children, path, bucket).unwrap_or(0);
    }
    sum
}
