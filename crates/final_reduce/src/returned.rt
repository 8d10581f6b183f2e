// Which buckets of a whole an answer returns, and in which order: decided here alone, for each kind.
ghost use Rattle.std.specs.Prelude.{◌≡◌, IfOk, IsTrue};
ghost use Rattle.agg_model.specs.declared.aggregation.Agg.{out-Agg};
ghost use Rattle.bucket_order.specs.Kinds.{child_kinds, kind_of};
ghost use Rattle.final_reduce.specs.Standing.{returned_at, beyond_at, can_return, form_of};

use crate::composite::first_composites;
use crate::terms::{Returned, keep_frequent, returned_terms};
use agg_model::{Agg, Bucket, Kind, List};
use std::alloc::AllocError;

fn all_of(buckets: List<Bucket>) -> Returned
    ensures buckets { result.buckets ≡ buckets }
    ensures beyond { result.beyond ≡ 0 }
{
    Returned { buckets, beyond: 0 }
}

/// The buckets that the answer returns, in order, and the number of documents of the terms beyond them. A histogram's stay in
/// the order of their keys, between which gaps are filled.
pub(crate) fn returned_buckets(agg: &Agg, buckets: List<Bucket>) -> Result<Returned, AllocError>
    requires { IsTrue (can_return (form_of (kind_of agg.now)) buckets) }
    ensures returned { IfOk result (λ r. r.buckets ≡ returned_at (child_kinds (out-Agg agg.now).children) (form_of (kind_of agg.now)) buckets) }
    ensures beyond { IfOk result (λ r. r.beyond ≡ beyond_at (child_kinds (out-Agg agg.now).children) (form_of (kind_of agg.now)) buckets) }
{
    match &agg.kind {
        Kind::Terms {
            size,
            min_doc_count,
            order,
            ..
        } => returned_terms(&agg.children, *size, *min_doc_count, order, buckets),
        Kind::Histogram { min_doc_count, .. } | Kind::DateHistogram { min_doc_count, .. } => {
            let mut frequent = buckets.into_vec();
            keep_frequent(*min_doc_count, &mut frequent);
            Ok(all_of(List::from_vec(frequent)))
        }
        Kind::Composite { sources, size, .. } => {
            let first = first_composites(sources, *size, buckets)?;
            Ok(all_of(first))
        }
        Kind::Filters { .. }
        | Kind::Filter { .. }
        | Kind::Missing { .. }
        | Kind::Global
        | Kind::Nested { .. }
        | Kind::ReverseNested { .. }
        | Kind::Sum { .. }
        | Kind::Min { .. }
        | Kind::Max { .. }
        | Kind::Avg { .. }
        | Kind::ValueCount { .. } => Ok(all_of(buckets)),
    }
}
