//! What a bucket prints beside the answers below it.
ghost use Rattle.std.specs.Prelude.{◌≡◌, ◌∷◌, IfOk, IsTrue, codes};
ghost use Rattle.serde_json.specs.Data.{no_members};
ghost use Rattle.serde_json.specs.View.{members_view};
ghost use Rattle.agg_model.specs.declared.answer.BucketAnswer.{out-BucketAnswer};
ghost use Rattle.agg_spec.specs.AnswerTree.{error_members};
ghost use Rattle.agg_spec.specs.Json.{with_members, count};
ghost use Rattle.agg_spec.specs.RangeCheck.{key_in_range};
ghost use Rattle.agg_response.specs.Buckets as tree;

use crate::keys::{composite_value, with_term_key, zone_of_terms};
use crate::numbers::integer_value;
use crate::values::Object;
use agg_model::{BucketAnswer, Kind, Mapping};
use std::alloc::{AllocError, Global};

/// The object with the error of a bucket, where it is to be shown and is known.
fn with_error(
    alloc: Global,
    object: Object,
    shown: bool,
    error: Option<i64>,
) -> Result<Object, AllocError>
    ensures { IfOk result (λ o. members_view o.members.entries
        ≡ with_members (error_members shown error) (members_view object.members.entries)) }
{
    match error {
        Some(error) if shown => {
            object.with(alloc, "doc_count_error_upper_bound", integer_value(error))
        }
        _ => Ok(object),
    }
}

/// The object with the members that a bucket has of its kind.
fn with_own(
    alloc: Global,
    mapping: &Mapping,
    object: Object,
    kind: &Kind,
    bucket: &BucketAnswer,
) -> Result<Object, AllocError>
    requires { IsTrue (key_in_range (out-BucketAnswer bucket.now).key) }
    ensures { IfOk result (λ o. members_view o.members.entries
        ≡ with_members (tree.own_members mapping.now kind.now bucket.now) (members_view object.members.entries)) }
{
    match kind {
        Kind::Terms {
            field,
            show_error,
            ..
        } => {
            let keyed = with_term_key(alloc, object, zone_of_terms(mapping, *field), &bucket.key)?;
            with_error(alloc, keyed, *show_error, bucket.error)
        }
        Kind::Histogram { .. } => with_term_key(alloc, object, None, &bucket.key),
        Kind::DateHistogram { zone, .. } => {
            with_term_key(alloc, object, Some(*zone), &bucket.key)
        }
        Kind::Composite { sources, .. } => {
            let key = composite_value(alloc, sources, &bucket.key)?;
            object.with(alloc, "key", key)
        }
        Kind::Filters { .. }
        | Kind::Filter { .. }
        | Kind::Missing { .. }
        | Kind::Global
        | Kind::Nested { .. }
        | Kind::ReverseNested { .. }
        | Kind::Sum { .. }
        | Kind::Min { .. }
        | Kind::Max { .. }
        | Kind::Avg { .. }
        | Kind::ValueCount { .. } => Ok(object),
    }
}

/// The object with all members of a bucket but the answers below it.
pub(crate) fn with_bucket(
    alloc: Global,
    mapping: &Mapping,
    object: Object,
    kind: &Kind,
    bucket: &BucketAnswer,
) -> Result<Object, AllocError>
    requires { IsTrue (key_in_range (out-BucketAnswer bucket.now).key) }
    ensures { IfOk result (λ o. members_view o.members.entries
        ≡ with_members ((codes "doc_count", count (out-BucketAnswer bucket.now).count) ∷ tree.own_members mapping.now kind.now bucket.now)
        (members_view object.members.entries)) }
{
    let counted = object.with_count(alloc, "doc_count", bucket.count)?;
    with_own(alloc, mapping, counted, kind, bucket)
}
