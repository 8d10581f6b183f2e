//! The answers to aggregations, with the answers below their buckets.
ghost use Rattle.std.specs.Prelude.{◌≡◌, [], ◌∷◌, ◌++◌, IfOk, IsTrue, codes, map, flat_map, zip, option_to_list, option_copied, slice_get};
ghost use Rattle.std.specs.List.{list_all};
ghost use Rattle.serde_json.specs.View.{view, members_view};
ghost use Rattle.agg_model.specs.declared.answer.BucketAnswer.{out-BucketAnswer};
ghost use Rattle.agg_model.specs.declared.answer.NodeAnswer.{out-NodeAnswer};
ghost use Rattle.agg_spec.specs.AnswerTree as tree;
ghost use Rattle.agg_spec.specs.Average.{average};
ghost use Rattle.agg_spec.specs.Json.{with_members, object_of, array_of, count, whole_number};
ghost use Rattle.agg_spec.specs.RangeCheck.{checker, check_each, check_bucket, is_in_range, key_in_range};
ghost use Rattle.agg_response.specs.Buckets.{bucket_tree, histogram_buckets, own_members};
ghost use Rattle.agg_response.specs.Seen.{seen_notes};

use crate::buckets::with_bucket;
use crate::keys::{composite_value, key_name};
use crate::notes::{Seen, part, with_notes};
use crate::numbers::{average_value, integer_value, optional_value, wide_value};
use crate::values::{Array, Json, Object, count_value};
use agg_model::{
    Agg, BucketAnswer, CompositeSource, Kind, List, Mapping, Metric, NodeAnswer, Text,
};
use std::alloc::{AllocError, Global};

/// An object with one member.
fn only(alloc: Global, name: &str, json: Json) -> Result<Json, AllocError>
    ensures { IfOk result (λ j. view j.value ≡ object_of ((name.now, view json.value) ∷ [])) }
{
    Ok(Object::new(alloc).with(alloc, name, json)?.into_json())
}

/// The answer to `terms`, given its buckets as a list.
fn terms_object(alloc: Global, node: &NodeAnswer, buckets: Json) -> Result<Json, AllocError>
    ensures { IfOk result (λ j. view j.value ≡ object_of ((codes "buckets", view buckets.value)
        ∷ (codes "doc_count_error_upper_bound", whole_number (out-NodeAnswer node.now).error)
        ∷ (codes "sum_other_doc_count", count (out-NodeAnswer node.now).other) ∷ [])) }
{
    Ok(
        Object::new(alloc)
            .with(alloc, "buckets", buckets)?
            .with(
                alloc,
                "doc_count_error_upper_bound",
                integer_value(node.error),
            )?
            .with_count(alloc, "sum_other_doc_count", node.other)?
            .into_json(),
    )
}

/// The answer to `sum`.
fn sum_object(alloc: Global, metric: Metric) -> Result<Json, AllocError>
    requires { IsTrue (is_in_range metric.sum) }
    ensures { IfOk result (λ j. view j.value ≡ object_of ((codes "value", whole_number metric.sum) ∷ [])) }
{
    only(alloc, "value", wide_value(metric.sum))
}

/// The answer to `avg`.
fn average_object(alloc: Global, metric: Metric) -> Result<Json, AllocError>
    requires { IsTrue (is_in_range metric.sum) }
    ensures { IfOk result (λ j. view j.value ≡ object_of ((codes "count", count metric.count) ∷ (codes "sum", whole_number metric.sum)
        ∷ (codes "value_as_string", average metric.sum metric.count) ∷ [])) }
{
    Ok(
        Object::new(alloc)
            .with_count(alloc, "count", metric.count)?
            .with(alloc, "sum", wide_value(metric.sum))?
            .with(
                alloc,
                "value_as_string",
                average_value(alloc, metric.sum, metric.count)?,
            )?
            .into_json(),
    )
}

/// The object with the last bucket's key, where there is a bucket.
fn with_after_key(
    alloc: Global,
    object: Object,
    sources: &List<CompositeSource>,
    buckets: &List<BucketAnswer>,
) -> Result<Object, AllocError>
    requires { IsTrue (list_all (λ b. key_in_range (out-BucketAnswer b).key) buckets.now) }
    ensures { IfOk result (λ o. members_view o.members.entries
        ≡ with_members (tree.after_key sources.now buckets.now) (members_view object.members.entries)) }
{
    match buckets.as_slice().last() {
        Some(bucket) => object.with(
            alloc,
            "after_key",
            composite_value(alloc, sources, &bucket.key)?,
        ),
        None => Ok(object),
    }
}

/// The answer to `composite`, given its buckets as a list too.
fn composite_object(
    alloc: Global,
    sources: &List<CompositeSource>,
    buckets: &List<BucketAnswer>,
    listed: Json,
) -> Result<Json, AllocError>
    requires { IsTrue (list_all (λ b. key_in_range (out-BucketAnswer b).key) buckets.now) }
    ensures { IfOk result (λ j. view j.value ≡ object_of (tree.after_key sources.now buckets.now ++ (codes "buckets", view listed.value) ∷ [])) }
{
    let object = with_after_key(alloc, Object::new(alloc), sources, buckets)?;
    Ok(object.with(alloc, "buckets", listed)?.into_json())
}

/// The name of the bucket at a place: first the filters' names, and then the other bucket's.
fn name_at<'a>(names: &'a List<Text>, other: &'a Option<Text>, place: usize) -> Option<&'a Text>
    ensures { option_copied result ≡ slice_get (names.now ++ option_to_list other.now) place }
{
    match names.get(place) {
        Some(name) => Some(name),
        None if place == names.len() => other.as_ref(),
        None => None,
    }
}

/// The object with the answers to these aggregations and the notes in it, each under its name; there may be fewer answers
/// than aggregations.
#[cycle(answers)]
pub(crate) fn with_answers(
    alloc: Global,
    mapping: &Mapping,
    nodes: &List<NodeAnswer>,
    aggs: &List<Agg>,
    seen: &Seen<'_>,
    object: Object,
) -> Result<Object, AllocError>
    requires { check_each (map checker aggs.now) nodes.now ≡ [] }
    ensures { IfOk result (λ o. members_view o.members.entries
        ≡ with_members (tree.object_members (map (tree.printer mapping.now) aggs.now) (seen_notes seen.now) nodes.now) (members_view object.members.entries)) }
{
    let none = Seen::none(alloc);
    let parts = seen.parts(alloc, nodes.len())?;
    let mut object = object;
    for (place, agg) in aggs.as_slice().iter().enumerate() {
        let Some(node) = nodes.get(place) else {
            return with_notes(alloc, seen, object);
        };
        let inner = part(parts.as_slice(), place, &none);
        object = object.with(
            alloc,
            node.name.as_str(),
            answer_value(alloc, mapping, node, agg, inner)?,
        )?;
    }
    with_notes(alloc, seen, object)
}

/// A bucket with the answers below it.
#[cycle(answers)]
fn bucket_value(
    alloc: Global,
    mapping: &Mapping,
    bucket: &BucketAnswer,
    kind: &Kind,
    children: &List<Agg>,
    seen: &Seen<'_>,
) -> Result<Json, AllocError>
    requires { check_bucket (map checker children.now) bucket.now ≡ [] }
    ensures { IfOk result (λ j. view j.value
        ≡ bucket_tree mapping.now kind.now (map (tree.printer mapping.now) children.now) (record { bucket = bucket.now; notes = seen_notes seen.now })) }
{
    let object = with_bucket(alloc, mapping, Object::new(alloc), kind, bucket)?;
    Ok(with_answers(alloc, mapping, &bucket.children, children, seen, object)?.into_json())
}

/// Buckets as a list.
#[cycle(answers)]
fn bucket_list(
    alloc: Global,
    mapping: &Mapping,
    buckets: &List<BucketAnswer>,
    kind: &Kind,
    children: &List<Agg>,
    seen: &Seen<'_>,
) -> Result<Json, AllocError>
    requires { flat_map (check_bucket (map checker children.now)) buckets.now ≡ [] }
    ensures { IfOk result (λ j. view j.value
        ≡ array_of (map (bucket_tree mapping.now kind.now (map (tree.printer mapping.now) children.now))
        (tree.noted_buckets (seen_notes seen.now) buckets.now))) }
{
    let none = Seen::none(alloc);
    let parts = seen.parts(alloc, buckets.len())?;
    let mut values = Array::new(alloc);
    for (place, bucket) in buckets.as_slice().iter().enumerate() {
        let inner = part(parts.as_slice(), place, &none);
        values = values.with(bucket_value(alloc, mapping, bucket, kind, children, inner)?)?;
    }
    Ok(values.into_json())
}

/// Buckets under the texts of their keys, which are instants where there is a zone.
#[cycle(answers)]
fn keyed_buckets(
    alloc: Global,
    mapping: &Mapping,
    zone: Option<i64>,
    buckets: &List<BucketAnswer>,
    kind: &Kind,
    children: &List<Agg>,
    seen: &Seen<'_>,
) -> Result<Json, AllocError>
    requires { flat_map (check_bucket (map checker children.now)) buckets.now ≡ [] }
    ensures { IfOk result (λ j. view j.value ≡ object_of (map (λ b. (
      tree.key_name zone (out-BucketAnswer b.bucket).key,
      bucket_tree mapping.now kind.now (map (tree.printer mapping.now) children.now) b,
    )) (tree.noted_buckets (seen_notes seen.now) buckets.now))) }
{
    let none = Seen::none(alloc);
    let parts = seen.parts(alloc, buckets.len())?;
    let mut object = Object::new(alloc);
    for (place, bucket) in buckets.as_slice().iter().enumerate() {
        let inner = part(parts.as_slice(), place, &none);
        let name = key_name(alloc, zone, &bucket.key)?;
        object = object.with(
            alloc,
            name.as_str(),
            bucket_value(alloc, mapping, bucket, kind, children, inner)?,
        )?;
    }
    Ok(object.into_json())
}

/// The answer to a histogram, whose keys are instants where there is a zone.
#[cycle(answers)]
fn histogram_value(
    alloc: Global,
    mapping: &Mapping,
    zone: Option<i64>,
    keyed: bool,
    buckets: &List<BucketAnswer>,
    kind: &Kind,
    children: &List<Agg>,
    seen: &Seen<'_>,
) -> Result<Json, AllocError>
    requires { flat_map (check_bucket (map checker children.now)) buckets.now ≡ [] }
    ensures { IfOk result (λ j. view j.value ≡ object_of ((
      codes "buckets",
      histogram_buckets mapping.now kind.now (map (tree.printer mapping.now) children.now) zone keyed (tree.noted_buckets (seen_notes seen.now) buckets.now),
    ) ∷ [])) }
{
    if keyed {
        let named = keyed_buckets(alloc, mapping, zone, buckets, kind, children, seen)?;
        return only(alloc, "buckets", named);
    }
    let listed = bucket_list(alloc, mapping, buckets, kind, children, seen)?;
    only(alloc, "buckets", listed)
}

/// Buckets under the names of their filters, the other bucket last.
#[cycle(answers)]
fn named_buckets(
    alloc: Global,
    mapping: &Mapping,
    buckets: &List<BucketAnswer>,
    names: &List<Text>,
    other: &Option<Text>,
    kind: &Kind,
    children: &List<Agg>,
    seen: &Seen<'_>,
) -> Result<Json, AllocError>
    requires { flat_map (check_bucket (map checker children.now)) buckets.now ≡ [] }
    ensures { IfOk result (λ j. view j.value ≡ object_of (map (λ b. (
      b.0,
      bucket_tree mapping.now kind.now (map (tree.printer mapping.now) children.now) b.1,
    )) (zip (names.now ++ option_to_list other.now) (tree.noted_buckets (seen_notes seen.now) buckets.now)))) }
{
    let none = Seen::none(alloc);
    let parts = seen.parts(alloc, buckets.len())?;
    let mut object = Object::new(alloc);
    for (place, bucket) in buckets.as_slice().iter().enumerate() {
        let inner = part(parts.as_slice(), place, &none);
        let Some(name) = name_at(names, other, place) else {
            return Ok(object.into_json());
        };
        object = object.with(
            alloc,
            name.as_str(),
            bucket_value(alloc, mapping, bucket, kind, children, inner)?,
        )?;
    }
    Ok(object.into_json())
}

/// The members of the buckets of a kind that has one.
#[cycle(answers)]
fn single_bucket(
    alloc: Global,
    mapping: &Mapping,
    buckets: &List<BucketAnswer>,
    kind: &Kind,
    children: &List<Agg>,
    seen: &Seen<'_>,
) -> Result<Json, AllocError>
    requires { flat_map (check_bucket (map checker children.now)) buckets.now ≡ [] }
    ensures { IfOk result (λ j. view j.value ≡ object_of (flat_map (λ b.
        tree.bucket_members (map (tree.printer mapping.now) children.now) (own_members mapping.now kind.now b.bucket) b)
        (tree.noted_buckets (seen_notes seen.now) buckets.now))) }
{
    let none = Seen::none(alloc);
    let parts = seen.parts(alloc, buckets.len())?;
    let mut object = Object::new(alloc);
    for (place, bucket) in buckets.as_slice().iter().enumerate() {
        let inner = part(parts.as_slice(), place, &none);
        object = with_bucket(alloc, mapping, object, kind, bucket)?;
        object = with_answers(alloc, mapping, &bucket.children, children, inner, object)?;
    }
    Ok(object.into_json())
}

/// The answer to one aggregation, with the notes below it.
#[cycle(answers)]
fn answer_value(
    alloc: Global,
    mapping: &Mapping,
    node: &NodeAnswer,
    agg: &Agg,
    seen: &Seen<'_>,
) -> Result<Json, AllocError>
    requires { checker agg.now node.now ≡ [] }
    ensures { IfOk result (λ j. view j.value ≡ tree.printer mapping.now agg.now (seen_notes seen.now) node.now) }
{
    match &agg.kind {
        Kind::Terms { .. } => {
            let buckets = bucket_list(
                alloc,
                mapping,
                &node.buckets,
                &agg.kind,
                &agg.children,
                seen,
            )?;
            terms_object(alloc, node, buckets)
        }
        Kind::Histogram { keyed, .. } => histogram_value(
            alloc,
            mapping,
            None,
            *keyed,
            &node.buckets,
            &agg.kind,
            &agg.children,
            seen,
        ),
        Kind::DateHistogram { zone, keyed, .. } => histogram_value(
            alloc,
            mapping,
            Some(*zone),
            *keyed,
            &node.buckets,
            &agg.kind,
            &agg.children,
            seen,
        ),
        Kind::Filters { names, other, .. } => {
            let Some(names) = names else {
                let anonymous = bucket_list(
                    alloc,
                    mapping,
                    &node.buckets,
                    &agg.kind,
                    &agg.children,
                    seen,
                )?;
                return only(alloc, "buckets", anonymous);
            };
            let filtered = named_buckets(
                alloc,
                mapping,
                &node.buckets,
                names,
                other,
                &agg.kind,
                &agg.children,
                seen,
            )?;
            only(alloc, "buckets", filtered)
        }
        Kind::Composite { sources, .. } => {
            let page = bucket_list(
                alloc,
                mapping,
                &node.buckets,
                &agg.kind,
                &agg.children,
                seen,
            )?;
            composite_object(alloc, sources, &node.buckets, page)
        }
        Kind::Sum { .. } => sum_object(alloc, node.metric),
        Kind::Min { .. } => only(alloc, "value", optional_value(node.metric.least)),
        Kind::Max { .. } => only(alloc, "value", optional_value(node.metric.greatest)),
        Kind::Avg { .. } => average_object(alloc, node.metric),
        Kind::ValueCount { .. } => only(alloc, "value", count_value(node.metric.count)),
        Kind::Filter { .. } => single_bucket(
            alloc,
            mapping,
            &node.buckets,
            &agg.kind,
            &agg.children,
            seen,
        ),
        Kind::Missing { .. } => single_bucket(
            alloc,
            mapping,
            &node.buckets,
            &agg.kind,
            &agg.children,
            seen,
        ),
        Kind::Global => single_bucket(
            alloc,
            mapping,
            &node.buckets,
            &agg.kind,
            &agg.children,
            seen,
        ),
        Kind::Nested { .. } => single_bucket(
            alloc,
            mapping,
            &node.buckets,
            &agg.kind,
            &agg.children,
            seen,
        ),
        Kind::ReverseNested { .. } => {
            single_bucket(
                alloc,
                mapping,
                &node.buckets,
                &agg.kind,
                &agg.children,
                seen,
            )
        }
    }
}
