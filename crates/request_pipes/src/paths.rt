//! The paths of pipelines, looked up among the aggregations beside them ('Pipeline aggregations', `buckets_path`).
ghost use Rattle.std.specs.Prelude.{◌≡◌, ◌≤◌, ◌+◌, [], IfSome, drop, is_some, length, option_map};
ghost use Rattle.agg_model.specs.declared.aggregation.Agg.{out-Agg};
ghost use Rattle.agg_reading.specs.PipePaths.{begins_with, has_bucket_paths, resolved_kind, sibling_from, sibling_path, sort_paths, value_path};
ghost use Rattle.agg_reading.specs.Reading.{Gives};
ghost use Rattle.request_pipes.specs.Children.{HasFewChildren, HaveFewChildren};

use agg_model::body_refusal::NO_SUCH_PIPE_PATH;
use agg_model::limits::MAX_AGGREGATIONS;
use agg_model::{Agg, Kind, List, PipeKind, PipeOrder, PipePath};
use agg_reading::{NamedOrder, NamedPath, ReadPipeKind, RequestFault};
use json_walk::At;
use request_kinds::child_named;
use std::alloc::Global;

/// The value that a text names: `_count`, or a metric among these by its name, or by its name and `.value`. Anything else
/// is refused with `NO_SUCH_PIPE_PATH` at `at`.
#[tactic(auto, unfolding(agg_reading::specs::PipePaths::value_path))]
fn value_path(
    alloc: Global,
    children: &[Agg],
    at: &str,
    name: &str,
) -> Result<PipePath, RequestFault>
    requires { length children.now ≤ MAX_AGGREGATIONS }
    ensures { Gives (λ p. p) result (value_path children.now at.now name.now) }
{
    if name == "_count" {
        return Ok(PipePath::Count);
    }
    match child_named(children, name) {
        Some(place) => Ok(PipePath::Child(place)),
        None => At::Start(at).refuse(alloc, NO_SUCH_PIPE_PATH),
    }
}

/// Whether a path may name the buckets of such an aggregation.
fn has_bucket_paths(kind: &Kind) -> bool
    ensures { result ≡ has_bucket_paths kind.now }
{
    match kind {
        Kind::Terms { .. } | Kind::Histogram { .. } | Kind::DateHistogram { .. } => true,
        Kind::Filters { .. }
        | Kind::Filter { .. }
        | Kind::Missing { .. }
        | Kind::Global
        | Kind::Nested { .. }
        | Kind::ReverseNested { .. }
        | Kind::Composite { .. }
        | Kind::Sum { .. }
        | Kind::Min { .. }
        | Kind::Max { .. }
        | Kind::Avg { .. }
        | Kind::ValueCount { .. } => false,
    }
}

/// What stands behind a name and `>`; none where the path does not begin so.
fn behind<'p>(front: &str, path: &'p str) -> Option<&'p str>
    ensures begins { is_some result ≡ begins_with front.now path.now }
    ensures rest { IfSome result (λ r. r.now ≡ drop (length front.now + 1) path.now) }
{
    path.strip_prefix(front)?.strip_prefix(">")
}

/// An aggregation beside a pipeline, its place, and what a path that begins with it says behind its name and `>`.
#[derive(Clone, Copy)]
struct Beginning<'a> {
    place: u32,
    agg: &'a Agg,
    rest: &'a str,
}

/// The first aggregation with buckets that the path begins with.
#[tactic(auto, unfolding(agg_reading::specs::PipePaths::sibling_from))]
fn sibling_of<'a>(aggs: &'a [Agg], path: &'a str) -> Option<Beginning<'a>>
    requires few { length aggs.now ≤ MAX_AGGREGATIONS }
    requires below { HaveFewChildren aggs.now }
    ensures found { option_map (λ b. (b.place, b.agg.now)) result ≡ sibling_from 0 path.now aggs.now }
    ensures rest { IfSome result (λ b. b.rest.now ≡ drop (length (out-Agg b.agg.now).name + 1) path.now) }
    ensures few { IfSome result (λ b. HasFewChildren b.agg.now) }
{
    for (place, agg) in aggs.iter().enumerate() {
        if !has_bucket_paths(&agg.kind) {
            continue;
        }
        if let Some(rest) = behind(agg.name.as_str(), path) {
            return Some(Beginning {
                place: place as u32,
                agg,
                rest,
            });
        }
    }
    None
}

/// The aggregation beside a pipeline that its path names, and the value of its buckets. Refused with `NO_SUCH_PIPE_PATH`.
#[tactic(auto, unfolding(agg_reading::specs::PipePaths::sibling_path))]
fn sibling_path(
    alloc: Global,
    aggs: &[Agg],
    path: &NamedPath,
) -> Result<(u32, PipePath), RequestFault>
    requires few { length aggs.now ≤ MAX_AGGREGATIONS }
    requires below { HaveFewChildren aggs.now }
    ensures { Gives (λ p. p) result (sibling_path aggs.now path.now) }
{
    let at = path.at.as_str();
    let Some(found) = sibling_of(aggs, path.path.as_str()) else {
        return At::Start(at).refuse(alloc, NO_SUCH_PIPE_PATH);
    };
    let value = value_path(alloc, found.agg.children.as_slice(), at, found.rest)?;
    Ok((found.place, value))
}

/// The orders of a `bucket_sort`, each by the value that it names.
#[tactic(auto, unfolding(agg_reading::specs::PipePaths::sort_paths))]
fn sort_paths(
    alloc: Global,
    aggs: &[Agg],
    sort: &[NamedOrder],
) -> Result<List<PipeOrder>, RequestFault>
    requires { length aggs.now ≤ MAX_AGGREGATIONS }
    ensures { Gives (λ os. os) result (sort_paths aggs.now [] sort.now) }
{
    let mut orders = List::new(alloc);
    for order in sort {
        let path = value_path(alloc, aggs, order.at.as_str(), order.name.as_str())?;
        orders.push(PipeOrder {
            path,
            descending: order.descending,
        })?;
    }
    Ok(orders)
}

/// What a pipeline does, its paths looked up among the aggregations beside it. The first that names no value there is
/// refused with `NO_SUCH_PIPE_PATH` where it stands.
#[tactic(auto, unfolding(agg_reading::specs::PipePaths::resolved_kind))]
pub(crate) fn resolved_kind(
    alloc: Global,
    aggs: &[Agg],
    kind: &ReadPipeKind,
) -> Result<PipeKind, RequestFault>
    requires few { length aggs.now ≤ MAX_AGGREGATIONS }
    requires below { HaveFewChildren aggs.now }
    ensures { Gives (λ k. k) result (resolved_kind aggs.now kind.now) }
{
    match kind {
        ReadPipeKind::CumulativeSum(said) => {
            let path = value_path(alloc, aggs, said.at.as_str(), said.path.as_str())?;
            Ok(PipeKind::CumulativeSum { path })
        }
        ReadPipeKind::Derivative(said) => {
            let path = value_path(alloc, aggs, said.at.as_str(), said.path.as_str())?;
            Ok(PipeKind::Derivative { path })
        }
        ReadPipeKind::SumBucket(said) => {
            let (sibling, path) = sibling_path(alloc, aggs, said)?;
            Ok(PipeKind::SumBucket { sibling, path })
        }
        ReadPipeKind::MinBucket(said) => {
            let (sibling, path) = sibling_path(alloc, aggs, said)?;
            Ok(PipeKind::MinBucket { sibling, path })
        }
        ReadPipeKind::MaxBucket(said) => {
            let (sibling, path) = sibling_path(alloc, aggs, said)?;
            Ok(PipeKind::MaxBucket { sibling, path })
        }
        ReadPipeKind::BucketSort { sort, from, size } => Ok(PipeKind::BucketSort {
            sort: sort_paths(alloc, aggs, sort.as_slice())?,
            from: *from,
            size: *size,
        }),
    }
}
