//! What pipelines say of the buckets of the aggregation beside them ('Sum bucket aggregation', 'Min bucket aggregation', 'Max
//! bucket aggregation').
ghost use Rattle.std.specs.Prelude.{◌≡◌, ◌<◌, ◌∷◌, ◌++◌, [], List as Items, IfOk, IfSome, codes, length, map, slice_index_or};
ghost use Rattle.agg_model.specs.declared.aggregation.Agg.{Agg as AnyAgg};
ghost use Rattle.agg_model.specs.declared.answer.NodeAnswer.{NodeAnswer as AnyNode};
ghost use Rattle.agg_spec.specs.Notes.{piper};
ghost use Rattle.agg_spec.specs.Pipelines.{greatest_value as greatest_of, least_value as least_of, values_of};
ghost use Rattle.agg_spec.specs.Remarks.{remark_of, sibling_buckets as buckets_of, sibling_says};
ghost use Rattle.bucket_order.specs.Kinds.{child_kinds};
ghost use Rattle.pipeline_agg.specs.Bounds.{AreBucketsInRange, AreInRange, children_at};
ghost use Rattle.pipeline_agg.specs.Summaries.{AreOf, extreme, summary_of, total};
ghost use Rattle.pipeline_agg.specs.Told.{IsSaid};
ghost use Rattle.pipeline_agg.specs.declared.summaries.Known.{Known as AnyKnown};

use crate::extremes::{greatest_value, keys_with, least_value};
use crate::remarked::Said;
use crate::summaries::{Known, Siblings, Summary};
use crate::values::sum_of_values;
use agg_model::{
    Agg, BucketAnswer, Copying, Key, List, NodeAnswer, Note, Pipe, PipeKind, PipePath, Text,
};
use std::alloc::{AllocError, Global};

/// The path of a pipeline from its own object on.
fn own_path(alloc: Global, name: &Text) -> Result<Text, AllocError>
    ensures { IfOk result (λ path. path ≡ codes "/" ++ name.now) }
{
    let mut path = String::new(alloc);
    path.push_str("/")?;
    path.push_str(name.as_str())?;
    Ok(Text::from_string(path))
}

/// The note of a value and its keys in the pipeline's object, or the pipeline's path where the value lies outside signed
/// 64 bits.
pub(crate) fn said(
    alloc: Global,
    pipe: &Pipe,
    value: Option<i128>,
    keys: List<Key>,
) -> Result<Said, AllocError>
    ensures { IfOk result (IsSaid (remark_of pipe.now value keys ∷ [])) }
{
    let value = match value {
        None => None,
        Some(number) => match i64::try_from(number) {
            Ok(number) => Some(number),
            Err(_) => return Ok(Said::Wide(own_path(alloc, &pipe.name)?)),
        },
    };
    let mut notes = List::new(alloc);
    notes.push(Note {
        at: List::new(alloc),
        name: pipe.name.copy(alloc)?,
        value,
        keys,
    })?;
    Ok(Said::Notes(notes))
}

/// The aggregation beside a pipeline, by those below it and its buckets.
#[derive(Clone, Copy)]
struct Sibling<'a> {
    children: &'a List<Agg>,
    buckets: &'a [BucketAnswer],
}

impl<'a> Sibling<'a> {
    /// The aggregation at a place. Where there is none, none is below it; where it has no answer, there is no bucket.
    fn at(
        place: u32,
        aggs: &'a List<Agg>,
        nodes: &'a List<NodeAnswer>,
        none: &'a List<Agg>,
    ) -> Sibling<'a>
        requires { none.now ≡ [] }
        ensures children { result.children.now ≡ children_at place aggs.now }
        ensures buckets { result.buckets.now ≡ buckets_of place nodes.now }
    {
        let children = match aggs.get(place as usize) {
            Some(agg) => &agg.children,
            None => none,
        };
        let buckets = match nodes.get(place as usize) {
            Some(node) => node.buckets.as_slice(),
            None => &[],
        };
        Sibling { children, buckets }
    }
}

/// The sum of the values of a sibling's buckets; 0 where there is none.
fn total_in(alloc: Global, path: PipePath, sibling: Sibling<'_>) -> Summary
    requires in_range { AreBucketsInRange sibling.children.now sibling.buckets.now }
    ensures { result ≡ total (child_kinds sibling.entry.children.now) path sibling.entry.buckets.now }
{
    Summary {
        value: Some(sum_of_values(sibling.children, path, sibling.buckets)),
        keys: List::new(alloc),
    }
}

/// The least value of a sibling's buckets, and the keys of those that have it.
fn least_in(alloc: Global, path: PipePath, sibling: Sibling<'_>) -> Result<Summary, AllocError>
    ensures { IfOk result (λ s. s ≡ extreme (child_kinds sibling.entry.children.now) path
        (least_of (values_of (child_kinds sibling.entry.children.now) path sibling.entry.buckets.now)) sibling.entry.buckets.now) }
{
    let value = least_value(sibling.children, path, sibling.buckets);
    let keys = keys_with(alloc, sibling.children, path, value, sibling.buckets)?;
    Ok(Summary { value, keys })
}

/// The greatest value of a sibling's buckets, and the keys of those that have it.
fn greatest_in(alloc: Global, path: PipePath, sibling: Sibling<'_>) -> Result<Summary, AllocError>
    ensures { IfOk result (λ s. s ≡ extreme (child_kinds sibling.entry.children.now) path
        (greatest_of (values_of (child_kinds sibling.entry.children.now) path sibling.entry.buckets.now)) sibling.entry.buckets.now) }
{
    let value = greatest_value(sibling.children, path, sibling.buckets);
    let keys = keys_with(alloc, sibling.children, path, value, sibling.buckets)?;
    Ok(Summary { value, keys })
}

/// What pipelines of this kind say of the buckets of the aggregation beside them; none where they are no siblings.
fn summary_in(
    alloc: Global,
    aggs: &List<Agg>,
    nodes: &List<NodeAnswer>,
    kind: &PipeKind,
) -> Result<Option<Summary>, AllocError>
    requires in_range { AreInRange aggs.now nodes.now }
    ensures { IfOk result (λ s. s ≡ summary_of (map piper aggs.now) nodes.now kind.now) }
{
    let none = List::new(alloc);
    match kind {
        PipeKind::SumBucket { sibling, path } => {
            let beside = Sibling::at(*sibling, aggs, nodes, &none);
            Ok(Some(total_in(alloc, *path, beside)))
        }
        PipeKind::MinBucket { sibling, path } => {
            let beside = Sibling::at(*sibling, aggs, nodes, &none);
            Ok(Some(least_in(alloc, *path, beside)?))
        }
        PipeKind::MaxBucket { sibling, path } => {
            let beside = Sibling::at(*sibling, aggs, nodes, &none);
            Ok(Some(greatest_in(alloc, *path, beside)?))
        }
        PipeKind::CumulativeSum { .. }
        | PipeKind::Derivative { .. }
        | PipeKind::BucketSort { .. } => Ok(None),
    }
}

impl<'o, 'p> Siblings<'o, 'p> {
    /// The answers of an object, of which nothing is summed up yet. It takes no memory.
    pub(crate) fn new(
        alloc: Global,
        aggs: &'o List<Agg>,
        nodes: &'o List<NodeAnswer>,
    ) -> Siblings<'o, 'p>
        requires in_range { AreInRange aggs.now nodes.now }
        ensures { AreOf aggs.now nodes.now result }
    {
        Siblings {
            aggs,
            nodes,
            known: Vec::new(alloc),
        }
    }

    /// Where what pipelines of this kind say stands among what is known, none where it does not.
    fn find(&self, kind: &PipeKind) -> Option<usize>
        ensures place { IfSome result (λ i. i < length self.now.known.items) }
        ensures kind { IfSome result (λ i. (d : AnyKnown) → (slice_index_or self.now.known.items i d).kind.now ≡ kind.now) }
    {
        for (place, known) in self.known.iter().enumerate() {
            if *known.kind == *kind {
                return Some(place);
            }
        }
        None
    }

    /// Where what pipelines of this kind say stands, summed up where it is not known yet.
    fn place_of(&mut self, alloc: Global, kind: &'p PipeKind) -> Result<usize, AllocError>
        ensures place { IfOk result (λ i. i < length self.new.known.items) }
        ensures summary { IfOk result (λ i. (aggs : Items AnyAgg) (nodes : Items AnyNode) → AreOf aggs nodes self.old → (d : AnyKnown) →
            (slice_index_or self.new.known.items i d).summary ≡ summary_of (map piper aggs) nodes kind.now) }
        ensures of { (aggs : Items AnyAgg) (nodes : Items AnyNode) → AreOf aggs nodes self.old → AreOf aggs nodes self.new }
    {
        if let Some(place) = self.find(kind) {
            return Ok(place);
        }
        let place = self.known.len();
        let summary = summary_in(alloc, self.aggs, self.nodes, kind)?;
        self.known.push(Known { kind, summary })?;
        Ok(place)
    }

    /// What a pipeline says of the buckets of the aggregation beside it; one that is no sibling says nothing.
    pub(crate) fn said(&mut self, alloc: Global, pipe: &'p Pipe) -> Result<Said, AllocError>
        ensures told { (aggs : Items AnyAgg) (nodes : Items AnyNode) → AreOf aggs nodes self.old →
            IfOk result (IsSaid (sibling_says (map piper aggs) nodes pipe.now pipe.now.kind)) }
        ensures of { (aggs : Items AnyAgg) (nodes : Items AnyNode) → AreOf aggs nodes self.old → AreOf aggs nodes self.new }
    {
        let place = self.place_of(alloc, &pipe.kind)?;
        match &self.known[place].summary {
            Some(summary) => said(alloc, pipe, summary.value, summary.keys.copy(alloc)?),
            None => Ok(Said::Notes(List::new(alloc))),
        }
    }
}
