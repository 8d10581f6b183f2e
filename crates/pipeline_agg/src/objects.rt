//! One object of an answer after another: the answers in it, their buckets, and what the pipelines say there.
ghost use Rattle.std.specs.Prelude.{◌≡◌, [], IfOk, OnOk, flat_map, length, map};
ghost use Rattle.agg_model.specs.declared.answer.BucketAnswer.{out-BucketAnswer};
ghost use Rattle.agg_spec.specs.RangeCheck.{check_bucket, checker};
ghost use Rattle.pipeline_agg.specs.Bounds.{AreInRange};
ghost use Rattle.pipeline_agg.specs.Entries.{view_of};
ghost use Rattle.pipeline_agg.specs.Objects.{AreBuckets, AreNodes, IsBucket, IsKept, IsNode, IsObject, items_of};
ghost use Rattle.pipeline_agg.specs.Placed.{IsLevel, pipes_of};

use crate::arranging::arrange;
use crate::entries::{Entry, Teller, bucket_entries, in_order, path_below, tellers, with_own};
use crate::fault::PipeFault;
use crate::placed::{Level, Placed};
use crate::places::{all_from_around, apart};
use crate::remarked::{RemarkedBucket, Said};
use agg_model::{Agg, BucketAnswer, List, NodeAnswer, Note};
use std::alloc::{AllocError, Global};

/// The answer of one aggregation with the notes below it, whose places begin with that of a bucket.
#[derive(Drop)]
pub struct RemarkedNode {
    pub(crate) node: NodeAnswer,
    pub(crate) notes: List<Note>,
}

/// The answers of one object, with what prints under the names of their aggregations. Where a value below an answer is outside
/// signed 64 bits, the answer is gone.
#[derive(Drop)]
pub struct RemarkedNodes<'n> {
    pub(crate) nodes: List<NodeAnswer>,
    pub(crate) entries: Vec<Entry<'n>>,
}

/// The answers of one object with its notes, in the order in which they print.
#[derive(Drop)]
pub struct RemarkedObject {
    pub(crate) nodes: List<NodeAnswer>,
    pub(crate) notes: List<Note>,
}

/// Keeps what the pipelines within an aggregation have made of its answer at this place.
fn keep<'n>(
    alloc: Global,
    place: usize,
    agg: &'n Agg,
    piped: Result<RemarkedNode, PipeFault>,
    told: &mut RemarkedNodes<'n>,
) -> Result<(), AllocError>
    ensures { OnOk result (IsKept place agg.now piped told.old told.new) }
{
    let said = match piped {
        Ok(remarked) => {
            told.nodes.push(remarked.node)?;
            Said::Notes(all_from_around(alloc, place, remarked.notes)?)
        }
        Err(PipeFault::SumRange { path }) => Said::Wide(path_below(alloc, &agg.name, &path)?),
        Err(PipeFault::Memory) => return Err(AllocError),
    };
    told.entries.push(Entry {
        name: &agg.name,
        said,
    })?;
    Ok(())
}

/// The answers of an object, each by the pipelines that its aggregation encloses. An answer without an aggregation stays as
/// it is.
#[cycle(objects)]
fn piped_nodes<'n>(
    alloc: Global,
    aggs: &'n List<Agg>,
    level: &Level<'_, 'n>,
    nodes: List<NodeAnswer>,
) -> Result<RemarkedNodes<'n>, AllocError>
    requires level { IsLevel (length aggs.now) level.now }
    requires in_range { AreInRange aggs.now nodes }
    ensures { IfOk result (AreNodes aggs.now (pipes_of level.now.pipes.now) nodes) }
{
    let mut told = RemarkedNodes {
        nodes: List::new(alloc),
        entries: Vec::new(alloc),
    };
    for (place, node) in nodes.into_vec().into_iter().enumerate() {
        match aggs.get(place) {
            Some(agg) => {
                let part = &level.within[place];
                let piped = piped_node(alloc, agg, part.placed.as_slice(), node);
                keep(alloc, place, agg, piped, &mut told)?;
            }
            None => told.nodes.push(node)?,
        }
    }
    Ok(told)
}

/// The answers of an object with all its notes; `own` is what its own pipelines say.
#[cycle(objects)]
pub(crate) fn piped_object<'n>(
    alloc: Global,
    aggs: &'n List<Agg>,
    level: &Level<'_, 'n>,
    own: Vec<Entry<'n>>,
    nodes: List<NodeAnswer>,
) -> Result<RemarkedObject, PipeFault>
    requires level { IsLevel (length aggs.now) level.now }
    requires in_range { AreInRange aggs.now nodes }
    ensures { IsObject aggs.now (pipes_of level.now.pipes.now) (map view_of own.entry.items) nodes result }
{
    let told = piped_nodes(alloc, aggs, level, nodes)?;
    let entries = with_own(told.entries, own)?;
    Ok(RemarkedObject {
        nodes: told.nodes,
        notes: in_order(alloc, entries)?,
    })
}

/// The answer of an aggregation by the pipelines that it encloses, with the notes below it. Without pipelines it is handed
/// on as it is.
#[cycle(objects)]
fn piped_node<'n>(
    alloc: Global,
    agg: &'n Agg,
    pipes: &[Placed<'n>],
    node: NodeAnswer,
) -> Result<RemarkedNode, PipeFault>
    requires in_range { checker agg.now node ≡ [] }
    ensures { IsNode agg.now (pipes_of pipes.now) node result }
{
    if pipes.is_empty() {
        return Ok(RemarkedNode {
            node,
            notes: List::new(alloc),
        });
    }
    let level = Level::new(alloc, pipes, agg.children.len())?;
    let NodeAnswer {
        name,
        buckets,
        error,
        other,
        metric,
    } = node;
    let mut remarked = piped_buckets(alloc, &agg.children, &level, buckets)?;
    arrange(&agg.children, pipes, &mut remarked)?;
    let (buckets, notes) = apart(alloc, remarked)?;
    Ok(RemarkedNode {
        node: NodeAnswer {
            name,
            buckets,
            error,
            other,
            metric,
        },
        notes,
    })
}

/// The buckets of an aggregation in their order, each with the notes in its object, up to the first that has a value outside
/// signed 64 bits.
#[cycle(objects)]
fn piped_buckets<'n>(
    alloc: Global,
    children: &'n List<Agg>,
    level: &Level<'_, 'n>,
    buckets: List<BucketAnswer>,
) -> Result<Vec<RemarkedBucket>, PipeFault>
    requires level { IsLevel (length children.now) level.now }
    requires in_range { flat_map (check_bucket (map checker children.now)) buckets ≡ [] }
    ensures { AreBuckets children.now (pipes_of level.now.pipes.now) buckets (items_of result) }
{
    let mut tellers = tellers(alloc, level.pipes)?;
    let mut remarked = Vec::new(alloc);
    for bucket in buckets.into_vec() {
        let own = bucket_entries(alloc, children, &mut tellers, &bucket)?;
        remarked.push(piped_bucket(alloc, children, level, own, bucket)?)?;
    }
    Ok(remarked)
}

/// A bucket whose own pipelines say this, with all notes in its object.
#[cycle(objects)]
fn piped_bucket<'n>(
    alloc: Global,
    children: &'n List<Agg>,
    level: &Level<'_, 'n>,
    own: Vec<Entry<'n>>,
    bucket: BucketAnswer,
) -> Result<RemarkedBucket, PipeFault>
    requires level { IsLevel (length children.now) level.now }
    requires in_range { AreInRange children.now (out-BucketAnswer bucket).children }
    ensures { IsBucket children.now (pipes_of level.now.pipes.now) (map view_of own.entry.items) bucket result }
{
    let BucketAnswer {
        key,
        count,
        error,
        children: nodes,
    } = bucket;
    let object = piped_object(alloc, children, level, own, nodes)?;
    Ok(RemarkedBucket {
        bucket: BucketAnswer {
            key,
            count,
            error,
            children: object.nodes,
        },
        notes: object.notes,
    })
}
