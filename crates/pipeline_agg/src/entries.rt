//! What prints under the names of an object: what its own pipelines say, and the notes below its aggregations.
ghost use Rattle.std.specs.Prelude.{◌≡◌, ◌++◌, IfOk, OnOk, codes, map};
ghost use Rattle.agg_model.specs.declared.answer.BucketAnswer.{out-BucketAnswer};
ghost use Rattle.agg_spec.specs.Notes.{piper};
ghost use Rattle.agg_spec.specs.Remarks.{pipes_here, sibling_says};
ghost use Rattle.bucket_order.specs.Kinds.{child_kinds};
ghost use Rattle.list_laws.specs.Sorting.{sorted};
ghost use Rattle.pipeline_agg.specs.Bounds.{AreInRange};
ghost use Rattle.pipeline_agg.specs.Entries.{AreFit, IsGathered, all_small, beginning, entry_cmp, entry_of_teller, moved_on, teller_of, top_entry, view_of};
ghost use Rattle.pipeline_agg.specs.Parents.{IsSmall, next_running, next_says};
ghost use Rattle.pipeline_agg.specs.Placed.{pipes_of};
ghost use Rattle.pipeline_agg.specs.Summaries.{AreOf};
ghost use Rattle.pipeline_agg.specs.Told.{IsFit, IsSaid};

use crate::fault::PipeFault;
use crate::parents::{Running, parent_said};
use crate::placed::Placed;
use crate::places::append;
use crate::remarked::Said;
use crate::summaries::Siblings;
use agg_model::{Agg, BucketAnswer, List, NodeAnswer, Note, Pipe, PipeKind, Text};
use std::alloc::{AllocError, Global};

/// A name of an object, with what prints under it.
#[derive(Drop)]
pub struct Entry<'n> {
    pub(crate) name: &'n Text,
    pub(crate) said: Said,
}

/// A pipeline that is asked at one bucket after another, with what it keeps.
#[derive(Clone, Copy)]
pub struct Teller<'p> {
    pub(crate) placed: Placed<'p>,
    pub(crate) running: Running,
}

/// What prints under the names of the pipelines of the top.
pub(crate) fn top_entries<'p>(
    alloc: Global,
    aggs: &List<Agg>,
    pipes: &[Placed<'p>],
    nodes: &List<NodeAnswer>,
) -> Result<Vec<Entry<'p>>, AllocError>
    requires in_range { AreInRange aggs.now nodes.now }
    ensures { IfOk result (λ entries. map view_of entries.items ≡ map (top_entry aggs.now nodes.now) (pipes_here (pipes_of pipes.now))) }
{
    let mut siblings = Siblings::new(alloc, aggs, nodes);
    let mut entries = Vec::new(alloc);
    for placed in pipes {
        if placed.at.is_empty() {
            entries.push(Entry {
                name: &placed.pipe.name,
                said: siblings.said(alloc, placed.pipe)?,
            })?;
        }
    }
    Ok(entries)
}

/// The pipelines of the object itself, in front of the first bucket.
pub(crate) fn tellers<'p>(
    alloc: Global,
    pipes: &[Placed<'p>],
) -> Result<Vec<Teller<'p>>, AllocError>
    ensures tellers { IfOk result (λ ts. map teller_of ts.items ≡ map beginning (pipes_here (pipes_of pipes.now))) }
    ensures small { IfOk result (λ ts. all_small ts.items) }
{
    let mut tellers = Vec::new(alloc);
    for placed in pipes {
        if placed.at.is_empty() {
            tellers.push(Teller {
                placed: *placed,
                running: Running::start(),
            })?;
        }
    }
    Ok(tellers)
}

/// What a pipeline says in the object of the next bucket: a sibling of what is beside it there, a parent of the buckets.
fn said_in_bucket<'p>(
    alloc: Global,
    children: &List<Agg>,
    siblings: &mut Siblings<'_, 'p>,
    pipe: &'p Pipe,
    running: &mut Running,
    bucket: &BucketAnswer,
) -> Result<Said, AllocError>
    requires small { IsSmall running.old }
    requires in_range { AreInRange children.now (out-BucketAnswer bucket.now).children }
    requires siblings { AreOf children.now (out-BucketAnswer bucket.now).children siblings.old }
    ensures siblings { AreOf children.now (out-BucketAnswer bucket.now).children siblings.new }
    ensures told { IfOk result (IsSaid (sibling_says (map piper children.now) (out-BucketAnswer bucket.now).children pipe.now pipe.now.kind
        ++ next_says (child_kinds children.now) pipe.now pipe.now.kind bucket.now running.old)) }
    ensures kept { OnOk result (running.new ≡ next_running (child_kinds children.now) pipe.now.kind bucket.now running.old) }
    ensures small { IfOk result (λ said. IsFit said → IsSmall running.new) }
{
    match &pipe.kind {
        PipeKind::CumulativeSum { .. } | PipeKind::Derivative { .. } => {
            parent_said(alloc, children, pipe, running, bucket)
        }
        PipeKind::SumBucket { .. }
        | PipeKind::MinBucket { .. }
        | PipeKind::MaxBucket { .. }
        | PipeKind::BucketSort { .. } => siblings.said(alloc, pipe),
    }
}

/// What prints under a pipeline's name in the object of the next bucket.
fn entry_of_next<'p>(
    alloc: Global,
    children: &List<Agg>,
    siblings: &mut Siblings<'_, 'p>,
    teller: &mut Teller<'p>,
    bucket: &BucketAnswer,
) -> Result<Entry<'p>, AllocError>
    requires small { IsSmall teller.old.running }
    requires in_range { AreInRange children.now (out-BucketAnswer bucket.now).children }
    requires siblings { AreOf children.now (out-BucketAnswer bucket.now).children siblings.old }
    ensures siblings { AreOf children.now (out-BucketAnswer bucket.now).children siblings.new }
    ensures told { IfOk result (λ entry. view_of entry ≡ entry_of_teller children.now bucket.now (teller_of teller.old)) }
    ensures kept { OnOk result (teller_of teller.new ≡ moved_on (child_kinds children.now) bucket.now (teller_of teller.old)) }
    ensures small { IfOk result (λ entry. IsFit entry.said → IsSmall teller.new.running) }
{
    let pipe = teller.placed.pipe;
    Ok(Entry {
        name: &pipe.name,
        said: said_in_bucket(alloc, children, siblings, pipe, &mut teller.running, bucket)?,
    })
}

/// What prints under the names of the pipelines in the object of the next bucket.
pub(crate) fn bucket_entries<'p>(
    alloc: Global,
    children: &List<Agg>,
    tellers: &mut Vec<Teller<'p>>,
    bucket: &BucketAnswer,
) -> Result<Vec<Entry<'p>>, AllocError>
    requires small { all_small tellers.old.items }
    requires in_range { AreInRange children.now (out-BucketAnswer bucket.now).children }
    ensures told { IfOk result (λ entries. map view_of entries.items
        ≡ map (entry_of_teller children.now bucket.now) (map teller_of tellers.old.items)) }
    ensures kept { OnOk result (map teller_of tellers.new.items
        ≡ map (moved_on (child_kinds children.now) bucket.now) (map teller_of tellers.old.items)) }
    ensures small { IfOk result (λ entries. AreFit (map view_of entries.items) → all_small tellers.new.items) }
{
    let mut siblings = Siblings::new(alloc, children, &bucket.children);
    let mut entries = Vec::new(alloc);
    for teller in tellers.iter_mut() {
        entries.push(entry_of_next(alloc, children, &mut siblings, teller, bucket)?)?;
    }
    Ok(entries)
}

/// The entries, and behind them those of the object's own pipelines.
pub(crate) fn with_own<'n>(
    entries: Vec<Entry<'n>>,
    own: Vec<Entry<'n>>,
) -> Result<Vec<Entry<'n>>, AllocError>
    ensures { IfOk result (λ all. map view_of all.items ≡ map view_of entries.entry.items ++ map view_of own.entry.items) }
{
    let mut all = entries;
    for entry in own {
        all.push(entry)?;
    }
    Ok(all)
}

/// A slash, a name and the path below it.
pub(crate) fn path_below(alloc: Global, name: &Text, below: &Text) -> Result<Text, AllocError>
    ensures { IfOk result (λ path. path ≡ codes "/" ++ (name.now ++ below.now)) }
{
    let mut path = String::new(alloc);
    path.push_str("/")?;
    path.push_str(name.as_str())?;
    path.push_str(below.as_str())?;
    Ok(Text::from_string(path))
}

/// Puts entries in byte order of the names; those of one name stay as they stand.
fn sort_entries(entries: &mut Vec<Entry<'_>>) -> Result<(), AllocError>
    ensures { OnOk result (map view_of entries.new.items ≡ sorted entry_cmp (map view_of entries.old.items)) }
{
    entries.sort_by(|a, b| a.name.cmp(b.name))
}

/// All notes of entries, one after another. The first path of a value outside signed 64 bits is refused with `SumRange`.
fn gathered(alloc: Global, entries: Vec<Entry<'_>>) -> Result<List<Note>, PipeFault>
    ensures { IsGathered (map view_of entries.entry.items) result }
{
    let mut notes = List::new(alloc);
    for entry in entries {
        let Entry { name: _, said } = entry;
        match said {
            Said::Notes(more) => append(&mut notes, more)?,
            Said::Wide(path) => return Err(PipeFault::SumRange { path }),
        }
    }
    Ok(notes)
}

/// All notes of an object, in byte order of the names.
pub(crate) fn in_order(alloc: Global, entries: Vec<Entry<'_>>) -> Result<List<Note>, PipeFault>
    ensures { IsGathered (sorted entry_cmp (map view_of entries.entry.items)) result }
{
    let mut entries = entries;
    sort_entries(&mut entries)?;
    gathered(alloc, entries)
}
