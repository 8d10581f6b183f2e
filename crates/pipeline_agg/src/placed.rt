//! Pipelines as they are seen from an object of an answer: with their places from there on.
ghost use Rattle.std.specs.Prelude.{◌≡◌, IfOk, OnOk};
ghost use Rattle.pipeline_agg.specs.Placed.{AreParts, HasMore, IsLevel, pipes_of};

use agg_model::{List, Pipe};
use std::alloc::{AllocError, Global};

/// A pipeline as it is seen from an object.
#[derive(Clone, Copy)]
pub struct Placed<'p> {
    /// Its places from the object on.
    pub(crate) at: &'p [u32],
    pub(crate) pipe: &'p Pipe,
}

/// The pipelines within one aggregation.
#[derive(Drop)]
pub struct Part<'p> {
    pub(crate) placed: Vec<Placed<'p>>,
}

/// All pipelines of a search, from the top.
pub(crate) fn all_placed<'p>(
    alloc: Global,
    pipes: &'p List<Pipe>,
) -> Result<Vec<Placed<'p>>, AllocError>
    ensures { IfOk result (λ ps. pipes_of ps.items ≡ pipes.now) }
{
    let mut placed = Vec::new(alloc);
    for pipe in pipes.as_slice() {
        placed.push(Placed {
            at: pipe.at.as_slice(),
            pipe,
        })?;
    }
    Ok(placed)
}

/// Puts a pipeline behind those of a place; it goes nowhere where there is no such place.
fn push_at<'p>(
    parts: &mut Vec<Part<'p>>,
    place: usize,
    placed: Placed<'p>,
) -> Result<(), AllocError>
    ensures { OnOk result (HasMore parts.old.items place placed.entry parts.new.items) }
{
    if let Some(part) = parts.get_mut(place) {
        part.placed.push(placed)?;
    }
    Ok(())
}

/// The pipelines within each of so many aggregations beside one another, in one walk.
fn within_each<'p>(
    alloc: Global,
    pipes: &[Placed<'p>],
    aggs: usize,
) -> Result<Vec<Part<'p>>, AllocError>
    ensures { IfOk result (λ parts. AreParts (pipes_of pipes.now) aggs parts.items) }
{
    let mut parts = Vec::new(alloc);
    for _ in 0..aggs {
        parts.push(Part {
            placed: Vec::new(alloc),
        })?;
    }
    for placed in pipes {
        if let [place, rest @ ..] = placed.at {
            let inner = Placed {
                at: rest,
                pipe: placed.pipe,
            };
            push_at(&mut parts, *place as usize, inner)?;
        }
    }
    Ok(parts)
}

/// The pipelines beneath the objects of one level of an answer.
#[derive(Drop)]
pub struct Level<'l, 'p> {
    /// As they are seen from such an object.
    pub(crate) pipes: &'l [Placed<'p>],
    /// Those within each of the aggregations that stand there.
    pub(crate) within: Vec<Part<'p>>,
}

impl<'l, 'p> Level<'l, 'p> {
    /// The level at which so many aggregations stand beside one another.
    pub(crate) fn new(
        alloc: Global,
        pipes: &'l [Placed<'p>],
        aggs: usize,
    ) -> Result<Level<'l, 'p>, AllocError>
        ensures pipes { IfOk result (λ l. l.pipes.now ≡ pipes.now) }
        ensures level { IfOk result (IsLevel aggs) }
    {
        Ok(Level {
            pipes,
            within: within_each(alloc, pipes, aggs)?,
        })
    }
}
