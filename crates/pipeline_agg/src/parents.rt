//! What pipelines say at each of the buckets around them ('Cumulative sum aggregation', 'Derivative aggregation').
ghost use Rattle.std.specs.Prelude.{◌≡◌, IfOk, IsTrue, None, OnOk, pos};
ghost use Rattle.agg_model.specs.declared.answer.BucketAnswer.{out-BucketAnswer};
ghost use Rattle.agg_spec.specs.Pipelines.{difference as difference_of};
ghost use Rattle.bucket_order.specs.Kinds.{child_kinds};
ghost use Rattle.pipeline_agg.specs.Bounds.{AreInRange, is_small};
ghost use Rattle.pipeline_agg.specs.Parents.{IsSmall, next_running, next_says};
ghost use Rattle.pipeline_agg.specs.Told.{IsFit, IsSaid};

use crate::remarked::Said;
use crate::siblings::said;
use crate::values::value_at;
use agg_model::{Agg, BucketAnswer, List, Pipe, PipeKind};
use std::alloc::{AllocError, Global};

/// What a pipeline keeps from one bucket to the next.
#[derive(Clone, Copy)]
pub struct Running {
    /// The sum of the values so far.
    pub sum: i128,
    /// The value of the bucket before; none where it is null, or there is none.
    pub before: Option<i128>,
}

impl Running {
    /// In front of the first bucket.
    pub(crate) fn start() -> Running
        ensures sum { result.sum ≡ pos 0 }
        ensures before { result.before ≡ None }
    {
        Running {
            sum: 0,
            before: None,
        }
    }
}

/// A number less another, where neither is null.
fn difference(value: Option<i128>, before: Option<i128>) -> Option<i128>
    requires value { IsTrue (is_small value) }
    requires before { IsTrue (is_small before) }
    ensures { result ≡ difference_of value before }
{
    Some(value? - before?)
}

/// What a pipeline says at the next bucket; one that is no parent says nothing.
pub(crate) fn parent_said(
    alloc: Global,
    children: &List<Agg>,
    pipe: &Pipe,
    running: &mut Running,
    bucket: &BucketAnswer,
) -> Result<Said, AllocError>
    requires small { IsSmall running.old }
    requires in_range { AreInRange children.now (out-BucketAnswer bucket.now).children }
    ensures told { IfOk result (IsSaid (next_says (child_kinds children.now) pipe.now pipe.now.kind bucket.now running.old)) }
    ensures kept { OnOk result (running.new ≡ next_running (child_kinds children.now) pipe.now.kind bucket.now running.old) }
    ensures small { IfOk result (λ said. IsFit said → IsSmall running.new) }
{
    match &pipe.kind {
        PipeKind::CumulativeSum { path } => {
            running.sum += value_at(children, *path, bucket).unwrap_or(0);
            said(alloc, pipe, Some(running.sum), List::new(alloc))
        }
        PipeKind::Derivative { path } => {
            let value = value_at(children, *path, bucket);
            let change = difference(value, running.before);
            running.before = value;
            match change {
                Some(number) => said(alloc, pipe, Some(number), List::new(alloc)),
                None => Ok(Said::Notes(List::new(alloc))),
            }
        }
        PipeKind::SumBucket { .. }
        | PipeKind::MinBucket { .. }
        | PipeKind::MaxBucket { .. }
        | PipeKind::BucketSort { .. } => Ok(Said::Notes(List::new(alloc))),
    }
}
