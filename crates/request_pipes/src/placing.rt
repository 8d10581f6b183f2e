//! Where pipelines may stand ('Pipeline aggregations': parent and sibling pipelines).
ghost use Rattle.std.specs.Prelude.{◌≡◌, false};
ghost use Rattle.agg_reading.specs.PipePaths.{around_of, is_sort, may_stand, placed_pipes, takes_parents, takes_sorts};
ghost use Rattle.agg_reading.specs.Reading.{Gives};
ghost use Rattle.request_pipes.specs.Arounds.{around_value};

use agg_model::List;
use agg_model::body_refusal::MISPLACED_PIPELINE;
use agg_reading::{FoundPipe, KindName, ReadPipeKind, RequestFault};
use json_walk::At;
use std::alloc::Global;

/// What is directly around a pipeline.
#[derive(Clone, Copy, Debug, PartialEq, Eq)]
pub enum Around {
    /// A histogram, whose buckets stand in the order of their keys.
    Histogram,
    /// Another kind whose buckets can be sorted.
    Buckets,
    /// The top, or any other kind.
    Other,
}

/// What an aggregation of this kind is to the pipelines directly below it.
pub fn around_of(kind: KindName) -> Around
    ensures { around_value result ≡ around_of kind }
{
    match kind {
        KindName::Histogram | KindName::DateHistogram => Around::Histogram,
        KindName::Terms => Around::Buckets,
        KindName::Avg
        | KindName::Composite
        | KindName::Filter
        | KindName::Filters
        | KindName::Global
        | KindName::Max
        | KindName::Min
        | KindName::Missing
        | KindName::Nested
        | KindName::ReverseNested
        | KindName::Sum
        | KindName::ValueCount => Around::Other,
    }
}

/// Whether running sums and changes may stand there.
fn takes_parents(around: Around) -> bool
    ensures { result ≡ takes_parents (around_value around) }
{
    match around {
        Around::Histogram => true,
        Around::Buckets | Around::Other => false,
    }
}

/// Whether a `bucket_sort` may stand there.
fn takes_sorts(around: Around) -> bool
    ensures { result ≡ takes_sorts (around_value around) }
{
    match around {
        Around::Histogram | Around::Buckets => true,
        Around::Other => false,
    }
}

/// Whether a pipeline may stand there, where a `bucket_sort` stands before it or not.
fn may_stand(around: Around, sorts: bool, kind: &ReadPipeKind) -> bool
    ensures { result ≡ may_stand (around_value around) sorts kind.now }
{
    match kind {
        ReadPipeKind::CumulativeSum(_) | ReadPipeKind::Derivative(_) => takes_parents(around),
        ReadPipeKind::SumBucket(_) | ReadPipeKind::MinBucket(_) | ReadPipeKind::MaxBucket(_) => {
            true
        }
        ReadPipeKind::BucketSort { .. } => takes_sorts(around) && !sorts,
    }
}

fn is_sort(kind: &ReadPipeKind) -> bool
    ensures { result ≡ is_sort kind.now }
{
    match kind {
        ReadPipeKind::BucketSort { .. } => true,
        ReadPipeKind::CumulativeSum(_)
        | ReadPipeKind::Derivative(_)
        | ReadPipeKind::SumBucket(_)
        | ReadPipeKind::MinBucket(_)
        | ReadPipeKind::MaxBucket(_) => false,
    }
}

/// Refuses, with `MISPLACED_PIPELINE` where it stands, the first pipeline of an object that may not stand there.
#[tactic(auto, unfolding(agg_reading::specs::PipePaths::placed_pipes))]
pub(crate) fn check_places(
    alloc: Global,
    around: Around,
    pipes: &List<FoundPipe>,
) -> Result<(), RequestFault>
    ensures { Gives (λ u. u) result (placed_pipes (around_value around) false pipes.now) }
{
    let mut sorts = false;
    for found in pipes.as_slice() {
        match found {
            FoundPipe::Below(_) => {}
            FoundPipe::Here(pipe) => {
                if !may_stand(around, sorts, &pipe.kind) {
                    return At::Start(pipe.at.as_str()).refuse(alloc, MISPLACED_PIPELINE);
                }
                sorts = sorts || is_sort(&pipe.kind);
            }
        }
    }
    Ok(())
}
