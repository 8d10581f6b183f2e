//! The last rules of what holds an object of aggregations: the paths of its pipelines, and then where they stand.
ghost use Rattle.std.specs.Prelude.{◌≡◌, ◌≤◌, [], length};
ghost use Rattle.agg_reading.specs.PipePaths.{fitted_pipes, resolved_pipes};
ghost use Rattle.agg_reading.specs.Reading.{Gives};
ghost use Rattle.request_pipes.specs.Arounds.{around_value};
ghost use Rattle.request_pipes.specs.Children.{HaveFewChildren};

use crate::paths::resolved_kind;
use crate::placing::{Around, check_places};
use agg_model::limits::MAX_AGGREGATIONS;
use agg_model::{Agg, Copying, List, Pipe};
use agg_reading::{FoundPipe, RequestFault};
use std::alloc::Global;

/// The pipelines of an object in the order of the walk; those that its aggregations enclose stay as they are.
#[tactic(auto, unfolding(agg_reading::specs::PipePaths::resolved_pipes))]
fn resolved_pipes(
    alloc: Global,
    aggs: &[Agg],
    pipes: &List<FoundPipe>,
) -> Result<List<Pipe>, RequestFault>
    requires few { length aggs.now ≤ MAX_AGGREGATIONS }
    requires below { HaveFewChildren aggs.now }
    ensures { Gives (λ ps. ps) result (resolved_pipes aggs.now [] pipes.now) }
{
    let mut resolved = List::new(alloc);
    for found in pipes.as_slice() {
        let pipe = match found {
            FoundPipe::Below(pipe) => pipe.copy(alloc)?,
            FoundPipe::Here(read) => Pipe {
                at: List::new(alloc),
                name: read.name.copy(alloc)?,
                kind: resolved_kind(alloc, aggs, &read.kind)?,
            },
        };
        resolved.push(pipe)?;
    }
    Ok(resolved)
}

/// The pipelines of an object of at most `MAX_AGGREGATIONS` aggregations, where each has at most so many directly below it.
/// The first path that names no value is refused with `NO_SUCH_PIPE_PATH`, and then the first pipeline that may not stand
/// there with `MISPLACED_PIPELINE`.
#[tactic(auto, unfolding(agg_reading::specs::PipePaths::fitted_pipes))]
pub fn fitted_pipes(
    alloc: Global,
    around: Around,
    aggs: &[Agg],
    pipes: &List<FoundPipe>,
) -> Result<List<Pipe>, RequestFault>
    requires few { length aggs.now ≤ MAX_AGGREGATIONS }
    requires below { HaveFewChildren aggs.now }
    ensures { Gives (λ ps. ps) result (fitted_pipes (around_value around) aggs.now pipes.now) }
{
    let resolved = resolved_pipes(alloc, aggs, pipes)?;
    check_places(alloc, around, pipes)?;
    Ok(resolved)
}
