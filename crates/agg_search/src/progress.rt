//! The results of a search while its tasks run.
ghost use Rattle.std.specs.Prelude.{◌≡◌, []};
ghost use Rattle.agg_search.specs.Keeping.{IsKept};

use crate::stop::Stop;
use agg_model::{Failure, List, Partial};
use collect_tree::TaskEnd;
use std::alloc::Global;

/// The results between two tasks of a search, and the shards that it leaves out.
#[derive(Drop)]
pub struct Progress {
    /// The results of the batch that is open.
    pub batch: List<Partial>,
    /// The results of the batches before it.
    pub results: List<Partial>,
    /// By ascending number of the shard.
    pub failures: List<Failure>,
}

/// Keeps the result of a shard's task. Where partial results are allowed, a refused task is a failure; else it stops the
/// search.
pub(crate) fn keep(
    progress: &mut Progress,
    shard: u32,
    end: TaskEnd,
    partial: bool,
) -> Result<(), Stop>
    ensures { IsKept end partial shard progress.old result progress.new }
{
    match end {
        TaskEnd::Done(part) => {
            progress.batch.push(part)?;
            Ok(())
        }
        TaskEnd::Refused(tripped) => {
            if !partial {
                return Err(Stop::Refused(tripped));
            }
            progress.failures.push(Failure { shard, tripped })?;
            Ok(())
        }
        TaskEnd::Memory => Err(Stop::Memory),
    }
}

impl Progress {
    /// No result, and no shard that is left out.
    pub(crate) fn new(alloc: Global) -> Self
        ensures batch { result.batch ≡ [] }
        ensures results { result.results ≡ [] }
        ensures failures { result.failures ≡ [] }
    {
        Progress {
            batch: List::new(alloc),
            results: List::new(alloc),
            failures: List::new(alloc),
        }
    }
}
