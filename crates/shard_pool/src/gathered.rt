//! What became of the tasks of one search, as far as its results were joined.
ghost use Rattle.std.specs.Prelude.{◌≡◌, ◌+◌, ◌<◌, ◌^◌, ◌++◌, OnOk, option_to_list};
ghost use Rattle.shard_pool.specs.Gathered.{IsAdded, IsFront, is_stopped, no_results};
ghost use Rattle.pool_results.specs.Runs.{failures_in};

use agg_model::{Failure, List, Partial, Tripped};
use pool_results::{ShardRun, Work};
use std::alloc::{AllocError, Global};
use std::collections::LinkedList;

/// Results of one search that were joined.
#[derive(Drop)]
pub(crate) struct Gathered {
    pub(crate) parts: List<Partial>,
    pub(crate) refused: Option<Tripped>,
    pub(crate) memory: bool,
    /// In the order of arrival.
    pub(crate) failures: List<Failure>,
    /// What the pass holds for these results, in bytes.
    pub(crate) held: u64,
}

/// Puts the shards that are left out at the end, up to the first for which there is no memory.
fn push_failures(
    failures: &mut List<Failure>,
    mut runs: LinkedList<ShardRun, Global>,
) -> Result<(), AllocError>
    ensures all { OnOk result (failures.new ≡ failures.old ++ failures_in runs) }
    ensures front { IsFront failures.new (failures.old ++ failures_in runs) }
{
    while let Some(run) = runs.pop_front() {
        if let Some(tripped) = run.refused {
            failures.push(Failure {
                shard: run.shard,
                tripped,
            })?;
        }
    }
    Ok(())
}

fn push_part(parts: &mut List<Partial>, part: Option<Partial>) -> Result<(), AllocError>
    ensures { OnOk result (parts.new ≡ parts.old ++ option_to_list part) }
{
    if let Some(part) = part {
        parts.push(part)?;
    }
    Ok(())
}

impl Gathered {
    pub(crate) fn empty(alloc: Global) -> Gathered
        ensures { result ≡ no_results }
    {
        Gathered {
            parts: List::new(alloc),
            refused: None,
            memory: false,
            failures: List::new(alloc),
            held: 0,
        }
    }

    /// Whether there is no result any more.
    pub(crate) fn is_stopped(&self) -> bool
        ensures { result ≡ is_stopped self.now }
    {
        self.refused.is_some() || self.memory
    }

    /// Joins one more result, for which the pass holds so many bytes. Where memory runs out for what it tells, the search has no
    /// result any more.
    pub(crate) fn add(&mut self, work: Work, bytes: u64)
        requires fits { self.old.held + bytes < 2 ^ 64 }
        ensures { IsAdded work bytes self.old self.new }
    {
        let Work {
            search: _,
            runs,
            part,
            refused,
            memory,
            skipped: _,
        } = work;
        self.held += bytes;
        self.refused = self.refused.or(refused);
        self.memory = self.memory || memory;
        if self.memory {
            return;
        }
        let told = push_failures(&mut self.failures, runs);
        let kept = push_part(&mut self.parts, part);
        self.memory = told.is_err() || kept.is_err();
    }
}
