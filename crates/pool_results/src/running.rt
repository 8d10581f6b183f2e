//! A task from its load to its result.
ghost use Rattle.std.specs.Prelude.{◌≡◌, ◌∷◌, [], true, false, Some, None};
ghost use Rattle.pool_results.specs.Carried.{has_failed};
ghost use Rattle.pool_results.specs.Pools.{IsPool};
ghost use Rattle.pool_results.specs.Runs.{shards_in};
ghost use Rattle.pool_results.specs.Ended.{work_after};
ghost use Rattle.pool_results.specs.Pooled.{IsPoolOf};

use crate::call::PoolCall;
use crate::load::Load;
use crate::outcome::Outcome;
use crate::shard_run::ShardRun;
use crate::work::Work;
use agg_model::{List, Search, Tripped};
use breaker_words::{Pass, Words};
use collect_tree::{TaskEnd, run_task};
use shard_columns::Index;
use std::alloc::Global;
use std::collections::LinkedList;
use std::marker::PhantomData;

/// Marks the only task as one whose shard is left out.
fn leave_out(runs: &mut LinkedList<ShardRun, Global>, shard: u32, tripped: Tripped)
    requires one { runs.old ≡ record { shard = shard; refused = None } ∷ [] }
    ensures { runs.new ≡ record { shard = shard; refused = Some tripped } ∷ [] }
{
    if let Some(run) = runs.front_mut() {
        run.refused = Some(tripped);
    }
}

/// What became of a task. Where the search allows partial results, a refused task leaves its shard out; else it ends the
/// search.
fn work_of(
    search: u32,
    shard: u32,
    mut runs: LinkedList<ShardRun, Global>,
    partial: bool,
    end: TaskEnd,
) -> Work
    requires one { runs ≡ record { shard = shard; refused = None } ∷ [] }
    ensures { result ≡ work_after search shard partial end }
{
    let (part, refused, memory) = match end {
        TaskEnd::Done(part) => (Some(part), None, false),
        TaskEnd::Refused(tripped) => {
            if partial {
                leave_out(&mut runs, shard, tripped);
                (None, None, false)
            } else {
                (None, Some(tripped), false)
            }
        }
        TaskEnd::Memory => (None, None, true),
    };
    Work {
        search,
        runs,
        part,
        refused,
        memory,
        skipped: false,
    }
}

/// Runs a task on its shard. Its result is what the shard answers, with the pass that holds what it costs, or the charge that
/// was refused, or want of memory, with a pass that holds nothing.
pub fn run<J: PoolCall>(
    alloc: Global,
    words: &Words,
    index: &Index,
    searches: &List<Search>,
    load: Load<J>,
) -> Outcome<J>
    requires words { words.now ≡ J.pool.words }
    requires searches { searches.now ≡ J.pool.searches }
    requires pool { IsPoolOf index.now J.pool }
    ensures search { result.work.search ≡ load.search }
    ensures shard { shards_in result.work.runs ≡ load.shard ∷ [] }
    ensures ran { result.work.skipped ≡ false }
{
    let Load {
        search,
        shard,
        runs,
        mut pass,
        of: _,
    } = load;
    let asked = &searches.as_slice()[search as usize];
    let rows = &index.shards.as_slice()[shard as usize];
    let end = run_task(alloc, words, &mut pass, rows, asked);
    let work = work_of(search, shard, runs, asked.partial, end);
    Outcome {
        work,
        pass,
        of: PhantomData,
    }
}

/// The result of a task that is not run, since its search was stopped. Nothing is charged for it.
pub fn skip<J: PoolCall>(load: Load<J>) -> Outcome<J>
    requires pool { IsPool J.pool }
    ensures search { result.work.search ≡ load.search }
    ensures shard { shards_in result.work.runs ≡ load.shard ∷ [] }
    ensures skipped { result.work.skipped ≡ true }
    ensures going { has_failed result.work ≡ false }
{
    let Load {
        search,
        shard: _,
        runs,
        pass,
        of: _,
    } = load;
    let work = Work {
        search,
        runs,
        part: None,
        refused: None,
        memory: false,
        skipped: true,
    };
    Outcome {
        work,
        pass,
        of: PhantomData,
    }
}
