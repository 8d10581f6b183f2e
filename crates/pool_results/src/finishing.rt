//! The merge of a batch.
ghost use Rattle.std.specs.Prelude.{◌≡◌, ◌≤◌, IsTrue};
ghost use Rattle.agg_model.specs.declared.breaker.Child.TheVariants as child;
ghost use Rattle.agg_model.specs.declared.breaker.Which.TheVariants as which;
ghost use Rattle.breaker_tree.specs.Charge.{IsGivenBack};
ghost use Rattle.breaker_words.specs.Passes.{IsOf};
ghost use Rattle.breaker_words.specs.Views.{hold_of};
ghost use Rattle.pool_results.specs.Gathered.{has_failed, work_by};
ghost use Rattle.pool_results.specs.Carried.{has_failed as has_failed_work};
ghost use Rattle.pool_results.specs.Pools.{IsPool};

use crate::batch::Batch;
use crate::call::PoolCall;
use crate::outcome::Outcome;
use crate::shard_run::ShardRun;
use crate::taken::Taken;
use crate::work::Work;
use agg_model::{Child, Which};
use batch_reduce::{ReduceEnd, reduce};
use breaker_tree::give_back;
use breaker_words::{Pass, Trial, Words};
use std::alloc::Global;
use std::collections::LinkedList;
use std::marker::PhantomData;

/// Gives back all that the pass holds at request.
fn give_all_back(words: &Words, pass: &mut Pass)
    requires of { IsOf words.now pass.old }
    requires rest { pass.old.view.trial ≡ Trial.Rest }
    ensures of { IsOf words.now pass.new }
    ensures given { IsGivenBack pass.old.view child.Request (hold_of pass.old.view which.Request) pass.new.view }
{
    let held = pass.hold(Which::Request);
    give_back(words, pass, Child::Request, held);
}

/// What became of all tasks, of which none had stopped the search before.
fn work_by(search: u32, runs: LinkedList<ShardRun, Global>, skipped: bool, end: ReduceEnd) -> Work
    ensures { result ≡ work_by search runs skipped end }
{
    let (part, refused, memory) = match end {
        ReduceEnd::Done(part) => (Some(part), None, false),
        ReduceEnd::Refused(tripped) => (None, Some(tripped), false),
        ReduceEnd::Memory => (None, None, true),
    };
    Work {
        search,
        runs,
        part,
        refused,
        memory,
        skipped,
    }
}

/// Merges the parts of a batch, whose results were all taken. The result's pass holds what the whole costs, and nothing where
/// the search was stopped, or is stopped here by a refused charge or by want of memory.
pub fn finish<J: PoolCall>(alloc: Global, words: &Words, batch: Batch<J>) -> Outcome<J>
    requires words { words.now ≡ J.pool.words }
    requires pool { IsPool J.pool }
    ensures search { result.work.search ≡ batch.taken.search }
    ensures runs { result.work.runs ≡ batch.taken.runs }
    ensures failed { IsTrue (has_failed batch.taken) → IsTrue (has_failed_work result.work) }
    ensures skipped { result.work.skipped ≡ batch.taken.skipped }
{
    let Batch {
        taken,
        mut pass,
        of: _,
    } = batch;
    let stopped = taken.is_stopped();
    let Taken {
        search,
        runs,
        parts,
        refused,
        memory,
        skipped,
    } = taken;
    if stopped || parts.is_empty() {
        give_all_back(words, &mut pass);
        let work = Work {
            search,
            runs,
            part: None,
            refused,
            memory,
            skipped,
        };
        return Outcome {
            work,
            pass,
            of: PhantomData,
        };
    }
    let end = reduce(alloc, words, &mut pass, parts);
    let work = work_by(search, runs, skipped, end);
    Outcome {
        work,
        pass,
        of: PhantomData,
    }
}
