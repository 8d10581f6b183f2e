//! A task from its first charge to its answer.
ghost use Rattle.std.specs.Prelude.{◌≡◌, ◌+◌, ℕ, IfErr, IfOk, OnOk, map, take};
ghost use Rattle.agg_evaluation.specs.Cost.{cost as cost_of};
ghost use Rattle.agg_evaluation.specs.Matching.{matches};
ghost use Rattle.agg_evaluation.specs.Rows.{roots};
ghost use Rattle.agg_evaluation.specs.Shard.{shard_answer};
ghost use Rattle.agg_evaluation.specs.Trace.{built, task_overhead, trace};
ghost use Rattle.breaker_words.specs.Passes.{IsOf};
ghost use Rattle.breaker_words.specs.declared.view.View.{View};
ghost use Rattle.collect_tree.specs.Ends.{IfDone, IfMemory, IfRefused};
ghost use Rattle.collect_tree.specs.Grown.{HasGrown};
ghost use Rattle.collect_tree.specs.Room.{HasRoom, HoldsTask};
ghost use Rattle.collect_tree.specs.Stops.{StopsFrom};
ghost use Rattle.growth_laws.specs.Amounts.{amounts};
ghost use Rattle.shard_columns.specs.Made.{IsSearchFor};
ghost use Rattle.task_charges.specs.Charged.{HasPaid};
ghost use Rattle.task_charges.specs.Ended.{IsDone, IsGivenUp, IsRefused};

use crate::charging::collect_and_finish;
use crate::ending::{Stop, TaskEnd};
use crate::growth::Growth;
use crate::rootless::answer_at_once;
use agg_model::costs::TASK_BYTES;
use agg_model::{Partial, Search};
use breaker_words::{Pass, Trial, Words};
use column_query::{Bits, matched};
use growing_tree::empty_bytes;
use shard_columns::Shard;
use std::alloc::{AllocError, Global};
use task_charges::{begin, give_up};

/// The trees over no root, which cost so many bytes, and for each root whether the query matches it.
fn prepare(
    alloc: Global,
    shard: &Shard,
    search: &Search,
    bytes: u64,
) -> Result<(Growth, Bits), AllocError>
    requires made { IsSearchFor shard.now search.now }
    requires bytes { bytes ≡ cost_of (built search.now shard.now.rows 0) }
    ensures grown { IfOk result (λ r. HasGrown shard.now search.now 0 r.0) }
    ensures matched { IfOk result (λ r. r.1 ≡ map (matches shard.now.rows search.now.query) (roots shard.now.rows)) }
{
    let growth = Growth::begin(alloc, shard, search, bytes)?;
    let bits = matched(alloc, shard, &search.query)?;
    Ok((growth, bits))
}

/// A task that holds what its empty trees cost, `bytes`, to its end: only now are they built.
fn run_begun(
    alloc: Global,
    words: &Words,
    pass: &mut Pass,
    shard: &Shard,
    search: &Search,
    bytes: u64,
) -> Result<Partial, Stop>
    requires of { IsOf words.now pass.old }
    requires rest { pass.old.view.trial ≡ Trial.Rest }
    requires made { IsSearchFor shard.now search.now }
    requires bytes { bytes ≡ cost_of (built search.now shard.now.rows 0) }
    requires held { HoldsTask shard.now search.now (task_overhead + bytes) pass.old.view }

    ensures answer { IfOk result (λ p. p ≡ shard_answer search.now shard.now.rows) }
    ensures paid { OnOk result ((v : View) →
        HasPaid words.now.limits v pass.old.view (take 1 (amounts search.now shard.now.rows)) →
        HasPaid words.now.limits v pass.new.view (amounts search.now shard.now.rows)) }
    ensures stopped { IfErr result (StopsFrom words.now.limits (amounts search.now shard.now.rows) 0
        pass.old.view pass.new.view) }
    ensures of { IsOf words.now pass.new }
    ensures trial { pass.new.view.trial ≡ Trial.Rest }
    ensures cap { pass.new.view.cap ≡ pass.old.view.cap }
{
    if shard.roots() == 0 {
        return answer_at_once(alloc, words, pass, shard, search, bytes);
    }
    let held = TASK_BYTES + bytes;
    let Ok((growth, roots)) = prepare(alloc, shard, search, bytes) else {
        give_up(words, pass, held);
        return Err(Stop::Memory);
    };
    collect_and_finish(words, pass, shard, search, &roots, growth)
}

/// What the shard answers to the search. The task holds what its trees cost at request and at the parent: it charges the empty
/// trees with an overhead, before anything is built or prepared, and for each root, in order, what the root added; at the end it
/// gives back the overhead and what the trees cost above the answer. A shard without roots answers its empty trees at once.
///
/// The search is made for the mapping of the shard, and the pass has room for the task's ceiling. After a refusal, and after
/// want of memory, nothing is held for the task any more.
pub fn run_task(
    alloc: Global,
    words: &Words,
    pass: &mut Pass,
    shard: &Shard,
    search: &Search,
) -> TaskEnd
    requires of { IsOf words.now pass.old }
    requires rest { pass.old.view.trial ≡ Trial.Rest }
    requires made { IsSearchFor shard.now search.now }
    requires room { HasRoom shard.now search.now pass.old.view }

    ensures answer { IfDone result (λ p. p ≡ shard_answer search.now shard.now.rows) }
    ensures done { IfDone result (λ p. IsDone words.now.limits pass.old.view pass.new.view search.now shard.now.rows) }
    ensures refused { IfRefused result (λ t.
        IsRefused words.now.limits pass.old.view pass.new.view (trace search.now shard.now.rows) t) }
    // After some of its amounts.
    ensures memory { IfMemory result ((n : ℕ) ×
        IsGivenUp pass.old.view pass.new.view (take n (amounts search.now shard.now.rows))) }

    // What the conditions of the next call speak of.
    ensures of { IsOf words.now pass.new }
    ensures trial { pass.new.view.trial ≡ Trial.Rest }
    ensures cap { pass.new.view.cap ≡ pass.old.view.cap }
{
    let bytes = empty_bytes(&search.aggs);
    let held = TASK_BYTES + bytes;
    if let Err(tripped) = begin(words, pass, held) {
        return TaskEnd::Refused(tripped);
    }
    match run_begun(alloc, words, pass, shard, search, bytes) {
        Ok(answer) => TaskEnd::Done(answer),
        Err(Stop::Refused(tripped)) => TaskEnd::Refused(tripped),
        Err(Stop::Memory) => TaskEnd::Memory,
    }
}
