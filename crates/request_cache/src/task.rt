//! A task that asks first for an answer that was kept.
ghost use Rattle.std.specs.Prelude.{◌≡◌, ◌+◌, ◌<◌, ◌≤◌, ◌==◌, false, None, Some, length, slice_get};
ghost use Rattle.std.specs.Option.{ForSome};
ghost use Rattle.agg_evaluation.specs.Cost.{cost as cost_of};
ghost use Rattle.agg_evaluation.specs.Shard.{shard_answer};
ghost use Rattle.agg_evaluation.specs.Trace.{trace};
ghost use Rattle.agg_model.specs.declared.breaker.Child.TheVariants as child;
ghost use Rattle.agg_spec.specs.Index.{rows_in};
ghost use Rattle.breaker_tree.specs.Charge.{IsTripped};
ghost use Rattle.breaker_words.specs.Passes.{IsOf};
ghost use Rattle.cache_spec.specs.Cache.{added, entries_after, entry_of};
ghost use Rattle.collect_tree.specs.Ends.{IfDone, IfMemory, IfRefused};
ghost use Rattle.collect_tree.specs.Room.{HasRoom};
ghost use Rattle.fitting_laws.specs.Indexes.{index_of};
ghost use Rattle.request_cache.specs.Entries.{answer_in, entries_in, has_entry};
ghost use Rattle.request_cache.specs.Tasks.{ChargesAtOnce, GivesUp, IsTaskDone, IsTaskRefused};
ghost use Rattle.shard_columns.specs.Made.{IsSearchFor};
ghost use Rattle.task_charges.specs.Ended.{IsDone, IsRefused};

use crate::cache::Cache;
use agg_model::{Child, Partial, Search};
use breaker_tree::{charge, give_back};
use breaker_words::{Pass, Trial, Words};
use cache_spec::ShardSearch;
use collect_tree::{TaskEnd, run_task};
use partial_result::cost;
use shard_columns::Shard;
use std::alloc::Global;

/// Charges an answer that was kept by its cost at once.
fn charge_kept(words: &Words, pass: &mut Pass, answer: Partial) -> TaskEnd
    requires of { IsOf words.now pass.old }
    requires rest { pass.old.view.trial ≡ Trial.Rest }
    requires room { pass.old.view.accounts.parent.hold + cost_of answer ≤ pass.old.view.cap }
    ensures answer { IfDone result (λ p. p ≡ answer) }
    ensures done { IfDone result (λ p. ChargesAtOnce (cost_of answer == 0) words.now.limits pass.old.view (cost_of answer) pass.new.view) }
    ensures refused { IfRefused result (λ t. IsTripped words.now.limits pass.old.view child.Request (cost_of answer) t pass.new.view) }
    ensures some { IfRefused result (λ t. 1 ≤ cost_of answer) }
    ensures not_memory { IfMemory result ⊥ }
    ensures of { IsOf words.now pass.new }
    ensures trial { pass.new.view.trial ≡ Trial.Rest }
    ensures cap { pass.new.view.cap ≡ pass.old.view.cap }
{
    // A pass that is asked for its cap tells that this is at most 2^63.
    let _cap = pass.cap();
    let bytes = cost(&answer);
    if bytes == 0 {
        return TaskEnd::Done(answer);
    }
    match charge(words, pass, Child::Request, bytes) {
        Ok(()) => TaskEnd::Done(answer),
        Err(tripped) => TaskEnd::Refused(tripped),
    }
}

/// Runs the task of an entry that is not there, and keeps what it answers.
fn run_and_keep(
    alloc: Global,
    words: &Words,
    pass: &mut Pass,
    cache: &mut Cache<'_>,
    shard: &Shard,
    entry: ShardSearch,
    search: &Search,
) -> TaskEnd
    requires of { IsOf words.now pass.old }
    requires rest { pass.old.view.trial ≡ Trial.Rest }
    requires rows { shard.now.rows ≡ rows_in (index_of cache.old.index.now) entry.shard }
    requires entry { entry ≡ entry_of search.now entry.shard }
    requires made { IsSearchFor shard.now search.now }
    requires room { HasRoom shard.now search.now pass.old.view }
    requires absent { has_entry cache.old.entries entry ≡ false }
    ensures answer { IfDone result (λ p. p ≡ shard_answer search.now shard.now.rows) }
    ensures done { IfDone result (λ p. IsDone words.now.limits pass.old.view pass.new.view search.now shard.now.rows) }
    ensures refused { IfRefused result (λ t.
        IsRefused words.now.limits pass.old.view pass.new.view (trace search.now shard.now.rows) t) }
    ensures memory { IfMemory result (GivesUp pass.old.view pass.new.view search.now shard.now.rows) }
    ensures kept { IfDone result (λ p. entries_in cache.new.entries
        ≡ added cache.old.entries.cap entry (entries_in cache.old.entries)) }
    ensures not_kept { IfRefused result (λ t. entries_in cache.new.entries ≡ entries_in cache.old.entries) }
    ensures index { cache.new.index.now ≡ cache.old.index.now }
    ensures capacity { cache.new.entries.cap ≡ cache.old.entries.cap }
    ensures of { IsOf words.now pass.new }
    ensures trial { pass.new.view.trial ≡ Trial.Rest }
    ensures cap { pass.new.view.cap ≡ pass.old.view.cap }
{
    match run_task(alloc, words, pass, shard, search) {
        TaskEnd::Done(answer) => {
            if cache.keep(alloc, entry, &answer).is_err() {
                // A pass that is asked for its cap tells that it holds at most 2^63.
                let _cap = pass.cap();
                give_back(words, pass, Child::Request, cost(&answer));
                return TaskEnd::Memory;
            }
            TaskEnd::Done(answer)
        }
        TaskEnd::Refused(tripped) => TaskEnd::Refused(tripped),
        TaskEnd::Memory => TaskEnd::Memory,
    }
}

/// What the shard answers to the search. An answer that was kept is charged by its cost at once, and comes to the front of the
/// cache, also where its charge is refused. Any other task runs as `run_task` does; what it answers is kept, and where it is
/// refused the cache stays as it was.
///
/// The shard is one of the cache's index, the search is made for its mapping, and the pass has room for the task's ceiling.
/// After a refusal and after want of memory nothing is held for the task. After want of memory nothing is said of the entries,
/// but that each is an answer.
pub fn cached_task(
    alloc: Global,
    words: &Words,
    pass: &mut Pass,
    cache: &mut Cache<'_>,
    shard: u32,
    search: &Search,
) -> TaskEnd
    requires of { IsOf words.now pass.old }
    requires rest { pass.old.view.trial ≡ Trial.Rest }
    requires place { shard < length cache.old.index.now.shards }
    requires made { ForSome (slice_get cache.old.index.now.shards shard) (λ s. IsSearchFor s search.now) }
    requires room { ForSome (slice_get cache.old.index.now.shards shard) (λ s. HasRoom s search.now pass.old.view) }
    ensures answer { IfDone result (λ p. p ≡ shard_answer search.now (rows_in (index_of cache.old.index.now) shard)) }
    ensures done { IfDone result (λ p. IsTaskDone words.now.limits pass.old.view pass.new.view search.now
        (rows_in (index_of cache.old.index.now) shard) (has_entry cache.old.entries (entry_of search.now shard))) }
    ensures refused { IfRefused result (λ t. IsTaskRefused words.now.limits pass.old.view pass.new.view search.now
        (rows_in (index_of cache.old.index.now) shard) (has_entry cache.old.entries (entry_of search.now shard)) t) }
    ensures memory { IfMemory result (GivesUp pass.old.view pass.new.view search.now
        (rows_in (index_of cache.old.index.now) shard)) }
    ensures kept { IfDone result (λ p. entries_in cache.new.entries
        ≡ entries_after cache.old.entries.cap (has_entry cache.old.entries (entry_of search.now shard)) None
        (entry_of search.now shard) (entries_in cache.old.entries)) }
    ensures not_kept { IfRefused result (λ t. entries_in cache.new.entries
        ≡ entries_after cache.old.entries.cap (has_entry cache.old.entries (entry_of search.now shard)) (Some t)
        (entry_of search.now shard) (entries_in cache.old.entries)) }
    ensures index { cache.new.index.now ≡ cache.old.index.now }
    ensures capacity { cache.new.entries.cap ≡ cache.old.entries.cap }
    ensures of { IsOf words.now pass.new }
    ensures trial { pass.new.view.trial ≡ Trial.Rest }
    ensures cap { pass.new.view.cap ≡ pass.old.view.cap }
{
    let Ok(entry) = ShardSearch::of(alloc, shard, search) else {
        return TaskEnd::Memory;
    };
    match cache.look(alloc, &entry) {
        Ok(Some(answer)) => charge_kept(words, pass, answer),
        Ok(None) => {
            let columns = &cache.index().shards.as_slice()[shard as usize];
            run_and_keep(alloc, words, pass, cache, columns, entry, search)
        }
        Err(_) => TaskEnd::Memory,
    }
}
