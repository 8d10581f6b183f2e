//! All tasks of a search in batches, and all merges.
ghost use Rattle.std.specs.Prelude.{◌≡◌, ◌++◌, ◌-◌, ◌≤◌, [], IfErr, IfOk, OnOk, length, map, option_to_list};
ghost use Rattle.std.specs.List.{range_with_len};
ghost use Rattle.agg_model.specs.declared.breaker.Which.TheVariants as which;
ghost use Rattle.agg_model.specs.declared.limits.TheConstants.{MAX_BATCH};
ghost use Rattle.agg_spec.specs.Failures.{AreFailures, unfailed};
ghost use Rattle.cache_spec.specs.Cache.{after_cached_batches, after_cached_tasks, on_going};
ghost use Rattle.agg_spec.specs.Reduction.{after_batch, batches, task_of, tasks_of};
ghost use Rattle.breaker_words.specs.Views.{hold_of};
ghost use Rattle.solo_charges.specs.Alone.{IsAlone};
ghost use Rattle.agg_spec.specs.Outcome.{whole_unless_none};
ghost use Rattle.agg_search.specs.Defined.{CanRun};
ghost use Rattle.fitting_laws.specs.Indexes.{index_of};
ghost use Rattle.agg_search.specs.Progressing.{Follows, StopsIn};
ghost use Rattle.agg_search.specs.Reached.{HasReached, HoldsCosts};
ghost use Rattle.agg_search.specs.Reducing.{Reduces, StopsReducing};
ghost use Rattle.agg_search.specs.Stops.{IfRefused};

use crate::merging::merge;
use crate::progress::Progress;
use crate::shard_tasks::Tasks;
use crate::stop::Stop;
use crate::tasks::run_tasks;
use agg_model::{List, Partial, Search};
use breaker_words::{Pass, Words};
use std::alloc::{AllocError, Global};
use std::mem;

/// Keeps the whole of a batch, where there is one.
fn keep_whole(results: &mut List<Partial>, whole: Option<Partial>) -> Result<(), AllocError>
    ensures { OnOk result (results.new ≡ results.old ++ option_to_list whole) }
{
    let Some(whole) = whole else {
        return Ok(());
    };
    results.push(whole)
}

/// Runs the tasks of a batch, and merges what they answer.
fn run_batch<T: Tasks>(
    alloc: Global,
    words: &Words,
    pass: &mut Pass,
    tasks: &mut T,
    search: &Search,
    from: usize,
    to: usize,
    progress: &mut Progress,
) -> Result<(), Stop>
    requires alone { IsAlone words.now pass.old }
    requires search { CanRun (T.index tasks.old) search.now }
    requires order { from ≤ to }
    requires places { to ≤ length (T.index tasks.old).shards }
    requires reached { HasReached (index_of (T.index tasks.old)) search.now from progress.old }
    requires merged { progress.old.batch ≡ [] }
    requires held { HoldsCosts progress.old pass.old.view }
    ensures alone { IsAlone words.now pass.new }
    ensures index { T.index tasks.new ≡ T.index tasks.old }
    ensures capacity { T.capacity tasks.new ≡ T.capacity tasks.old }
    ensures fielddata { hold_of pass.new.view which.Fielddata ≡ hold_of pass.old.view which.Fielddata }
    ensures inflight { hold_of pass.new.view which.Inflight ≡ hold_of pass.old.view which.Inflight }
    ensures reached { OnOk result (HasReached (index_of (T.index tasks.old)) search.now to progress.new) }
    ensures merged { OnOk result (progress.new.batch ≡ []) }
    ensures held { OnOk result (HoldsCosts progress.new pass.new.view) }
    ensures follows { OnOk result (Follows
        (λ c. on_going (after_batch words.now.limits search.now)
        (after_cached_tasks (T.capacity tasks.old) words.now.limits search.now c
        (map (task_of (index_of (T.index tasks.old)) search.now) (range_with_len from (to - from)))))
        pass.old.view progress.old (T.entries tasks.old) pass.new.view progress.new (T.entries tasks.new)) }
    ensures stops { IfErr result (λ stop. IfRefused stop (StopsIn
        (λ c. on_going (after_batch words.now.limits search.now)
        (after_cached_tasks (T.capacity tasks.old) words.now.limits search.now c
        (map (task_of (index_of (T.index tasks.old)) search.now) (range_with_len from (to - from)))))
        pass.old.view progress.old (T.entries tasks.old) pass.new.view progress.new (T.entries tasks.new))) }
{
    run_tasks(alloc, words, pass, tasks, search, from, to, progress)?;
    let parts = mem::replace(&mut progress.batch, List::new(alloc));
    let whole = merge(alloc, words, pass, parts)?;
    keep_whole(&mut progress.results, whole)?;
    Ok(())
}

/// Runs all tasks, in batches of at most this size.
fn run_batches<T: Tasks>(
    alloc: Global,
    words: &Words,
    pass: &mut Pass,
    tasks: &mut T,
    search: &Search,
    size: usize,
    progress: &mut Progress,
) -> Result<(), Stop>
    requires alone { IsAlone words.now pass.old }
    requires search { CanRun (T.index tasks.old) search.now }
    requires some { 1 ≤ size }
    requires few { size ≤ MAX_BATCH }
    requires reached { HasReached (index_of (T.index tasks.old)) search.now 0 progress.old }
    requires merged { progress.old.batch ≡ [] }
    requires held { HoldsCosts progress.old pass.old.view }
    ensures alone { IsAlone words.now pass.new }
    ensures index { T.index tasks.new ≡ T.index tasks.old }
    ensures capacity { T.capacity tasks.new ≡ T.capacity tasks.old }
    ensures fielddata { hold_of pass.new.view which.Fielddata ≡ hold_of pass.old.view which.Fielddata }
    ensures inflight { hold_of pass.new.view which.Inflight ≡ hold_of pass.old.view which.Inflight }
    ensures reached { OnOk result (HasReached (index_of (T.index tasks.old)) search.now (length (T.index tasks.old).shards) progress.new) }
    ensures merged { OnOk result (progress.new.batch ≡ []) }
    ensures held { OnOk result (HoldsCosts progress.new pass.new.view) }
    ensures follows { OnOk result (Follows
        (λ c. after_cached_batches (T.capacity tasks.old) words.now.limits search.now c (batches size (tasks_of (index_of (T.index tasks.old)) search.now)))
        pass.old.view progress.old (T.entries tasks.old) pass.new.view progress.new (T.entries tasks.new)) }
    ensures stops { IfErr result (λ stop. IfRefused stop (StopsIn
        (λ c. after_cached_batches (T.capacity tasks.old) words.now.limits search.now c (batches size (tasks_of (index_of (T.index tasks.old)) search.now)))
        pass.old.view progress.old (T.entries tasks.old) pass.new.view progress.new (T.entries tasks.new))) }
{
    let shards = tasks.index().shards.len();
    for number in 0..(shards + size - 1) / size {
        let from = number * size;
        let to = shards.min(from + size);
        run_batch(alloc, words, pass, tasks, search, from, to, progress)?;
    }
    Ok(())
}

/// The whole of the shards that did not fail; none where all of them did. The failures are told.
pub(crate) fn reduce_search<T: Tasks>(
    alloc: Global,
    words: &Words,
    pass: &mut Pass,
    tasks: &mut T,
    search: &Search,
    size: usize,
    progress: &mut Progress,
) -> Result<Option<Partial>, Stop>
    requires alone { IsAlone words.now pass.old }
    requires search { CanRun (T.index tasks.old) search.now }
    requires some { 1 ≤ size }
    requires few { size ≤ MAX_BATCH }
    requires batch { progress.old.batch ≡ [] }
    requires results { progress.old.results ≡ [] }
    requires failures { progress.old.failures ≡ [] }
    requires free { hold_of pass.old.view which.Request ≡ 0 }
    ensures alone { IsAlone words.now pass.new }
    ensures index { T.index tasks.new ≡ T.index tasks.old }
    ensures capacity { T.capacity tasks.new ≡ T.capacity tasks.old }
    ensures fielddata { hold_of pass.new.view which.Fielddata ≡ hold_of pass.old.view which.Fielddata }
    ensures inflight { hold_of pass.new.view which.Inflight ≡ hold_of pass.old.view which.Inflight }
    ensures whole { IfOk result (λ whole. whole
        ≡ whole_unless_none (index_of (T.index tasks.old)) search.now (unfailed (index_of (T.index tasks.old)) progress.new.failures)) }
    ensures failures { OnOk result (AreFailures (length (T.index tasks.old).shards) progress.new.failures) }
    ensures reduces { OnOk result (Reduces (T.capacity tasks.old) words.now.limits search.now size
        (tasks_of (index_of (T.index tasks.old)) search.now) pass.old.view (T.entries tasks.old)
        pass.new.view (T.entries tasks.new) progress.new.failures) }
    ensures stops { IfErr result (λ stop. IfRefused stop (StopsReducing (T.capacity tasks.old) words.now.limits search.now size
        (tasks_of (index_of (T.index tasks.old)) search.now) pass.old.view (T.entries tasks.old)
        pass.new.view (T.entries tasks.new) progress.new.failures)) }
{
    run_batches(alloc, words, pass, tasks, search, size, progress)?;
    let parts = mem::replace(&mut progress.results, List::new(alloc));
    merge(alloc, words, pass, parts)
}
