//! The tasks of a search, one shard after another.
ghost use Rattle.std.specs.Prelude.{◌≡◌, ◌+◌, ◌-◌, ◌<◌, ◌≤◌, IfErr, OnOk, length, map};
ghost use Rattle.std.specs.List.{range_with_len};
ghost use Rattle.agg_model.specs.declared.breaker.Which.TheVariants as which;
ghost use Rattle.agg_model.specs.declared.limits.TheConstants.{MAX_SHARDS};
ghost use Rattle.cache_spec.specs.Cache.{after_cached_task, after_cached_tasks};
ghost use Rattle.agg_spec.specs.Reduction.{task_of};
ghost use Rattle.breaker_words.specs.Views.{hold_of};
ghost use Rattle.solo_charges.specs.Alone.{IsAlone};
ghost use Rattle.agg_search.specs.Defined.{CanRun};
ghost use Rattle.fitting_laws.specs.Indexes.{index_of};
ghost use Rattle.agg_search.specs.Progressing.{Follows, StopsIn};
ghost use Rattle.agg_search.specs.Reached.{HasReached, HoldsCosts};
ghost use Rattle.agg_search.specs.Stops.{IfRefused};

use crate::progress::{Progress, keep};
use crate::shard_tasks::Tasks;
use crate::stop::Stop;
use agg_model::Search;
use breaker_words::{Pass, Words};
use solo_charges::make_room;
use std::alloc::Global;

/// Runs the task of the shard at this place.
fn run_one<T: Tasks>(
    alloc: Global,
    words: &Words,
    pass: &mut Pass,
    tasks: &mut T,
    search: &Search,
    place: usize,
    progress: &mut Progress,
) -> Result<(), Stop>
    requires alone { IsAlone words.now pass.old }
    requires search { CanRun (T.index tasks.old) search.now }
    requires place { place < length (T.index tasks.old).shards }
    requires reached { HasReached (index_of (T.index tasks.old)) search.now place progress.old }
    requires held { HoldsCosts progress.old pass.old.view }
    ensures alone { IsAlone words.now pass.new }
    ensures index { T.index tasks.new ≡ T.index tasks.old }
    ensures capacity { T.capacity tasks.new ≡ T.capacity tasks.old }
    ensures fielddata { hold_of pass.new.view which.Fielddata ≡ hold_of pass.old.view which.Fielddata }
    ensures inflight { hold_of pass.new.view which.Inflight ≡ hold_of pass.old.view which.Inflight }
    ensures reached { OnOk result (HasReached (index_of (T.index tasks.old)) search.now (place + 1) progress.new) }
    ensures held { OnOk result (HoldsCosts progress.new pass.new.view) }
    ensures follows { OnOk result (Follows
        (λ c. after_cached_task (T.capacity tasks.old) words.now.limits search.now c
        (task_of (index_of (T.index tasks.old)) search.now place))
        pass.old.view progress.old (T.entries tasks.old) pass.new.view progress.new (T.entries tasks.new)) }
    ensures stops { IfErr result (λ stop. IfRefused stop (StopsIn
        (λ c. after_cached_task (T.capacity tasks.old) words.now.limits search.now c
        (task_of (index_of (T.index tasks.old)) search.now place))
        pass.old.view progress.old (T.entries tasks.old) pass.new.view progress.new (T.entries tasks.new))) }
{
    make_room(words, pass);
    let end = tasks.answer(alloc, words, pass, place as u32, search);
    keep(progress, place as u32, end, search.partial)
}

/// Runs the tasks of the shards from one place to before another.
pub(crate) fn run_tasks<T: Tasks>(
    alloc: Global,
    words: &Words,
    pass: &mut Pass,
    tasks: &mut T,
    search: &Search,
    from: usize,
    to: usize,
    progress: &mut Progress,
) -> Result<(), Stop>
    requires alone { IsAlone words.now pass.old }
    requires search { CanRun (T.index tasks.old) search.now }
    requires order { from ≤ to }
    requires places { to ≤ length (T.index tasks.old).shards }
    requires reached { HasReached (index_of (T.index tasks.old)) search.now from progress.old }
    requires held { HoldsCosts progress.old pass.old.view }
    ensures alone { IsAlone words.now pass.new }
    ensures index { T.index tasks.new ≡ T.index tasks.old }
    ensures capacity { T.capacity tasks.new ≡ T.capacity tasks.old }
    ensures fielddata { hold_of pass.new.view which.Fielddata ≡ hold_of pass.old.view which.Fielddata }
    ensures inflight { hold_of pass.new.view which.Inflight ≡ hold_of pass.old.view which.Inflight }
    ensures reached { OnOk result (HasReached (index_of (T.index tasks.old)) search.now to progress.new) }
    ensures held { OnOk result (HoldsCosts progress.new pass.new.view) }
    ensures follows { OnOk result (Follows
        (λ c. after_cached_tasks (T.capacity tasks.old) words.now.limits search.now c
        (map (task_of (index_of (T.index tasks.old)) search.now) (range_with_len from (to - from))))
        pass.old.view progress.old (T.entries tasks.old) pass.new.view progress.new (T.entries tasks.new)) }
    ensures stops { IfErr result (λ stop. IfRefused stop (StopsIn
        (λ c. after_cached_tasks (T.capacity tasks.old) words.now.limits search.now c
        (map (task_of (index_of (T.index tasks.old)) search.now) (range_with_len from (to - from))))
        pass.old.view progress.old (T.entries tasks.old) pass.new.view progress.new (T.entries tasks.new))) }
{
    for place in from..to {
        run_one(alloc, words, pass, tasks, search, place, progress)?;
    }
    Ok(())
}
