//! The passes of tasks: split from the pass of whoever opens a pool, and joined back where it is refused.
ghost use Rattle.std.specs.Prelude.{◌≡◌, ◌+◌, ◌*◌, ◌≤◌, All, length, map, sum, sum_by, vec_capacity, vec_len};
ghost use Rattle.agg_model.specs.declared.breaker.Which.{Which};
ghost use Rattle.breaker_words.specs.AfterStep.{after_split};
ghost use Rattle.breaker_words.specs.Passes.{IsOf, with_view};
ghost use Rattle.breaker_words.specs.Soundness.{IsBounded};
ghost use Rattle.breaker_words.specs.Views.{most_of, seen_of};
ghost use Rattle.breaker_words.specs.declared.trial.Trial.TheVariants as trial;
ghost use Rattle.shard_pool.specs.Tasks.{place_of, task_places};
ghost use Rattle.pool_results.specs.Pools.{shard_count};

use crate::waiting::Waiting;
use agg_model::List;
use arrival_table::Task;
use breaker_words::{Pass, Words, join, split};
use pool_results::{Load, PoolCall};
use std::marker::PhantomData;

/// Splits a pass with its ceiling for each task, and fills the loads. It takes no memory.
pub(crate) fn split_all<J: PoolCall>(
    words: &Words,
    pass: &mut Pass,
    ceilings: &[u64],
    waiting: Vec<Waiting>,
    tasks: Vec<Task<Load<J>>>,
) -> Vec<Task<Load<J>>>
    requires words { words.now ≡ J.pool.words }
    requires of { IsOf words.now pass.old }
    requires rest { pass.old.view.trial ≡ trial.Rest }
    requires ceilings { ceilings.now ≡ J.pool.ceilings }
    requires number { length ceilings.now ≡ length J.pool.searches * shard_count J.pool }
    requires waiting { map place_of waiting.items ≡ task_places (length J.pool.searches) (shard_count J.pool) }
    requires room { (x : Which) → most_of pass.old.view x + sum ceilings.now ≤ pass.old.view.cap }
    requires empty { vec_len tasks ≡ 0 }
    requires capacity { vec_len waiting ≤ vec_capacity tasks }
    ensures lent { pass.new ≡ with_view pass.old (after_split pass.old.view (sum ceilings.now)) }
    ensures places { map (λ t. (t.load.search, t.load.shard)) result.items ≡ task_places (length J.pool.searches) (shard_count J.pool) }
    ensures searches { All (λ t. t.search ≡ t.load.search) result.items }
    ensures caps { map (λ t. t.load.pass.view.cap) result.items ≡ ceilings.now }
    ensures totals { All (λ t. t.load.pass.view.total ≡ pass.old.view.total) result.items }
{
    let mut tasks = tasks;
    for one in waiting {
        let ceiling = ceilings[tasks.len()];
        let part = split(words, pass, ceiling);
        let load = Load {
            search: one.search,
            shard: one.shard,
            runs: one.runs,
            pass: part,
            of: PhantomData,
        };
        tasks.push_reserved(Task {
            search: one.search,
            load,
        });
    }
    tasks
}

/// Joins the passes of tasks that have not begun back.
pub(crate) fn join_all<J: PoolCall>(words: &Words, pass: &mut Pass, tasks: List<Task<Load<J>>>)
    requires words { words.now ≡ J.pool.words }
    requires of { IsOf words.now pass.old }
    requires rest { pass.old.view.trial ≡ trial.Rest }
    requires bounded { IsBounded words.now.limits pass.old.view }
    requires unseen { pass.old.view.cap ≡ 0 → (x : Which) → seen_of pass.old.view x ≡ 0 }
    requires totals { All (λ t. t.load.pass.view.total ≡ pass.old.view.total) tasks }
    ensures { pass.new ≡ with_view pass.old (record pass.old.view { cap = pass.old.view.cap + sum_by (λ t. t.load.pass.view.cap) tasks }) }
{
    for task in tasks.into_vec() {
        join(words, pass, task.load.pass);
    }
}
