//! How a pool is opened.
ghost use Rattle.std.specs.Prelude.{◌≡◌, ◌+◌, ◌*◌, ◌≤◌, All, IfOk, OnErr, OnOk, length, sum, sum_by};
ghost use Rattle.agg_model.specs.declared.breaker.Which.{Which as WhichValue};
ghost use Rattle.agg_model.specs.declared.limits.TheConstants.{MAX_AT_ONCE};
ghost use Rattle.arrival_moves.specs.declared.limits.TheConstants.{ALL_CLAIMS, MAX_TASKS};
ghost use Rattle.arrival_table.specs.Models.{DeskModel};
ghost use Rattle.breaker_words.specs.AfterStep.{after_split};
ghost use Rattle.breaker_words.specs.Passes.{IsOf, with_view};
ghost use Rattle.breaker_words.specs.Views.{most_of};
ghost use Rattle.breaker_words.specs.declared.trial.Trial.TheVariants as trial;
ghost use Rattle.pool_results.specs.Pools.{shard_count};
ghost use Rattle.pool_worker.specs.Workers.{IsReady};
ghost use Rattle.pool_worker.specs.Plans.{plan_of};

use crate::lending::{join_all, split_all};
use crate::reserving::waiting_tasks;
use crate::sharing::share;
use agg_model::List;
use arrival_table::{Arrivals, Desk};
use breaker_words::{Pass, Which, Words, look};
use pool_results::{Load, Outcome, PoolCall};
use std::alloc::{AllocError, Global};

/// A pool whose tasks wait for workers: the table where they wait, and a desk for each worker.
#[derive(Drop)]
pub struct Opened<J: PoolCall> {
    pub table: Arrivals<Load<J>, Outcome<J>>,
    pub desks: Vec<Desk<Load<J>, Outcome<J>>>,
}

/// Opens a pool: each task of the searches on the shards waits with a pass that has its ceiling of these, split from the one that is
/// given, which has the whole cap. All memory is taken before a pass is split, but for that of the table, which may be refused:
/// all passes are joined back then.
pub fn open_pool<J: PoolCall>(
    alloc: Global,
    words: &Words,
    pass: &mut Pass,
    searches: u32,
    shards: u32,
    ceilings: &[u64],
    size: u32,
    workers: u32,
) -> Result<Opened<J>, AllocError>
    requires words { words.now ≡ J.pool.words }
    requires of { IsOf words.now pass.old }
    requires rest { pass.old.view.trial ≡ trial.Rest }
    requires whole { pass.old.view.cap ≡ pass.old.view.total }
    requires searches { searches ≡ length J.pool.searches }
    requires shards { shards ≡ shard_count J.pool }
    requires ceilings { ceilings.now ≡ J.pool.ceilings }
    requires number { length ceilings.now ≡ searches * shards }
    requires few { searches * shards ≤ MAX_TASKS }
    requires size { 2 ≤ size }
    requires some { 1 ≤ workers }
    requires at_once { workers ≤ MAX_AT_ONCE }
    requires room { (x : WhichValue) → most_of pass.old.view x + sum ceilings.now ≤ pass.old.view.cap }
    ensures plan { IfOk result (λ o. o.table.plan ≡ plan_of J.pool size) }
    ensures ready { IfOk result (λ o. All (IsReady o.table) o.desks.items) }
    ensures workers { IfOk result (λ o. length o.desks.items ≡ workers) }
    ensures claims { IfOk result (λ o. sum_by (λ (d : DeskModel). d.view.left + d.view.drawn) o.desks.items ≡ ALL_CLAIMS) }
    ensures lent { OnOk result (pass.new ≡ with_view pass.old (after_split pass.old.view (sum ceilings.now))) }
    ensures refused { OnErr result (pass.new ≡ pass.old) }
{
    let waiting = waiting_tasks(alloc, searches, shards)?;
    let tasks = Vec::with_capacity(alloc, waiting.len())?;
    let desks = Vec::with_capacity(alloc, workers as usize)?;
    // A look tells what a join that changes nothing needs: counters stop, and the pass saw no more than it had itself.
    look(words, pass, Which::Request);
    let tasks = split_all(words, pass, ceilings, waiting, tasks);
    match Arrivals::<Load<J>, Outcome<J>>::open(alloc, List::from_vec(tasks), searches, size) {
        Ok((table, desk)) => {
            let desks = share(&table, desk, ceilings.len() as u64, workers, desks);
            Ok(Opened { table, desks })
        }
        Err(refused) => {
            join_all(words, pass, refused.tasks);
            Err(AllocError)
        }
    }
}
