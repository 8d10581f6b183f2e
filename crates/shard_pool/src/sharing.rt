//! How the workers of a pool share the claims of its table.
ghost use Rattle.std.specs.Prelude.{◌≡◌, ◌+◌, ◌≤◌, All, length, sum_by, vec_capacity, vec_len};
ghost use Rattle.agg_model.specs.declared.limits.TheConstants.{MAX_AT_ONCE};
ghost use Rattle.arrival_moves.specs.AfterMove.{first_view};
ghost use Rattle.arrival_moves.specs.Plans.{task_count};
ghost use Rattle.arrival_moves.specs.declared.limits.TheConstants.{ALL_CLAIMS, MAX_TASKS};
ghost use Rattle.arrival_table.specs.Models.{DeskModel, IsOf};
ghost use Rattle.pool_worker.specs.Workers.{IsReady};

use arrival_table::{Arrivals, Desk, Labelled};

/// Fills the desks: one for each worker, with claims enough for all tasks and the one claim that finds none. The last has all
/// other claims.
pub(crate) fn share<A: Labelled, R: Labelled>(
    table: &Arrivals<A, R>,
    first: Desk<A, R>,
    tasks: u64,
    workers: u32,
    desks: Vec<Desk<A, R>>,
) -> Vec<Desk<A, R>>
    requires of { IsOf table.now first }
    requires whole { first.view ≡ first_view }
    requires tasks { tasks ≡ task_count table.now.plan }
    requires few { tasks ≤ MAX_TASKS }
    requires some { 1 ≤ workers }
    requires at_once { workers ≤ MAX_AT_ONCE }
    requires empty { vec_len desks ≡ 0 }
    requires room { workers ≤ vec_capacity desks }
    ensures number { length result.items ≡ workers }
    ensures ready { All (IsReady table.now) result.items }
    ensures claims { sum_by (λ (d : DeskModel). d.view.left + d.view.drawn) result.items ≡ ALL_CLAIMS }
{
    let mut first = first;
    let mut desks = desks;
    for _ in 1..workers {
        let other = table.split(&mut first, tasks + 1);
        desks.push_reserved(other);
    }
    desks.push_reserved(first);
    desks
}
