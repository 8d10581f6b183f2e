//! How a pool is closed.
ghost use Rattle.std.specs.Prelude.{◌≡◌, ◌≤◌, ◌<◌, ◌+◌, ℕ, All, length, slice_index_or};
ghost use Rattle.std.specs.List.{sum_by};
ghost use Rattle.arrival_moves.specs.declared.limits.TheConstants.{ALL_CLAIMS};
ghost use Rattle.breaker_words.specs.Passes.{IsOf};
ghost use Rattle.shard_pool.specs.Closed.{IsPlanOf};
ghost use Rattle.shard_pool.specs.declared.search_end.SearchEnd.{SearchEnd as AnyEnd};
ghost use Rattle.shard_pool.specs.Desks.{HasEnded, claims_of};
ghost use Rattle.shard_pool.specs.Ends.{HasRun, MayEnd, over_tasks};
ghost use Rattle.pool_results.specs.Pools.{ceiling_at};

use crate::desks::join_desks;
use crate::joining::join_all;
use crate::room::EndRoom;
use crate::search_end::SearchEnd;
use crate::settling::settle_all;
use agg_model::{List, Which};
use arrival_table::{Arrivals, Desk};
use breaker_words::{Pass, Trial, Words, look};
use pool_results::{Load, Outcome, PoolCall};
use std::alloc::Global;

/// Closes a pool all of whose workers have ended: the end of each search. All passes come back into the caller's pass, which has the
/// whole cap then, and holds what the parts of the ends cost.
pub fn close_pool<J: PoolCall>(
    alloc: Global,
    words: &Words,
    pass: &mut Pass,
    table: Arrivals<Load<J>, Outcome<J>>,
    desks: Vec<Desk<Load<J>, Outcome<J>>>,
    room: EndRoom,
) -> List<SearchEnd>
    requires words { words.now ≡ J.pool.words }
    requires plan { IsPlanOf J.pool table.plan.batch table.plan }
    requires batch { 2 ≤ table.plan.batch }
    requires of { IsOf words.now pass.old }
    requires rest { pass.old.view.trial ≡ Trial.Rest }
    requires some { 1 ≤ pass.old.view.cap }
    requires cap { pass.old.view.cap + over_tasks J.pool (ceiling_at J.pool) ≡ pass.old.view.total }
    requires desks { All (HasEnded table) desks.items }
    requires claims { sum_by claims_of desks.items ≡ ALL_CLAIMS }
    requires room { room ≡ length J.pool.searches }
    ensures number { length result ≡ length J.pool.searches }
    ensures ends { (q : ℕ) (d : AnyEnd) → q < length J.pool.searches → MayEnd J.pool q table.plan.batch pass.new.view (slice_index_or result q d) }
    ensures run { HasRun J.pool table.plan.batch pass.old pass.new result }
{
    // A look tells that no counter is above where it stops.
    look(words, pass, Which::Parent);
    let desk = join_desks(&table, desks);
    let results = table.close(desk);
    let (mut gathered, ends) = room.into_parts();
    join_all(words, pass, results, &mut gathered);
    let ends = settle_all(alloc, words, pass, gathered, ends);
    // And this one that nobody saw more than the pass had standing.
    look(words, pass, Which::Parent);
    ends
}
