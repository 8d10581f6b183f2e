//! A batch that is whole, merged by the worker whose count was the last.
ghost use Rattle.std.specs.Prelude.{◌≡◌, ◌+◌, ◌*◌, ◌<◌, ◌≤◌, ◌∷◌, [], false, length};
ghost use Rattle.arrival_moves.specs.declared.item.Item.TheVariants as item;
ghost use Rattle.arrival_moves.specs.declared.limits.TheConstants.{MAX_TASKS};
ghost use Rattle.arrival_moves.specs.Labels.{no_label};
ghost use Rattle.arrival_moves.specs.Lists.{numbers_from};
ghost use Rattle.arrival_table.specs.Models.{IsOf};
ghost use Rattle.pool_results.specs.Pools.{IsPool};
ghost use Rattle.pool_worker.specs.Plans.{plan_of};
ghost use Rattle.pool_worker.specs.Steps.{SameClaims};

use arrival_table::{Arrivals, Desk};
use breaker_words::Words;
use pool_results::{Load, Outcome, PoolCall, add, begin, finish};
use std::alloc::Global;

/// Takes the `count` results of a batch, from the ticket `first` on, and puts the merged one into its slot.
pub(crate) fn merge<J: PoolCall>(
    alloc: Global,
    words: &Words,
    size: u32,
    table: &Arrivals<Load<J>, Outcome<J>>,
    desk: &mut Desk<Load<J>, Outcome<J>>,
    search: u32,
    batch: u32,
    count: u32,
)
    requires words { words.now ≡ J.pool.words }
    requires pool { IsPool J.pool }
    requires plan { table.now.plan ≡ plan_of J.pool size }
    requires of { IsOf table.now desk.old }
    requires search { search < length J.pool.searches }
    requires some { 1 ≤ count }
    requires within { count ≤ size }
    requires few { batch * size + count ≤ MAX_TASKS }
    requires held { desk.old.view.hand ≡ item.Batch (record {
      search = search;
      batch = batch;
      due = numbers_from (batch * size) count;
      taken = no_label;
      at_slot = false;
    }) ∷ [] }
    ensures of { IsOf table.now desk.new }
    ensures empty { desk.new.view.hand ≡ [] }
    ensures claims { SameClaims desk.old.view desk.new.view }
{
    let first = batch * size;
    let one = table.take_result(desk, search, first);
    let mut gathered = begin(alloc, one);
    for ticket in first + 1..first + count {
        let result = table.take_result(desk, search, ticket);
        gathered = add(words, gathered, result);
    }
    let merged = finish(alloc, words, gathered);
    table.put_merged(desk, search, batch, merged);
}
