//! A result on its way into its slot.
ghost use Rattle.std.specs.Prelude.{◌≡◌, ◌<◌, ◌*◌, ◌∷◌, [], false, IsTrue, IfSome, IfNone};
ghost use Rattle.arrival_moves.specs.declared.item.Item.TheVariants as item;
ghost use Rattle.arrival_moves.specs.Labels.{no_label};
ghost use Rattle.arrival_moves.specs.Lists.{contains, numbers_from};
ghost use Rattle.arrival_moves.specs.Plans.{batch_size, search_of, task_count, tasks_of};
ghost use Rattle.arrival_table.specs.Models.{IsOf};
ghost use Rattle.pool_results.specs.Carried.{has_failed, label_of};
ghost use Rattle.pool_worker.specs.Steps.{SameClaims};

use arrival_table::{Arrivals, Desk};
use pool_results::{Load, Outcome, PoolCall};

/// Puts the result of a task into the slot of its search's next ticket, and counts it. Some batch where it is whole with this
/// result: this desk has it in hand then.
pub(crate) fn deliver<J: PoolCall>(
    table: &Arrivals<Load<J>, Outcome<J>>,
    desk: &mut Desk<Load<J>, Outcome<J>>,
    search: u32,
    task: u32,
    outcome: Outcome<J>,
) -> Option<u32>
    requires of { IsOf table.now desk.old }
    requires range { task < task_count table.now.plan }
    requires search { search ≡ search_of table.now.plan task }
    requires loaded { desk.old.view.hand ≡ item.Loaded (record { task = task; failed = has_failed outcome.work }) ∷ [] }
    requires tasks { (label_of J.pool outcome.work).tasks ≡ task ∷ [] }
    requires noted { IsTrue outcome.work.skipped → IsTrue (contains search desk.old.view.stopped) }
    ensures of { IsOf table.now desk.new }
    ensures last { IfSome result (λ b. desk.new.view.hand ≡ item.Batch (record {
      search = search;
      batch = b;
      due = numbers_from (b * table.now.plan.batch) (batch_size table.now.plan search b);
      taken = no_label;
      at_slot = false;
    }) ∷ []) }
    ensures batch { IfSome result (λ b. b * table.now.plan.batch < tasks_of table.now.plan search) }
    ensures early { IfNone result (desk.new.view.hand ≡ []) }
    ensures claims { SameClaims desk.old.view desk.new.view }
{
    let ticket = table.arrive(desk, task);
    table.put(desk, search, ticket, outcome);
    table.count(desk, search, ticket)
}
