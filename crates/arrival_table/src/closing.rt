//! How a table is closed.
ghost use Rattle.std.specs.Prelude.{◌≡◌, ◌<◌, ℕ, IsTrue, map, All};
ghost use Rattle.std.specs.List.{sum_by};
ghost use Rattle.arrival_moves.specs.Closing.{IsAtEnd};
ghost use Rattle.arrival_moves.specs.Labels.{task_times};
ghost use Rattle.arrival_moves.specs.Plans.{task_count};
ghost use Rattle.arrival_table.specs.declared.table.Merged.{Merged as MergedValue};
ghost use Rattle.arrival_table.specs.Closing.{all_batches, batch_of, IsWholeBatch, IsBesideFailed};
ghost use Rattle.arrival_table.specs.Models.{IsOf};

use crate::cell::{Cell, Labelled};
use crate::desk::Desk;
use crate::table::{Arrivals, Merged};
use agg_model::List;

impl<A: Labelled + Drop, R: Labelled + Drop> Arrivals<A, R> {
    /// The merged results, one of each batch, by search and then by number. The desk has all claims, found no task at one
    /// of them, and has nothing in hand. It takes no memory.
    pub fn close(self, desk: Desk<A, R>) -> List<Merged<R>>
        requires of { IsOf self desk }
        requires end { IsAtEnd desk.view }
        ensures batches { map batch_of result ≡ all_batches self.plan }
        ensures whole { All (IsWholeBatch R.label self.plan) result }
        ensures once { (k : ℕ) → k < task_count self.plan → sum_by (λ (m : MergedValue R). task_times k (R.label m.result)) result ≡ 1 }
        ensures skipped { All (λ (m : MergedValue R). IsTrue (R.label m.result).skipped → IsBesideFailed R.label result m) result }
    {
        let Arrivals {
            table,
            places,
            room,
        } = self;
        let (_, _, _, seat) = desk.into_parts();
        let mut closed = table.close_with(seat);
        let count = places.task_count();
        for slot in 0..count + count {
            drop(closed.take(slot));
        }
        let mut merged = room;
        for search in 0..places.searches() {
            for batch in 0..places.tasks_of(search) as u32 {
                let cell = closed.take(count + count + places.place_of(search, batch));
                if places.has_batch(search, batch) {
                    let Cell::Outcome(result) = cell else {
                        unreachable!()
                    };
                    merged.push_reserved(Merged {
                        search,
                        batch,
                        result,
                    });
                }
            }
        }
        closed.free();
        List::from_vec(merged)
    }
}
