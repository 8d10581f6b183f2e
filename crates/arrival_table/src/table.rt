//! The table that workers share.
ghost use Rattle.std.specs.Prelude.{◌≡◌, ◌+◌, ◌<◌, ◌≤◌};
ghost use Rattle.std.specs.Vec.{vec_len, vec_capacity};
ghost use Rattle.arrival_moves.specs.Plans.{task_count, IsPlan};
ghost use Rattle.arrival_table.specs.Models.{ArrivalsModel};

use crate::cell::{Cell, Labelled};
use crate::known::Known;
use crate::rule::ArrivalRule;
use arrival_moves::{Places, Plan};
use atomic_table::Table;
use std::alloc::Global;
use std::marker::Model;

/// The table of arrivals, shared by `&`. It has one slot for each task, one for each result and one for each batch.
/// Between any two steps of running threads it and the views of all desks meet `ArrivalRule`.
#[derive(Drop)]
pub struct Arrivals<A: Labelled, R: Labelled> {
    pub(crate) table: Table<Cell<A, R>, Known, Plan, ArrivalRule<A, R>, Global>,
    pub(crate) places: Places,
    /// Room for one merged result of each batch, so that a close takes no memory.
    pub(crate) room: Vec<Merged<R>>,
}

/// The merged result of a batch.
#[derive(Drop)]
pub struct Merged<R> {
    pub search: u32,
    pub batch: u32,
    pub result: R,
}

impl<A: Labelled, R: Labelled> Model for Arrivals<A, R> {
    ghost Value = { ArrivalsModel };

    ghost view = { λ a. record { table = a.table.shared.table_id; plan = a.places } };

    ghost invariant = { λ a. (a.table.shared.key ≡ a.places) × IsPlan a.places
        × (a.table.shared.table_id.words ≡ 1 + a.places.searches + task_count a.places + a.places.searches)
        × (a.table.shared.table_id.slots ≡ task_count a.places + task_count a.places + task_count a.places) × (vec_len a.room ≡ 0)
        × (task_count a.places ≤ vec_capacity a.room) };
}

impl<A: Labelled, R: Labelled> Arrivals<A, R> {
    /// The place of a search's stop word, behind the count words.
    pub(crate) fn stop_word(&self, search: u32) -> usize
        requires range { search < self.now.plan.searches }
        ensures value { result ≡ 1 + self.now.plan.searches + task_count self.now.plan + search }
        ensures range { result < self.now.table.words }
    {
        1 + self.places.searches() as usize + self.places.task_count() + search as usize
    }
}
