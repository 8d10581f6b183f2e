//! How the desk that counted a batch last takes its results and puts the merged one.
ghost use Rattle.std.specs.Prelude.{◌≡◌, ◌/◌, [], length};
ghost use Rattle.arrival_moves.specs.AfterMove.{after_put_merged};
ghost use Rattle.arrival_moves.specs.Fairness.{IsOfSearch};
ghost use Rattle.arrival_table.specs.Calls.{IsDue, HasTakenResult, IsMergedOf};
ghost use Rattle.arrival_table.specs.Holding.{AreNew, HasBatch, due_tickets};
ghost use Rattle.arrival_table.specs.Models.{IsOf, with_view};

use crate::cell::{Cell, Labelled};
use crate::desk::Desk;
use crate::given::Given;
use crate::rule::{GiveBack, PutMerged, ReachBatch, TakeResult};
use crate::table::Arrivals;
use std::marker::Brand;

impl<A: Labelled, R: Labelled> Arrivals<A, R> {
    fn take_result_by<Z: Given>(&self, desk: &mut Desk<A, R>, search: u32, ticket: u32) -> R
        requires plan { Z.plan ≡ self.now.plan }
        requires search { Z.search ≡ search }
        requires number { Z.number ≡ ticket }
        requires of { IsOf self.now desk.old }
        requires batch { HasBatch search (ticket / self.now.plan.batch) desk.old.view }
        requires due { IsDue self.now.plan search ticket desk.old.view }
        ensures one { length (R.label result).tasks ≡ 1 }
        ensures search { IsOfSearch self.now.plan search (R.label result) }
        ensures new { AreNew search (ticket / self.now.plan.batch) desk.old.view (R.label result) }
        ensures desk { HasTakenResult self.now.plan search ticket (R.label result) desk.old desk.new }
    {
        self.table
            .shared
            .load::<TakeResult<A, R, Z>>(&mut desk.seat, 0);
        let slot = self.places.task_count() + self.places.place_of(search, ticket);
        let taken = self
            .table
            .shared
            .exchange(&mut desk.seat, slot, Cell::Vacant);
        self.table.shared.load::<GiveBack<A, R>>(&mut desk.seat, 0);
        match taken {
            Cell::Outcome(result) => result,
            Cell::Load(_load) => unreachable!(),
            Cell::Vacant => unreachable!(),
        }
    }

    /// The result of a ticket of a batch that this desk counted last. It stands for one task of the search, for which none
    /// stands that was taken from the batch before.
    pub fn take_result(&self, desk: &mut Desk<A, R>, search: u32, ticket: u32) -> R
        requires of { IsOf self.now desk.old }
        requires batch { HasBatch search (ticket / self.now.plan.batch) desk.old.view }
        requires due { IsDue self.now.plan search ticket desk.old.view }
        ensures one { length (R.label result).tasks ≡ 1 }
        ensures search { IsOfSearch self.now.plan search (R.label result) }
        ensures new { AreNew search (ticket / self.now.plan.batch) desk.old.view (R.label result) }
        ensures desk { HasTakenResult self.now.plan search ticket (R.label result) desk.old desk.new }
    {
        self.take_result_by::<Brand>(desk, search, ticket)
    }

    fn put_merged_by<Z: Given>(&self, desk: &mut Desk<A, R>, search: u32, batch: u32, value: R)
        requires plan { Z.plan ≡ self.now.plan }
        requires search { Z.search ≡ search }
        requires number { Z.number ≡ batch }
        requires of { IsOf self.now desk.old }
        requires batch { HasBatch search batch desk.old.view }
        requires whole { due_tickets search batch desk.old.view ≡ [] }
        requires label { IsMergedOf search batch desk.old.view (R.label value) }
        ensures { desk.new ≡ with_view desk.old (after_put_merged desk.old.view search batch) }
    {
        self.table
            .shared
            .load::<ReachBatch<A, R, Z>>(&mut desk.seat, 0);
        let count = self.places.task_count();
        let slot = count + count + self.places.place_of(search, batch);
        let old = self
            .table
            .shared
            .exchange(&mut desk.seat, slot, Cell::Outcome(value));
        match old {
            Cell::Vacant => (),
            Cell::Load(_load) => unreachable!(),
            Cell::Outcome(_outcome) => unreachable!(),
        }
        self.table
            .shared
            .load::<PutMerged<A, R, Z>>(&mut desk.seat, 0);
    }

    /// Puts the merged result of a batch, all results of which this desk took, into its slot. It stands for their tasks,
    /// says failed where one of them says it, and skipped exactly where one of them says it.
    pub fn put_merged(&self, desk: &mut Desk<A, R>, search: u32, batch: u32, value: R)
        requires of { IsOf self.now desk.old }
        requires batch { HasBatch search batch desk.old.view }
        requires whole { due_tickets search batch desk.old.view ≡ [] }
        requires label { IsMergedOf search batch desk.old.view (R.label value) }
        ensures { desk.new ≡ with_view desk.old (after_put_merged desk.old.view search batch) }
    {
        self.put_merged_by::<Brand>(desk, search, batch, value)
    }
}
