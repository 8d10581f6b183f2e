//! How a result comes into its slot and is counted.
ghost use Rattle.std.specs.Prelude.{◌≡◌, ◌<◌, IfSome, IfNone};
ghost use Rattle.arrival_moves.specs.AfterMove.{after_put};
ghost use Rattle.arrival_moves.specs.Hands.{HasItem};
ghost use Rattle.arrival_moves.specs.Items.{is_put};
ghost use Rattle.arrival_moves.specs.Plans.{tasks_of};
ghost use Rattle.arrival_table.specs.Calls.{IsResultOf, HasCountedLast, HasCountedEarly};
ghost use Rattle.arrival_table.specs.Holding.{HasTicket};
ghost use Rattle.arrival_table.specs.Models.{IsOf, with_view};

use crate::cell::{Cell, Labelled};
use crate::desk::Desk;
use crate::given::Given;
use crate::rule::{Count, PutResult, ReachResult};
use crate::table::Arrivals;
use std::marker::Brand;

impl<A: Labelled, R: Labelled> Arrivals<A, R> {
    fn put_by<Z: Given>(&self, desk: &mut Desk<A, R>, search: u32, ticket: u32, value: R)
        requires plan { Z.plan ≡ self.now.plan }
        requires search { Z.search ≡ search }
        requires number { Z.number ≡ ticket }
        requires of { IsOf self.now desk.old }
        requires ticket { HasTicket search ticket desk.old.view }
        requires label { IsResultOf search ticket desk.old.view (R.label value) }
        ensures { desk.new ≡ with_view desk.old (after_put desk.old.view search ticket) }
    {
        self.table
            .shared
            .load::<ReachResult<A, R, Z>>(&mut desk.seat, 0);
        let slot = self.places.task_count() + self.places.place_of(search, ticket);
        let old = self
            .table
            .shared
            .exchange(&mut desk.seat, slot, Cell::Outcome(value));
        match old {
            Cell::Vacant => (),
            Cell::Load(_load) => unreachable!(),
            Cell::Outcome(_outcome) => unreachable!(),
        }
        self.table
            .shared
            .load::<PutResult<A, R, Z>>(&mut desk.seat, 0);
    }

    /// Puts the result of a ticket that this desk drew into its slot. It stands for the ticket's task alone, says failed
    /// where the task is marked failed, and skipped only where the desk noted the search as stopped.
    pub fn put(&self, desk: &mut Desk<A, R>, search: u32, ticket: u32, value: R)
        requires of { IsOf self.now desk.old }
        requires ticket { HasTicket search ticket desk.old.view }
        requires label { IsResultOf search ticket desk.old.view (R.label value) }
        ensures { desk.new ≡ with_view desk.old (after_put desk.old.view search ticket) }
    {
        self.put_by::<Brand>(desk, search, ticket, value)
    }

    fn count_by<Z: Given>(&self, desk: &mut Desk<A, R>, search: u32, ticket: u32) -> Option<u32>
        requires plan { Z.plan ≡ self.now.plan }
        requires search { Z.search ≡ search }
        requires number { Z.number ≡ ticket }
        requires range { ticket < tasks_of self.now.plan search }
        requires of { IsOf self.now desk.old }
        requires put { HasItem (is_put search ticket) desk.old.view }
        ensures last { IfSome result (HasCountedLast self.now.plan search ticket desk.old desk.new) }
        ensures early { IfNone result (HasCountedEarly self.now.plan search ticket desk.old desk.new) }
    {
        let batch = ticket / self.places.batch();
        let place = self.places.place_of(search, batch);
        let word = 1 + self.places.searches() as usize + place;
        let found = self
            .table
            .shared
            .fetch_add::<Count<A, R, Z>>(&mut desk.seat, word, 1);
        if found + 1 == self.places.batch_size(search, batch) {
            Some(batch)
        } else {
            None
        }
    }

    /// Counts a ticket whose result this desk put. Some batch where this count is the last of it: the batch
    /// `ticket / batch size`, whose results this desk is to take and merge.
    pub fn count(&self, desk: &mut Desk<A, R>, search: u32, ticket: u32) -> Option<u32>
        requires range { ticket < tasks_of self.now.plan search }
        requires of { IsOf self.now desk.old }
        requires put { HasItem (is_put search ticket) desk.old.view }
        ensures last { IfSome result (HasCountedLast self.now.plan search ticket desk.old desk.new) }
        ensures early { IfNone result (HasCountedEarly self.now.plan search ticket desk.old desk.new) }
    {
        self.count_by::<Brand>(desk, search, ticket)
    }
}
