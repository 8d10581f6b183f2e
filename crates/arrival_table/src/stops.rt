//! How a desk stops a search and finds it stopped.
ghost use Rattle.std.specs.Prelude.{◌≡◌, ◌<◌, IsTrue};
ghost use Rattle.arrival_moves.specs.AfterMove.{after_stop, after_stopped};
ghost use Rattle.arrival_moves.specs.Hands.{HasItem};
ghost use Rattle.arrival_moves.specs.Items.{is_loaded};
ghost use Rattle.arrival_moves.specs.Lists.{one_if, contains};
ghost use Rattle.arrival_moves.specs.Plans.{task_count};
ghost use Rattle.arrival_table.specs.Models.{IsOf, with_view};

use crate::cell::Labelled;
use crate::desk::Desk;
use crate::given::Given;
use crate::rule::{ReadStop, Stop};
use crate::table::Arrivals;
use std::marker::Brand;

impl<A: Labelled, R: Labelled> Arrivals<A, R> {
    fn stop_by<Z: Given>(&self, desk: &mut Desk<A, R>, task: u32)
        requires task { Z.task ≡ task }
        requires range { task < task_count self.now.plan }
        requires of { IsOf self.now desk.old }
        requires loaded { HasItem (is_loaded task) desk.old.view }
        ensures { desk.new ≡ with_view desk.old (after_stop desk.old.view task) }
    {
        let search = self.places.search_of(task);
        let word = self.stop_word(search);
        self.table
            .shared
            .fetch_or::<Stop<A, R, Z>>(&mut desk.seat, word, 1);
    }

    /// Marks a task, whose load this desk took, as failed, and stops its search.
    pub fn stop(&self, desk: &mut Desk<A, R>, task: u32)
        requires range { task < task_count self.now.plan }
        requires of { IsOf self.now desk.old }
        requires loaded { HasItem (is_loaded task) desk.old.view }
        ensures { desk.new ≡ with_view desk.old (after_stop desk.old.view task) }
    {
        self.stop_by::<Brand>(desk, task)
    }

    fn stopped_by<Z: Given>(&self, desk: &mut Desk<A, R>, search: u32) -> bool
        requires search { Z.search ≡ search }
        requires range { search < self.now.plan.searches }
        requires of { IsOf self.now desk.old }
        ensures desk { desk.new ≡ with_view desk.old (after_stopped desk.old.view search (one_if result)) }
        ensures noted { IsTrue (contains search desk.old.view.stopped) → IsTrue result }
    {
        let word = self.stop_word(search);
        let found = self
            .table
            .shared
            .load::<ReadStop<A, R, Z>>(&mut desk.seat, word);
        found == 1
    }

    /// Whether the search was stopped, as its stop word is read. Where it was, the desk has the search noted, and from
    /// then on the answer is true.
    pub fn stopped(&self, desk: &mut Desk<A, R>, search: u32) -> bool
        requires range { search < self.now.plan.searches }
        requires of { IsOf self.now desk.old }
        ensures desk { desk.new ≡ with_view desk.old (after_stopped desk.old.view search (one_if result)) }
        ensures noted { IsTrue (contains search desk.old.view.stopped) → IsTrue result }
    {
        self.stopped_by::<Brand>(desk, search)
    }
}
