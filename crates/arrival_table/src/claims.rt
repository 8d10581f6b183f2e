//! How a desk comes to a task and its ticket.
ghost use Rattle.std.specs.Prelude.{◌≡◌, ◌≤◌, ◌<◌, IfSome, IfNone};
ghost use Rattle.arrival_moves.specs.AfterMove.{after_take_task};
ghost use Rattle.arrival_moves.specs.Hands.{HasItem};
ghost use Rattle.arrival_moves.specs.Items.{is_claimed, is_loaded};
ghost use Rattle.arrival_moves.specs.Labels.{task_label};
ghost use Rattle.arrival_moves.specs.Plans.{task_count, search_of, tasks_of};
ghost use Rattle.arrival_table.specs.Calls.{HasClaimed, HasDrawn, HasEnded, HasArrived};
ghost use Rattle.arrival_table.specs.Models.{IsOf, with_view};

use crate::cell::{Cell, Labelled};
use crate::desk::Desk;
use crate::given::Given;
use crate::rule::{Arrive, Claim, GiveBack, TakeTask};
use crate::table::Arrivals;
use std::marker::Brand;

impl<A: Labelled, R: Labelled> Arrivals<A, R> {
    // What a step does not announce, its call picks.
    fn claim_by<Z: Given>(&self, desk: &mut Desk<A, R>) -> Option<u32>
        requires plan { Z.plan ≡ self.now.plan }
        requires of { IsOf self.now desk.old }
        requires left { 1 ≤ desk.old.view.left }
        ensures of { IsOf self.now desk.new }
        ensures numbers { HasClaimed desk.old desk.new }
        ensures some { IfSome result (HasDrawn self.now.plan desk.old desk.new) }
        ensures none { IfNone result (HasEnded self.now.plan desk.old desk.new) }
    {
        let found = self
            .table
            .shared
            .fetch_add::<Claim<A, R, Z>>(&mut desk.seat, 0, 1);
        desk.left -= 1;
        desk.drawn += 1;
        if found >= self.places.task_count() as u64 {
            desk.ended = true;
            return None;
        }
        Some(found as u32)
    }

    /// The number of the next task, from 0, or None where there is none; then the desk is ended.
    pub fn claim(&self, desk: &mut Desk<A, R>) -> Option<u32>
        requires of { IsOf self.now desk.old }
        requires left { 1 ≤ desk.old.view.left }
        ensures of { IsOf self.now desk.new }
        ensures numbers { HasClaimed desk.old desk.new }
        ensures some { IfSome result (HasDrawn self.now.plan desk.old desk.new) }
        ensures none { IfNone result (HasEnded self.now.plan desk.old desk.new) }
    {
        self.claim_by::<Brand>(desk)
    }

    fn take_task_by<Z: Given>(&self, desk: &mut Desk<A, R>, task: u32) -> A
        requires task { Z.task ≡ task }
        requires of { IsOf self.now desk.old }
        requires claimed { HasItem (is_claimed task) desk.old.view }
        ensures load { A.label result ≡ task_label task }
        ensures desk { desk.new ≡ with_view desk.old (after_take_task desk.old.view task) }
    {
        self.table
            .shared
            .load::<TakeTask<A, R, Z>>(&mut desk.seat, 0);
        let taken = self
            .table
            .shared
            .exchange(&mut desk.seat, task as usize, Cell::Vacant);
        self.table.shared.load::<GiveBack<A, R>>(&mut desk.seat, 0);
        match taken {
            Cell::Load(load) => load,
            Cell::Vacant => unreachable!(),
            Cell::Outcome(_outcome) => unreachable!(),
        }
    }

    /// The load of a task that this desk claimed. It stands for this task alone.
    pub fn take_task(&self, desk: &mut Desk<A, R>, task: u32) -> A
        requires of { IsOf self.now desk.old }
        requires claimed { HasItem (is_claimed task) desk.old.view }
        ensures load { A.label result ≡ task_label task }
        ensures desk { desk.new ≡ with_view desk.old (after_take_task desk.old.view task) }
    {
        self.take_task_by::<Brand>(desk, task)
    }

    fn arrive_by<Z: Given>(&self, desk: &mut Desk<A, R>, task: u32) -> u32
        requires plan { Z.plan ≡ self.now.plan }
        requires task { Z.task ≡ task }
        requires range { task < task_count self.now.plan }
        requires of { IsOf self.now desk.old }
        requires loaded { HasItem (is_loaded task) desk.old.view }
        ensures ticket { result < tasks_of self.now.plan (search_of self.now.plan task) }
        ensures desk { HasArrived self.now.plan task result desk.old desk.new }
    {
        let word = 1 + self.places.search_of(task) as usize;
        let ticket = self
            .table
            .shared
            .fetch_add::<Arrive<A, R, Z>>(&mut desk.seat, word, 1);
        ticket as u32
    }

    /// The next ticket of the task's search, from 0.
    pub fn arrive(&self, desk: &mut Desk<A, R>, task: u32) -> u32
        requires range { task < task_count self.now.plan }
        requires of { IsOf self.now desk.old }
        requires loaded { HasItem (is_loaded task) desk.old.view }
        ensures ticket { result < tasks_of self.now.plan (search_of self.now.plan task) }
        ensures desk { HasArrived self.now.plan task result desk.old desk.new }
    {
        self.arrive_by::<Brand>(desk, task)
    }
}
