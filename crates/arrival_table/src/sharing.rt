//! How desks share their claims.
ghost use Rattle.std.specs.Prelude.{◌≡◌, ◌≤◌, []};
ghost use Rattle.arrival_moves.specs.AfterMove.{after_split, split_off, after_join};
ghost use Rattle.arrival_table.specs.Models.{IsOf, with_view};

use crate::cell::Labelled;
use crate::desk::Desk;
use crate::given::Given;
use crate::rule::{JoinDesks, Look, SplitClaims};
use crate::table::Arrivals;
use std::marker::Brand;

impl<A: Labelled, R: Labelled> Arrivals<A, R> {
    fn split_by<Z: Given>(&self, desk: &mut Desk<A, R>, left: u64) -> Desk<A, R>
        requires claims { Z.claims ≡ left }
        requires of { IsOf self.now desk.old }
        requires left { left ≤ desk.old.view.left }
        ensures desk { desk.new ≡ with_view desk.old (after_split desk.old.view left) }
        ensures result { result ≡ with_view desk.old (split_off left) }
    {
        let seat = self
            .table
            .shared
            .split_seat::<SplitClaims<Z>>(&mut desk.seat);
        desk.left -= left;
        Desk {
            left,
            drawn: 0,
            ended: false,
            seat,
        }
    }

    /// Gives some of the claims that the desk may still make to a new desk, which has nothing in hand.
    pub fn split(&self, desk: &mut Desk<A, R>, left: u64) -> Desk<A, R>
        requires of { IsOf self.now desk.old }
        requires left { left ≤ desk.old.view.left }
        ensures desk { desk.new ≡ with_view desk.old (after_split desk.old.view left) }
        ensures result { result ≡ with_view desk.old (split_off left) }
    {
        self.split_by::<Brand>(desk, left)
    }

    /// Adds the claims of the other desk to this one, and unites their notes of stopped searches. This one is ended where
    /// one of them was.
    pub fn join(&self, desk: &mut Desk<A, R>, other: Desk<A, R>)
        requires of { IsOf self.now desk.old }
        requires other { IsOf self.now other }
        requires empty { other.view.hand ≡ [] }
        ensures { desk.new ≡ with_view desk.old (after_join desk.old.view other.view) }
    {
        let (left, drawn, ended, seat) = other.into_parts();
        self.table
            .shared
            .join_seat::<JoinDesks>(&mut desk.seat, seat);
        // A join tells nothing. This look tells that no desk has more than all claims.
        self.table.shared.load::<Look<A, R>>(&mut desk.seat, 0);
        desk.left += left;
        desk.drawn += drawn;
        desk.ended = desk.ended || ended;
    }
}
