//! A worker's token.
ghost use Rattle.std.specs.Prelude.{◌≡◌, [], ◌+◌, ◌≤◌};
ghost use Rattle.arrival_moves.specs.declared.limits.TheConstants.{ALL_CLAIMS};
ghost use Rattle.arrival_moves.specs.declared.view.View.{View};
ghost use Rattle.arrival_table.specs.Models.{DeskModel};
ghost use Rattle.arrival_table.specs.Outs.{knows};

use crate::cell::Cell;
use crate::known::Known;
use atomic_table::Seat;
use std::marker::Model;

/// A worker's token, with which it makes its steps. It may go to another thread. A desk that is dropped takes its
/// claims with it, so that no desk is whole again; all else stays true.
pub struct Desk<A, R> {
    pub(crate) left: u64,
    pub(crate) drawn: u64,
    pub(crate) ended: bool,
    pub(crate) seat: Seat<Cell<A, R>, Known>,
}

impl<A, R> Model for Desk<A, R> {
    ghost Value = { DeskModel };

    ghost view = { λ d. record { table = d.seat.table_id; view = d.seat.me.0.view } };

    ghost invariant = { λ d. (d.seat.me ≡ (knows d.seat.me.0.view, [])) × (d.left ≡ d.seat.me.0.view.left) × (d.drawn ≡ d.seat.me.0.view.drawn)
        × (d.ended ≡ d.seat.me.0.view.ended) × (d.left + d.drawn ≤ ALL_CLAIMS) };
}

impl<A, R> Drop for Desk<A, R> {
    fn drop(self) {
        let Desk {
            left: _,
            drawn: _,
            ended: _,
            seat: _,
        } = self;
    }
}

impl<A, R> Desk<A, R> {
    pub(crate) fn into_parts(self) -> (u64, u64, bool, Seat<Cell<A, R>, Known>)
        ensures numbers { (result.0 ≡ self.view.left) × (result.1 ≡ self.view.drawn) × (result.2 ≡ self.view.ended) }
        ensures few { result.0 + result.1 ≤ ALL_CLAIMS }
        ensures seat { (result.3.table_id ≡ self.table) × (result.3.me ≡ (knows self.view, [])) }
    {
        let Desk {
            left,
            drawn,
            ended,
            seat,
        } = self;
        (left, drawn, ended, seat)
    }

    /// The claims that it may still make, up to 2^32.
    pub fn left(&self) -> u64
        ensures { result ≡ self.now.view.left }
    {
        self.left
    }

    /// The claims that it made, or a desk that it joined, up to 2^32.
    pub fn drawn(&self) -> u64
        ensures { result ≡ self.now.view.drawn }
    {
        self.drawn
    }

    /// Whether it, or a desk that it joined, was answered that there is no task more.
    pub fn ended(&self) -> bool
        ensures { result ≡ self.now.view.ended }
    {
        self.ended
    }
}
