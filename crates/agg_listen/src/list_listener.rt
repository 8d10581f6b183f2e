//! A listener that keeps a list of what it heard.
ghost use Rattle.std.specs.Prelude.{◌≡◌, ◌↔◌, List, [], Option, Some, None, IfOk, true, false};
ghost use Rattle.std.specs.List.{slice_get};
ghost use Rattle.agg_listen.specs.Standing.{Standing};

use crate::listener::{Keep, Listener, Told};
use std::alloc::{AllocError, Global};
use std::marker::Model;

/// A listener that keeps a list of what it heard. It is not steady: it hears of as many answers as it has room for, and
/// leaves at the next.
#[derive(Drop)]
pub struct ListListener {
    heard: Vec<Told>,
    // How many more it hears.
    room: u32,
}

impl Model for ListListener {
    ghost use Rattle.std.specs.Prelude.{◌≤◌, ◌+◌, Some, false, vec_len, vec_capacity};
    ghost use Rattle.agg_listen.specs.Standing.{Standing};

    ghost Value = { Standing };

    ghost view = { λ l. record { heard = Some l.heard.items; steady = false; room = l.room } };

    ghost invariant = { λ l. vec_len l.heard + l.room ≤ vec_capacity l.heard };
}

impl ListListener {
    /// A listener that heard of nothing yet, with room for `room` answers, which it reserves here.
    pub fn new(alloc: Global, room: u32) -> Result<ListListener, AllocError>
        ensures { IfOk result (λ l. l ≡ record { heard = Some []; steady = false; room = room }) }
    {
        Ok(ListListener {
            heard: Vec::with_capacity(alloc, room as usize)?,
            room,
        })
    }
}

impl Listener for ListListener {
    ghost standing = { λ l. l };

    fn hear(&mut self, told: Told) -> Keep {
        if self.room == 0 {
            return Keep::Leave;
        }
        let Ok(()) = self.heard.push(told) else {
            unreachable!("the room was reserved")
        };
        self.room -= 1;
        Keep::Stay
    }

    fn entry(&self, place: usize) -> Option<Told> {
        self.heard.as_slice().get(place).copied()
    }
}
