//! What bodies asked for so far.
ghost use Rattle.std.specs.Prelude.{◌≡◌, ◌++◌, ◌∷◌, [], OnOk};

use crate::asked::Asked;
use crate::reading::Reading;
use agg_model::{List, Search};
use std::alloc::{AllocError, Global};

/// What bodies asked for so far, in their order: the searches that run, and room for their tasks in bytes.
#[derive(Drop)]
pub struct Progress {
    pub asked: List<Asked>,
    pub searches: Vec<Search>,
    pub rooms: Vec<u64>,
}

impl Progress {
    /// Nothing; it takes no memory.
    pub fn new(alloc: Global) -> Self
        ensures asked { result.asked ≡ [] }
        ensures searches { result.searches.items ≡ [] }
        ensures rooms { result.rooms.items ≡ [] }
    {
        Progress {
            asked: List::new(alloc),
            searches: Vec::new(alloc),
            rooms: Vec::new(alloc),
        }
    }

    /// Puts a search that runs behind what was asked for. `one` is the list of it alone.
    pub fn add_running(&mut self, one: List<Search>, rooms: Vec<u64>) -> Result<(), AllocError>
        ensures asked { OnOk result (self.new.asked ≡ self.old.asked ++ Asked.Runs ∷ []) }
        ensures searches { OnOk result (self.new.searches.items ≡ self.old.searches.items ++ one) }
        ensures rooms { OnOk result (self.new.rooms.items ≡ self.old.rooms.items ++ rooms.items) }
    {
        let mut searches = one.into_vec();
        let mut rooms = rooms;
        self.searches.append(&mut searches)?;
        self.rooms.append(&mut rooms)?;
        self.asked.push(Asked::Runs)
    }

    /// All of it, moved; it takes no memory.
    pub fn into_reading(self) -> Reading
        ensures asked { result.asked ≡ self.asked }
        ensures searches { result.searches ≡ self.searches.items }
        ensures rooms { result.rooms ≡ self.rooms.items }
    {
        let Progress {
            asked,
            searches,
            rooms,
        } = self;
        Reading {
            asked,
            searches: List::from_vec(searches),
            rooms: List::from_vec(rooms),
        }
    }
}
