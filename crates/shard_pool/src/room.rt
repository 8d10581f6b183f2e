//! Room for the ends of searches.
ghost use Rattle.std.specs.Prelude.{◌≡◌, ◌≤◌, [], IfOk, replicate};
ghost use Rattle.std.specs.Vec.{vec_capacity};
ghost use Rattle.shard_pool.specs.Gathered.{no_results};

use crate::gathered::Gathered;
use crate::search_end::SearchEnd;
use std::alloc::{AllocError, Global};
use std::marker::Model;

/// Room for the ends of some searches, so that a close can tell of each of them even where memory runs out. Contracts see the number
/// of the searches.
#[derive(Drop)]
pub struct EndRoom {
    pub(crate) gathered: Vec<Gathered>,
    pub(crate) ends: Vec<SearchEnd>,
}

impl Model for EndRoom {
    ghost use Rattle.std.specs.Prelude.{◌≡◌, ◌≤◌, ℕ, length, replicate};
    ghost use Rattle.std.specs.Vec.{vec_capacity, vec_len};
    ghost use Rattle.shard_pool.specs.Gathered.{no_results};

    ghost Value = { ℕ };

    ghost view = { λ r. length r.gathered.items };

    ghost invariant = { λ r. (r.gathered.items ≡ replicate (length r.gathered.items) no_results) × (vec_len r.ends ≡ 0) × (length r.gathered.items ≤ vec_capacity r.ends) };
}

impl EndRoom {
    pub(crate) fn into_parts(self) -> (Vec<Gathered>, Vec<SearchEnd>)
        ensures gathered { result.0.items ≡ replicate self no_results }
        ensures empty { result.1.items ≡ [] }
        ensures room { self ≤ vec_capacity result.1 }
    {
        let EndRoom { gathered, ends } = self;
        (gathered, ends)
    }
}

/// Room for the ends of so many searches. It is to be taken before any task is charged.
pub fn end_room(alloc: Global, searches: u32) -> Result<EndRoom, AllocError>
    ensures { IfOk result (λ r. r ≡ searches) }
{
    let ends = Vec::with_capacity(alloc, searches as usize)?;
    let mut gathered = Vec::new(alloc);
    for _search in 0..searches {
        gathered.push(Gathered::empty(alloc))?;
    }
    Ok(EndRoom { gathered, ends })
}
