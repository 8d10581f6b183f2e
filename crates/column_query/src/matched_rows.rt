//! The roots of a shard that a query matches.
ghost use Rattle.std.specs.Prelude.{◌≡◌, ◌<◌, length, true, map, slice_get, Some, IfOk};
ghost use Rattle.agg_evaluation.specs.Matching.{matches};
ghost use Rattle.agg_evaluation.specs.Rows.{roots};
ghost use Rattle.shard_columns.specs.Built.{IsShard};
ghost use Rattle.column_query.specs.Made.{IsMadeFor};
ghost use Rattle.column_query.specs.Prepared.{reads_below, says};
ghost use Rattle.agg_evaluation.specs.Conditions.{looks_below};

use crate::prepared::{Prepared, is_match};
use crate::preparing::prepare_query;
use agg_model::Query;
use shard_columns::Shard;
use std::alloc::{AllocError, Global};
use std::marker::Model;

/// An answer for each place, in one byte. Contracts see it as the list of the answers.
#[derive(Drop)]
pub struct Bits {
    bits: Vec<bool>,
}

impl Model for Bits {
    ghost use Rattle.std.specs.Prelude.{List, Bool};

    ghost Value = { List Bool };

    ghost view = { λ b. b.bits.items };
}

impl Bits {
    /// The number of places.
    pub fn len(&self) -> usize
        ensures { result ≡ length self.now }
    {
        self.bits.len()
    }

    /// The answer at a place.
    pub fn get(&self, place: u32) -> bool
        requires { place < length self.now }
        ensures { slice_get self.now place ≡ Some result }
    {
        self.bits[place as usize]
    }
}

/// For each document of the shard, in the order of its roots, what the prepared query says of it.
fn said(alloc: Global, shard: &Shard, query: &Prepared) -> Result<Bits, AllocError>
    requires { reads_below (length shard.now.kinds) query.now ≡ true }
    ensures { IfOk result (λ bits. bits ≡ map (says shard.now.rows query.now) (roots shard.now.rows)) }
{
    let mut bits = Vec::new(alloc);
    for place in 0..shard.roots() {
        bits.push(is_match(shard, query, shard.root(place)))?;
    }
    Ok(Bits { bits })
}

/// For each document of the shard, in the order of its roots, whether the query matches it, which looks at fields of the
/// shard. Without a document nothing is prepared.
pub(crate) fn matched_roots(alloc: Global, shard: &Shard, query: &Query) -> Result<Bits, AllocError>
    requires built { IsShard shard.now }
    requires looks { looks_below (length shard.now.kinds) query.now ≡ true }
    ensures { IfOk result (λ bits. bits ≡ map (matches shard.now.rows query.now) (roots shard.now.rows)) }
{
    if shard.roots() == 0 {
        return Ok(Bits {
            bits: Vec::new(alloc),
        });
    }
    let prepared = prepare_query(alloc, shard, query)?;
    said(alloc, shard, &prepared)
}

/// For each document of the shard, in the order of its roots, whether the query matches it. The query is made for the mapping
/// of the shard, and for roots. A root takes time by its values and the rows beneath it that the query asks for, times the
/// logarithm of the longest list in the query.
pub fn matched(alloc: Global, shard: &Shard, query: &Query) -> Result<Bits, AllocError>
    requires { IsMadeFor shard.now 0 query.now }
    ensures { IfOk result (λ bits. bits ≡ map (matches shard.now.rows query.now) (roots shard.now.rows)) }
{
    matched_roots(alloc, shard, query)
}
