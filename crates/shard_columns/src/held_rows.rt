// The rows that have values of a field, and where these are.
ghost use Rattle.std.specs.Prelude.{◌≡◌, ◌++◌, ◌∷◌, [], IfOk, IfSome, OnOk, map, true};
ghost use Rattle.agg_evaluation.specs.Ceiling.{greatest_of};
ghost use Rattle.shard_columns.specs.Ones.{one_each, one_at};
ghost use Rattle.shard_columns.specs.Values.{held_count};

use crate::values::{Held, Span};
use std::alloc::{AllocError, Global};
use std::marker::Model;

/// Rows with the places of their values, in the order in which they came. Contracts see them as a list.
///
/// As long as each row from 0 on has one value, whose place is that of the row, only their number is kept.
#[derive(Drop)]
pub struct HeldRows {
    /// So many rows, from 0 on, have one value each.
    ones: u32,
    /// The rows behind those.
    others: Vec<Held>,
}

impl Model for HeldRows {
    ghost use Rattle.std.specs.Prelude.{List, ◌++◌};
    ghost use Rattle.shard_columns.specs.Ones.{one_each};
    ghost use Rattle.shard_columns.specs.declared.values.Held.{Held};

    ghost Value = { List Held };

    ghost view = { λ h. one_each h.ones ++ h.others.items };
}

// Whether this is the row at a place, with one value, at the same place.
fn is_one_at(held: Held, place: u32) -> bool
    ensures { result ≡ true → held ≡ one_at place }
{
    let Span { start, end } = held.span;
    held.row == place && start == place && end > place && end - place == 1
}

// So many rows from 0 on that have one value each.
fn push_ones(rows: &mut Vec<Held>, count: u32) -> Result<(), AllocError>
    requires none { rows.old.items ≡ [] }
    ensures { OnOk result (rows.new.items ≡ one_each count) }
{
    for row in 0..count {
        let span = Span {
            start: row,
            end: row + 1,
        };
        rows.push(Held { row, span })?;
    }
    Ok(())
}

// The greatest number of values of one of these rows, 0 where there is none.
fn most_of(held: &[Held]) -> u32
    ensures { result ≡ greatest_of (map held_count held.now) }
{
    let mut most = 0;
    for one in held {
        most = most.max(one.span.end.saturating_sub(one.span.start));
    }
    most
}

impl HeldRows {
    /// No row.
    pub fn new(alloc: Global) -> Self
        ensures { result ≡ [] }
    {
        HeldRows {
            ones: 0,
            others: Vec::new(alloc),
        }
    }

    /// Puts a row behind the others.
    pub fn push(&mut self, held: Held) -> Result<(), AllocError>
        ensures { OnOk result (self.new ≡ self.old ++ held ∷ []) }
    {
        if self.others.is_empty() && is_one_at(held, self.ones) {
            self.ones = held.span.end;
            return Ok(());
        }
        self.others.push(held)?;
        Ok(())
    }

    /// How many rows there are, if each from 0 on has one value, at its own place.
    pub fn ones(&self) -> Option<u32>
        ensures { IfSome result (λ count. self.now ≡ one_each count) }
    {
        if self.others.is_empty() {
            Some(self.ones)
        } else {
            None
        }
    }

    /// The rows as a list.
    pub fn into_vec(self, alloc: Global) -> Result<Vec<Held>, AllocError>
        ensures { IfOk result (λ rows. rows.items ≡ self) }
    {
        let HeldRows { ones, others } = self;
        if ones == 0 {
            return Ok(others);
        }
        let mut rows = Vec::new(alloc);
        push_ones(&mut rows, ones)?;
        rows.extend_from_slice(others.as_slice())?;
        Ok(rows)
    }

    /// The greatest number of values of one of the rows, 0 where there is none.
    pub fn most(&self) -> u32
        ensures { result ≡ greatest_of (map held_count self.now) }
    {
        most_of(self.others.as_slice()).max(self.ones.min(1))
    }
}
