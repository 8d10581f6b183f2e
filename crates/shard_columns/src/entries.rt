// The rows of a shard by their documents and origins.
ghost use Rattle.std.specs.Prelude.{◌≡◌, ◌++◌, ◌∷◌, ◌+◌, ◌<◌, [], OnOk, length, slice_index_or, true};
ghost use Rattle.shard_columns.specs.Roots.{each_root, root_at};

use crate::layout::{Entry, Origin};
use std::alloc::{AllocError, Global};
use std::marker::Model;

/// Entries in the order of the rows. Contracts see them as a list.
///
/// As long as each row from 0 on is the root of the document of the same number, only their number is kept.
#[derive(Drop)]
pub struct Entries {
    /// So many rows, from 0 on, are the roots of the documents of the same numbers.
    roots: u32,
    /// The entries of the rows behind those.
    others: Vec<Entry>,
}

impl Model for Entries {
    ghost use Rattle.std.specs.Prelude.{List, ◌++◌};
    ghost use Rattle.shard_columns.specs.Roots.{each_root};
    ghost use Rattle.shard_columns.specs.declared.layout.Entry.{Entry};

    ghost Value = { List Entry };

    ghost view = { λ e. each_root e.roots ++ e.others.items };
}

// Whether this is the root of the document at a place, which is not the last that has a number.
fn is_root_at(entry: Entry, place: u32) -> bool
    ensures root { result ≡ true → entry ≡ root_at place }
    ensures more { result ≡ true → place + 1 < 4294967296 }
{
    entry.document == place && place < u32::MAX && matches!(entry.origin, Origin::Root)
}

impl Entries {
    /// No row.
    pub fn new(alloc: Global) -> Self
        ensures { result ≡ [] }
    {
        Entries {
            roots: 0,
            others: Vec::new(alloc),
        }
    }

    /// How many rows there are.
    pub fn len(&self) -> usize
        ensures { result ≡ length self.now }
    {
        self.roots as usize + self.others.len()
    }

    /// Puts the entry of a row behind the others.
    pub fn push(&mut self, entry: Entry) -> Result<(), AllocError>
        ensures { OnOk result (self.new ≡ self.old ++ entry ∷ []) }
    {
        if self.others.is_empty() && is_root_at(entry, self.roots) {
            self.roots += 1;
            return Ok(());
        }
        self.others.push(entry)?;
        Ok(())
    }

    /// Whether each row is known to be the root of the document of its number.
    pub fn are_roots(&self) -> bool {
        self.others.is_empty()
    }

    /// The entry of a row.
    pub fn at(&self, row: u32) -> Entry
        requires { row < length self.now }
        ensures { result ≡ slice_index_or self.now row result }
    {
        if row < self.roots {
            return Entry {
                document: row,
                origin: Origin::Root,
            };
        }
        self.others[(row - self.roots) as usize]
    }
}
