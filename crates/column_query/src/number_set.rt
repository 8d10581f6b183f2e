//! Sets of whole numbers, made once and asked often.
ghost use Rattle.std.specs.Prelude.{◌≡◌, IfOk};
ghost use Rattle.column_query.specs.NumberSets.{has_number, HasNumbers};

use crate::ascending::Ascending;
use crate::marks::{Marks, is_marked, marks_of};
use std::alloc::{AllocError, Global};

/// A set of whole numbers of 64 bits. It takes 8 bytes at most for each of its numbers, whatever lies between them.
#[derive(Drop)]
pub enum NumberSet {
    /// Found by binary search.
    Listed(Ascending),
    /// A bit for each number from the least to the greatest, where that takes no more memory than their list.
    Marked(Marks),
}

impl NumberSet {
    /// The set of these numbers, in any order and with repeats, in time n log n. While it is made it takes as much again as they do.
    pub fn of(alloc: Global, numbers: Vec<i64>) -> Result<NumberSet, AllocError>
        ensures { IfOk result (λ set. HasNumbers numbers.items set) }
    {
        let ascending = Ascending::of(numbers);
        match marks_of(alloc, ascending.as_slice())? {
            Some(marks) => Ok(NumberSet::Marked(marks)),
            None => Ok(NumberSet::Listed(ascending)),
        }
    }

    /// Whether the set has the number, in time by the logarithm of its length at most, and no memory.
    pub fn contains(&self, number: i64) -> bool
        ensures { result ≡ has_number self.now number }
    {
        match self {
            NumberSet::Listed(numbers) => numbers.contains(number),
            NumberSet::Marked(marks) => is_marked(marks, number),
        }
    }
}
