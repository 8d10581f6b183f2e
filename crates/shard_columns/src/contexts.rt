// The numbers of the rows of each context.
ghost use Rattle.std.specs.Prelude.{◌≡◌, ◌<◌, ◌^◌, IfOk, [], length, slice_index_or};
ghost use Rattle.shard_columns.specs.Layout.{context_of};
ghost use Rattle.shard_columns.specs.Contexts.{ContextsBelow, AreNumbered};

use crate::entries::Entries;
use crate::layout::{Entry, Origin};
use agg_model::List;
use std::alloc::{AllocError, Global};

/// The context of a row: 0 at a root, i + 1 at the i-th nested path.
pub fn context(row: &Entry) -> usize
    ensures { result ≡ context_of row.now.origin }
{
    match row.origin {
        Origin::Root => 0,
        Origin::Nested { path, .. } => path as usize + 1,
    }
}

fn no_numbers(alloc: Global, count: usize) -> Result<Vec<List<u32>>, AllocError>
    ensures { IfOk result (λ numbers. AreNumbered count [] numbers.items) }
{
    let mut numbers = Vec::new(alloc);
    for _context in 0..count {
        numbers.push(List::new(alloc))?;
    }
    Ok(numbers)
}

/// For each of so many contexts the numbers of its rows, ascending.
pub fn numbers_by_context(
    alloc: Global,
    count: usize,
    rows: &Entries,
) -> Result<Vec<List<u32>>, AllocError>
    requires contexts { ContextsBelow count rows.now }
    requires few { length rows.now < 2 ^ 32 }
    ensures { IfOk result (λ numbers. AreNumbered count rows.now numbers.items) }
{
    let mut numbers = no_numbers(alloc, count)?;
    for place in 0..rows.len() {
        let number = place as u32;
        numbers[context(&rows.at(number))].push(number)?;
    }
    Ok(numbers)
}

/// The numbers of the rows of a context.
pub fn numbers_of(numbers: &[List<u32>], context: usize) -> &[u32]
    ensures { result.now ≡ slice_index_or numbers.now context [] }
{
    if context < numbers.len() {
        numbers[context].as_slice()
    } else {
        &[]
    }
}
