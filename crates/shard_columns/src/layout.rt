// The rows of documents in order, each before those that it encloses.
ghost use Rattle.std.specs.Prelude.{◌≡◌, ◌+◌, ◌++◌, ◌<◌, ◌^◌, OnOk, length};
ghost use Rattle.shard_columns.specs.Layout.{AddsRowBehind, AddsChildrenBehind};
ghost use Rattle.shard_columns.specs.Ends.{row_ends, children_ends};

use agg_model::{Children, FieldValues, List, Row};
use std::alloc::AllocError;

/// Where a row comes from.
#[derive(Clone, Copy)]
pub enum Origin {
    /// It is the root of its document.
    Root,
    /// It is the `number`-th row of the nested path directly beneath the row `parent`.
    Nested { parent: u32, path: u32, number: u32 },
}

/// A row by its document's place and its origin.
#[derive(Clone, Copy)]
pub struct Entry {
    pub document: u32,
    pub origin: Origin,
}

/// A row of a document, with its values still there.
#[derive(Clone, Copy)]
pub struct Laid<'a> {
    pub entry: Entry,
    pub values: &'a List<FieldValues>,
}

/// Lays out a row and all beneath it behind the rows of its document: behind `ends`, which has those of earlier documents too,
/// for each of them the number of the row after the last that it encloses.
#[cycle(lay)]
pub fn lay_row<'a>(
    rows: &mut Vec<Laid<'a>>,
    ends: &mut Vec<u32>,
    row: &'a Row,
    entry: Entry,
) -> Result<(), AllocError>
    requires few { length ends.old.items + length (row_ends row.now (length ends.old.items)) < 2 ^ 32 }
    ensures rows { OnOk result (AddsRowBehind (length ends.old.items) rows.old.items rows.new.items row.now entry) }
    ensures ends { OnOk result (ends.new.items ≡ ends.old.items ++ row_ends row.now (length ends.old.items)) }
    ensures aligned { OnOk result (length rows.new.items + length ends.old.items ≡ length rows.old.items + length ends.new.items) }
{
    let place = ends.len() as u32;
    rows.push(Laid {
        entry,
        values: &row.values,
    })?;
    ends.push(place)?;
    for children in row.children.as_slice() {
        lay_children(rows, ends, children, entry.document, place)?;
    }
    ends[place as usize] = ends.len() as u32;
    Ok(())
}

#[cycle(lay)]
fn lay_children<'a>(
    rows: &mut Vec<Laid<'a>>,
    ends: &mut Vec<u32>,
    children: &'a Children,
    document: u32,
    parent: u32,
) -> Result<(), AllocError>
    requires below { parent < length ends.old.items }
    requires few { length ends.old.items + length (children_ends children.now (length ends.old.items)) < 2 ^ 32 }
    ensures rows { OnOk result (AddsChildrenBehind (length ends.old.items) rows.old.items rows.new.items children.now document parent) }
    ensures ends { OnOk result (ends.new.items ≡ ends.old.items ++ children_ends children.now (length ends.old.items)) }
    ensures aligned { OnOk result (length rows.new.items + length ends.old.items ≡ length rows.old.items + length ends.new.items) }
{
    for (number, row) in children.rows.as_slice().iter().enumerate() {
        let origin = Origin::Nested {
            parent,
            path: children.path,
            number: number as u32,
        };
        lay_row(rows, ends, row, Entry { document, origin })?;
    }
    Ok(())
}
