// A shard that grows document by document.
ghost use Rattle.std.specs.Prelude.{◌≡◌, ◌+◌, ◌≤◌, ◌++◌, [], IfOk, OnOk, IsTrue, length, map};
ghost use Rattle.agg_model.specs.declared.limits.TheConstants.{MAX_PATHS};
ghost use Rattle.agg_model.specs.Contexts.{parents_before};
ghost use Rattle.shard_columns.specs.Layout.{entries_of_laid};
ghost use Rattle.shard_columns.specs.Drafted.{CanHold, HoldsBehind, IsDraftOf, CanTake, Takes};

use crate::entries::Entries;
use crate::layout::{Entry, Laid, Origin, lay_row};
use crate::values::Drafts;
use crate::words::WordNumbers;
use agg_model::{Document, Field, FieldKind, Mapping};
use packed_texts::PackedTexts;
use std::alloc::{AllocError, Global};

/// Documents of one shard on their way into columns: the rows and values of each are copied as it comes, so that the document
/// itself need not be kept. Contracts say by `IsDraftOf` which documents it holds.
#[derive(Drop)]
pub struct ShardDraft {
    pub(crate) kinds: Vec<FieldKind>,
    pub(crate) ids: PackedTexts,
    pub(crate) rows: Entries,
    pub(crate) ends: Vec<u32>,
    pub(crate) numbers: WordNumbers,
    pub(crate) drafts: Drafts,
}

fn kinds(alloc: Global, fields: &[Field]) -> Result<Vec<FieldKind>, AllocError>
    ensures { IfOk result (λ v. v.items ≡ map (λ f. f.kind) fields.now) }
{
    fields.iter().map(|field| field.kind).collect(alloc)
}

// The values of rows behind those of so many rows before them, where words are numbers. Each word is looked up once.
fn push_values(
    drafts: &mut Drafts,
    numbers: &mut WordNumbers,
    first: usize,
    rows: &[Laid],
) -> Result<(), AllocError>
    requires { CanHold first rows.now numbers.old drafts.old }
    ensures { OnOk result (HoldsBehind first rows.now numbers.old drafts.old numbers.new drafts.new) }
{
    for (place, row) in rows.iter().enumerate() {
        drafts.push_row(numbers, (first + place) as u32, row.values)?;
    }
    Ok(())
}

fn push_entries(entries: &mut Entries, rows: &[Laid]) -> Result<(), AllocError>
    ensures { OnOk result (entries.new ≡ entries.old ++ entries_of_laid rows.now) }
{
    for row in rows {
        entries.push(row.entry)?;
    }
    Ok(())
}

impl ShardDraft {
    /// No documents yet, of this mapping. It has up to `MAX_PATHS` fields and nested paths, each path behind the one around it.
    pub fn new(alloc: Global, mapping: &Mapping) -> Result<ShardDraft, AllocError>
        requires few { length mapping.now.fields + length mapping.now.nested ≤ MAX_PATHS }
        requires paths { IsTrue (parents_before mapping.now) }
        ensures { IfOk result (IsDraftOf mapping.now []) }
    {
        let kinds = kinds(alloc, mapping.fields.as_slice())?;
        let numbers = WordNumbers::new(alloc, kinds.len())?;
        let drafts = Drafts::new(alloc, kinds.as_slice())?;
        Ok(ShardDraft {
            kinds,
            ids: PackedTexts::new(alloc),
            rows: Entries::new(alloc),
            ends: Vec::new(alloc),
            numbers,
            drafts,
        })
    }

    /// Copies one more document behind those before it, in time n log n in its rows and values. After want of memory the draft
    /// is spent.
    pub fn push(&mut self, document: &Document) -> Result<(), AllocError>
        requires { CanTake self.old document.now }
        ensures { OnOk result (Takes self.old self.new document.now) }
    {
        let first = self.rows.len();
        let entry = Entry {
            document: self.ids.len() as u32,
            origin: Origin::Root,
        };
        let mut rows = Vec::new(*self.ends.allocator());
        lay_row(&mut rows, &mut self.ends, &document.root, entry)?;
        let rows = rows.as_slice();
        push_values(&mut self.drafts, &mut self.numbers, first, rows)?;
        push_entries(&mut self.rows, rows)?;
        self.ids.push(document.id.as_str())
    }
}
