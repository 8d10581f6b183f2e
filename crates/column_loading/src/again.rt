//! Documents that are read from their sources once more.
ghost use Rattle.std.specs.Prelude.{◌≡◌, ◌+◌, ◌<◌, ◌≤◌, ◌^◌, IfOk, IsTrue, length};
ghost use Rattle.agg_model.specs.Contexts.{parents_before};
ghost use Rattle.agg_model.specs.MappingOrder.{IsOrdered};
ghost use Rattle.agg_model.specs.declared.limits.TheConstants.{MAX_PATHS};
ghost use Rattle.agg_reading.specs.Store.{live_documents};
ghost use Rattle.agg_documents.specs.Shards.{cut};
ghost use Rattle.column_loading.specs.Drafts.{AreDraftsOf, AreLight};
ghost use Rattle.column_loading.specs.Loadings.{AreRead, IsRead, document_of, entries_of};

use crate::drafts::{deal, empty_drafts};
use crate::slot::{Kept, Slot};
use agg_mapping::OrderedMapping;
use agg_model::{Copying, Document, Mapping, Text};
use document_rows::{ItemFault, Scratch, root_row_with};
use shard_columns::ShardDraft;
use std::alloc::{AllocError, Global};

/// A document by its source, which was read before.
fn document_again(
    alloc: Global,
    mapping: &Mapping,
    id: &Text,
    kept: &Kept,
    scratch: &mut Scratch,
) -> Result<Document, AllocError>
    requires ordered { IsOrdered mapping.now }
    requires read { IsRead mapping.now kept.now }
    ensures { IfOk result (λ document. document ≡ document_of mapping.now id.now kept.now) }
{
    let ordered = OrderedMapping::of(mapping);
    match root_row_with(alloc, &ordered, kept.source.as_slice(), scratch) {
        Ok(root) => Ok(Document {
            id: id.copy(alloc)?,
            routing: kept.routing.as_ref().unwrap_or(id).copy(alloc)?,
            root,
        }),
        Err(ItemFault::Refused(_)) => unreachable!(),
        Err(ItemFault::Memory) => Err(AllocError),
    }
}

/// Growing shards of the live documents of these slots.
pub(crate) fn read_again(
    alloc: Global,
    mapping: &Mapping,
    slots: &[Slot],
    shards: u32,
) -> Result<Vec<ShardDraft>, AllocError>
    requires ordered { IsOrdered mapping.now }
    requires few { length mapping.now.fields + length mapping.now.nested ≤ MAX_PATHS }
    requires paths { IsTrue (parents_before mapping.now) }
    requires some { 1 ≤ shards }
    requires read { AreRead mapping.now slots.now }
    requires light { AreLight mapping.now (live_documents (entries_of mapping.now slots.now)) }
    ensures { IfOk result (λ drafts. AreDraftsOf mapping.now (cut (live_documents (entries_of mapping.now slots.now)) shards) drafts.items) }
{
    let mut drafts = empty_drafts(alloc, mapping, shards)?;
    let mut scratch = Scratch::new(alloc);
    for slot in slots {
        if let Some(kept) = &slot.live {
            let document = document_again(alloc, mapping, &slot.id, kept, &mut scratch)?;
            deal(&mut drafts, &document)?;
        }
    }
    Ok(drafts)
}
