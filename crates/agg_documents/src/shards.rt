//! Lists of documents, one for each shard.

ghost use Rattle.std.specs.Prelude.{◌≡◌, ◌≤◌, ◌++◌, ◌∷◌, [], length, slice_index_or, slice_set, IfOk, OnOk};
ghost use Rattle.agg_reading.specs.Routing.{shard_of};
ghost use Rattle.agg_documents.specs.Shards.{cut};

use crate::routing::shard_of;
use agg_model::{Document, List};
use std::alloc::{AllocError, Global};

/// An empty list for each shard.
pub(crate) fn empty_lists(alloc: Global, shards: u32) -> Result<Vec<List<Document>>, AllocError>
    ensures { IfOk result (λ lists. lists.items ≡ cut [] shards) }
{
    let mut lists = Vec::new(alloc);
    for _shard in 0..shards {
        lists.push(List::new(alloc))?;
    }
    Ok(lists)
}

/// Puts a document at the end of the list of its shard.
pub(crate) fn deal(
    lists: &mut Vec<List<Document>>,
    document: Document,
    shards: u32,
) -> Result<(), AllocError>
    requires some { 1 ≤ shards }
    requires sizes { length lists.old.items ≡ shards }
    ensures { OnOk result (lists.new.items ≡ slice_set lists.old.items (shard_of document.routing shards) (slice_index_or lists.old.items (shard_of document.routing shards) [] ++ document ∷ [])) }
{
    let shard = shard_of(document.routing.as_str().as_bytes(), shards);
    lists[shard as usize].push(document)
}
