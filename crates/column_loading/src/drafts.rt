//! A growing shard for each shard of an index.
ghost use Rattle.std.specs.Prelude.{◌≡◌, ◌+◌, ◌<◌, ◌≤◌, ◌^◌, [], IfOk, OnOk, IsTrue, length, map};
ghost use Rattle.agg_model.specs.Contexts.{parents_before};
ghost use Rattle.agg_model.specs.declared.limits.TheConstants.{MAX_PATHS};
ghost use Rattle.agg_documents.specs.Shards.{cut};
ghost use Rattle.column_loading.specs.Drafts.{AreDraftsOf, CanDeal, Deals, CanGrow, Grows, AreDraftsFor, AreFinishedFrom};

use agg_documents::shard_of;
use agg_model::{Document, List, Mapping};
use shard_columns::{Shard, ShardDraft};
use std::alloc::{AllocError, Global};

/// A draft without documents for each of so many shards.
pub(crate) fn empty_drafts(
    alloc: Global,
    mapping: &Mapping,
    shards: u32,
) -> Result<Vec<ShardDraft>, AllocError>
    requires few { length mapping.now.fields + length mapping.now.nested ≤ MAX_PATHS }
    requires paths { IsTrue (parents_before mapping.now) }
    ensures { IfOk result (λ drafts. AreDraftsOf mapping.now (cut [] shards) drafts.items) }
{
    let mut drafts = Vec::new(alloc);
    for _shard in 0..shards {
        drafts.push(ShardDraft::new(alloc, mapping)?)?;
    }
    Ok(drafts)
}

/// Puts a document into the draft of its shard.
pub(crate) fn deal(drafts: &mut Vec<ShardDraft>, document: &Document) -> Result<(), AllocError>
    requires some { 1 ≤ length drafts.old.items }
    requires few { length drafts.old.items < 2 ^ 32 }
    requires room { CanDeal drafts.old.items document.now }
    ensures { OnOk result (Deals drafts.old.items drafts.new.items document.now) }
{
    let shard = shard_of(document.routing.as_str().as_bytes(), drafts.len() as u32);
    drafts[shard as usize].push(document)
}

/// Puts a document into the growing shard of its routing, if shards still grow.
pub(crate) fn grow(
    drafts: &mut Option<Vec<ShardDraft>>,
    document: &Document,
) -> Result<(), AllocError>
    requires { CanGrow drafts.old document.now }
    ensures { OnOk result (Grows drafts.old drafts.new document.now) }
{
    match drafts {
        Some(drafts) => deal(drafts, document),
        None => Ok(()),
    }
}

/// The shards of the documents that were dealt.
pub(crate) fn finished(
    alloc: Global,
    mapping: &Mapping,
    drafts: Vec<ShardDraft>,
) -> Result<List<Shard>, AllocError>
    requires { AreDraftsFor mapping.now drafts.items }
    ensures { IfOk result (λ shards. AreFinishedFrom mapping.now drafts.items shards) }
{
    let mut shards = List::new(alloc);
    for draft in drafts {
        shards.push(draft.finish(alloc, mapping)?)?;
    }
    Ok(shards)
}
