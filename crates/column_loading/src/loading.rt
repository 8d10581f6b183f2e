//! Bulk actions on documents that grow into columns.
ghost use Rattle.std.specs.Prelude.{◌≡◌, ◌++◌, ◌∷◌, ℕ, List as Items, ◌+◌, ◌<◌, ◌≤◌, [], None, Some, length, map, option_map, slice_index_or, slice_set, IfOk, OnOk, IsTrue};
ghost use Rattle.agg_model.specs.Contexts.{parents_before};
ghost use Rattle.agg_model.specs.MappingOrder.{IsOrdered};
ghost use Rattle.agg_model.specs.declared.limits.TheConstants.{MAX_PATHS};
ghost use Rattle.agg_reading.specs.Store.{applied, shards_of, weight};
ghost use Rattle.document_rows.specs.Faults.{Gives};
ghost use Rattle.agg_model.specs.declared.mapping.Mapping.{Mapping as AnyMapping};
ghost use Rattle.agg_model.specs.declared.bulk.ActionKind.{ActionKind as AnyKind};
ghost use Rattle.shard_columns.specs.Built.{columns_from};
ghost use Rattle.agg_documents.specs.Slots.{place_of};
ghost use Rattle.column_loading.specs.Drafts.{AreDraftsOf};
ghost use Rattle.column_loading.specs.Loadings.{AreRead, CanPut, DeletesId, IfRefused, IsLoading, IsLoadingOf, PutsAll, store_of};
ghost use Rattle.column_loading.specs.Slots.{is_behind, slot_ids};

use crate::again::read_again;
use crate::drafts::{empty_drafts, finished, grow};
use crate::slot::{Kept, Slot, other_routing};
use crate::slots::{Slots, Standing};
use agg_documents::{conflicts, refused, weight_of};
use agg_mapping::OrderedMapping;
use agg_model::item_refusal::{INDEX_FULL, VERSION_CONFLICT};
use agg_model::limits::WEIGHT_LIMIT;
use agg_model::{Action, ActionKind, Applied, Bytes, Document, List, Mapping, Text};
use document_rows::{ItemFault, Scratch, root_row_with};
use shard_columns::{Shard, ShardDraft};
use std::alloc::{AllocError, Global};

/// The documents that bulk actions leave, on their way into columns: each accepted document is copied into the growing shard
/// of its routing, and kept by its source alone. Once a live document is replaced or deleted, the growing shards are let go of,
/// and `finish` reads the sources that are live once more.
///
/// Contracts see by `store_of` the documents that a `Store` would have. After want of memory it is spent.
#[derive(Drop)]
pub struct Loading {
    pub(crate) slots: Slots,
    pub(crate) weight: u64,
    pub shards: u32,
    pub(crate) drafts: Option<Vec<ShardDraft>>,
}

impl Loading {
    /// No documents yet, of an index with this mapping and so many shards.
    pub fn new(alloc: Global, mapping: &Mapping, shards: u32) -> Result<Loading, AllocError>
        requires few { length mapping.now.fields + length mapping.now.nested ≤ MAX_PATHS }
        requires paths { IsTrue (parents_before mapping.now) }
        requires some { 1 ≤ shards }
        ensures none { IfOk result (λ loading. store_of mapping.now loading ≡ []) }
        ensures loading { IfOk result (IsLoadingOf mapping.now) }
        ensures shards { IfOk result (λ loading. loading.shards ≡ shards) }
    {
        Ok(Loading {
            slots: Slots::new(alloc),
            weight: 0,
            shards,
            drafts: Some(empty_drafts(alloc, mapping, shards)?),
        })
    }

    /// Where an id stands.
    fn find(&mut self, id: &str) -> Result<Standing, AllocError>
        ensures place { IfOk result (λ standing. standing.place ≡ place_of id.now (slot_ids self.old.slots)) }
        ensures last { IfOk result (λ standing. IsTrue standing.is_last → IsTrue (is_behind id.now (slot_ids self.old.slots))) }
        ensures same { self.new ≡ self.old }
    {
        self.slots.find(id)
    }

    /// What the live document at a place weighs; none where it has no document.
    fn live_weight(&self, place: usize) -> Option<u64>
        requires { place < length self.now.slots }
        ensures { (m : AnyMapping) → AreRead m self.now.slots →
            result ≡ option_map weight (slice_index_or (store_of m self.now) place ([], None)).1 }
    {
        self.slots.live_weight(place)
    }

    /// Puts a slot in the place of its id. The growing shards do not have it.
    fn replace(&mut self, place: usize, slot: Slot, weight: u64) -> Result<(), AllocError>
        requires { place_of slot.id (slot_ids self.old.slots) ≡ Some place }
        ensures slots { OnOk result (self.new.slots ≡ slice_set self.old.slots place slot) }
        ensures weight { OnOk result (self.new.weight ≡ weight) }
        ensures drafts { self.new.drafts ≡ None }
        ensures shards { self.new.shards ≡ self.old.shards }
    {
        // Before the slots, which may want the memory.
        self.drafts = None;
        self.slots.set(place, slot)?;
        self.weight = weight;
        Ok(())
    }

    /// Takes the document of an id out. The id keeps its place.
    fn delete(&mut self, id: Text) -> Result<Applied, AllocError>
        requires { IsLoading self.old }
        ensures { IfOk result (DeletesId id self.old self.new) }
    {
        let standing = self.find(id.as_str())?;
        match standing.place {
            Some(place) => self.delete_at(place, id),
            None => Ok(Applied::NotFound),
        }
    }

    /// Takes the document of an id out, which has this place.
    fn delete_at(&mut self, place: usize, id: Text) -> Result<Applied, AllocError>
        requires loading { IsLoading self.old }
        requires place { place_of id (slot_ids self.old.slots) ≡ Some place }
        ensures { IfOk result (DeletesId id self.old self.new) }
    {
        match self.live_weight(place) {
            None => Ok(Applied::NotFound),
            Some(weight) => {
                let weight = self.weight - weight;
                self.replace(place, Slot { id, live: None }, weight)?;
                Ok(Applied::Deleted)
            }
        }
    }

    /// Puts a document whose id has this place.
    fn put_again(
        &mut self,
        kind: ActionKind,
        place: usize,
        document: Document,
        source: Bytes,
    ) -> Result<Applied, ItemFault>
        requires loading { IsLoading self.old }
        requires place { place_of document.id (slot_ids self.old.slots) ≡ Some place }
        ensures { PutsAll kind document source self.old self.new result }
    {
        let replaced = self.live_weight(place);
        if conflicts(kind, replaced.is_some()) {
            return Err(refused(self.slots.alloc(), VERSION_CONFLICT));
        }
        let added = weight_of(&document);
        let beside = self.weight - replaced.unwrap_or(0);
        let weight = beside.saturating_add(added);
        if weight >= WEIGHT_LIMIT {
            return Err(refused(self.slots.alloc(), INDEX_FULL));
        }
        let Document {
            id,
            routing,
            root: _,
        } = document;
        let live = Some(Kept {
            routing: other_routing(&id, routing),
            source,
            weight: added,
        });
        self.replace(place, Slot { id, live }, weight)?;
        match replaced {
            Some(_) => Ok(Applied::Updated),
            None => Ok(Applied::Created),
        }
    }

    /// Puts a document whose id is new, and copies it into the growing shard of its routing. Its id may be known to come behind
    /// the last.
    fn put_new(
        &mut self,
        document: Document,
        source: Bytes,
        is_last: bool,
    ) -> Result<Applied, ItemFault>
        requires loading { CanPut document source self.old }
        requires new { place_of document.id (slot_ids self.old.slots) ≡ None }
        requires last { IsTrue is_last → IsTrue (is_behind document.id (slot_ids self.old.slots)) }
        ensures { (kind : AnyKind) → PutsAll kind document source self.old self.new result }
    {
        let added = weight_of(&document);
        let weight = self.weight.saturating_add(added);
        if weight >= WEIGHT_LIMIT {
            return Err(refused(self.slots.alloc(), INDEX_FULL));
        }
        grow(&mut self.drafts, &document)?;
        let Document {
            id,
            routing,
            root: _,
        } = document;
        let kept = Kept {
            routing: other_routing(&id, routing),
            source,
            weight: added,
        };
        self.slots.push(id, kept, is_last)?;
        self.weight = weight;
        Ok(Applied::Created)
    }

    /// Puts a document, in its old place where its id has one.
    fn put(
        &mut self,
        kind: ActionKind,
        document: Document,
        source: Bytes,
    ) -> Result<Applied, ItemFault>
        requires { CanPut document source self.old }
        ensures { PutsAll kind document source self.old self.new result }
    {
        let standing = self.find(document.id.as_str())?;
        match standing.place {
            Some(place) => self.put_again(kind, place, document, source),
            None => self.put_new(document, source, standing.is_last),
        }
    }

    /// Does one bulk action on documents of this mapping. The time is that of reading its source, of copying its values into
    /// columns, and of finding its id and each word, which takes the logarithm of their numbers; an id that comes behind all
    /// before it, by length and then by bytes, is found new at once.
    ///
    /// It answers what `Store::apply_with` answers, and after a refusal the loading is as before. After want of memory it is
    /// spent.
    #[tactic(auto, unfolding(agg_reading::specs::Store::applied))]
    pub fn apply_with(
        &mut self,
        mapping: &Mapping,
        action: Action,
        scratch: &mut Scratch,
    ) -> Result<Applied, ItemFault>
        requires ordered { IsOrdered mapping.now }
        requires loading { IsLoadingOf mapping.now self.old }
        ensures applied { Gives (λ what. (what, store_of mapping.now self.new)) result (applied mapping.now action (store_of mapping.now self.old)) }
        ensures loading { OnOk result (IsLoadingOf mapping.now self.new) }
        ensures shards { OnOk result (self.new.shards ≡ self.old.shards) }
        ensures as_before { IfRefused result (self.new ≡ self.old) }
    {
        let Action {
            kind,
            id,
            routing,
            source,
        } = action;
        match kind {
            ActionKind::Delete => Ok(self.delete(id)?),
            ActionKind::Index | ActionKind::Create => {
                let alloc = self.slots.alloc();
                let mapping = OrderedMapping::of(mapping);
                let root = root_row_with(alloc, &mapping, source.as_slice(), scratch)?;
                self.put(kind, Document { id, routing, root }, source)
            }
        }
    }

    /// The growing shards, or new ones of the sources that are live.
    fn into_drafts(self, alloc: Global, mapping: &Mapping) -> Result<Vec<ShardDraft>, AllocError>
        requires ordered { IsOrdered mapping.now }
        requires loading { IsLoadingOf mapping.now self }
        ensures { IfOk result (λ drafts. AreDraftsOf mapping.now (shards_of (store_of mapping.now self) self.shards) drafts.items) }
    {
        let Loading {
            slots,
            weight: _,
            shards,
            drafts,
        } = self;
        match drafts {
            Some(drafts) => Ok(drafts),
            None => read_again(alloc, mapping, slots.into_slots()?.as_slice(), shards),
        }
    }

    /// The shards of an index with the live documents by their routings, in the order of the ids.
    ///
    /// The mapping is that of the actions. Where a document was replaced or deleted, the sources that are live are read once
    /// more.
    pub fn finish(self, alloc: Global, mapping: &Mapping) -> Result<List<Shard>, AllocError>
        requires ordered { IsOrdered mapping.now }
        requires loading { IsLoadingOf mapping.now self }
        ensures { IfOk result (λ shards. shards ≡ map (columns_from mapping.now) (shards_of (store_of mapping.now self) self.shards)) }
    {
        finished(alloc, mapping, self.into_drafts(alloc, mapping)?)
    }
}
