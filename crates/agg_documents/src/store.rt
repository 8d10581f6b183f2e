//! The store of the live documents, and the bulk actions that change it.

ghost use Rattle.std.specs.Prelude.{◌≡◌, ◌&&◌, ◌<◌, ◌≤◌, [], None, Some, length, map, option_copied, slice_get, slice_index_or, sum_by, IfOk, OnErr};
ghost use Rattle.std.specs.List.{IsDistinct};
ghost use Rattle.std.specs.Option.{option_map};
ghost use Rattle.std.specs.Str.{bytes_eq};
ghost use Rattle.agg_model.specs.MappingOrder.{IsOrdered};
ghost use Rattle.agg_reading.specs.Store.{applied, deleted, is_create, live_at, live_documents, put_row, shards_of, store_weight, weight, with_document};
ghost use Rattle.document_rows.specs.Faults.{Gives};
ghost use Rattle.document_rows.specs.declared.fault.ItemFault.TheVariants.{Refused};
ghost use Rattle.agg_documents.specs.Slots.{id_of, document_in, ids, place_of};

use crate::shards::{deal, empty_lists};
use crate::slot::Slot;
use crate::weight::{row_weight, weight_of};
use agg_mapping::OrderedMapping;
use agg_model::item_refusal::{INDEX_FULL, VERSION_CONFLICT};
use agg_model::limits::WEIGHT_LIMIT;
use agg_model::{Action, ActionKind, Applied, Document, ItemRefusal, List, Mapping, Row, Text};
use document_rows::{ItemFault, Scratch, root_row_with};
use std::alloc::{AllocError, Global};
use std::collections::BTreeMap;
use std::collections::btree_map::Entry;
use std::marker::Model;

/// The refusal of this number of an item as a whole.
pub fn refused(alloc: Global, number: u8) -> ItemFault
    ensures { result ≡ Refused (record { number = number; path = [] }) }
{
    ItemFault::Refused(ItemRefusal {
        number,
        path: Text::from_string(String::new(alloc)),
    })
}

/// Whether an action of this kind is refused where its id has a live document, or has none.
pub fn conflicts(kind: ActionKind, live: bool) -> bool
    ensures { result ≡ (is_create kind && live) }
{
    match kind {
        ActionKind::Create => live,
        ActionKind::Index | ActionKind::Delete => false,
    }
}

/// The documents that bulk actions leave (Elasticsearch Reference 8, 'Bulk API').
///
/// Contracts see it as the list of all ids in the order of their first accepted `index` or `create`, each with its live
/// document or with none.
#[derive(Drop)]
pub struct Store {
    /// Where each id stands among the slots. Its order is that of the bytes, so that no choice of ids makes it slow.
    places: BTreeMap<String, usize>,
    slots: Vec<Slot>,
    live: usize,
    weight: u64,
}

impl Model for Store {
    ghost use Rattle.std.specs.Prelude.{List, Option, ℕ};
    ghost use Rattle.std.specs.Coded.{coded_list, coded_option, coded×, coded_ℕ};
    ghost use Rattle.agg_model.specs.declared.row.Document.{Document as Entry};
    ghost use Rattle.agg_model.specs.contracts.row.Document as document;

    ghost Value = { List (List ℕ × Option Entry) };

    ghost coded = { coded_list (coded× (coded_list coded_ℕ) (coded_option document.the_row.coded)) };

    ghost use Rattle.agg_documents.specs.Kept.{IsKept};
    ghost use Rattle.agg_documents.specs.Slots.{entries_of};

    ghost view = { λ s. entries_of s.slots.items };

    ghost invariant = { IsKept };
}

impl Store {
    /// A store without ids; it takes no memory.
    pub fn new(alloc: Global) -> Store
        ensures { result ≡ [] }
    {
        Store {
            places: BTreeMap::new(alloc),
            slots: Vec::new(alloc),
            live: 0,
            weight: 0,
        }
    }

    /// The number of live documents.
    pub fn len(&self) -> usize
        ensures len { result ≡ length (live_documents self.now) }
        ensures light { store_weight self.now < WEIGHT_LIMIT }
        ensures distinct { IsDistinct bytes_eq (map (λ e. e.0) self.now) }
    {
        self.live
    }

    /// The live document at a place counted from 0, in the order of the ids; none where there are fewer.
    ///
    /// It takes time in proportion to the ids up to that document, deleted ones included: a place among the live
    /// documents is nowhere kept, since a deletion moves all behind it. So it serves to look at single documents;
    /// whoever wants all of them takes `into_shards`, which goes through the store once.
    pub fn get(&self, place: usize) -> Option<&Document>
        ensures { option_copied result ≡ slice_get (live_documents self.now) place }
    {
        let mut left = place;
        for slot in self.slots.as_slice() {
            if let Some(document) = slot.document() {
                if left == 0 {
                    return Some(document);
                }
                left -= 1;
            }
        }
        None
    }

    /// Where an id stands, counted from 0; none where it is new.
    fn find(&self, id: &str) -> Option<usize>
        ensures { result ≡ place_of id.now (ids self.now) }
    {
        self.places.get(id).copied()
    }

    /// What the live document at a place weighs; none where it has no document.
    fn live_weight(&self, place: usize) -> Option<u64>
        requires { place < length self.now }
        ensures { result ≡ option_map weight (slice_index_or self.now place ([], None)).1 }
    {
        let document = self.slots[place].document()?;
        Some(weight_of(document))
    }

    /// Puts a slot in the place of its id. The numbers are those of the store after it.
    fn replace(&mut self, place: usize, slot: Slot, live: usize, weight: u64)
        requires place { place_of (id_of slot) (ids self.old) ≡ Some place }
        requires live { live ≡ length (live_documents (with_document (id_of slot) (document_in slot) self.old)) }
        requires weight { weight ≡ store_weight (with_document (id_of slot) (document_in slot) self.old) }
        requires light { weight < WEIGHT_LIMIT }
        ensures { self.new ≡ with_document (id_of slot) (document_in slot) self.old }
    {
        self.slots[place] = slot;
        self.live = live;
        self.weight = weight;
    }

    /// Takes the document of an id out. The id keeps its place.
    #[tactic(auto, unfolding(agg_reading::specs::Store::deleted))]
    fn delete(&mut self, id: Text) -> Applied
        ensures { (result, self.new) ≡ deleted id self.old }
    {
        let Some(place) = self.find(id.as_str()) else {
            return Applied::NotFound;
        };
        match self.live_weight(place) {
            None => Applied::NotFound,
            Some(weight) => {
                let live = self.live - 1;
                let weight = self.weight - weight;
                self.replace(place, Slot::Gone(id), live, weight);
                Applied::Deleted
            }
        }
    }

    /// Puts the document of an `index` or `create` whose id has this place.
    #[tactic(auto, unfolding(agg_reading::specs::Store::put_row))]
    fn put_again(&mut self, place: usize, action: Action, root: Row) -> Result<Applied, ItemFault>
        requires { place_of action.id (ids self.old) ≡ Some place }
        ensures put { Gives (λ what. (what, self.new)) result (put_row action root self.old) }
        ensures as_before { OnErr result (self.new ≡ self.old) }
    {
        let Action {
            kind,
            id,
            routing,
            source: _,
        } = action;
        let document = Document { id, routing, root };
        let added = weight_of(&document);
        let replaced = self.live_weight(place);
        if conflicts(kind, replaced.is_some()) {
            return Err(refused(*self.slots.allocator(), VERSION_CONFLICT));
        }
        let beside = self.weight - replaced.unwrap_or(0);
        let weight = beside.saturating_add(added);
        if weight >= WEIGHT_LIMIT {
            return Err(refused(*self.slots.allocator(), INDEX_FULL));
        }
        match replaced {
            Some(_) => {
                let live = self.live;
                self.replace(place, Slot::Live(document), live, weight);
                Ok(Applied::Updated)
            }
            None => {
                let live = self.live + 1;
                self.replace(place, Slot::Live(document), live, weight);
                Ok(Applied::Created)
            }
        }
    }

    /// Puts the document of an `index` or `create` with this root row. Its id is looked up once.
    ///
    /// Whether a new id would be refused is known before the look-up: what it finds free is always taken.
    #[tactic(auto, unfolding(agg_reading::specs::Store::put_row))]
    fn put(&mut self, action: Action, root: Row) -> Result<Applied, ItemFault>
        ensures put { Gives (λ what. (what, self.new)) result (put_row action root self.old) }
        ensures as_before { OnErr result (self.new ≡ self.old) }
    {
        let alloc = *self.slots.allocator();
        let total = self.weight.saturating_add(row_weight(&root));
        if total >= WEIGHT_LIMIT {
            return match self.find(action.id.as_str()) {
                Some(place) => self.put_again(place, action, root),
                None => Err(refused(alloc, INDEX_FULL)),
            };
        }
        let key = String::from_str(alloc, action.id.as_str())?;
        self.slots.reserve(1)?;
        match self.places.entry(key) {
            Err(_) => Err(ItemFault::Memory),
            Ok(Entry::Occupied(entry)) => {
                let place = *entry.get();
                self.put_again(place, action, root)
            }
            Ok(Entry::Vacant(entry)) => {
                let Action {
                    kind: _,
                    id,
                    routing,
                    source: _,
                } = action;
                let place = self.slots.len();
                // There is room for it.
                let _ = self.slots.push(Slot::Live(Document { id, routing, root }));
                entry.insert(place);
                self.live += 1;
                self.weight = total;
                Ok(Applied::Created)
            }
        }
    }

    /// Does one bulk action on documents of this mapping. The time is that of reading its source, of going through the
    /// new document and the one that it replaces, and of one look-up of the id, which takes the logarithm of the number
    /// of ids, whatever the ids are.
    ///
    /// A document's own refusals come first. Then comes `VERSION_CONFLICT`, exactly where a `create` names an id with a
    /// live document, and then `INDEX_FULL`, exactly where the weights of the live documents would add up to
    /// `WEIGHT_LIMIT` or more. A document weighs one for each of its rows, one for each of its values, and the bytes of
    /// its words. After a refusal, and after want of memory, the store is as before.
    ///
    /// The scratch is kept from one action to the next, for the reading of their sources.
    #[tactic(auto, unfolding(agg_reading::specs::Store::applied))]
    pub fn apply_with(
        &mut self,
        mapping: &Mapping,
        action: Action,
        scratch: &mut Scratch,
    ) -> Result<Applied, ItemFault>
        requires { IsOrdered mapping.now }
        ensures applied { Gives (λ what. (what, self.new)) result (applied mapping.now action self.old) }
        ensures as_before { OnErr result (self.new ≡ self.old) }
    {
        match action.kind {
            ActionKind::Delete => Ok(self.delete(action.id)),
            ActionKind::Index | ActionKind::Create => {
                let alloc = *self.slots.allocator();
                let mapping = OrderedMapping::of(mapping);
                let root = root_row_with(alloc, &mapping, action.source.as_slice(), scratch)?;
                self.put(action, root)
            }
        }
    }

    /// The same with a scratch of its own, for a single action.
    pub fn apply(&mut self, mapping: &Mapping, action: Action) -> Result<Applied, ItemFault>
        requires { IsOrdered mapping.now }
        ensures applied { Gives (λ what. (what, self.new)) result (applied mapping.now action self.old) }
        ensures as_before { OnErr result (self.new ≡ self.old) }
    {
        let mut scratch = Scratch::new(*self.slots.allocator());
        self.apply_with(mapping, action, &mut scratch)
    }

    /// One list for each shard with the live documents that its routing chooses ('_routing field' of Elasticsearch
    /// Reference 8), in the order of the store. All together weigh less than `WEIGHT_LIMIT`. Each document is moved once;
    /// after want of memory the store is spent.
    pub fn into_shards(self, shards: u32) -> Result<List<List<Document>>, AllocError>
        requires { 1 ≤ shards }
        ensures shards { IfOk result (λ lists. lists ≡ shards_of self shards) }
        ensures light { IfOk result (λ lists. sum_by (sum_by weight) lists < WEIGHT_LIMIT) }
    {
        let Store {
            places: _,
            slots,
            live: _,
            weight: _,
        } = self;
        let mut lists = empty_lists(*slots.allocator(), shards)?;
        for slot in slots {
            let Some(document) = slot.into_document() else {
                continue;
            };
            deal(&mut lists, document, shards)?;
        }
        Ok(List::from_vec(lists))
    }
}
