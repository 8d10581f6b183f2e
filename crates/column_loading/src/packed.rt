//! The slots of live documents, packed, as a load without replacements leaves them.
ghost use Rattle.std.specs.Prelude.{◌≡◌, ◌++◌, ◌∷◌, ◌<◌, ℕ, [], Some, IfOk, OnErr, OnOk, length, option_map};
ghost use Rattle.column_loading.specs.Packed.{routing_in};
ghost use Rattle.column_loading.specs.Slots.{live_slot, slot_at};

use crate::slot::{Kept, Slot};
use agg_model::{Bytes, Copying, Text};
use packed_texts::{PackedBytes, PackedTexts};
use std::alloc::{AllocError, Global};
use std::collections::BTreeMap;
use std::marker::Model;

/// Ids behind one another, and sources, so that a document takes 16 bytes beside them, and no memory of its own. Contracts see
/// the list of the slots.
#[derive(Drop)]
pub struct PackedSlots {
    ids: PackedTexts,
    sources: PackedBytes,
    /// What each document weighs.
    weights: Vec<u64>,
    /// The routing of each place whose document is not routed by its id. One that want of memory left behind the last document
    /// is not looked at.
    routings: BTreeMap<usize, Text>,
}

impl Model for PackedSlots {
    ghost use Rattle.std.specs.Prelude.{List};
    ghost use Rattle.column_loading.specs.Packed.{slots_of, routing_in, AreKept};
    ghost use Rattle.column_loading.specs.declared.slot.Slot.{Slot};

    ghost Value = { List Slot };

    ghost view = { λ s. slots_of (routing_in s.routings) s.ids s.sources s.weights.items };

    ghost invariant = { λ s. AreKept s.ids s.sources s.weights.items };
}

// Keeps the routing of a place, or that it has none.
fn route(
    routings: &mut BTreeMap<usize, Text>,
    place: usize,
    routing: Option<Text>,
) -> Result<(), AllocError>
    ensures routing { OnOk result (routing_in routings.new place ≡ routing) }
    ensures others { (other : ℕ) → ¬ (other ≡ place) → routing_in routings.new other ≡ routing_in routings.old other }
{
    match routing {
        Some(routing) => {
            routings.insert(place, routing)?;
        }
        None => {
            // Where no document has a routing of its own, nothing is looked for.
            if !routings.is_empty() {
                routings.remove(&place);
            }
        }
    }
    Ok(())
}

impl PackedSlots {
    /// No slot.
    pub(crate) fn new(alloc: Global) -> Self
        ensures { result ≡ [] }
    {
        PackedSlots {
            ids: PackedTexts::new(alloc),
            sources: PackedBytes::new(alloc),
            weights: Vec::new(alloc),
            routings: BTreeMap::new(alloc),
        }
    }

    /// How many they are.
    pub(crate) fn len(&self) -> usize
        ensures { result ≡ length self.now }
    {
        self.weights.len()
    }

    /// The id at a place.
    pub(crate) fn id(&self, place: usize) -> &str
        requires { place < length self.now }
        ensures { result.now ≡ (slot_at self.now place).id }
    {
        self.ids.get(place)
    }

    /// What the document at a place weighs.
    pub(crate) fn weight(&self, place: usize) -> u64
        requires { place < length self.now }
        ensures { option_map (λ kept. kept.weight) (slot_at self.now place).live ≡ Some result }
    {
        self.weights[place]
    }

    // The document at a place, copied.
    fn kept(&self, alloc: Global, place: usize) -> Result<Kept, AllocError>
        requires { place < length self.now }
        ensures { IfOk result (λ kept. (slot_at self.now place).live ≡ Some kept) }
    {
        let routing = match self.routings.get(&place) {
            Some(routing) => Some(routing.copy(alloc)?),
            None => None,
        };
        Ok(Kept {
            routing,
            source: Bytes::of(alloc, self.sources.get(place))?,
            weight: self.weights[place],
        })
    }

    /// The slots, each copied into memory of its own.
    pub(crate) fn unpacked(&self, alloc: Global) -> Result<Vec<Slot>, AllocError>
        ensures { IfOk result (λ slots. slots.items ≡ self.now) }
    {
        let mut slots = Vec::new(alloc);
        for place in 0..self.len() {
            let id = Text::of(alloc, self.id(place))?;
            let live = Some(self.kept(alloc, place)?);
            slots.push(Slot { id, live })?;
        }
        Ok(slots)
    }

    /// Copies a live document behind the others; want of memory is also that all ids, or all sources, would have 4 GiB or more.
    /// After want of memory they are as before.
    pub(crate) fn push(&mut self, id: &str, kept: Kept) -> Result<(), AllocError>
        ensures slots { OnOk result (self.new ≡ self.old ++ live_slot id.now kept ∷ []) }
        ensures memory { OnErr result (self.new ≡ self.old) }
    {
        let Kept {
            routing,
            source,
            weight,
        } = kept;
        let place = self.weights.len();
        self.weights.reserve(1)?;
        route(&mut self.routings, place, routing)?;
        self.sources.push(source.as_slice())?;
        match self.ids.push(id) {
            Ok(()) => {
                // There is room for it.
                let _ = self.weights.push(weight);
                Ok(())
            }
            Err(error) => {
                self.sources.truncate(place);
                Err(error)
            }
        }
    }
}
