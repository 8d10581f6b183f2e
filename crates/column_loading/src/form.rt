//! Slots as they are kept.
ghost use Rattle.std.specs.Prelude.{◌≡◌, ◌++◌, ◌∷◌, ◌<◌, [], IfOk, OnErr, OnOk, length, option_map, slice_set};
ghost use Rattle.column_loading.specs.Forms.{slots_in};
ghost use Rattle.column_loading.specs.Slots.{live_slot, slot_at};

use crate::packed::PackedSlots;
use crate::slot::{Kept, Slot};
use agg_model::Text;
use std::alloc::{AllocError, Global};

/// Slots packed as long as documents only come, which takes half the memory; and each in memory of its own from the first
/// on that is replaced or deleted, so that a source is let go of with its document.
#[derive(Drop)]
pub enum Form {
    Packed(PackedSlots),
    Spread(Vec<Slot>),
}

impl Form {
    /// How many slots there are.
    pub(crate) fn len(&self) -> usize
        ensures { result ≡ length (slots_in self.now) }
    {
        match self {
            Form::Packed(slots) => slots.len(),
            Form::Spread(slots) => slots.len(),
        }
    }

    /// The id at a place.
    pub(crate) fn id(&self, place: usize) -> &str
        requires { place < length (slots_in self.now) }
        ensures { result.now ≡ (slot_at (slots_in self.now) place).id }
    {
        match self {
            Form::Packed(slots) => slots.id(place),
            Form::Spread(slots) => slots[place].id.as_str(),
        }
    }

    /// What the live document at a place weighs; none where it has no document.
    pub(crate) fn live_weight(&self, place: usize) -> Option<u64>
        requires { place < length (slots_in self.now) }
        ensures { result ≡ option_map (λ kept. kept.weight) (slot_at (slots_in self.now) place).live }
    {
        match self {
            Form::Packed(slots) => Some(slots.weight(place)),
            Form::Spread(slots) => slots[place].live.as_ref().map(|kept| kept.weight),
        }
    }

    /// Puts a slot with a live document behind the others. After want of memory they are as before.
    pub(crate) fn push(&mut self, id: Text, kept: Kept) -> Result<(), AllocError>
        ensures slots { OnOk result (slots_in self.new ≡ slots_in self.old ++ live_slot id kept ∷ []) }
        ensures memory { OnErr result (slots_in self.new ≡ slots_in self.old) }
    {
        match self {
            Form::Packed(slots) => slots.push(id.as_str(), kept),
            Form::Spread(slots) => {
                let live = Some(kept);
                slots.push(Slot { id, live })?;
                Ok(())
            }
        }
    }

    /// Each slot in memory of its own.
    pub(crate) fn into_slots(self, alloc: Global) -> Result<Vec<Slot>, AllocError>
        ensures { IfOk result (λ slots. slots.items ≡ slots_in self) }
    {
        match self {
            Form::Packed(slots) => slots.unpacked(alloc),
            Form::Spread(slots) => Ok(slots),
        }
    }

    /// Puts a slot in the place of another, from when on each has memory of its own.
    pub(crate) fn set(&mut self, alloc: Global, place: usize, slot: Slot) -> Result<(), AllocError>
        requires { place < length (slots_in self.old) }
        ensures slots { OnOk result (slots_in self.new ≡ slice_set (slots_in self.old) place slot) }
        ensures memory { OnErr result (slots_in self.new ≡ slots_in self.old) }
    {
        match self {
            Form::Packed(packed) => {
                let mut slots = packed.unpacked(alloc)?;
                slots[place] = slot;
                *self = Form::Spread(slots);
            }
            Form::Spread(slots) => slots[place] = slot,
        }
        Ok(())
    }
}
