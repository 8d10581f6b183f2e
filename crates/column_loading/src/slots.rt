//! The slots of ids, and where each id stands among them.
ghost use Rattle.std.specs.Prelude.{◌≡◌, ◌++◌, ◌∷◌, ◌<◌, [], None, Some, IfOk, IsTrue, OnOk, length, option_map, slice_set};
ghost use Rattle.agg_documents.specs.Slots.{place_of};
ghost use Rattle.column_loading.specs.Forms.{slots_in};
ghost use Rattle.column_loading.specs.Slots.{HasPlaces, IsAscending, id_cmp, is_behind, live_slot, slot_at, slot_ids};

use crate::form::Form;
use crate::packed::PackedSlots;
use crate::slot::{Kept, Slot};
use agg_model::Text;
use std::alloc::{AllocError, Global};
use std::cmp::Ordering;
use std::collections::BTreeMap;
use std::marker::Model;

/// Where an id stands among those of slots.
#[derive(Clone, Copy)]
pub struct Standing {
    /// None where the id is new.
    pub place: Option<usize>,
    /// Whether it is known to come behind the last.
    pub is_last: bool,
}

/// Slots of distinct ids, in the order in which the ids came. Contracts see the list of the slots.
///
/// While each id comes behind the one before, by length and then by bytes, as numbers and times do, nothing is kept beside the
/// slots. The first id that does not makes an ordered map of all.
#[derive(Drop)]
pub struct Slots {
    alloc: Global,
    form: Form,
    /// Where each id stands; none while the ids ascend. Its order is that of the bytes, so that no choice of ids makes it slow.
    places: Option<BTreeMap<String, usize>>,
}

impl Model for Slots {
    ghost use Rattle.std.specs.Prelude.{List};
    ghost use Rattle.column_loading.specs.Forms.{slots_in};
    ghost use Rattle.column_loading.specs.Slots.{IsIndexed};
    ghost use Rattle.column_loading.specs.declared.slot.Slot.{Slot};

    ghost Value = { List Slot };

    ghost view = { λ s. slots_in s.form };

    ghost invariant = { λ s. IsIndexed (slots_in s.form) s.places };
}

fn compare_ids(a: &[u8], b: &[u8]) -> Ordering
    ensures { result ≡ id_cmp a.now b.now }
{
    match a.len().cmp(&b.len()) {
        Ordering::Equal => a.cmp(b),
        unequal => unequal,
    }
}

// Whether an id comes behind the last of these.
fn comes_last(id: &str, slots: &Form) -> bool
    ensures { result ≡ is_behind id.now (slot_ids (slots_in slots.now)) }
{
    match slots.len().checked_sub(1) {
        Some(last) => compare_ids(slots.id(last).as_bytes(), id.as_bytes()).is_lt(),
        None => true,
    }
}

// A map of the places of ids that ascend.
fn places_of(alloc: Global, slots: &Form) -> Result<BTreeMap<String, usize>, AllocError>
    requires ascending { IsAscending (slot_ids (slots_in slots.now)) }
    ensures { IfOk result (HasPlaces (slot_ids (slots_in slots.now))) }
{
    let mut places = BTreeMap::new(alloc);
    for place in 0..slots.len() {
        let id = String::from_str(alloc, slots.id(place))?;
        places.insert(id, place)?;
    }
    Ok(places)
}

// Puts a slot with a new id behind the others. Where memory is wanting for its place, no slot is left, so that none lacks a place.
fn put_last(
    alloc: Global,
    slots: &mut Form,
    places: &mut BTreeMap<String, usize>,
    id: Text,
    kept: Kept,
) -> Result<(), AllocError>
    requires new { place_of id (slot_ids (slots_in slots.old)) ≡ None }
    requires places { HasPlaces (slot_ids (slots_in slots.old)) places.old }
    ensures slots { OnOk result (slots_in slots.new ≡ slots_in slots.old ++ live_slot id kept ∷ []) }
    ensures places { HasPlaces (slot_ids (slots_in slots.new)) places.new }
{
    let key = String::from_str(alloc, id.as_str())?;
    let place = slots.len();
    slots.push(id, kept)?;
    let Ok(_) = places.insert(key, place) else {
        *slots = Form::Packed(PackedSlots::new(alloc));
        *places = BTreeMap::new(alloc);
        return Err(AllocError);
    };
    Ok(())
}

impl Slots {
    /// No slot.
    pub(crate) fn new(alloc: Global) -> Self
        ensures { result ≡ [] }
    {
        Slots {
            alloc,
            form: Form::Packed(PackedSlots::new(alloc)),
            places: None,
        }
    }

    pub(crate) fn alloc(&self) -> Global {
        self.alloc
    }

    /// What the live document at a place weighs; none where it has no document.
    pub(crate) fn live_weight(&self, place: usize) -> Option<u64>
        requires { place < length self.now }
        ensures { result ≡ option_map (λ kept. kept.weight) (slot_at self.now place).live }
    {
        self.form.live_weight(place)
    }

    /// Each slot in memory of its own.
    pub(crate) fn into_slots(self) -> Result<Vec<Slot>, AllocError>
        ensures { IfOk result (λ slots. slots.items ≡ self) }
    {
        let Slots {
            alloc,
            form,
            places: _,
        } = self;
        form.into_slots(alloc)
    }

    /// Where an id stands. A new id that comes behind the last takes one comparison; any other takes the logarithm of the ids,
    /// and the first of them n log n.
    pub(crate) fn find(&mut self, id: &str) -> Result<Standing, AllocError>
        ensures place { IfOk result (λ standing. standing.place ≡ place_of id.now (slot_ids self.old)) }
        ensures last { IfOk result (λ standing. IsTrue standing.is_last → IsTrue (is_behind id.now (slot_ids self.old))) }
        ensures same { self.new ≡ self.old }
    {
        if let Some(places) = &self.places {
            return Ok(Standing {
                place: places.get(id).copied(),
                is_last: false,
            });
        }
        if comes_last(id, &self.form) {
            return Ok(Standing {
                place: None,
                is_last: true,
            });
        }
        let places = places_of(self.alloc, &self.form)?;
        let place = places.get(id).copied();
        self.places = Some(places);
        Ok(Standing {
            place,
            is_last: false,
        })
    }

    /// Puts a live document with a new id behind the others, in the time of `find`, which told whether it comes behind the last.
    /// After want of memory they are spent.
    pub(crate) fn push(&mut self, id: Text, kept: Kept, is_last: bool) -> Result<(), AllocError>
        requires new { place_of id (slot_ids self.old) ≡ None }
        requires last { IsTrue is_last → IsTrue (is_behind id (slot_ids self.old)) }
        ensures { OnOk result (self.new ≡ self.old ++ live_slot id kept ∷ []) }
    {
        if let Some(places) = &mut self.places {
            return put_last(self.alloc, &mut self.form, places, id, kept);
        }
        if is_last {
            return self.form.push(id, kept);
        }
        let mut places = places_of(self.alloc, &self.form)?;
        let pushed = put_last(self.alloc, &mut self.form, &mut places, id, kept);
        self.places = Some(places);
        pushed
    }

    /// Puts a slot in the place of its id. The first takes the time of all of them.
    pub(crate) fn set(&mut self, place: usize, slot: Slot) -> Result<(), AllocError>
        requires { place_of slot.id (slot_ids self.old) ≡ Some place }
        ensures { OnOk result (self.new ≡ slice_set self.old place slot) }
    {
        let _index = &self.places;
        self.form.set(self.alloc, place, slot)
    }
}
