//! Byte strings behind one another.
ghost use Rattle.std.specs.Prelude.{◌≡◌, ◌++◌, ◌∷◌, ◌<◌, [], Some, OnErr, OnOk, length, option_map, slice_get, sum_by, take};

use std::alloc::{AllocError, Global};
use std::marker::Model;

/// Byte strings behind one another in one array. Contracts see them as a list.
#[derive(Drop)]
pub struct PackedBytes {
    bytes: Vec<u8>,
    /// Where each ends; it begins where the one before ends.
    ends: Vec<u32>,
}

impl Model for PackedBytes {
    ghost use Rattle.std.specs.Prelude.{ℕ, List, length};
    ghost use Rattle.packed_texts.specs.Pieces.{pieces_from, AreCut};

    ghost Value = { List (List ℕ) };

    ghost view = { λ packed. pieces_from 0 packed.bytes.items packed.ends.items };

    ghost invariant = { λ packed. AreCut 0 packed.ends.items (length packed.bytes.items) };
}

impl PackedBytes {
    /// No byte string yet.
    pub fn new(alloc: Global) -> Self
        ensures { result ≡ [] }
    {
        PackedBytes {
            bytes: Vec::new(alloc),
            ends: Vec::new(alloc),
        }
    }

    /// How many they are.
    pub fn len(&self) -> usize
        ensures { result ≡ length self.now }
    {
        self.ends.len()
    }

    /// How many bytes they have together.
    pub fn total(&self) -> u64
        ensures { result ≡ sum_by length self.now }
    {
        self.bytes.len() as u64
    }

    // Where the one at this place begins: behind those before it.
    fn start(&self, place: usize) -> usize
        requires { place < length self.now }
        ensures { result ≡ sum_by length (take place self.now) }
    {
        match place.checked_sub(1) {
            Some(before) => self.ends[before] as usize,
            None => 0,
        }
    }

    /// How many bytes the one at this place has, without a look at them.
    pub fn size(&self, place: usize) -> usize
        requires { place < length self.now }
        ensures { option_map length (slice_get self.now place) ≡ Some result }
    {
        self.ends[place] as usize - self.start(place)
    }

    /// The one at this place.
    pub fn get(&self, place: usize) -> &[u8]
        requires { place < length self.now }
        ensures { slice_get self.now place ≡ Some result.now }
    {
        &self.bytes[self.start(place)..self.ends[place] as usize]
    }

    /// Copies one behind the others, on average in constant time beside the copy; want of memory is also that all together would
    /// have 4 GiB or more. After want of memory they are as before.
    pub fn push(&mut self, bytes: &[u8]) -> Result<(), AllocError>
        ensures added { OnOk result (self.new ≡ self.old ++ bytes.now ∷ []) }
        ensures memory { OnErr result (self.new ≡ self.old) }
    {
        let Ok(end) = u32::try_from(self.bytes.len() + bytes.len()) else {
            return Err(AllocError);
        };
        self.ends.reserve(1)?;
        self.bytes.extend_from_slice(bytes)?;
        // There is room for it.
        let _ = self.ends.push(end);
        Ok(())
    }

    /// Keeps the first `len` of them, in constant time.
    pub fn truncate(&mut self, len: usize)
        ensures { self.new ≡ take len self.old }
    {
        if len >= self.len() {
            return;
        }
        let size = self.start(len);
        self.bytes.truncate(size);
        self.ends.truncate(len);
    }
}
