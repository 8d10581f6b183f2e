//! Texts behind one another.
ghost use Rattle.std.specs.Prelude.{◌≡◌, ◌++◌, ◌∷◌, ◌<◌, [], Some, OnErr, OnOk, length, option_map, slice_get, sum_by};

use crate::bytes::PackedBytes;
use std::alloc::{AllocError, Global};
use std::marker::Model;
use std::str;

/// Texts behind one another in one array, each lent without a look at its bytes. Contracts see them as a list.
#[derive(Drop)]
pub struct PackedTexts {
    packed: PackedBytes,
}

impl Model for PackedTexts {
    ghost use Rattle.std.specs.Prelude.{ℕ, List};
    ghost use Rattle.std.specs.List.{AllByRecursion};
    ghost use Rattle.std.specs.Str.{IsUtf8};

    ghost Value = { List (List ℕ) };

    ghost view = { λ texts. texts.packed };

    ghost invariant = { λ texts. AllByRecursion IsUtf8 texts.packed };
}

impl PackedTexts {
    /// No text yet.
    pub fn new(alloc: Global) -> Self
        ensures { result ≡ [] }
    {
        PackedTexts {
            packed: PackedBytes::new(alloc),
        }
    }

    /// How many they are.
    pub fn len(&self) -> usize
        ensures { result ≡ length self.now }
    {
        self.packed.len()
    }

    /// How many bytes they have together.
    pub fn total(&self) -> u64
        ensures { result ≡ sum_by length self.now }
    {
        self.packed.total()
    }

    /// How many bytes the text at this place has, without a look at them.
    pub fn size(&self, place: usize) -> usize
        requires { place < length self.now }
        ensures { option_map length (slice_get self.now place) ≡ Some result }
    {
        self.packed.size(place)
    }

    /// The text at this place.
    pub fn get(&self, place: usize) -> &str
        requires { place < length self.now }
        ensures { slice_get self.now place ≡ Some result.now }
    {
        // Only texts are put in.
        unsafe { str::from_utf8_unchecked(self.packed.get(place)) }
    }

    /// Copies a text behind the others, on average in constant time beside the copy; want of memory is also that all together would
    /// have 4 GiB or more. After want of memory they are as before.
    pub fn push(&mut self, text: &str) -> Result<(), AllocError>
        ensures added { OnOk result (self.new ≡ self.old ++ text.now ∷ []) }
        ensures memory { OnErr result (self.new ≡ self.old) }
    {
        self.packed.push(text.as_bytes())
    }
}
