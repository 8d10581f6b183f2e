// The words of a field that are met in rows, each with its number.
ghost use Rattle.std.specs.Prelude.{◌≡◌, ◌++◌, ◌∷◌, ℕ, List, IfOk, OnOk, length, Contains, ◌↔◌};
ghost use Rattle.std.specs.Ordering.{nat_cmp, on, then_cmp};
ghost use Rattle.std.specs.Cmp.Lexicographic.{slice_cmp};
ghost use Rattle.shard_columns.specs.Numbered.{HasNumber, HasNone, IsGiven, entry_of, all_entries, later_entries, IsBegun, AreBegun, AreSorted};

use crate::mapped_words::{MappedWords, beginning_of};
use packed_texts::PackedTexts;
use std::alloc::{AllocError, Global};
use std::cmp::Ordering;
use std::marker::Model;

/// So many words of a field are looked up. Each look-up among more would wait for memory longer than a sort at the end takes.
const MAPPED: usize = 4_096;

/// A word with its number, lent.
#[derive(Clone, Copy)]
pub struct Numbered<'a> {
    /// The first bytes as a number, which is compared sooner than the text.
    pub beginning: u128,
    pub text: &'a str,
    pub number: u32,
}

impl<'a> Numbered<'a> {
    /// This word with its number.
    pub fn new(text: &'a str, number: u32) -> Self
        ensures entry { entry_of result ≡ (text.now, number) }
        ensures begun { IsBegun result }
    {
        Numbered {
            beginning: beginning_of(text),
            text,
            number,
        }
    }
}

/// The words of a field. Each number is that of one word; a word has one number as long as there are few, and later one for
/// each time that it comes.
#[derive(Drop)]
pub struct FieldWords {
    /// The words that came first, which are looked up.
    mapped: MappedWords,
    /// The texts of others, in the order in which they came.
    texts: PackedTexts,
    /// For each of those texts its number.
    numbers: Vec<u32>,
}

impl Model for FieldWords {
    ghost use Rattle.std.specs.Prelude.{◌≡◌, length};
    ghost use Rattle.shard_columns.specs.Numbered.{Known, later_entries};

    ghost Value = { Known };

    ghost view = { λ w. record { mapped = w.mapped; later = later_entries w.texts w.numbers.items } };

    ghost invariant = { λ w. length w.texts ≡ length w.numbers.items };
}

/// The order of the bytes, which the beginnings tell where they differ.
fn by_bytes(a: &Numbered, b: &Numbered) -> Ordering
    ensures { result ≡ then_cmp (on (λ w. w.beginning) nat_cmp) (on (λ w. w.text.now) (slice_cmp nat_cmp)) a.now b.now }
{
    a.beginning
        .cmp(&b.beginning)
        .then_with(|| a.text.cmp(b.text))
}

/// Puts texts with their numbers behind other words.
fn lend_later<'a>(
    texts: &'a PackedTexts,
    numbers: &[u32],
    words: &mut Vec<Numbered<'a>>,
) -> Result<(), AllocError>
    requires sizes { length texts.now ≡ length numbers.now }
    requires begun { AreBegun words.old.items }
    ensures added { OnOk result (all_entries words.new.items ≡ all_entries words.old.items ++ later_entries texts.now numbers.now) }
    ensures begun { OnOk result (AreBegun words.new.items) }
{
    for (place, number) in numbers.iter().enumerate() {
        words.push(Numbered::new(texts.get(place), *number))?;
    }
    Ok(())
}

impl FieldWords {
    /// No words yet.
    pub fn new(alloc: Global) -> Self
        ensures { HasNone result }
    {
        FieldWords {
            mapped: MappedWords::new(alloc),
            texts: PackedTexts::new(alloc),
            numbers: Vec::new(alloc),
        }
    }

    /// A number of a word: one that it has, or the next one.
    pub fn number(&mut self, alloc: Global, word: &str, next: u32) -> Result<u32, AllocError>
        ensures { IfOk result (λ n. IsGiven self.old self.new word.now n next) }
    {
        if self.mapped.len() < MAPPED {
            return self.mapped.number(alloc, word, next);
        }
        if let Some(number) = self.mapped.get(word) {
            return Ok(number);
        }
        self.numbers.reserve(1)?;
        self.texts.push(word)?;
        // There is room for it.
        let _ = self.numbers.push(next);
        Ok(next)
    }

    /// The words with each of their numbers, ascending by their bytes.
    pub fn sorted(&self, alloc: Global) -> Result<Vec<Numbered<'_>>, AllocError>
        ensures same { IfOk result (λ sorted. (w : List ℕ) (n : ℕ) → HasNumber self.now w n ↔ Contains (all_entries sorted.items) (w, n)) }
        ensures ascending { IfOk result (λ sorted. AreSorted sorted.items) }
    {
        let count = self.mapped.len().saturating_add(self.numbers.len());
        let mut words = Vec::with_capacity(alloc, count)?;
        self.mapped.lend(&mut words)?;
        lend_later(&self.texts, self.numbers.as_slice(), &mut words)?;
        words.sort_unstable_by(by_bytes);
        Ok(words)
    }
}
