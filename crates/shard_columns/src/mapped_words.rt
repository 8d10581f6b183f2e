// Words that are looked up, each with its number.
ghost use Rattle.std.specs.Prelude.{◌≡◌, ◌++◌, ◌+◌, ℕ, List, [], Some, IfOk, OnOk, OnErr, IsTrue, length, unwrap_or, ◌↔◌, if◌then◌else◌};
ghost use Rattle.std.specs.BTreeMap.{get, get_by_text, insert_entry, Updates, IsOrdered};
ghost use Rattle.std.specs.Ordering.{nat_cmp};
ghost use Rattle.std.specs.Str.{bytes_eq};
ghost use Rattle.shard_columns.specs.Numbered.{beginning_of, number_in, all_entries, AreBegun, IsOneEach};

use crate::field_words::Numbered;
use packed_texts::PackedTexts;
use std::alloc::{AllocError, Global};
use std::collections::BTreeMap;
use std::marker::Model;

/// How many bytes of a word are read as one number.
const BEGINNING: usize = 16;

/// The place of a word among the texts of its field, and its number.
#[derive(Clone, Copy)]
struct Found {
    place: u32,
    number: u32,
}

/// Distinct words, each with its number. Contracts see them as a list.
#[derive(Drop)]
pub struct MappedWords {
    /// By its beginning the first word that began so: numbers are compared sooner than texts.
    firsts: BTreeMap<u128, Found>,
    /// The texts of those, in the order in which they came.
    texts: PackedTexts,
    /// The words whose beginning another one had. Their order is that of the bytes, so that no choice of words makes a look-up slow.
    others: BTreeMap<String, u32>,
}

impl Model for MappedWords {
    ghost use Rattle.shard_columns.specs.Numbered.{Entries, first_entries, firsts_in, other_entries, IsKept};
    ghost use Rattle.std.specs.Prelude.{◌++◌};

    ghost Value = { Entries };

    ghost view = { λ w. first_entries (firsts_in w.texts w.firsts.entries) ++ other_entries w.others.entries };

    ghost invariant = { λ w. IsKept w.texts w.firsts.entries w.others.entries };
}

/// The first bytes of a word as one number, where a shorter word is followed by zeros.
pub fn beginning_of(word: &str) -> u128
    ensures { result ≡ beginning_of word.now }
{
    let bytes = word.as_bytes();
    if let Some(first) = bytes.first_chunk::<BEGINNING>() {
        return u128::from_be_bytes(*first);
    }
    let mut padded = [0; BEGINNING];
    padded[..bytes.len()].copy_from_slice(bytes);
    u128::from_be_bytes(padded)
}

/// Whether two words that begin alike are the same. A short one is told by its length, with no look at its bytes.
fn is_word(first: &str, word: &str) -> bool
    requires { beginning_of first.now ≡ beginning_of word.now }
    ensures { IsTrue result ↔ (first.now ≡ word.now) }
{
    let first = first.as_bytes();
    let word = word.as_bytes();
    first.len() == word.len() && (word.len() <= BEGINNING || first == word)
}

/// What stands at a beginning. Where nothing did, `new` is put there, in the same descent.
fn first_at(
    firsts: &mut BTreeMap<u128, Found>,
    beginning: u128,
    new: Found,
) -> Result<Found, AllocError>
    ensures found { IfOk result (λ f. f ≡ unwrap_or (get nat_cmp firsts.old beginning) new) }
    ensures entries { IfOk result (λ f. firsts.new.entries ≡ insert_entry nat_cmp firsts.old.entries beginning f) }
    ensures updates { IfOk result (λ f. Updates nat_cmp firsts.old firsts.new beginning (Some f)) }
    ensures ordered { IsOrdered nat_cmp firsts.new }
    ensures err { OnErr result (firsts.new.entries ≡ firsts.old.entries) }
{
    Ok(*firsts.entry(beginning)?.or_insert(new))
}

/// The number of a word; the next one where it had none. Only a new word is copied.
fn number_among(
    alloc: Global,
    numbers: &mut BTreeMap<String, u32>,
    word: &str,
    next: u32,
) -> Result<u32, AllocError>
    ensures found { IfOk result (λ n. n ≡ unwrap_or (get_by_text numbers.old word.now) next) }
    ensures after { IfOk result (λ n. (w : List ℕ) → get_by_text numbers.new w ≡ (if bytes_eq word.now w then Some n else get_by_text numbers.old w)) }
    ensures err { OnErr result (numbers.new.entries ≡ numbers.old.entries) }
{
    if let Some(number) = numbers.get(word) {
        return Ok(*number);
    }
    let word = String::from_str(alloc, word)?;
    numbers.insert(word, next)?;
    Ok(next)
}

impl MappedWords {
    /// No words yet.
    pub fn new(alloc: Global) -> Self
        ensures { result ≡ [] }
    {
        MappedWords {
            firsts: BTreeMap::new(alloc),
            texts: PackedTexts::new(alloc),
            others: BTreeMap::new(alloc),
        }
    }

    /// The number of a word; the next one where it had none. Only a new word is copied. After want of memory for its text no
    /// word is left.
    pub fn number(&mut self, alloc: Global, word: &str, next: u32) -> Result<u32, AllocError>
        ensures found { IfOk result (λ n. n ≡ unwrap_or (number_in self.old word.now) next) }
        ensures after { IfOk result (λ n. (w : List ℕ) → number_in self.new w ≡ (if bytes_eq word.now w then Some n else number_in self.old w)) }
    {
        let Ok(place) = u32::try_from(self.texts.len()) else {
            return Err(AllocError);
        };
        let new = Found {
            place,
            number: next,
        };
        let first = first_at(&mut self.firsts, beginning_of(word), new)?;
        // The place behind all texts is that of a new word.
        if first.place == place {
            if self.texts.push(word).is_err() {
                // What was put has no text.
                self.firsts = BTreeMap::new(alloc);
                self.others = BTreeMap::new(alloc);
                return Err(AllocError);
            }
            return Ok(next);
        }
        if is_word(self.texts.get(first.place as usize), word) {
            return Ok(first.number);
        }
        number_among(alloc, &mut self.others, word, next)
    }

    /// The number of a word, where it has one.
    pub fn get(&self, word: &str) -> Option<u32>
        ensures { result ≡ number_in self.now word.now }
    {
        let first = self.firsts.get(&beginning_of(word))?;
        if is_word(self.texts.get(first.place as usize), word) {
            return Some(first.number);
        }
        self.others.get(word).copied()
    }

    /// How many words there are. None stands twice.
    pub fn len(&self) -> usize
        ensures count { result ≡ length self.now }
        ensures distinct { IsOneEach self.now }
    {
        self.firsts.len() + self.others.len()
    }

    /// Puts the words behind others.
    pub fn lend<'a>(&'a self, words: &mut Vec<Numbered<'a>>) -> Result<(), AllocError>
        requires begun { AreBegun words.old.items }
        ensures added { OnOk result (all_entries words.new.items ≡ all_entries words.old.items ++ self.now) }
        ensures begun { OnOk result (AreBegun words.new.items) }
    {
        for found in self.firsts.values() {
            let text = self.texts.get(found.place as usize);
            words.push(Numbered::new(text, found.number))?;
        }
        for (text, number) in &self.others {
            words.push(Numbered::new(text.as_str(), *number))?;
        }
        Ok(())
    }
}
