// The words of each field of a shard: distinct, and in ascending order.
ghost use Rattle.std.specs.Prelude.{◌≡◌, ◌≢◌, ◌∷◌, ◌<◌, ◌≤◌, ◌+◌, ◌*◌, ◌^◌, ℕ, List as Items, [], Some, None, OnOk, IfOk, IfSome, length, map, sum_by, slice_get, slice_index_or};
ghost use Rattle.agg_evaluation.specs.Ceiling.{greatest_of};
ghost use Rattle.shard_columns.specs.Words.{IsNumberOf, HasNoWords, IsNumbered, of_field, Notes, AreApart, AreRanked, AreWordsOf, AreWords, ArePlaced, IsPutLast};

use crate::field_words::FieldWords;
use agg_model::limits::{MAX_PATHS, WEIGHT_LIMIT};
use packed_texts::PackedTexts;
use std::alloc::{AllocError, Global};

/// The words of each field that are met in rows, with their numbers: each number is that of one word, whatever its field.
#[derive(Drop)]
pub struct WordNumbers {
    pub by_field: Vec<FieldWords>,
    /// By number, the place of the word in its dictionary, which is known once all words are.
    pub ranks: Vec<usize>,
}

impl WordNumbers {
    /// No words yet of any of so many fields.
    pub fn new(alloc: Global, fields: usize) -> Result<Self, AllocError>
        ensures sizes { IfOk result (λ numbers. length numbers.by_field.items ≡ fields) }
        ensures empty { IfOk result (λ numbers. HasNoWords numbers) }
        ensures no_ranks { IfOk result (λ numbers. length numbers.ranks.items ≡ 0) }
        ensures sound { IfOk result (λ numbers. IsNumbered numbers) }
    {
        let mut by_field = Vec::new(alloc);
        for _field in 0..fields {
            by_field.push(FieldWords::new(alloc))?;
        }
        Ok(WordNumbers {
            by_field,
            ranks: Vec::new(alloc),
        })
    }

    /// A number of a word of a field.
    pub fn number(&mut self, field: usize, word: &str) -> Result<u32, AllocError>
        requires in_range { field < length self.old.by_field.items }
        requires room { length self.old.ranks.items < 2 ^ 32 }
        requires sound { IsNumbered self.old }
        ensures notes { OnOk result (Notes self.old self.new (of_field field (word.now ∷ []))) }
        ensures number { IfOk result (λ n. IsNumberOf self.new field word.now n) }
        ensures few { OnOk result (length self.new.ranks.items ≤ length self.old.ranks.items + 1) }
    {
        let alloc = *self.ranks.allocator();
        let next = self.ranks.len() as u32;
        let number = self.by_field[field].number(alloc, word, next)?;
        if number < next {
            return Ok(number);
        }
        self.ranks.push(0)?;
        Ok(number)
    }
}

/// The last place of these, where this word stands there.
fn place_of_last(texts: &PackedTexts, word: &str) -> Option<usize>
    ensures some { IfSome result (λ place. slice_get texts.now place ≡ Some word.now) }
    ensures none { result ≡ None → (n : ℕ) → n + 1 ≡ length texts.now → slice_get texts.now n ≢ Some word.now }
{
    let last = texts.len().checked_sub(1)?;
    if texts.get(last) == word {
        Some(last)
    } else {
        None
    }
}

/// The place of a word that is the last of these or comes behind them.
fn place_of(texts: &mut PackedTexts, word: &str) -> Result<usize, AllocError>
    ensures { IfOk result (λ place. IsPutLast texts.old texts.new word.now place) }
{
    if let Some(last) = place_of_last(texts, word) {
        return Ok(last);
    }
    let end = texts.len();
    texts.push(word)?;
    Ok(end)
}

/// The words of a field, each once, ascending; the place of each is written at its numbers.
fn dictionary(
    alloc: Global,
    words: FieldWords,
    ranks: &mut Vec<usize>,
) -> Result<PackedTexts, AllocError>
    requires { AreApart (length ranks.old.items) words }
    ensures words { IfOk result (λ d. AreWordsOf words d) }
    ensures ranked { IfOk result (λ d. AreRanked words d ranks.old.items ranks.new.items) }
{
    let sorted = words.sorted(alloc)?;
    let mut texts = PackedTexts::new(alloc);
    for word in sorted {
        let place = place_of(&mut texts, word.text)?;
        ranks[word.number as usize] = place;
    }
    Ok(texts)
}

/// For each field its distinct words in ascending order, and for each number the place of its word there.
pub fn dictionaries(
    alloc: Global,
    numbers: WordNumbers,
) -> Result<(Vec<PackedTexts>, Vec<usize>), AllocError>
    requires { IsNumbered numbers }
    ensures words { IfOk result (λ made. AreWords numbers made.0.items) }
    ensures ranks { IfOk result (λ made. ArePlaced numbers made.0.items made.1.items) }
{
    let WordNumbers {
        by_field,
        mut ranks,
    } = numbers;
    let mut all = Vec::with_capacity(alloc, by_field.len())?;
    for words in by_field {
        all.push(dictionary(alloc, words, &mut ranks)?)?;
    }
    Ok((all, ranks))
}

// The length of the longest of these words in bytes, 0 where there is none.
fn longest_of(words: &PackedTexts) -> usize
    ensures { result ≡ greatest_of (map length words.now) }
{
    let mut longest = 0;
    for place in 0..words.len() {
        longest = longest.max(words.size(place));
    }
    longest
}

/// The length of the longest word of each field in bytes, 0 where it has none.
pub fn longest_of_each(alloc: Global, words: &[PackedTexts]) -> Result<Vec<usize>, AllocError>
    ensures { IfOk result (λ all. all.items ≡ map (λ ws. greatest_of (map length ws)) words.now) }
{
    let mut all = Vec::with_capacity(alloc, words.len())?;
    for list in words {
        all.push(longest_of(list))?;
    }
    Ok(all)
}

/// The bytes of the words of all fields.
pub fn all_bytes(words: &[PackedTexts]) -> u64
    requires few { length words.now ≤ MAX_PATHS }
    requires light { (f : ℕ) → sum_by length (slice_index_or words.now f []) < WEIGHT_LIMIT }
    ensures sum { result ≡ sum_by (λ ws. sum_by length ws) words.now }
    ensures bound { result ≤ MAX_PATHS * WEIGHT_LIMIT }
{
    let mut bytes = 0;
    for list in words {
        bytes += list.total();
    }
    bytes
}
