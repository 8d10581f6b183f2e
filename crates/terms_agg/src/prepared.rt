//! A terms aggregation that is prepared for a shard, and what its codes stand for.
ghost use Rattle.std.specs.Prelude.{◌≡◌, ℤ, ◌<◌, true, length, IfNone, IfOk, IfSome, IsTrue};
ghost use Rattle.agg_model.specs.declared.aggregation.Kind.{Kind};
ghost use Rattle.agg_evaluation.specs.Cost.{key_bytes as bytes_of_key};
ghost use Rattle.shard_columns.specs.Columns.{Columns};
ghost use Rattle.terms_agg.specs.Codes.{allows, code_words, is_code, is_place as is_place_among, key_of, word_at};
ghost use Rattle.terms_agg.specs.Prepared.{IsReady};

use crate::code_sets::{Codes, has};
use crate::content::{Content, content_of_field};
use agg_model::{Key, Text};
use shard_columns::Shard;
use std::alloc::{AllocError, Global};

const NUMBER_KEY_BYTES: u64 = 8;

/// A terms aggregation that is prepared for one shard. It gives each key of the field a code, a whole number of 64 bits: a
/// whole number is its own code, a word has its place in the shard's dictionary, and false and true have 0 and 1. The word
/// that stands for a missing value has the code behind the dictionary where no row of the shard has it.
#[derive(Drop)]
pub struct PreparedTerms {
    pub(crate) field: u32,
    pub(crate) include: Option<Codes>,
    pub(crate) exclude: Option<Codes>,
    /// The code of a row without a value.
    pub(crate) missing: Option<i64>,
    /// The word behind those of the dictionary.
    pub(crate) other: Option<Text>,
}

/// Whether the aggregation includes the code, and does not exclude it.
pub(crate) fn is_allowed(prepared: &PreparedTerms, code: i64) -> bool
    ensures { result ≡ allows prepared.now code }
{
    let is_included = match &prepared.include {
        Some(codes) => has(codes, code),
        None => true,
    };
    let is_excluded = match &prepared.exclude {
        Some(codes) => has(codes, code),
        None => false,
    };
    is_included && !is_excluded
}

// The word of a code, which the shard or the prepared form lends.
fn word_of<'a>(shard: &'a Shard, prepared: &'a PreparedTerms, code: i64) -> &'a str
    ensures { result.now ≡ word_at (code_words shard.now prepared.now) code }
{
    let words = i64::from(shard.words(prepared.field));
    if code >= 0 && code < words {
        return shard.text(prepared.field, code as u32);
    }
    match &prepared.other {
        Some(word) if code == words => word.as_str(),
        _ => "",
    }
}

// How many bytes the word of a code has, with no look at a word of the shard.
fn word_bytes(shard: &Shard, prepared: &PreparedTerms, code: i64) -> u64
    ensures { result ≡ length (word_at (code_words shard.now prepared.now) code) }
{
    if is_place(u64::from(shard.words(prepared.field)), code) {
        return shard.word_len(prepared.field, code as u32);
    }
    word_of(shard, prepared, code).len() as u64
}

/// The key that a code stands for; it takes time and memory by the length of the key.
pub fn key(
    alloc: Global,
    shard: &Shard,
    prepared: &PreparedTerms,
    code: i64,
) -> Result<Key, AllocError>
    requires { prepared.now.field < length shard.now.kinds }
    ensures { IfOk result (λ k. k ≡ key_of shard.now prepared.now code) }
{
    match content_of_field(shard, prepared.field) {
        Content::Wholes => Ok(Key::Whole(i128::from(code))),
        Content::Flags => Ok(Key::Flag(code != 0)),
        Content::Words => Ok(Key::Word(Text::of(alloc, word_of(shard, prepared, code))?)),
    }
}

/// The bytes by which the key of a code is charged, with no key made.
pub fn key_bytes(shard: &Shard, prepared: &PreparedTerms, code: i64) -> u64
    requires { prepared.now.field < length shard.now.kinds }
    ensures { result ≡ bytes_of_key (key_of shard.now prepared.now code) }
{
    match content_of_field(shard, prepared.field) {
        Content::Wholes | Content::Flags => NUMBER_KEY_BYTES,
        Content::Words => word_bytes(shard, prepared, code),
    }
}

// Whether the number is a place among so many.
fn is_place(places: u64, number: i64) -> bool
    ensures { result ≡ is_place_among places number }
{
    number >= 0 && (number as u64) < places
}

// How many words have codes.
fn word_count(shard: &Shard, prepared: &PreparedTerms) -> u64
    ensures { result ≡ length (code_words shard.now prepared.now) }
{
    let words = u64::from(shard.words(prepared.field));
    match &prepared.other {
        Some(_) => words + 1,
        None => words,
    }
}

/// Whether the number is a code of the aggregation, so that it stands for a key. Time and memory are constant.
pub fn has_key(shard: &Shard, prepared: &PreparedTerms, number: i64) -> bool
    requires { prepared.now.field < length shard.now.kinds }
    ensures { result ≡ is_code shard.now prepared.now number }
{
    match content_of_field(shard, prepared.field) {
        Content::Wholes => true,
        Content::Flags => is_place(2, number),
        Content::Words => is_place(word_count(shard, prepared), number),
    }
}

/// How many codes the aggregation has, where those are the numbers from 0 on: one for each word of the field and for a missing
/// word that no row has, or for false and true. There is none where each whole number is a code. Time and memory are constant.
pub fn code_count(shard: &Shard, prepared: &PreparedTerms) -> Option<u64>
    requires { prepared.now.field < length shard.now.kinds }
    ensures counted { IfSome result (λ n. (number : ℤ) → is_code shard.now prepared.now number ≡ is_place_among n number) }
    ensures all { IfNone result ((number : ℤ) → is_code shard.now prepared.now number ≡ true) }
{
    match content_of_field(shard, prepared.field) {
        Content::Wholes => None,
        Content::Flags => Some(2),
        Content::Words => Some(word_count(shard, prepared)),
    }
}

/// Different codes of an aggregation have different keys, whatever the shard that it is prepared for.
pub fn codes_have_keys_of_their_own()
    ensures { (shard : Columns) (kind : Kind) (p : _) → IsReady shard kind p → (c d : ℤ) →
        IsTrue (is_code shard p c) → IsTrue (is_code shard p d) → key_of shard p c ≡ key_of shard p d → c ≡ d }
{}
