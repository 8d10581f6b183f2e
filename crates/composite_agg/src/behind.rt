//! Whether the keys of a row come after a key, told before any is built.
ghost use Rattle.std.specs.Prelude.{◌≡◌, ◌<◌, IfSome, IsTrue, Some, T, map, length, slice_get};
ghost use Rattle.std.specs.List.{list_all};
ghost use Rattle.std.specs.Ordering.{is_lt};
ghost use Rattle.agg_evaluation.specs.KeyOrder.{directed, key_cmp};
ghost use Rattle.agg_evaluation.specs.Keys.{combinations, keys as keys_of_row, source_keys};
ghost use Rattle.agg_evaluation.specs.Rows.{row_of};
ghost use Rattle.agg_model.specs.declared.key.Key.TheVariants.{Word};
ghost use Rattle.bucket_order.specs.Composites.{any_parts_cmp};
ghost use Rattle.composite_agg.specs.OnlyParts.{IsOnlyPart, IsOnlyWord};
ghost use Rattle.composite_agg.specs.FirstPages.{empty_page};
ghost use Rattle.composite_agg.specs.InOrder.{page_cmp};
ghost use Rattle.composite_agg.specs.Parts.{key_of_part};
ghost use Rattle.composite_agg.specs.Sources.{ArePositive, IsComposite, IsPositive};
ghost use Rattle.shard_columns.specs.Built.{IsShard};
ghost use Rattle.shard_columns.specs.Dictionary.{words_of};

use crate::parts::{Part, new_part};
use agg_model::{CompositeSource, Key, Kind};
use bucket_order::compare_keys;
use shard_columns::Shard;
use std::cmp::Ordering;

/// Whether all keys of a row come after a key, in the order of the sources, as its values tell where it has one at most at each
/// source that decides. It takes no memory, and time in proportion to the sources. A row with more values is not looked into:
/// the answer is no, and says nothing.
///
/// There is a guess for each source, in their order: the place of the key's word in the dictionary of the source's field. Rows
/// whose one value is a word are told by its place there, which reads no word but the key's own. A guess may be any number, and
/// there may be fewer: one that is wrong is put right by binary search, so that it serves until the word of the key changes.
pub fn are_behind(shard: &Shard, row: u32, kind: &Kind, key: &Key, guesses: &mut [u32]) -> bool
    requires built { IsShard shard.now }
    requires in_range { row < length shard.now.rows }
    requires composite { IsComposite kind.now }
    ensures { IsTrue result → T (list_all (λ k. is_lt (page_cmp (empty_page kind.now).sources key.now k))
        (keys_of_row shard.now.rows kind.now (row_of shard.now.rows row))) }
{
    match kind {
        Kind::Composite { sources, .. } => match key {
            Key::Many(parts) => begin_behind(
                shard,
                row,
                sources.as_slice(),
                parts.as_slice(),
                guesses,
                0,
            ),
            Key::Null | Key::Whole(_) | Key::Flag(_) | Key::Word(_) | Key::Fixed(_) => false,
        },
        Kind::Terms { .. }
        | Kind::Histogram { .. }
        | Kind::DateHistogram { .. }
        | Kind::Filters { .. }
        | Kind::Filter { .. }
        | Kind::Missing { .. }
        | Kind::Global
        | Kind::Nested { .. }
        | Kind::ReverseNested { .. }
        | Kind::Sum { .. }
        | Kind::Min { .. }
        | Kind::Max { .. }
        | Kind::Avg { .. }
        | Kind::ValueCount { .. } => unreachable!(),
    }
}

// The same of parts, from the source at this place on.
fn begin_behind(
    shard: &Shard,
    row: u32,
    sources: &[CompositeSource],
    parts: &[Key],
    guesses: &mut [u32],
    at: usize,
) -> bool
    requires built { IsShard shard.now }
    requires in_range { row < length shard.now.rows }
    requires positive { ArePositive sources.now }
    ensures { IsTrue result → T (list_all (λ js. is_lt (any_parts_cmp sources.now parts.now js))
        (combinations (map (source_keys (row_of shard.now.rows row)) sources.now))) }
{
    match (sources, parts) {
        ([source, others @ ..], [part, more @ ..]) => {
            match compare_at(shard, row, source, part, guesses, at) {
                Some(Ordering::Less) => true,
                Some(Ordering::Equal) => {
                    begin_behind(shard, row, others, more, guesses, at.saturating_add(1))
                }
                Some(Ordering::Greater) | None => false,
            }
        }
        _ => false,
    }
}

// How a part stands to the one part of a row that has at most one value at a source, by the guess at this place if there is one.
fn compare_at(
    shard: &Shard,
    row: u32,
    source: &CompositeSource,
    part: &Key,
    guesses: &mut [u32],
    at: usize,
) -> Option<Ordering>
    requires built { IsShard shard.now }
    requires in_range { row < length shard.now.rows }
    requires positive { IsPositive source.now }
    ensures { IfSome result (IsOnlyPart source.now part.now (source_keys (row_of shard.now.rows row) source.now)) }
{
    if at < guesses.len() {
        let told = compare_place(shard, row, source, part, &mut guesses[at]);
        if told.is_some() {
            return told;
        }
    }
    compare_only_part(shard, row, source, part)
}

// The same where both are words, by their places in the dictionary of the field.
fn compare_place(
    shard: &Shard,
    row: u32,
    source: &CompositeSource,
    part: &Key,
    guess: &mut u32,
) -> Option<Ordering>
    requires built { IsShard shard.now }
    requires in_range { row < length shard.now.rows }
    ensures { IfSome result (IsOnlyPart source.now part.now (source_keys (row_of shard.now.rows row) source.now)) }
{
    let own = only_ordinal(shard, row, source)?;
    let place = match part {
        Key::Word(word) => place_of_word(shard, source.field, word.as_str().as_bytes(), guess)?,
        Key::Null | Key::Whole(_) | Key::Flag(_) | Key::Fixed(_) | Key::Many(_) => return None,
    };
    Some(directed_by(source.descending, place.cmp(&own)))
}

// The place in its field's dictionary of the one word of a row at a source that takes words.
pub(crate) fn only_ordinal(shard: &Shard, row: u32, source: &CompositeSource) -> Option<u32>
    requires built { IsShard shard.now }
    requires in_range { row < length shard.now.rows }
    ensures { IfSome result (λ o. IsOnlyWord (words_of source.now.field shard.now.rows) o (source_keys (row_of shard.now.rows row) source.now)) }
{
    if source.interval.is_some() {
        return None;
    }
    match shard.ordinals(row, source.field) {
        [only] => Some(*only),
        _ => None,
    }
}

// The place of a word in a field's dictionary: the guess, or else where it is found, which becomes the guess.
fn place_of_word(shard: &Shard, field: u32, word: &[u8], guess: &mut u32) -> Option<u32>
    ensures { IfSome result (λ o. slice_get (words_of field shard.now.rows) o ≡ Some word.now) }
{
    if *guess < shard.words(field) && shard.word(field, *guess) == word {
        return Some(*guess);
    }
    let found = shard.find_word(field, word)?;
    *guess = found;
    Some(found)
}

// The outcome of a comparison, by the direction of a source.
pub(crate) fn directed_by(descending: bool, ordering: Ordering) -> Ordering
    ensures { result ≡ directed descending ordering }
{
    if descending {
        ordering.reverse()
    } else {
        ordering
    }
}

// How a part stands to the one part of a row that has at most one value at a source.
fn compare_only_part(
    shard: &Shard,
    row: u32,
    source: &CompositeSource,
    part: &Key,
) -> Option<Ordering>
    requires built { IsShard shard.now }
    requires in_range { row < length shard.now.rows }
    requires positive { IsPositive source.now }
    ensures { IfSome result (IsOnlyPart source.now part.now (source_keys (row_of shard.now.rows row) source.now)) }
{
    let own = match shard.value_count(row, source.field) {
        0 => None,
        1 => new_part(shard, row, source, 0),
        _ => return None,
    };
    let ordering = match own {
        Some(own) => compare_part(part, own),
        None if source.missing_bucket => compare_keys(part, &Key::Null),
        None => return None,
    };
    Some(if source.descending {
        ordering.reverse()
    } else {
        ordering
    })
}

// The order of a key and a part.
pub(crate) fn compare_part(key: &Key, part: Part) -> Ordering
    ensures { result ≡ key_cmp key.now (key_of_part part.entry) }
{
    match part {
        Part::Null => compare_keys(key, &Key::Null),
        Part::Whole(number) => compare_keys(key, &Key::Whole(number)),
        Part::Flag(flag) => compare_keys(key, &Key::Flag(flag)),
        Part::Word(word) => compare_word(key, word),
    }
}

// The order of a key and a word.
fn compare_word(key: &Key, word: &str) -> Ordering
    ensures { result ≡ key_cmp key.now (Word word.now) }
{
    match key {
        Key::Word(own) => own.as_str().cmp(word),
        Key::Null | Key::Whole(_) | Key::Flag(_) => Ordering::Less,
        Key::Fixed(_) | Key::Many(_) => Ordering::Greater,
    }
}
