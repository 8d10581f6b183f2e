// The values of all rows while they are put behind one another: each field has arrays of its own, of its type.
ghost use Rattle.std.specs.Prelude.{◌≡◌, ◌++◌, ◌+◌, ◌<◌, ◌≤◌, ◌^◌, true, OnOk, IfOk, length, map};
ghost use Rattle.std.specs.List.{list_all};
ghost use Rattle.std.specs.List.Sorted.{IsStrictlyIncreasing};
ghost use Rattle.agg_model.specs.declared.row.Scalar.TheVariants.{Word};
ghost use Rattle.shard_columns.specs.Lent.{wholes_in, flags_in};
ghost use Rattle.agg_evaluation.specs.Ceiling.{greatest_of};
ghost use Rattle.shard_columns.specs.Values.{Reader, words_in, words_for, FieldsBelow, total_count, typed_len, is_typed, is_taken, ranked, AreRankedAll, most_held};
ghost use Rattle.shard_columns.specs.Words.{of_field, IsNumbered, Notes, Shows};
ghost use Rattle.shard_columns.specs.Storing.{HasKinds, IsEmpty, AddsTyped, AddsHeld, AreTaken, AreBounded, AreShaped, AddsRowValues};

use crate::held_rows::HeldRows;
use crate::words::WordNumbers;
use agg_model::{FieldKind, FieldValues, List, Scalar};
use std::alloc::{AllocError, Global};

/// Values of one type. A word is its place among the words of the field.
#[derive(Drop)]
pub enum Typed {
    Wholes(Vec<i64>),
    Words(Vec<u32>),
    Flags(Vec<bool>),
}

/// A part of a flat array, from `start` to before `end`.
#[derive(Clone, Copy)]
pub struct Span {
    pub start: u32,
    pub end: u32,
}

/// Where the values of a row are.
#[derive(Clone, Copy)]
pub struct Held {
    pub row: u32,
    pub span: Span,
}

/// The values of one field so far. Words have numbers for now.
#[derive(Drop)]
pub struct Draft {
    pub held: HeldRows,
    pub typed: Typed,
}

/// The values of all fields so far, and how many they are.
#[derive(Drop)]
pub struct Drafts {
    pub columns: Vec<Draft>,
    pub count: usize,
}

fn no_values(alloc: Global, kind: FieldKind) -> Typed
    ensures typed { is_typed kind result ≡ true }
    ensures none { typed_len result ≡ 0 }
{
    match kind {
        FieldKind::Keyword => Typed::Words(Vec::new(alloc)),
        FieldKind::Boolean => Typed::Flags(Vec::new(alloc)),
        FieldKind::Long
        | FieldKind::Integer
        | FieldKind::Short
        | FieldKind::Byte
        | FieldKind::Date => Typed::Wholes(Vec::new(alloc)),
    }
}

fn count_of(typed: &Typed) -> usize
    ensures { result ≡ typed_len typed.now }
{
    match typed {
        Typed::Wholes(numbers) => numbers.len(),
        Typed::Words(words) => words.len(),
        Typed::Flags(flags) => flags.len(),
    }
}

fn push_wholes(wholes: &mut Vec<i64>, values: &[Scalar]) -> Result<(), AllocError>
    ensures { OnOk result (wholes.new.items ≡ wholes.old.items ++ wholes_in values.now) }
{
    for value in values {
        if let Scalar::Whole(number) = value {
            wholes.push(*number)?;
        }
    }
    Ok(())
}

fn push_flags(flags: &mut Vec<bool>, values: &[Scalar]) -> Result<(), AllocError>
    ensures { OnOk result (flags.new.items ≡ flags.old.items ++ flags_in values.now) }
{
    for value in values {
        if let Scalar::Flag(flag) = value {
            flags.push(*flag)?;
        }
    }
    Ok(())
}

fn push_words(
    words: &mut Vec<u32>,
    numbers: &mut WordNumbers,
    field: u32,
    values: &[Scalar],
) -> Result<(), AllocError>
    requires in_range { field < length numbers.old.by_field.items }
    requires sound { IsNumbered numbers.old }
    requires few { length numbers.old.ranks.items + length values.now < 2 ^ 32 }
    ensures notes { OnOk result (Notes numbers.old numbers.new (of_field field (words_in values.now))) }
    ensures few { OnOk result (length numbers.new.ranks.items ≤ length numbers.old.ranks.items + length values.now) }
    ensures shown { OnOk result ((show : Reader) → Shows numbers.new show →
        map (show field) words.new.items ≡ map (show field) words.old.items ++ map Word (words_in values.now)) }
    ensures grown { OnOk result (length words.new.items ≡ length words.old.items + length (words_in values.now)) }
{
    for value in values {
        if let Scalar::Word(word) = value {
            let number = numbers.number(field as usize, word.as_str())?;
            words.push(number)?;
        }
    }
    Ok(())
}

fn push_typed(
    typed: &mut Typed,
    numbers: &mut WordNumbers,
    field: &FieldValues,
) -> Result<(), AllocError>
    requires in_range { field.now.field < length numbers.old.by_field.items }
    requires sound { IsNumbered numbers.old }
    requires taken { list_all (is_taken typed.old) field.now.values ≡ true }
    requires few { length numbers.old.ranks.items + length field.now.values < 2 ^ 32 }
    ensures notes { OnOk result (Notes numbers.old numbers.new (of_field field.now.field (words_in field.now.values))) }
    ensures few { OnOk result (length numbers.new.ranks.items ≤ length numbers.old.ranks.items + length field.now.values) }
    ensures adds { OnOk result (AddsTyped numbers.new field.now.field typed.old typed.new field.now.values) }
{
    let values = field.values.as_slice();
    match typed {
        Typed::Wholes(wholes) => push_wholes(wholes, values),
        Typed::Words(words) => push_words(words, numbers, field.field, values),
        Typed::Flags(flags) => push_flags(flags, values),
    }
}

// Puts the values of a row behind those of the rows before it.
fn push_field(
    draft: &mut Draft,
    numbers: &mut WordNumbers,
    row: u32,
    field: &FieldValues,
) -> Result<(), AllocError>
    requires in_range { field.now.field < length numbers.old.by_field.items }
    requires sound { IsNumbered numbers.old }
    requires taken { list_all (is_taken draft.old.typed) field.now.values ≡ true }
    requires few_words { length numbers.old.ranks.items + length field.now.values < 2 ^ 32 }
    requires few_values { typed_len draft.old.typed + length field.now.values < 2 ^ 32 }
    ensures notes { OnOk result (Notes numbers.old numbers.new (of_field field.now.field (words_in field.now.values))) }
    ensures few { OnOk result (length numbers.new.ranks.items ≤ length numbers.old.ranks.items + length field.now.values) }
    ensures adds { OnOk result (AddsHeld numbers.new field.now.field draft.old draft.new row field.now.values) }
{
    let start = count_of(&draft.typed) as u32;
    push_typed(&mut draft.typed, numbers, field)?;
    let end = count_of(&draft.typed) as u32;
    draft.held.push(Held {
        row,
        span: Span { start, end },
    })?;
    Ok(())
}

impl Drafts {
    /// No values yet, of fields of these kinds.
    pub fn new(alloc: Global, kinds: &[FieldKind]) -> Result<Drafts, AllocError>
        ensures sizes { IfOk result (λ d. length d.columns.items ≡ length kinds.now) }
        ensures kinds { IfOk result (λ d. HasKinds kinds.now d) }
        ensures empty { IfOk result (λ d. IsEmpty d) }
    {
        let mut columns = Vec::new(alloc);
        for kind in kinds {
            columns.push(Draft {
                held: HeldRows::new(alloc),
                typed: no_values(alloc, *kind),
            })?;
        }
        Ok(Drafts { columns, count: 0 })
    }

    /// Puts the values of a row behind those of the rows before it.
    pub fn push_row(
        &mut self,
        numbers: &mut WordNumbers,
        row: u32,
        fields: &List<FieldValues>,
    ) -> Result<(), AllocError>
        requires in_range { FieldsBelow (length self.old.columns.items) fields.now }
        requires sizes { length self.old.columns.items ≡ length numbers.old.by_field.items }
        requires sound { IsNumbered numbers.old }
        requires rise { IsStrictlyIncreasing (map (λ f. f.field) fields.now) }
        requires taken { AreTaken self.old fields.now }
        requires few { self.old.count + total_count fields.now < 2 ^ 32 }
        requires bounded { AreBounded numbers.old self.old }
        requires shaped { AreShaped row self.old }
        ensures notes { OnOk result (Notes numbers.old numbers.new (λ f. words_for f fields.now)) }
        ensures adds { OnOk result (AddsRowValues numbers.new self.old self.new row fields.now) }
    {
        for field in fields.as_slice() {
            push_field(&mut self.columns[field.field as usize], numbers, row, field)?;
            self.count += field.values.len();
        }
        Ok(())
    }
}

/// For each field the greatest number of values that one row has.
pub fn most_of_each(alloc: Global, drafts: &[Draft]) -> Result<Vec<u32>, AllocError>
    ensures { IfOk result (λ all. all.items ≡ map most_held drafts.now) }
{
    let mut all = Vec::with_capacity(alloc, drafts.len())?;
    for draft in drafts {
        all.push(draft.held.most())?;
    }
    Ok(all)
}

// A place past all that a dictionary has stands for 0.
fn ranked(ranks: &[usize], number: u32) -> u32
    ensures { result ≡ ranked ranks.now number }
{
    match ranks.get(number as usize) {
        Some(rank) if *rank <= u32::MAX as usize => *rank as u32,
        _ => 0,
    }
}

fn rank_words(words: &mut Vec<u32>, ranks: &[usize])
    ensures { words.new.items ≡ map (ranked ranks.now) words.old.items }
{
    for one in words.iter_mut() {
        *one = ranked(ranks, *one);
    }
}

/// Puts in the place of each word's number its place in its dictionary.
pub fn rank_all(typed: &mut Typed, ranks: &[usize])
    ensures { AreRankedAll ranks.now typed.old typed.new }
{
    if let Typed::Words(words) = typed {
        rank_words(words, ranks);
    }
}
