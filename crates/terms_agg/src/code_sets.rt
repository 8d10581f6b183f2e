//! Sets of codes.
ghost use Rattle.std.specs.Prelude.{◌≡◌, ◌<◌, length, option_map, pos, IfOk, OnOk};
ghost use Rattle.shard_columns.specs.Dictionary.{words_of};
ghost use Rattle.column_query.specs.Prepared.{AddsNumber};
ghost use Rattle.terms_agg.specs.Codes.{has_code, content_in};
ghost use Rattle.terms_agg.specs.Prepared.{StandsFor, StandForEach, StandForAll};

use crate::content::{Content, content_of_field};
use agg_model::Probe;
use column_query::NumberSet;
use shard_columns::Shard;
use std::alloc::{AllocError, Global};
use std::collections::BTreeSet;

/// A set of the codes of a field.
#[derive(Drop)]
pub enum Codes {
    /// Of words, by their places in the dictionary.
    Ordinals(NumberSet),
    /// Of whole numbers and flags.
    Numbers(BTreeSet<i128>),
}

/// Whether the code is in the set.
pub fn has(codes: &Codes, code: i64) -> bool
    ensures { result ≡ has_code codes.now code }
{
    match codes {
        Codes::Ordinals(ordinals) => ordinals.contains(code),
        Codes::Numbers(numbers) => numbers.contains(&i128::from(code)),
    }
}

// The place of a word that a request names, in the dictionary of a field of words; none where no row has it.
fn ordinal_of_probe(shard: &Shard, field: u32, probe: &Probe) -> Option<u32>
    ensures { StandsFor Content.Words (words_of field shard.now.rows) probe.now (option_map pos result) }
{
    match probe {
        Probe::Word(word) => shard.find_word(field, word.as_str().as_bytes()),
        Probe::Whole(_) | Probe::Flag(_) => None,
    }
}

// The code of a value that a request names, of a field of whole numbers or flags; none where the value is of another kind.
fn number_of_probe(shard: &Shard, field: u32, probe: &Probe) -> Option<i128>
    requires known { field < length shard.now.kinds }
    requires numbers { content_in shard.now field ≡ Content.Words → ⊥ }
    ensures { StandsFor (content_in shard.now field) (words_of field shard.now.rows) probe.now result }
{
    match content_of_field(shard, field) {
        Content::Wholes => match probe {
            Probe::Whole(number) => Some(*number),
            Probe::Flag(_) | Probe::Word(_) => None,
        },
        Content::Flags => match probe {
            Probe::Flag(flag) => Some(i128::from(*flag)),
            Probe::Whole(_) | Probe::Word(_) => None,
        },
        Content::Words => unreachable!(),
    }
}

fn put_ordinal(ordinals: &mut Vec<i64>, ordinal: Option<u32>) -> Result<(), AllocError>
    ensures { OnOk result (AddsNumber ordinals.old.items (option_map pos ordinal) ordinals.new.items) }
{
    if let Some(ordinal) = ordinal {
        ordinals.push(i64::from(ordinal))?;
    }
    Ok(())
}

fn put_number(numbers: &mut BTreeSet<i128>, number: Option<i128>) -> Result<(), AllocError>
    ensures { OnOk result (AddsNumber numbers.old.keys number numbers.new.keys) }
{
    if let Some(number) = number {
        numbers.insert(number)?;
    }
    Ok(())
}

// The places of the words that a request names.
fn ordinals_of(
    alloc: Global,
    shard: &Shard,
    field: u32,
    probes: &[Probe],
) -> Result<Vec<i64>, AllocError>
    ensures { IfOk result (λ ordinals. StandForEach Content.Words (words_of field shard.now.rows) probes.now ordinals.items) }
{
    let most = probes.len().min(shard.words(field) as usize);
    let mut ordinals = Vec::with_capacity(alloc, most)?;
    for probe in probes {
        put_ordinal(&mut ordinals, ordinal_of_probe(shard, field, probe))?;
    }
    Ok(ordinals)
}

fn numbers_of(
    alloc: Global,
    shard: &Shard,
    field: u32,
    probes: &[Probe],
) -> Result<BTreeSet<i128>, AllocError>
    requires known { field < length shard.now.kinds }
    requires numbers { content_in shard.now field ≡ Content.Words → ⊥ }
    ensures { IfOk result (λ numbers. StandForEach (content_in shard.now field) (words_of field shard.now.rows) probes.now numbers.keys) }
{
    let mut numbers = BTreeSet::new(alloc);
    for probe in probes {
        put_number(&mut numbers, number_of_probe(shard, field, probe))?;
    }
    Ok(numbers)
}

/// The codes of the values that a request names, in time by their number times the logarithm of the dictionary's length, and in
/// memory by their number.
pub fn codes_of(
    alloc: Global,
    shard: &Shard,
    field: u32,
    probes: &[Probe],
) -> Result<Codes, AllocError>
    requires { field < length shard.now.kinds }
    ensures { IfOk result (λ set. StandForAll (content_in shard.now field) (words_of field shard.now.rows) probes.now set) }
{
    match content_of_field(shard, field) {
        Content::Words => {
            let ordinals = ordinals_of(alloc, shard, field, probes)?;
            Ok(Codes::Ordinals(NumberSet::of(alloc, ordinals)?))
        }
        Content::Wholes | Content::Flags => {
            let numbers = numbers_of(alloc, shard, field, probes)?;
            Ok(Codes::Numbers(numbers))
        }
    }
}
