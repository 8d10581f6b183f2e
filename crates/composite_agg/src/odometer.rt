//! The combinations of a row as an odometer: a wheel for each source, whose parts the shard lends.
ghost use Rattle.std.specs.Prelude.{◌≡◌, ◌<◌, ◌≤◌, [], ◌∷◌, IfOk, IfSome, IsTrue, None, false, flat_map, length, map, take};
ghost use Rattle.std.specs.Option.{option_map_or};
ghost use Rattle.agg_evaluation.specs.Keys.{combinations as combinations_of_keys, distinct_keys, keys as keys_of_row, source_keys};
ghost use Rattle.agg_evaluation.specs.Rows.{values_of, row_of};
ghost use Rattle.composite_agg.specs.Odometer.{IsAtStart, chosen_key, keys_of_all, keys_to_come, later_combinations, later_keys, shown_key, shown_parts, wheel_keys};
ghost use Rattle.composite_agg.specs.Parts.{key_of_part};
ghost use Rattle.composite_agg.specs.Sources.{ArePositive, IsComposite, IsPositive, part_keys};
ghost use Rattle.shard_columns.specs.Built.{IsShard};

use crate::parts::{Part, key_of, new_part};
use agg_model::{CompositeSource, Key, Kind, List};
use shard_columns::Shard;
use std::alloc::{AllocError, Global};

/// The distinct parts of a row at a source, ascending, of which it shows one. A row with one part takes no memory.
#[derive(Drop)]
pub(crate) struct Wheel<'a> {
    /// The part that is shown.
    pub(crate) part: Part<'a>,
    pub(crate) first: Part<'a>,
    /// The parts behind the first.
    pub(crate) later: Vec<Part<'a>>,
    /// How many of them were shown.
    pub(crate) at: usize,
}

/// The combinations of a row's parts, ascending, of which one is chosen. It takes memory for each source and each part of the
/// row, however many combinations there are, and copies no word.
#[derive(Drop)]
pub struct Combinations<'a> {
    pub(crate) wheels: Vec<Wheel<'a>>,
}

// The first part of a row at a source, and how many values were looked at for it.
fn first_part<'a>(shard: &'a Shard, row: u32, source: &CompositeSource) -> Option<(u32, Part<'a>)>
    requires built { IsShard shard.now }
    requires in_range { row < length shard.now.rows }
    requires positive { IsPositive source.now }
    ensures within { IfSome result (λ found. found.0 ≤ length (values_of source.now.field (row_of shard.now.rows row))) }
    ensures first { IfSome result (λ found. distinct_keys (flat_map (part_keys source.now)
        (take found.0 (values_of source.now.field (row_of shard.now.rows row)))) ≡ key_of_part found.1 ∷ []) }
    ensures none { result ≡ None →
        distinct_keys (flat_map (part_keys source.now) (values_of source.now.field (row_of shard.now.rows row))) ≡ [] }
{
    for place in 0..shard.value_count(row, source.field) {
        if let Some(part) = new_part(shard, row, source, place) {
            return Some((place + 1, part));
        }
    }
    None
}

// A wheel whose first part is that of the first values, so many of which are passed over.
fn begin_wheel<'a>(
    alloc: Global,
    shard: &'a Shard,
    row: u32,
    source: &CompositeSource,
    passed: u32,
    first: Part<'a>,
) -> Result<Wheel<'a>, AllocError>
    requires built { IsShard shard.now }
    requires in_range { row < length shard.now.rows }
    requires positive { IsPositive source.now }
    requires within { passed ≤ length (values_of source.now.field (row_of shard.now.rows row)) }
    requires first { distinct_keys (flat_map (part_keys source.now)
        (take passed (values_of source.now.field (row_of shard.now.rows row)))) ≡ key_of_part first ∷ [] }
    ensures keys { IfOk result (λ wheel. wheel_keys wheel
        ≡ distinct_keys (flat_map (part_keys source.now) (values_of source.now.field (row_of shard.now.rows row)))) }
    ensures start { IfOk result (λ wheel. IsAtStart wheel) }
{
    let mut later = Vec::new(alloc);
    for place in passed..shard.value_count(row, source.field) {
        if let Some(part) = new_part(shard, row, source, place) {
            later.push(part)?;
        }
    }
    Ok(Wheel {
        part: first,
        first,
        later,
        at: 0,
    })
}

// The parts of a row at a source, or null alone where it has none and the source takes such rows.
fn wheel_of<'a>(
    alloc: Global,
    shard: &'a Shard,
    row: u32,
    source: &CompositeSource,
) -> Result<Option<Wheel<'a>>, AllocError>
    requires built { IsShard shard.now }
    requires in_range { row < length shard.now.rows }
    requires positive { IsPositive source.now }
    ensures keys { IfOk result (λ made. source_keys (row_of shard.now.rows row) source.now ≡ option_map_or wheel_keys made []) }
    ensures start { IfOk result (λ made. IfSome made IsAtStart) }
{
    match first_part(shard, row, source) {
        Some((passed, first)) => {
            let wheel = begin_wheel(alloc, shard, row, source, passed, first)?;
            Ok(Some(wheel))
        }
        None if source.missing_bucket => Ok(Some(Wheel {
            part: Part::Null,
            first: Part::Null,
            later: Vec::new(alloc),
            at: 0,
        })),
        None => Ok(None),
    }
}

// A wheel for each source, at its first part; none where one has no part.
fn wheels_of<'a>(
    alloc: Global,
    shard: &'a Shard,
    row: u32,
    sources: &[CompositeSource],
) -> Result<Option<Vec<Wheel<'a>>>, AllocError>
    requires built { IsShard shard.now }
    requires in_range { row < length shard.now.rows }
    requires positive { ArePositive sources.now }
    ensures { IfOk result (λ made. combinations_of_keys (map (source_keys (row_of shard.now.rows row)) sources.now)
        ≡ option_map_or (λ wheels. shown_parts wheels.items ∷ later_combinations wheels.items) made []) }
{
    let mut wheels = Vec::with_capacity(alloc, sources.len())?;
    for source in sources {
        match wheel_of(alloc, shard, row, source)? {
            Some(wheel) => wheels.push(wheel)?,
            None => return Ok(None),
        }
    }
    Ok(Some(wheels))
}

// Shows the next part of a source, or the first one again where it showed the last.
fn turn(wheel: &mut Wheel) -> bool
    ensures kept { wheel_keys wheel.new ≡ wheel_keys wheel.old }
    ensures next { IsTrue result → later_keys wheel.old ≡ shown_key wheel.new ∷ later_keys wheel.new }
    ensures last { result ≡ false → later_keys wheel.old ≡ [] }
    ensures again { result ≡ false → IsAtStart wheel.new }
{
    if wheel.at < wheel.later.len() {
        wheel.part = wheel.later[wheel.at];
        wheel.at += 1;
        true
    } else {
        wheel.part = wheel.first;
        wheel.at = 0;
        false
    }
}

// Turns the last wheel, and where one begins again the one before it, until there is none.
fn turn_all(wheels: &mut Vec<Wheel>) -> bool
    ensures next { IsTrue result →
        later_combinations wheels.old.items ≡ shown_parts wheels.new.items ∷ later_combinations wheels.new.items }
    ensures last { result ≡ false → later_combinations wheels.old.items ≡ [] }
{
    let mut left = wheels.len();
    while left > 0 {
        left -= 1;
        if turn(&mut wheels[left]) {
            return true;
        }
    }
    false
}

impl<'a> Combinations<'a> {
    /// The combinations of a row at a composite, of which the first is chosen; none where a source has no part. The intervals of
    /// its sources are above 0. It takes time in proportion to the row's values.
    pub fn of_row(
        alloc: Global,
        shard: &'a Shard,
        row: u32,
        kind: &Kind,
    ) -> Result<Option<Combinations<'a>>, AllocError>
        requires built { IsShard shard.now }
        requires in_range { row < length shard.now.rows }
        requires composite { IsComposite kind.now }
        ensures { IfOk result (λ made. keys_of_row shard.now.rows kind.now (row_of shard.now.rows row) ≡ keys_of_all made) }
    {
        match kind {
            Kind::Composite { sources, .. } => {
                match wheels_of(alloc, shard, row, sources.as_slice())? {
                    Some(wheels) => Ok(Some(Combinations { wheels })),
                    None => Ok(None),
                }
            }
            Kind::Terms { .. }
            | Kind::Histogram { .. }
            | Kind::DateHistogram { .. }
            | Kind::Filters { .. }
            | Kind::Filter { .. }
            | Kind::Missing { .. }
            | Kind::Global
            | Kind::Nested { .. }
            | Kind::ReverseNested { .. }
            | Kind::Sum { .. }
            | Kind::Min { .. }
            | Kind::Max { .. }
            | Kind::Avg { .. }
            | Kind::ValueCount { .. } => unreachable!(),
        }
    }

    /// The key of the combination that is chosen, with its words.
    pub fn key(&self, alloc: Global) -> Result<Key, AllocError>
        ensures { IfOk result (λ key. key ≡ chosen_key self.now) }
    {
        let mut parts = Vec::with_capacity(alloc, self.wheels.len())?;
        for wheel in self.wheels.as_slice() {
            parts.push(key_of(alloc, wheel.part)?)?;
        }
        Ok(Key::Many(List::from_vec(parts)))
    }

    /// Chooses the next combination, and answers whether there is one. It takes no memory.
    pub fn advance(&mut self) -> bool
        ensures next { IsTrue result → keys_to_come self.old ≡ chosen_key self.new ∷ keys_to_come self.new }
        ensures last { result ≡ false → keys_to_come self.old ≡ [] }
    {
        turn_all(&mut self.wheels)
    }
}
