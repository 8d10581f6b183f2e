//! The parts of a composite key that the values of a row give.
ghost use Rattle.std.specs.Prelude.{◌≡◌, ◌<◌, ◌+◌, ◌++◌, ◌↔◌, IfOk, IsTrue, Some, length, flat_map, map, option_map, option_to_list, slice_get, take};
ghost use Rattle.agg_model.specs.declared.row.Scalar.{Scalar};
ghost use Rattle.agg_evaluation.specs.Keys.{distinct_keys};
ghost use Rattle.agg_evaluation.specs.Rows.{values_of, row_of};
ghost use Rattle.shard_columns.specs.Built.{IsShard};
ghost use Rattle.shard_columns.specs.Cell.{scalar_of};
ghost use Rattle.composite_agg.specs.Sources.{IsPositive, part_keys};
ghost use Rattle.composite_agg.specs.Parts.{key_of_part};

use agg_model::{CompositeSource, Key, Text};
use histogram_agg::interval_start;
use shard_columns::{Cell, Shard};
use std::alloc::{AllocError, Global};

/// A part of a composite key, with a word lent by the shard.
#[derive(Clone, Copy)]
pub enum Part<'a> {
    Null,
    Whole(i128),
    Word(&'a str),
    Flag(bool),
}

// The part that a value gives. A source with an interval takes whole numbers alone.
fn part_of<'a>(source: &CompositeSource, cell: Cell<'a>) -> Option<Part<'a>>
    requires { IsPositive source.now }
    ensures { map key_of_part (option_to_list result) ≡ part_keys source.now (scalar_of cell.entry) }
{
    match (source.interval, cell) {
        (Some(interval), Cell::Whole(number)) => {
            Some(Part::Whole(interval_start(interval, 0, number)))
        }
        (Some(_), Cell::Word(_) | Cell::Flag(_)) => None,
        (None, Cell::Whole(number)) => Some(Part::Whole(i128::from(number))),
        (None, Cell::Word(word)) => Some(Part::Word(word)),
        (None, Cell::Flag(flag)) => Some(Part::Flag(flag)),
    }
}

fn part_at<'a>(shard: &'a Shard, row: u32, source: &CompositeSource, place: u32) -> Option<Part<'a>>
    requires in_range { row < length shard.now.rows }
    requires there { place < length (values_of source.now.field (row_of shard.now.rows row)) }
    requires positive { IsPositive source.now }
    ensures { (v : Scalar) → slice_get (values_of source.now.field (row_of shard.now.rows row)) place ≡ Some v →
        map key_of_part (option_to_list result) ≡ part_keys source.now v }
{
    part_of(source, shard.value(row, source.field, place))
}

fn is_same(a: Option<Part>, b: Option<Part>) -> bool
    ensures { IsTrue result ↔ (option_map key_of_part a.entry ≡ option_map key_of_part b.entry) }
{
    match (a, b) {
        (Some(Part::Whole(m)), Some(Part::Whole(n))) => m == n,
        (Some(Part::Word(v)), Some(Part::Word(w))) => v == w,
        (Some(Part::Flag(p)), Some(Part::Flag(q))) => p == q,
        (Some(Part::Null), Some(Part::Null)) | (None, None) => true,
        _ => false,
    }
}

/// The part that the value at this place gives, unless the value before gives the same: values ascend, so that equal parts
/// stand side by side.
pub fn new_part<'a>(
    shard: &'a Shard,
    row: u32,
    source: &CompositeSource,
    place: u32,
) -> Option<Part<'a>>
    requires built { IsShard shard.now }
    requires in_range { row < length shard.now.rows }
    requires there { place < length (values_of source.now.field (row_of shard.now.rows row)) }
    requires positive { IsPositive source.now }
    ensures { let values = values_of source.now.field (row_of shard.now.rows row) in
        distinct_keys (flat_map (part_keys source.now) (take (place + 1) values))
        ≡ distinct_keys (flat_map (part_keys source.now) (take place values)) ++ map key_of_part (option_to_list result) }
{
    let part = part_at(shard, row, source, place);
    if place > 0 && is_same(part_at(shard, row, source, place - 1), part) {
        None
    } else {
        part
    }
}

/// The part as a key.
pub fn key_of(alloc: Global, part: Part) -> Result<Key, AllocError>
    ensures { IfOk result (λ k. k ≡ key_of_part part.entry) }
{
    match part {
        Part::Null => Ok(Key::Null),
        Part::Whole(number) => Ok(Key::Whole(number)),
        Part::Word(word) => Ok(Key::Word(Text::of(alloc, word)?)),
        Part::Flag(flag) => Ok(Key::Flag(flag)),
    }
}
