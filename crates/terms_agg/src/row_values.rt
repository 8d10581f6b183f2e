//! The values that a row has of a field, as their codes.
ghost use Rattle.std.specs.Prelude.{◌≡◌, ◌<◌, length, slice_get, Some};
ghost use Rattle.terms_agg.specs.Lent.{codes_in, AreLent};

use crate::content::{Content, content_of_field};
use shard_columns::Shard;

/// The values that a row has of a field, as the shard lends them.
#[derive(Clone, Copy)]
pub(crate) enum RowValues<'a> {
    Wholes(&'a [i64]),
    /// By their places in the dictionary of the field.
    Words(&'a [u32]),
    Flags(&'a [bool]),
}

/// The values that the row has of the field, which are looked up once.
pub(crate) fn row_values(shard: &Shard, row: u32, field: u32) -> RowValues<'_>
    requires known { field < length shard.now.kinds }
    requires in_range { row < length shard.now.rows }
    ensures { AreLent shard.now field row result }
{
    match content_of_field(shard, field) {
        Content::Wholes => RowValues::Wholes(shard.numbers(row, field)),
        Content::Words => RowValues::Words(shard.ordinals(row, field)),
        Content::Flags => RowValues::Flags(shard.flags(row, field)),
    }
}

/// How many values there are.
pub(crate) fn value_count(values: RowValues<'_>) -> usize
    ensures { result ≡ length (codes_in values.entry) }
{
    match values {
        RowValues::Wholes(numbers) => numbers.len(),
        RowValues::Words(ordinals) => ordinals.len(),
        RowValues::Flags(flags) => flags.len(),
    }
}

/// The code of the value at this place.
pub(crate) fn code_at(values: RowValues<'_>, place: usize) -> i64
    requires { place < length (codes_in values) }
    ensures { slice_get (codes_in values.entry) place ≡ Some result }
{
    match values {
        RowValues::Wholes(numbers) => numbers[place],
        RowValues::Words(ordinals) => i64::from(ordinals[place]),
        RowValues::Flags(flags) => i64::from(flags[place]),
    }
}
