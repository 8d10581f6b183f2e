// Bounds on the numbers that stand for the values of a field.
ghost use Rattle.std.specs.Prelude.{◌≡◌, ◌<◌, length};
ghost use Rattle.std.specs.Ordering.{int_cmp};
ghost use Rattle.agg_model.specs.declared.query.Probe.TheVariants.{Word};
ghost use Rattle.shard_columns.specs.Dictionary.{words_of};
ghost use Rattle.column_query.specs.Numbers.{place_among, without_equal as without_equal_op, within, Holds, BoundsAs};

use crate::content::{Content, content_of_field};
use crate::values::allows;
use agg_model::{Probe, RangeOp, RangeTest};
use shard_columns::Shard;
use std::cmp::Ordering;

/// A bound on numbers.
#[derive(Clone, Copy)]
pub enum Bound {
    /// The number compares with this one as the bound says.
    At(RangeOp, i128),
    /// The answer is the same for each number.
    Always(bool),
}

/// Whether the bound allows the number.
pub fn allows_number(bound: Bound, number: i128) -> bool
    ensures { result ≡ within bound number }
{
    match bound {
        Bound::At(op, limit) => allows(op, number.cmp(&limit)),
        Bound::Always(answer) => answer,
    }
}

fn without_equal(op: RangeOp) -> RangeOp
    ensures { result ≡ without_equal_op op }
{
    match op {
        RangeOp::Gt | RangeOp::Gte => RangeOp::Gte,
        RangeOp::Lt | RangeOp::Lte => RangeOp::Lt,
    }
}

// The place among the words of the field where this word would stand, by binary search.
fn place_of_word(shard: &Shard, field: u32, word: &[u8]) -> u32
    ensures { result ≡ place_among (words_of field shard.now.rows) word.now }
{
    let mut low = 0;
    let mut high = shard.words(field);
    while low < high {
        let middle = low + (high - low) / 2;
        if shard.word(field, middle).cmp(&word).is_lt() {
            low = middle + 1;
        } else {
            high = middle;
        }
    }
    low
}

fn bound_of_word(shard: &Shard, field: u32, op: RangeOp, word: &[u8]) -> Bound
    requires { Holds shard.now.rows field Content.Words }
    ensures { BoundsAs shard.now.rows field (record { op = op; value = Word word.now }) result }
{
    match shard.find_word(field, word) {
        Some(ordinal) => Bound::At(op, i128::from(ordinal)),
        None => Bound::At(
            without_equal(op),
            i128::from(place_of_word(shard, field, word)),
        ),
    }
}

/// The bound on the numbers of a field that stands for one on its values. Whole numbers come before flags, and flags before
/// words.
pub fn bound_of(shard: &Shard, field: u32, test: &RangeTest) -> Bound
    requires { field < length shard.now.kinds }
    ensures { BoundsAs shard.now.rows field test.now result }
{
    match content_of_field(shard, field) {
        Content::Wholes => match &test.value {
            Probe::Whole(number) => Bound::At(test.op, *number),
            Probe::Flag(_) | Probe::Word(_) => Bound::Always(allows(test.op, Ordering::Less)),
        },
        Content::Flags => match &test.value {
            Probe::Whole(_) => Bound::Always(allows(test.op, Ordering::Greater)),
            Probe::Flag(flag) => Bound::At(test.op, i128::from(*flag)),
            Probe::Word(_) => Bound::Always(allows(test.op, Ordering::Less)),
        },
        Content::Words => match &test.value {
            Probe::Whole(_) | Probe::Flag(_) => Bound::Always(allows(test.op, Ordering::Greater)),
            Probe::Word(word) => bound_of_word(shard, field, test.op, word.as_str().as_bytes()),
        },
    }
}
