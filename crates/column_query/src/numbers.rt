// The numbers that stand for the values that a query asks for.
ghost use Rattle.std.specs.Prelude.{◌≡◌, ◌<◌, length, pos, option_map, FitsSigned, IfNone, IfSome};
ghost use Rattle.std.specs.Int.{w64};
ghost use Rattle.shard_columns.specs.Built.{IsShard};
ghost use Rattle.column_query.specs.Numbers.{StandsFor, Holds};

use crate::content::{Content, content_of_field};
use agg_model::Probe;
use shard_columns::Shard;

// The place of a word that a query asks for, in the dictionary of a field of words; none where no row has it.
fn place_of_probe(shard: &Shard, field: u32, probe: &Probe) -> Option<u32>
    requires { Holds shard.now.rows field Content.Words }
    ensures { StandsFor shard.now.rows field probe.now (option_map pos result) }
{
    match probe {
        Probe::Word(word) => shard.find_word(field, word.as_str().as_bytes()),
        Probe::Whole(_) | Probe::Flag(_) => None,
    }
}

// The number in 64 bits, where it has no more.
fn in_64_bits(number: i128) -> Option<i64>
    ensures number { IfSome result (λ n. n ≡ number) }
    ensures outside { IfNone result (FitsSigned w64 number → ⊥) }
{
    match i64::try_from(number) {
        Ok(number) => Some(number),
        Err(_) => None,
    }
}

/// The number of a value that a query asks for; none where no row has it, as no row has a whole number of more than 64 bits.
pub fn number_of_probe(shard: &Shard, field: u32, probe: &Probe) -> Option<i64>
    requires built { IsShard shard.now }
    requires known { field < length shard.now.kinds }
    ensures { StandsFor shard.now.rows field probe.now result }
{
    match content_of_field(shard, field) {
        Content::Wholes => match probe {
            Probe::Whole(number) => in_64_bits(*number),
            Probe::Flag(_) | Probe::Word(_) => None,
        },
        Content::Flags => match probe {
            Probe::Flag(flag) => Some(i64::from(*flag)),
            Probe::Whole(_) | Probe::Word(_) => None,
        },
        Content::Words => match place_of_probe(shard, field, probe) {
            Some(place) => Some(i64::from(place)),
            None => None,
        },
    }
}
