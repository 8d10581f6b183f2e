//! Bounds on the bytes of keys, by which buckets are charged.
ghost use Rattle.std.specs.Prelude.{◌≡◌, length, map, option_to_list, sum, true};
ghost use Rattle.agg_evaluation.specs.Ceiling.{field_bytes as bytes_of_field, greatest_of, key_bound, part_bytes};
ghost use Rattle.agg_cost.specs.Capped.{capped};
ghost use Rattle.agg_cost.specs.Fields.{HasFields, IsOfField, are_known};
ghost use Rattle.shard_columns.specs.Values.{words_in};

use agg_model::{CompositeSource, FieldKind, Kind, List, Scalar};
use shard_columns::Shard;

const NUMBER_BYTES: u64 = 8;

// The length of the word that stands for a missing value, 0 where there is none.
fn word_bytes(missing: &Option<Scalar>) -> u64
    ensures { result ≡ greatest_of (map length (words_in (option_to_list missing.now))) }
{
    match missing {
        Some(Scalar::Word(word)) => word.len() as u64,
        Some(Scalar::Whole(_) | Scalar::Flag(_)) | None => 0,
    }
}

// A bound on the bytes of a field's keys: 8 for numbers, dates and flags, and the length of the longest word for words.
fn field_bytes(shard: &Shard, field: u32, missing: &Option<Scalar>) -> u64
    requires { IsOfField shard.now field missing.now }
    ensures { result ≡ bytes_of_field shard.now.kinds shard.now.rows field missing.now }
{
    match shard.kind(field) {
        FieldKind::Keyword => shard.longest(field).max(word_bytes(missing)),
        FieldKind::Boolean
        | FieldKind::Long
        | FieldKind::Integer
        | FieldKind::Short
        | FieldKind::Byte
        | FieldKind::Date => NUMBER_BYTES,
    }
}

fn bytes_of_parts(shard: &Shard, sources: &List<CompositeSource>) -> u64
    requires { are_known (length shard.now.kinds) sources.now ≡ true }
    ensures { result ≡ capped (sum (map (part_bytes shard.now.kinds shard.now.rows) sources.now)) }
{
    let mut bytes = 0_u64;
    for source in sources.as_slice() {
        bytes = bytes.saturating_add(field_bytes(shard, source.field, &None).max(1));
    }
    bytes
}

/// A bound on the bytes of an aggregation's keys in this shard, or the greatest number of 64 bits where it is above that.
pub fn key_bytes(shard: &Shard, kind: &Kind) -> u64
    requires { HasFields shard.now kind.now }
    ensures { result ≡ capped (key_bound shard.now.kinds shard.now.rows kind.now) }
{
    match kind {
        Kind::Terms { field, missing, .. } => field_bytes(shard, *field, missing),
        Kind::Histogram { .. } | Kind::DateHistogram { .. } => NUMBER_BYTES,
        Kind::Composite { sources, .. } => bytes_of_parts(shard, sources),
        Kind::Filters { .. }
        | Kind::Filter { .. }
        | Kind::Missing { .. }
        | Kind::Global
        | Kind::Nested { .. }
        | Kind::ReverseNested { .. }
        | Kind::Sum { .. }
        | Kind::Min { .. }
        | Kind::Max { .. }
        | Kind::Avg { .. }
        | Kind::ValueCount { .. } => 0,
    }
}
