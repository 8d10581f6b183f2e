// What a field holds.
ghost use Rattle.std.specs.Prelude.{◌≡◌, ◌<◌, length, slice_get, Some};
ghost use Rattle.agg_model.specs.declared.mapping.FieldKind.TheVariants.{Keyword};
ghost use Rattle.column_query.specs.Numbers.{content_of, Holds};

use agg_model::FieldKind;
use shard_columns::Shard;

/// What the values of a field are.
#[derive(Clone, Copy)]
pub enum Content {
    Wholes,
    Words,
    Flags,
}

fn of_kind(kind: FieldKind) -> Content
    ensures { result ≡ content_of kind }
{
    match kind {
        FieldKind::Keyword => Content::Words,
        FieldKind::Boolean => Content::Flags,
        FieldKind::Long
        | FieldKind::Integer
        | FieldKind::Short
        | FieldKind::Byte
        | FieldKind::Date => Content::Wholes,
    }
}

/// What a field of the shard holds.
pub fn content_of_field(shard: &Shard, field: u32) -> Content
    requires { field < length shard.now.kinds }
    ensures holds { Holds shard.now.rows field result }
    ensures words { result ≡ Content.Words → slice_get shard.now.kinds field ≡ Some Keyword }
{
    of_kind(shard.kind(field))
}
