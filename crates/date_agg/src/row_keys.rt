//! The keys of a row, by an aggregation that is not prepared.
ghost use Rattle.std.specs.Prelude.{◌≡◌, ◌<◌, length, IfOk};
ghost use Rattle.agg_evaluation.specs.Keys.{keys as keys_of_row};
ghost use Rattle.agg_evaluation.specs.Rows.{row_of};
ghost use Rattle.shard_columns.specs.Built.{IsShard};
ghost use Rattle.date_agg.specs.Codes.{IsDated};
ghost use Rattle.date_agg.specs.Dates.{IsOverDates};

use crate::code_keys::key;
use crate::preparing::prepare;
use crate::row_codes::{codes, count};
use agg_model::{Key, Kind, List};
use shard_columns::Shard;
use std::alloc::{AllocError, Global};

/// The distinct keys of a row, ascending: those of its instants, or that of `missing`, within the hard bounds. For many rows
/// prepare the aggregation and take `codes`.
pub fn keys(alloc: Global, shard: &Shard, row: u32, kind: &Kind) -> Result<List<Key>, AllocError>
    requires built { IsShard shard.now }
    requires in_range { row < length shard.now.rows }
    requires dated { IsDated kind.now }
    requires dates { IsOverDates shard.now kind.now }
    ensures { IfOk result (λ ks. ks ≡ keys_of_row shard.now.rows kind.now (row_of shard.now.rows row)) }
{
    let prepared = prepare(kind);
    let mut found = Vec::new(alloc);
    codes(shard, &prepared, row, &mut found)?;
    let mut keys = List::new(alloc);
    for code in found.as_slice() {
        keys.push(key(&prepared, *code))?;
    }
    Ok(keys)
}

/// The number of keys that `keys` gives, with no key built: it takes no memory.
pub fn key_count(shard: &Shard, row: u32, kind: &Kind) -> u64
    requires built { IsShard shard.now }
    requires in_range { row < length shard.now.rows }
    requires dated { IsDated kind.now }
    requires dates { IsOverDates shard.now kind.now }
    ensures { result ≡ length (keys_of_row shard.now.rows kind.now (row_of shard.now.rows row)) }
{
    count(shard, &prepare(kind), row)
}
