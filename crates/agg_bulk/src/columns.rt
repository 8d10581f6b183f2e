//! What the columns of an index weigh.
ghost use Rattle.std.specs.Prelude.{◌≡◌, ◌<◌, ◌^◌};
ghost use Rattle.agg_spec.specs.Columns.{columns_charge};
ghost use Rattle.agg_bulk.specs.ColumnBytes.{all_bytes};
ghost use Rattle.fitting_laws.specs.Indexes.{index_of};

use agg_model::costs::FIELDDATA_OVERHEAD;
use shard_columns::{Index, Shard};

/// The overhead of fielddata, in per cent.
const OVERHEAD: u64 = FIELDDATA_OVERHEAD as u64;

/// The bytes of the columns of all shards.
fn bytes_of(shards: &[Shard]) -> u64
    requires { all_bytes shards.now < 2 ^ 53 }
    ensures { result ≡ all_bytes shards.now }
{
    let mut bytes = 0;
    for shard in shards {
        bytes += shard.column_bytes();
    }
    bytes
}

/// What the columns of an index are charged with at the breaker of fielddata, in bytes: what they weigh with its
/// overhead, rounded up. It is below 2^54.
pub fn columns_charge(index: &Index) -> u64
    ensures charge { result ≡ columns_charge (index_of index.now) }
    ensures bound { result < 2 ^ 54 }
{
    let bytes = bytes_of(index.shards.as_slice());
    (bytes * OVERHEAD + 99) / 100
}
