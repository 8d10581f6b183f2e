//! What a bucket of a page costs before its first row, in bytes.
ghost use Rattle.std.specs.Prelude.{◌≡◌, ◌+◌, IfOk, map, sum_by};
ghost use Rattle.agg_evaluation.specs.Cost.{key_bytes, node_cost};
ghost use Rattle.agg_evaluation.specs.Whole.{empty_node};

use agg_model::costs::BUCKET_BYTES;
use agg_model::{Agg, Key, List};
use growing_tree::child_bytes;
use std::alloc::AllocError;

/// A sum of counts or of bytes; one of more than 64 bits counts as want of memory.
pub(crate) fn sum_of(a: u64, b: u64) -> Result<u64, AllocError>
    ensures { IfOk result (λ s. s ≡ a + b) }
{
    a.checked_add(b).ok_or(AllocError)
}

/// The bytes of a key.
pub(crate) fn bytes_of_key(key: &Key) -> Result<u64, AllocError>
    ensures { IfOk result (λ n. n ≡ key_bytes key.now) }
{
    match key {
        Key::Null => Ok(1),
        Key::Whole(_) | Key::Flag(_) => Ok(8),
        Key::Word(word) => Ok(word.len() as u64),
        Key::Fixed(_) => Ok(0),
        Key::Many(parts) => {
            let mut total = 0;
            for part in parts.as_slice() {
                total = sum_of(total, bytes_of_key(part)?)?;
            }
            Ok(total)
        }
    }
}

/// What a bucket of a composite costs before its first row: 128 for itself, its key, and its children.
pub(crate) fn bytes_of_bucket(key: &Key, aggs: &List<Agg>) -> Result<u64, AllocError>
    ensures { IfOk result (λ n. n ≡ 128 + key_bytes key.now + sum_by node_cost (map empty_node aggs.now)) }
{
    let key = bytes_of_key(key)?;
    sum_of(sum_of(BUCKET_BYTES, key)?, child_bytes(aggs)?)
}
