//! The rows at a nested path within given rows.
ghost use Rattle.std.specs.Prelude.{◌≡◌, ◌<◌, ◌+◌, IfOk, All, flat_map, length, map};
ghost use Rattle.agg_evaluation.specs.Rows.{beneath, row_of};
ghost use Rattle.nested_agg.specs.Ends.{AreEnds, beneath_first};

use agg_model::List;
use shard_columns::Shard;
use std::alloc::{AllocError, Global};

/// The rows beneath others, with where those beneath each of them end.
#[derive(Drop)]
pub struct Beneath {
    pub rows: Vec<u32>,
    /// How many of the rows lie beneath the first of the others, beneath the first two, and so on.
    pub ends: Vec<usize>,
}

/// The rows at a nested path within each of the rows, on all levels, in the order of the rows and then of the shard; a row at
/// that path lies within itself. Each of the rows takes time by the logarithm of the rows at the path, and each that is found a
/// constant time.
pub fn rows_beneath(
    alloc: Global,
    shard: &Shard,
    path: u32,
    rows: &[u32],
) -> Result<List<u32>, AllocError>
    requires in_range { All (λ n. n < length shard.now.rows) rows.now }
    ensures rows { IfOk result (λ found. map (row_of shard.now.rows) found
        ≡ flat_map (beneath shard.now.rows (path + 1)) (map (row_of shard.now.rows) rows.now)) }
    ensures in_range { IfOk result (λ found. All (λ n. n < length shard.now.rows) found) }
{
    let mut found = Vec::new(alloc);
    for row in rows {
        found.extend_from_slice(shard.children(*row, path))?;
    }
    Ok(List::from_vec(found))
}

/// The same, with where the rows beneath each of the rows end, so that those of each are told apart. Time as in `rows_beneath`.
pub fn beneath_each(
    alloc: Global,
    shard: &Shard,
    path: u32,
    rows: &[u32],
) -> Result<Beneath, AllocError>
    requires in_range { All (λ n. n < length shard.now.rows) rows.now }
    ensures rows { IfOk result (λ found. map (row_of shard.now.rows) found.rows.items
        ≡ flat_map (beneath shard.now.rows (path + 1)) (map (row_of shard.now.rows) rows.now)) }
    ensures in_range { IfOk result (λ found. All (λ n. n < length shard.now.rows) found.rows.items) }
    ensures many { IfOk result (λ found. length found.ends.items ≡ length rows.now) }
    ensures ends { IfOk result (λ found. AreEnds
        (λ count. length (beneath_first shard.now.rows (path + 1) (map (row_of shard.now.rows) rows.now) count)) found.ends.items) }
{
    let mut found = Vec::new(alloc);
    let mut ends = Vec::with_capacity(alloc, rows.len())?;
    for row in rows {
        let children = shard.children(*row, path);
        found.extend_from_slice(children)?;
        ends.push(found.len())?;
    }
    Ok(Beneath { rows: found, ends })
}
