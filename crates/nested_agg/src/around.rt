//! The rows of a context around given rows.
ghost use Rattle.std.specs.Prelude.{◌≡◌, ◌<◌, ◌==◌, ℕ, false, IfOk, IfSome, All, length, map};
ghost use Rattle.std.specs.List.Sorted.{IsStrictlyIncreasing};
ghost use Rattle.std.specs.Option.{option_map_or};
ghost use Rattle.agg_evaluation.specs.Counted.{IsApart, is_around_row};
ghost use Rattle.agg_evaluation.specs.Rows.{enclosing, row_of};
ghost use Rattle.shard_columns.specs.Built.{IsShard};

use agg_model::List;
use shard_columns::Shard;
use std::alloc::{AllocError, Global};

// The row of a context that a row is or lies below; none where there is no such row.
fn around(shard: &Shard, row: u32, context: u32) -> Option<u32>
    requires in_range { row < length shard.now.rows }
    requires apart { IsApart shard.now.rows }
    ensures number { IfSome result (λ outer. outer < length shard.now.rows) }
    ensures only { (n : ℕ) → n < length shard.now.rows →
        is_around_row context (row_of shard.now.rows row) (row_of shard.now.rows n) ≡ option_map_or (λ outer. n == outer) result false }
{
    let mut inner = row;
    while shard.context(inner) != context {
        inner = shard.parent(inner)?;
    }
    Some(inner)
}

/// The rows of a context that enclose one of the rows, each once and in their order; a row of that context encloses itself. A
/// row takes time by the levels around it.
///
/// The rows ascend, so that those around them do not fall, and one that was there before is the last one that was found. They
/// are rows of a shard as it is built, where no row lies below two rows of one context.
pub fn rows_around(
    alloc: Global,
    shard: &Shard,
    context: u32,
    rows: &[u32],
) -> Result<List<u32>, AllocError>
    requires built { IsShard shard.now }
    requires apart { IsApart shard.now.rows }
    requires in_range { All (λ n. n < length shard.now.rows) rows.now }
    requires ascending { IsStrictlyIncreasing rows.now }
    ensures rows { IfOk result (λ found. map (row_of shard.now.rows) found ≡ enclosing shard.now.rows context (map (row_of shard.now.rows) rows.now)) }
    ensures in_range { IfOk result (λ found. All (λ n. n < length shard.now.rows) found) }
{
    let mut found = List::new(alloc);
    let mut last = None;
    for row in rows {
        if let Some(outer) = around(shard, *row, context) {
            if last != Some(outer) {
                found.push(outer)?;
                last = Some(outer);
            }
        }
    }
    Ok(found)
}
