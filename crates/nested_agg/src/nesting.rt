//! The rows that a nested or a reverse nested aggregation counts of those that it is handed.
ghost use Rattle.std.specs.Prelude.{◌≡◌, ◌<◌, IfOk, IsTrue, All, length, map};
ghost use Rattle.std.specs.List.Sorted.{IsStrictlyIncreasing};
ghost use Rattle.agg_evaluation.specs.Counted.{IsApart};
ghost use Rattle.agg_evaluation.specs.Groups.{under as counted_under};
ghost use Rattle.agg_evaluation.specs.Rows.{roots, row_of};
ghost use Rattle.nested_agg.specs.Nesting.{goes_by_nesting};
ghost use Rattle.shard_columns.specs.Built.{IsShard};

use crate::around::rows_around;
use crate::beneath::rows_beneath;
use agg_model::{Kind, List};
use shard_columns::Shard;
use std::alloc::{AllocError, Global};

/// The rows that the aggregation counts of these: for a nested one all rows at its path within them, for a reverse nested one
/// the rows of its context that enclose them, each once; both in order. Time as in `rows_beneath` and `rows_around`.
///
/// The kind is one of these two. The rows ascend, so that those around them do not fall, and one that was there before is the
/// last one that was found. They are rows of a shard as it is built, where no row lies below two rows of one context.
pub fn under(
    alloc: Global,
    shard: &Shard,
    kind: &Kind,
    rows: &List<u32>,
) -> Result<List<u32>, AllocError>
    requires kind { IsTrue (goes_by_nesting kind.now) }
    requires built { IsShard shard.now }
    requires apart { IsApart shard.now.rows }
    requires in_range { All (λ n. n < length shard.now.rows) rows.now }
    requires ascending { IsStrictlyIncreasing rows.now }
    ensures rows { IfOk result (λ found. map (row_of shard.now.rows) found
        ≡ counted_under shard.now.rows (roots shard.now.rows) kind.now (map (row_of shard.now.rows) rows.now)) }
    ensures in_range { IfOk result (λ found. All (λ n. n < length shard.now.rows) found) }
{
    match kind {
        Kind::Nested { context } => rows_beneath(alloc, shard, *context - 1, rows.as_slice()),
        Kind::ReverseNested { context } => rows_around(alloc, shard, *context, rows.as_slice()),
        Kind::Terms { .. }
        | Kind::Histogram { .. }
        | Kind::DateHistogram { .. }
        | Kind::Filters { .. }
        | Kind::Filter { .. }
        | Kind::Missing { .. }
        | Kind::Global
        | Kind::Composite { .. }
        | Kind::Sum { .. }
        | Kind::Min { .. }
        | Kind::Max { .. }
        | Kind::Avg { .. }
        | Kind::ValueCount { .. } => unreachable!(),
    }
}
