//! The values of rows, taken into a metric one after another.
ghost use Rattle.std.specs.Prelude.{◌≡◌, ◌<◌, ◌≤◌, ◌+◌, ◌++◌, ◌∷◌, [], ◌^◌, List, length, map, option_map};
ghost use Rattle.std.specs.Int.{int_min, int_max};
ghost use Rattle.std.specs.Option.{option_map_or};
ghost use Rattle.agg_model.specs.declared.row.Scalar.{Scalar};
ghost use Rattle.agg_model.specs.declared.row.Scalar.TheVariants.{Whole};
ghost use Rattle.agg_evaluation.specs.Keys.{values_or};
ghost use Rattle.agg_evaluation.specs.Rows.{row_of};
ghost use Rattle.agg_evaluation.specs.Shard.{metric_of};
ghost use Rattle.shard_columns.specs.Cell.{scalar_of};
ghost use Rattle.metric_agg.specs.Bounded.{IsBounded};

use agg_model::Metric;
use shard_columns::{Cell, Shard};

fn least(before: Option<i64>, number: i64) -> i64
    ensures { result ≡ option_map_or (λ least. int_min least number) before number }
{
    match before {
        Some(least) => least.min(number),
        None => number,
    }
}

fn greatest(before: Option<i64>, number: i64) -> i64
    ensures { result ≡ option_map_or (λ greatest. int_max greatest number) before number }
{
    match before {
        Some(greatest) => greatest.max(number),
        None => number,
    }
}

// The metric of one more value than this one has seen.
fn with_value(metric: Metric, cell: Cell<'_>) -> Metric
    requires few { metric.count < 2 ^ 63 }
    requires bounded { IsBounded metric }
    ensures values { (seen : List Scalar) → metric ≡ metric_of seen → result ≡ metric_of (seen ++ scalar_of cell.entry ∷ []) }
    ensures count { result.count ≡ metric.count + 1 }
    ensures bounded { IsBounded result }
{
    let count = metric.count + 1;
    match cell {
        Cell::Whole(number) => Metric {
            count,
            sum: metric.sum + i128::from(number),
            least: Some(least(metric.least, number)),
            greatest: Some(greatest(metric.greatest, number)),
        },
        Cell::Word(_) | Cell::Flag(_) => Metric { count, ..metric },
    }
}

// Takes numbers, one after another.
fn take_numbers(numbers: &[i64], metric: &mut Metric)
    requires few { metric.old.count ≤ 2 ^ 62 }
    requires short { length numbers.now < 2 ^ 62 }
    requires bounded { IsBounded metric.old }
    ensures values { (seen : List Scalar) → metric.old ≡ metric_of seen →
        metric.new ≡ metric_of (seen ++ map Whole numbers.now) }
    ensures bounded { IsBounded metric.new }
{
    for number in numbers {
        *metric = with_value(*metric, Cell::Whole(*number));
    }
}

/// Takes the values that a row has of a field into the metric, or where it has none the one that stands for a missing value,
/// if there is one. The metric has seen at most 2^62 values, of 64 bits each. It takes time in proportion to the values.
pub fn take(shard: &Shard, row: u32, field: u32, missing: Option<Cell<'_>>, metric: &mut Metric)
    requires in_range { row < length shard.now.rows }
    requires few { metric.old.count ≤ 2 ^ 62 }
    requires bounded { IsBounded metric.old }
    ensures values { (seen : List Scalar) → metric.old ≡ metric_of seen →
        metric.new ≡ metric_of (seen ++ values_or field (option_map scalar_of missing.entry) (row_of shard.now.rows row)) }
    ensures bounded { IsBounded metric.new }
{
    let count = shard.value_count(row, field);
    if count == 0 {
        if let Some(cell) = missing {
            *metric = with_value(*metric, cell);
        }
        return;
    }
    // The numbers of a row lie side by side, and are looked up once.
    let numbers = shard.numbers(row, field);
    if numbers.len() == count as usize {
        return take_numbers(numbers, metric);
    }
    for place in 0..count {
        *metric = with_value(*metric, shard.value(row, field, place));
    }
}
