//! The values that a metric has taken.
ghost use Rattle.std.specs.Prelude.{◌≡◌, ◌<◌, ◌≤◌, ◌^◌, OnOk, length, option_map, None, pos};
ghost use Rattle.agg_evaluation.specs.Keys.{values_or};
ghost use Rattle.agg_evaluation.specs.Rows.{row_of};
ghost use Rattle.growth_laws.specs.Growth.{with_values};
ghost use Rattle.shard_columns.specs.Cell.{scalar_of};

use agg_model::{Metric, Scalar};
use metric_agg::take;
use shard_columns::{Cell, Shard};
use std::alloc::AllocError;
use std::marker::Model;

const MOST_VALUES: u64 = 1 << 62;

/// A metric of some values. Contracts see it as that metric.
#[derive(Drop)]
pub struct Taken {
    metric: Metric,
}

impl Model for Taken {
    ghost use Rattle.agg_model.specs.declared.partial.Metric.{Metric as AnyMetric};
    ghost use Rattle.growing_tree.specs.Taken.{IsTaken};

    ghost Value = { AnyMetric };

    ghost view = { λ t. t.metric };

    ghost invariant = { λ t. IsTaken t.metric };
}

fn cell_of(value: &Option<Scalar>) -> Option<Cell<'_>>
    ensures { option_map scalar_of result ≡ value.now }
{
    match value {
        Some(Scalar::Whole(number)) => Some(Cell::Whole(*number)),
        Some(Scalar::Word(word)) => Some(Cell::Word(word.as_str())),
        Some(Scalar::Flag(flag)) => Some(Cell::Flag(*flag)),
        None => None,
    }
}

impl Taken {
    /// The metric of no value.
    pub fn new() -> Self
        ensures { result ≡ record { count = 0; sum = pos 0; least = None; greatest = None } }
    {
        Taken {
            metric: Metric {
                count: 0,
                sum: 0,
                least: None,
                greatest: None,
            },
        }
    }

    /// The metric.
    pub fn metric(&self) -> Metric
        ensures { result ≡ self.now }
    {
        self.metric
    }

    /// The same metric once more.
    pub(crate) fn copy(&self) -> Self
        ensures { result ≡ self.now }
    {
        Taken {
            metric: self.metric,
        }
    }

    /// Takes the values of a field in a row, or what stands for them where it has none, in time by the values of the row and
    /// without memory. Where it has taken more than 2^62 values, that is answered as want of memory.
    pub fn take_row(
        &mut self,
        shard: &Shard,
        row: u32,
        field: u32,
        missing: &Option<Scalar>,
    ) -> Result<(), AllocError>
        requires in_range { row < length shard.now.rows }
        ensures { OnOk result (self.new ≡ with_values (values_or field missing.now (row_of shard.now.rows row)) self.old) }
    {
        if self.metric.count > MOST_VALUES {
            return Err(AllocError);
        }
        take(shard, row, field, cell_of(missing), &mut self.metric);
        Ok(())
    }
}
