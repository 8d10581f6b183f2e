//! The line of the breakers' numbers.
ghost use Rattle.std.specs.Prelude.{◌≡◌, IfOk};
ghost use Rattle.serde_json.specs.View.{view};
ghost use Rattle.agg_model.specs.declared.breaker.Which.TheVariants.{Request};
ghost use Rattle.agg_spec.specs.StatisticsLine.{breaker_member, statistics_line};

use crate::errors::breaker_name;
use crate::values::{Json, Object};
use agg_model::{BreakerStats, Text, Totals, Which};
use std::alloc::{AllocError, Global};

/// The numbers of one breaker.
fn breaker_value(alloc: Global, stats: &BreakerStats) -> Result<Json, AllocError>
    ensures { IfOk result (λ j. view j.value ≡ (breaker_member Request stats.now).1) }
{
    Ok(
        Object::new(alloc)
            .with_count(alloc, "estimated_size_in_bytes", stats.estimated)?
            .with_count(alloc, "granted_size_in_bytes", stats.granted)?
            .with_count(alloc, "limit_size_in_bytes", stats.limit)?
            .with_count(alloc, "overhead_percent", u64::from(stats.overhead))?
            .with_count(alloc, "tripped", stats.tripped)?
            .into_json(),
    )
}

/// The line of the numbers of all four breakers.
pub fn stats_line(alloc: Global, stats: &Totals) -> Result<Text, AllocError>
    ensures { IfOk result (λ t. t ≡ statistics_line stats.now) }
{
    let fielddata = breaker_value(alloc, &stats.fielddata)?;
    let inflight = breaker_value(alloc, &stats.inflight)?;
    let parent = breaker_value(alloc, &stats.parent)?;
    let request = breaker_value(alloc, &stats.request)?;
    let breakers = Object::new(alloc)
        .with(alloc, breaker_name(Which::Fielddata), fielddata)?
        .with(alloc, breaker_name(Which::Inflight), inflight)?
        .with(alloc, breaker_name(Which::Parent), parent)?
        .with(alloc, breaker_name(Which::Request), request)?;
    Object::new(alloc)
        .with(alloc, "breakers", breakers.into_json())?
        .into_json()
        .text(alloc)
}
