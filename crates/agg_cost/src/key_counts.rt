//! How many keys a row has at an aggregation.
ghost use Rattle.std.specs.Prelude.{◌≡◌, ◌<◌, IfOk, length};
ghost use Rattle.agg_evaluation.specs.Keys.{keys};
ghost use Rattle.agg_evaluation.specs.Rows.{row_of};
ghost use Rattle.agg_cost.specs.Capped.{capped};
ghost use Rattle.agg_cost.specs.Counters.{IsCountable, IsCounter};
ghost use Rattle.filters_agg.specs.Filtering.{IsMadeFor};
ghost use Rattle.shard_columns.specs.Built.{IsShard};

use agg_model::Kind;
use date_agg::PreparedDateHistogram;
use filters_agg::PreparedFilters;
use histogram_agg::PreparedHistogram;
use shard_columns::Shard;
use std::alloc::{AllocError, Global};
use terms_agg::PreparedTerms;

/// What the keys of rows are counted with: an aggregation that is prepared once for the shard.
#[derive(Drop)]
pub enum Counter {
    Terms(PreparedTerms),
    Filters(PreparedFilters),
    Histogram(PreparedHistogram),
    DateHistogram(PreparedDateHistogram),
    /// Nothing is prepared for the kind.
    Plain,
}

/// What the aggregation's keys are counted with in the shard.
pub fn counter_of(alloc: Global, shard: &Shard, kind: &Kind) -> Result<Counter, AllocError>
    requires countable { IsCountable shard.now kind.now }
    requires made { IsMadeFor shard.now kind.now }
    ensures { IfOk result (λ c. IsCounter shard.now kind.now c) }
{
    match kind {
        Kind::Terms { .. } => Ok(Counter::Terms(terms_agg::prepare(alloc, shard, kind)?)),
        Kind::Filters { .. } | Kind::Filter { .. } | Kind::Missing { .. } => {
            Ok(Counter::Filters(filters_agg::prepare(alloc, shard, kind)?))
        }
        Kind::Histogram { .. } => Ok(Counter::Histogram(histogram_agg::prepare(kind))),
        Kind::DateHistogram { .. } => Ok(Counter::DateHistogram(date_agg::prepare(kind))),
        Kind::Global
        | Kind::Nested { .. }
        | Kind::ReverseNested { .. }
        | Kind::Composite { .. }
        | Kind::Sum { .. }
        | Kind::Min { .. }
        | Kind::Max { .. }
        | Kind::Avg { .. }
        | Kind::ValueCount { .. } => Ok(Counter::Plain),
    }
}

/// How many keys the row has at the aggregation, or the greatest number of 64 bits where there are more. It takes time in
/// proportion to the row's values, and no memory.
pub fn key_count(shard: &Shard, kind: &Kind, counter: &Counter, row: u32) -> u64
    requires built { IsShard shard.now }
    requires in_range { row < length shard.now.rows }
    requires countable { IsCountable shard.now kind.now }
    requires counter { IsCounter shard.now kind.now counter.now }
    ensures { result ≡ capped (length (keys shard.now.rows kind.now (row_of shard.now.rows row))) }
{
    match counter {
        Counter::Terms(terms) => terms_agg::count(shard, terms, row),
        Counter::Filters(filters) => filters_agg::count(shard, filters, row),
        Counter::Histogram(histogram) => histogram_agg::count(shard, histogram, row),
        Counter::DateHistogram(dates) => date_agg::count(shard, dates, row),
        Counter::Plain => match kind {
            Kind::Composite { .. } => composite_agg::key_count(shard, row, kind),
            Kind::Global | Kind::Nested { .. } | Kind::ReverseNested { .. } => 1,
            Kind::Sum { .. }
            | Kind::Min { .. }
            | Kind::Max { .. }
            | Kind::Avg { .. }
            | Kind::ValueCount { .. } => 0,
            Kind::Terms { .. }
            | Kind::Histogram { .. }
            | Kind::DateHistogram { .. }
            | Kind::Filters { .. }
            | Kind::Filter { .. }
            | Kind::Missing { .. } => unreachable!(),
        },
    }
}
