//! Which roots are collected, and by which aggregations (Elasticsearch Reference 8, 'Global aggregation': it counts all
//! documents, whatever the query matches).
ghost use Rattle.std.specs.Prelude.{◌≡◌};
ghost use Rattle.std.specs.List.{list_any};
ghost use Rattle.agg_evaluation.specs.Trace.{is_global as is_global_kind};
ghost use Rattle.agg_model.specs.declared.aggregation.Agg.{out-Agg};
ghost use Rattle.composite_agg.specs.FirstPages.{is_composite as is_composite_kind};

use agg_model::{Agg, Kind, List};

/// A task collects the matched roots first, and then the roots of its global aggregations.
#[derive(Clone, Copy)]
pub(crate) enum Phase {
    /// The roots that the query matches, by all aggregations but the global ones.
    Matched,
    /// All roots, by the global aggregations.
    Global,
}

pub(crate) fn is_global(kind: &Kind) -> bool
    ensures { result ≡ is_global_kind kind.now }
{
    match kind {
        Kind::Global => true,
        Kind::Terms { .. }
        | Kind::Histogram { .. }
        | Kind::DateHistogram { .. }
        | Kind::Filters { .. }
        | Kind::Filter { .. }
        | Kind::Missing { .. }
        | Kind::Nested { .. }
        | Kind::ReverseNested { .. }
        | Kind::Composite { .. }
        | Kind::Sum { .. }
        | Kind::Min { .. }
        | Kind::Max { .. }
        | Kind::Avg { .. }
        | Kind::ValueCount { .. } => false,
    }
}

pub(crate) fn is_composite(kind: &Kind) -> bool
    ensures { result ≡ is_composite_kind kind.now }
{
    match kind {
        Kind::Composite { .. } => true,
        Kind::Terms { .. }
        | Kind::Histogram { .. }
        | Kind::DateHistogram { .. }
        | Kind::Filters { .. }
        | Kind::Filter { .. }
        | Kind::Missing { .. }
        | Kind::Global
        | Kind::Nested { .. }
        | Kind::ReverseNested { .. }
        | Kind::Sum { .. }
        | Kind::Min { .. }
        | Kind::Max { .. }
        | Kind::Avg { .. }
        | Kind::ValueCount { .. } => false,
    }
}

/// Whether one of these aggregations is a global one.
pub(crate) fn has_global(aggs: &List<Agg>) -> bool
    ensures { result ≡ list_any (λ a. is_global_kind (out-Agg a).kind) aggs.now }
{
    aggs.as_slice().iter().any(|agg| is_global(&agg.kind))
}
