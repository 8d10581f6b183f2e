// What an answer to one aggregation is made of: the buckets that stand, with gaps filled, and the numbers beside them.
ghost use Rattle.std.specs.Prelude.{◌≡◌, ◌<◌, ◌^◌, List as Items, ℕ, IfOk, IsTrue, map, option_to_list, None, []};
ghost use Rattle.std.specs.List.{list_all};
ghost use Rattle.agg_evaluation.specs.Orders.{bucket_key};
ghost use Rattle.agg_evaluation.specs.Trees.{have_children, is_ascending};
ghost use Rattle.agg_evaluation.specs.Finishable.{is_histogram_key};
ghost use Rattle.agg_model.specs.declared.aggregation.Agg.{out-Agg};
ghost use Rattle.agg_spec.specs.Final.{no_metric as metric_of_nothing, buckets_answer, metric_answer, finish_bucket};
ghost use Rattle.agg_evaluation.specs.Conditions.{has_intervals, is_spaced};
ghost use Rattle.final_reduce.specs.Standing.{builder, is_standing, spaced_built, terms_built};
ghost use Rattle.final_reduce.specs.Selection.{answer_of, chosen_bucket, chosen_pass, chosen_term};

use crate::errors::count_error;
use crate::filling::histogram_buckets;
use crate::grid::Grid;
use crate::parts::{NodeParts, into_parts};
use agg_model::{Agg, Bucket, Kind, List, Metric, Node, Order, Spacing};
use std::alloc::{AllocError, Global};

/// A bucket that is returned, with its error where it is one of terms.
#[derive(Drop)]
pub(crate) struct Chosen {
    pub(crate) error: Option<i64>,
    pub(crate) bucket: Bucket,
}

/// The buckets that are returned, in order, and the numbers beside them.
#[derive(Drop)]
pub(crate) struct Selected {
    pub(crate) chosen: List<Chosen>,
    pub(crate) error: i64,
    pub(crate) other: u64,
    pub(crate) metric: Metric,
}

fn no_metric() -> Metric
    ensures { result ≡ metric_of_nothing }
{
    Metric {
        count: 0,
        sum: 0,
        least: None,
        greatest: None,
    }
}

fn with_errors(
    alloc: Global,
    order: &List<Order>,
    error: u64,
    full: u32,
    buckets: List<Bucket>,
) -> Result<List<Chosen>, AllocError>
    requires { error < 2 ^ 63 }
    ensures { IfOk result (λ cs. cs ≡ map (chosen_term order.now error full) buckets) }
{
    let mut chosen = List::new(alloc);
    for bucket in buckets.into_vec() {
        let error = Some(count_error(order, error, bucket.covered, full));
        chosen.push(Chosen { error, bucket })?;
    }
    Ok(chosen)
}

fn without_errors(alloc: Global, buckets: List<Bucket>) -> Result<List<Chosen>, AllocError>
    ensures { IfOk result (λ cs. cs ≡ map chosen_bucket buckets) }
{
    let mut chosen = List::new(alloc);
    for bucket in buckets.into_vec() {
        chosen.push(Chosen {
            error: None,
            bucket,
        })?;
    }
    Ok(chosen)
}

fn select_terms(
    alloc: Global,
    children: &List<Agg>,
    order: &List<Order>,
    parts: NodeParts,
) -> Result<Selected, AllocError>
    requires children { IsTrue (have_children (map is_standing children.now) parts.buckets) }
    requires error { parts.error < 2 ^ 63 }
    ensures answer { IfOk result (λ s. (name : Items ℕ) → answer_of name (map builder children.now) s
        ≡ terms_built name (map builder children.now) order.now
        (record { buckets = parts.buckets; error = parts.error; full = parts.full; cut = parts.cut; metrics = [] })) }
    ensures children { IfOk result (λ s. IsTrue (chosen_pass (map is_standing children.now) s.chosen)) }
{
    let error = count_error(order, parts.error, 0, parts.full);
    Ok(Selected {
        chosen: with_errors(alloc, order, parts.error, parts.full, parts.buckets)?,
        error,
        other: parts.cut,
        metric: no_metric(),
    })
}

fn select_buckets(
    alloc: Global,
    children: &List<Agg>,
    buckets: List<Bucket>,
) -> Result<Selected, AllocError>
    requires children { IsTrue (have_children (map is_standing children.now) buckets) }
    ensures answer { IfOk result (λ s. (name : Items ℕ) → answer_of name (map builder children.now) s
        ≡ buckets_answer name (map (finish_bucket (map builder children.now) None) buckets)) }
    ensures children { IfOk result (λ s. IsTrue (chosen_pass (map is_standing children.now) s.chosen)) }
{
    Ok(Selected {
        chosen: without_errors(alloc, buckets)?,
        error: 0,
        other: 0,
        metric: no_metric(),
    })
}

// The buckets of a histogram, with its gaps filled.
fn select_filled(
    alloc: Global,
    children: &List<Agg>,
    grid: Grid,
    min_doc_count: u64,
    order: &List<Order>,
    buckets: List<Bucket>,
) -> Result<Selected, AllocError>
    requires spaced { IsTrue (is_spaced grid.spacing grid.extended grid.hard) }
    requires keys { IsTrue (list_all (λ b. is_histogram_key grid.spacing grid.hard (bucket_key b)) buckets) }
    requires ascending { IsTrue (is_ascending (map bucket_key buckets)) }
    requires children { IsTrue (have_children (map is_standing children.now) buckets) }
    ensures answer { IfOk result (λ s. (name : Items ℕ) → answer_of name (map builder children.now) s
        ≡ spaced_built name (map builder children.now) grid.spacing min_doc_count grid.extended grid.hard order.now buckets) }
    ensures children { IfOk result (λ s. IsTrue (chosen_pass (map is_standing children.now) s.chosen)) }
{
    let filled = histogram_buckets(alloc, children, grid, min_doc_count, order, buckets)?;
    select_buckets(alloc, children, filled)
}

fn select_metric(alloc: Global, children: &List<Agg>, metric: Option<Metric>) -> Selected
    ensures answer { (name : Items ℕ) → answer_of name (map builder children.now) result ≡ metric_answer name (option_to_list metric) }
    ensures children { IsTrue (chosen_pass (map is_standing children.now) result.chosen) }
{
    Selected {
        chosen: List::new(alloc),
        error: 0,
        other: 0,
        metric: match metric {
            Some(metric) => metric,
            None => no_metric(),
        },
    }
}

/// What the answer to an aggregation is made of.
pub(crate) fn select(alloc: Global, agg: &Agg, node: Node) -> Result<Selected, AllocError>
    requires intervals { IsTrue (has_intervals agg.now) }
    requires node { IsTrue (is_standing agg.now node) }
    ensures answer { IfOk result (λ s. answer_of (out-Agg agg.now).name (map builder (out-Agg agg.now).children) s ≡ (builder agg.now).finish node) }
    ensures children { IfOk result (λ s. IsTrue (chosen_pass (map is_standing (out-Agg agg.now).children) s.chosen)) }
{
    let parts = into_parts(alloc, node);
    match &agg.kind {
        Kind::Terms { order, .. } => select_terms(alloc, &agg.children, order, parts),
        Kind::Histogram {
            interval,
            offset,
            min_doc_count,
            extended,
            hard,
            order,
            ..
        } => {
            let grid = Grid {
                spacing: Spacing::Numbers {
                    interval: *interval,
                    offset: *offset,
                },
                extended: *extended,
                hard: *hard,
            };
            select_filled(
                alloc,
                &agg.children,
                grid,
                *min_doc_count,
                order,
                parts.buckets,
            )
        }
        Kind::DateHistogram {
            period,
            zone,
            min_doc_count,
            extended,
            hard,
            order,
            ..
        } => {
            let grid = Grid {
                spacing: Spacing::Dates {
                    period: *period,
                    zone: *zone,
                },
                extended: *extended,
                hard: *hard,
            };
            select_filled(
                alloc,
                &agg.children,
                grid,
                *min_doc_count,
                order,
                parts.buckets,
            )
        }
        Kind::Composite { .. }
        | Kind::Filters { .. }
        | Kind::Filter { .. }
        | Kind::Missing { .. }
        | Kind::Global
        | Kind::Nested { .. }
        | Kind::ReverseNested { .. } => select_buckets(alloc, &agg.children, parts.buckets),
        Kind::Sum { .. }
        | Kind::Min { .. }
        | Kind::Max { .. }
        | Kind::Avg { .. }
        | Kind::ValueCount { .. } => Ok(select_metric(alloc, &agg.children, parts.metric)),
    }
}
