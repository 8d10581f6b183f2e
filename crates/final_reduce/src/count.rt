// The number of buckets of the answer that is made of what stands, before any of it is built: gaps of a histogram by the numbers of its intervals.
ghost use Rattle.std.specs.Prelude.{◌≡◌, ◌+◌, ◌*◌, min, IsTrue, map};
ghost use Rattle.std.specs.List.{list_all};
ghost use Rattle.agg_model.specs.declared.aggregation.Agg.{out-Agg};
ghost use Rattle.agg_evaluation.specs.Orders.{bucket_key};
ghost use Rattle.agg_evaluation.specs.Trees.{have_children, pass_each};
ghost use Rattle.agg_evaluation.specs.Whole.{parts};
ghost use Rattle.agg_spec.specs.BucketCount.{greatest_count};
ghost use Rattle.agg_spec.specs.GapCount.{below_empty, plan_each};
ghost use Rattle.bucket_order.specs.Kinds.{kind_of};
ghost use Rattle.agg_evaluation.specs.Finishable.{has_histogram_keys, is_histogram_key};
ghost use Rattle.agg_evaluation.specs.Conditions.{has_interval, has_intervals, is_spaced};
ghost use Rattle.final_reduce.specs.Standing.{form_of, is_standing};
ghost use Rattle.final_reduce.specs.Counts.{fixed_count, gap_count as count_of_gaps, gaps_of, member_number, tally, tally_below, tally_of_nothing};

use crate::grid::Grid;
use crate::spans::filled_number;
use agg_model::{Agg, Bucket, Kind, List, Node, Spacing};

fn saturated(number: u128) -> u64
    ensures { result ≡ min number greatest_count }
{
    u64::try_from(number).unwrap_or(u64::MAX)
}

fn buckets_of(node: &Node) -> &[Bucket]
    ensures { result.now ≡ (parts node.now).buckets }
{
    match node {
        Node::Keyed { buckets, .. } | Node::Fixed { buckets } => buckets.as_slice(),
        Node::Number(_) => &[],
    }
}

// The one bucket of a single-bucket aggregation is no member of a list.
fn member_count(kind: &Kind, buckets: u64) -> u64
    ensures { result ≡ member_number kind.now buckets }
{
    match kind {
        Kind::Filter { .. }
        | Kind::Missing { .. }
        | Kind::Global
        | Kind::Nested { .. }
        | Kind::ReverseNested { .. } => 0,
        Kind::Terms { .. }
        | Kind::Histogram { .. }
        | Kind::DateHistogram { .. }
        | Kind::Filters { .. }
        | Kind::Composite { .. }
        | Kind::Sum { .. }
        | Kind::Min { .. }
        | Kind::Max { .. }
        | Kind::Avg { .. }
        | Kind::ValueCount { .. } => buckets,
    }
}

// The buckets that exist from the start.
fn fixed_number(kind: &Kind) -> u64
    ensures { result ≡ min (fixed_count kind.now) greatest_count }
{
    match kind {
        Kind::Filters { filters, other, .. } => match other {
            Some(_) => (filters.len() as u64).saturating_add(1),
            None => filters.len() as u64,
        },
        Kind::Filter { .. }
        | Kind::Missing { .. }
        | Kind::Global
        | Kind::Nested { .. }
        | Kind::ReverseNested { .. } => 1,
        Kind::Terms { .. }
        | Kind::Histogram { .. }
        | Kind::DateHistogram { .. }
        | Kind::Composite { .. }
        | Kind::Sum { .. }
        | Kind::Min { .. }
        | Kind::Max { .. }
        | Kind::Avg { .. }
        | Kind::ValueCount { .. } => 0,
    }
}

fn gaps_between(grid: Grid, min_doc_count: u64, buckets: &[Bucket]) -> u64
    requires spaced { IsTrue (is_spaced grid.spacing grid.extended grid.hard) }
    requires keys { IsTrue (list_all (λ b. is_histogram_key grid.spacing grid.hard (bucket_key b)) buckets.now) }
    ensures { result ≡ min (gaps_of grid.spacing min_doc_count grid.extended grid.hard buckets.now) greatest_count }
{
    if min_doc_count > 0 {
        return 0;
    }
    saturated(filled_number(grid, buckets).saturating_sub(buckets.len() as u128))
}

// How many buckets fill the gaps of a histogram; other aggregations have no gaps.
fn gap_count(kind: &Kind, buckets: &[Bucket]) -> u64
    requires interval { IsTrue (has_interval kind.now) }
    requires keys { IsTrue (has_histogram_keys kind.now buckets.now) }
    ensures { result ≡ min (count_of_gaps (form_of kind.now) buckets.now) greatest_count }
{
    match kind {
        Kind::Histogram {
            interval,
            offset,
            min_doc_count,
            extended,
            hard,
            ..
        } => {
            let grid = Grid {
                spacing: Spacing::Numbers {
                    interval: *interval,
                    offset: *offset,
                },
                extended: *extended,
                hard: *hard,
            };
            gaps_between(grid, *min_doc_count, buckets)
        }
        Kind::DateHistogram {
            period,
            zone,
            min_doc_count,
            extended,
            hard,
            ..
        } => {
            let grid = Grid {
                spacing: Spacing::Dates {
                    period: *period,
                    zone: *zone,
                },
                extended: *extended,
                hard: *hard,
            };
            gaps_between(grid, *min_doc_count, buckets)
        }
        Kind::Terms { .. }
        | Kind::Filters { .. }
        | Kind::Filter { .. }
        | Kind::Missing { .. }
        | Kind::Global
        | Kind::Nested { .. }
        | Kind::ReverseNested { .. }
        | Kind::Composite { .. }
        | Kind::Sum { .. }
        | Kind::Min { .. }
        | Kind::Max { .. }
        | Kind::Avg { .. }
        | Kind::ValueCount { .. } => 0,
    }
}

/// The number of buckets in the answers over no rows, which stops at 2^64 - 1.
#[cycle(nothing)]
fn count_of_nothing(aggs: &List<Agg>) -> u64
    requires { IsTrue (list_all has_intervals aggs.now) }
    ensures { result ≡ min (below_empty (map tally aggs.now)) greatest_count }
{
    let mut count = 0u64;
    for agg in aggs.as_slice() {
        count = count.saturating_add(count_of_no_row(agg));
    }
    count
}

#[cycle(nothing)]
fn count_of_no_row(agg: &Agg) -> u64
    requires { IsTrue (has_intervals agg.now) }
    ensures { result ≡ min (tally_of_nothing agg.now) greatest_count }
{
    let below = count_of_nothing(&agg.children);
    let fixed = fixed_number(&agg.kind);
    let gaps = gap_count(&agg.kind, &[]);
    member_count(&agg.kind, fixed)
        .saturating_add(fixed.saturating_mul(below))
        .saturating_add(gaps.saturating_mul(below.saturating_add(1)))
}

// The buckets that fill gaps, and those below them.
fn count_in_gaps(agg: &Agg, buckets: &[Bucket]) -> u64
    requires intervals { IsTrue (has_intervals agg.now) }
    requires keys { IsTrue (has_histogram_keys (kind_of agg.now) buckets.now) }
    ensures { result ≡ min (count_of_gaps (form_of (kind_of agg.now)) buckets.now * (1 + below_empty (map tally (out-Agg agg.now).children))) greatest_count }
{
    let gaps = gap_count(&agg.kind, buckets);
    if gaps == 0 {
        return 0;
    }
    gaps.saturating_mul(count_of_nothing(&agg.children).saturating_add(1))
}

/// The number of buckets that the answers have which are made of these nodes; it stops at 2^64 - 1.
#[cycle(tally)]
pub(crate) fn count_each(aggs: &List<Agg>, nodes: &List<Node>) -> u64
    requires intervals { IsTrue (list_all has_intervals aggs.now) }
    requires nodes { IsTrue (pass_each (map is_standing aggs.now) nodes.now) }
    ensures { result ≡ min (plan_each (map tally aggs.now) nodes.now) greatest_count }
{
    let mut count = 0u64;
    let mut left = nodes.as_slice().iter();
    for agg in aggs.as_slice() {
        match left.next() {
            Some(node) => count = count.saturating_add(count_node(agg, node)),
            None => return count,
        }
    }
    count
}

#[cycle(tally)]
fn count_node(agg: &Agg, node: &Node) -> u64
    requires intervals { IsTrue (has_intervals agg.now) }
    requires node { IsTrue (is_standing agg.now node.now) }
    ensures { result ≡ min ((tally agg.now).count node.now) greatest_count }
{
    let buckets = buckets_of(node);
    let filling = count_in_gaps(agg, buckets);
    let members = member_count(&agg.kind, buckets.len() as u64);
    let below = count_below(&agg.children, buckets);
    members.saturating_add(below).saturating_add(filling)
}

// Without children nothing is below a bucket, and none is looked at.
#[cycle(tally)]
fn count_below(children: &List<Agg>, buckets: &[Bucket]) -> u64
    requires intervals { IsTrue (list_all has_intervals children.now) }
    requires nodes { IsTrue (have_children (map is_standing children.now) buckets.now) }
    ensures { result ≡ min (tally_below (map tally children.now) buckets.now) greatest_count }
{
    let mut count = 0u64;
    if children.is_empty() {
        return count;
    }
    for bucket in buckets {
        count = count.saturating_add(count_each(children, &bucket.children));
    }
    count
}
