ghost use Rattle.std.specs.Prelude.{◌≡◌, Some, option_copied, slice_get, option_map};
ghost use Rattle.agg_evaluation.specs.KeyOrder.{key_cmp, directed};
ghost use Rattle.agg_evaluation.specs.Orders.{bucket_cmp, cmp_by, value_cmp, child_value, metric_value};
ghost use Rattle.bucket_order.specs.Kinds.{kind_of, child_kinds};

use agg_model::{Agg, Bucket, Key, Kind, List, Metric, Node, Order, OrderBy};
use std::cmp::Ordering;

/// The order of keys.
pub fn compare_keys(a: &Key, b: &Key) -> Ordering
    ensures { result ≡ key_cmp a.now b.now }
{
    a.cmp(b)
}

pub(crate) fn directed_by(descending: bool, ordering: Ordering) -> Ordering
    ensures { result ≡ directed descending ordering }
{
    if descending {
        ordering.reverse()
    } else {
        ordering
    }
}

/// The order of two values; null stands last in both directions.
pub fn compare_values(descending: bool, a: Option<i128>, b: Option<i128>) -> Ordering
    ensures { result ≡ value_cmp descending a b }
{
    match (a, b) {
        (None, None) => Ordering::Equal,
        (None, Some(_)) => Ordering::Greater,
        (Some(_), None) => Ordering::Less,
        (Some(m), Some(n)) => directed_by(descending, m.cmp(&n)),
    }
}

/// The value by which a metric of this kind orders; an average orders nothing.
pub fn value_of(kind: &Kind, metric: &Metric) -> Option<i128>
    ensures { result ≡ metric_value kind.now metric.now }
{
    match kind {
        Kind::Sum { .. } => Some(metric.sum),
        Kind::Min { .. } => metric.least.map(i128::from),
        Kind::Max { .. } => metric.greatest.map(i128::from),
        Kind::ValueCount { .. } => Some(i128::from(metric.count)),
        Kind::Terms { .. }
        | Kind::Histogram { .. }
        | Kind::DateHistogram { .. }
        | Kind::Filters { .. }
        | Kind::Filter { .. }
        | Kind::Missing { .. }
        | Kind::Global
        | Kind::Nested { .. }
        | Kind::ReverseNested { .. }
        | Kind::Composite { .. }
        | Kind::Avg { .. } => None,
    }
}

// The value of a bucket's child at this place, where it is a metric.
fn value_at(children: &List<Agg>, place: u32, bucket: &Bucket) -> Option<i128>
    ensures { result ≡ child_value (child_kinds children.now) place bucket.now }
{
    let agg = children.get(place as usize)?;
    match bucket.children.get(place as usize)? {
        Node::Number(metric) => value_of(&agg.kind, metric),
        Node::Keyed { .. } | Node::Fixed { .. } => None,
    }
}

fn compare_by(children: &List<Agg>, order: &Order, a: &Bucket, b: &Bucket) -> Ordering
    ensures { result ≡ cmp_by (child_kinds children.now) order.now.descending order.now.by a.now b.now }
{
    match order.by {
        OrderBy::Count => directed_by(order.descending, a.count.cmp(&b.count)),
        OrderBy::Key => directed_by(order.descending, compare_keys(&a.key, &b.key)),
        OrderBy::Child(place) => compare_values(
            order.descending,
            value_at(children, place, a),
            value_at(children, place, b),
        ),
    }
}

/// The order of two buckets: by the orders of the list in turn, and then by key. `children` are the
/// aggregations below, whose kinds say what an order by a child compares.
pub fn compare_buckets(
    children: &List<Agg>,
    orders: &List<Order>,
    a: &Bucket,
    b: &Bucket,
) -> Ordering
    ensures { result ≡ bucket_cmp (child_kinds children.now) orders.now a.now b.now }
{
    for order in orders.as_slice() {
        let ordering = compare_by(children, order, a, b);
        if ordering != Ordering::Equal {
            return ordering;
        }
    }
    compare_keys(&a.key, &b.key)
}
