//! Orders of buckets resolved against the children that they name ('Terms aggregation': order).

ghost use Rattle.std.specs.Prelude.{◌≡◌, ◌≤◌, ◌++◌, [], codes, length};
ghost use Rattle.std.specs.Str.{bytes_eq};
ghost use Rattle.agg_reading.specs.Reading.{Gives};
ghost use Rattle.agg_reading.specs.Orders.{child_from, child_named, compared_by, resolved, with_order};
ghost use Rattle.agg_model.specs.Options.{is_sortable};

use agg_model::body_refusal::NO_SUCH_CHILD;
use agg_model::limits::MAX_AGGREGATIONS;
use agg_model::{Agg, Kind, List, Order, OrderBy};
use agg_reading::{NamedOrder, RequestFault};
use json_walk::At;
use std::alloc::Global;

/// Whether a name is another with this ending.
#[tactic(auto, using(crate::proofs::NameLemmas::split))]
fn is_ended(name: &[u8], front: &[u8], ending: &[u8]) -> bool
    ensures { result ≡ bytes_eq name.now (front.now ++ ending.now) }
{
    if name.len() < front.len() {
        return false;
    }
    let (first, last) = name.split_at(front.len());
    first == front && last == ending
}

/// Whether buckets can be compared by the value of such a child.
fn is_sortable(kind: &Kind) -> bool
    ensures { result ≡ is_sortable kind.now }
{
    match kind {
        Kind::Sum { .. } | Kind::Min { .. } | Kind::Max { .. } | Kind::ValueCount { .. } => true,
        Kind::Terms { .. }
        | Kind::Histogram { .. }
        | Kind::DateHistogram { .. }
        | Kind::Filters { .. }
        | Kind::Filter { .. }
        | Kind::Missing { .. }
        | Kind::Global
        | Kind::Nested { .. }
        | Kind::ReverseNested { .. }
        | Kind::Composite { .. }
        | Kind::Avg { .. } => false,
    }
}

/// The place of the first such child whose name, with the ending, is this name.
#[tactic(auto, unfolding(agg_reading::specs::Orders::child_from))]
fn child_ended(children: &[Agg], ending: &str, name: &str) -> Option<u32>
    requires { length children.now ≤ MAX_AGGREGATIONS }
    ensures { result ≡ child_from ending.now 0 name.now children.now }
{
    for (place, child) in children.iter().enumerate() {
        let front = child.name.as_str().as_bytes();
        if is_ended(name.as_bytes(), front, ending.as_bytes()) && is_sortable(&child.kind) {
            return Some(place as u32);
        }
    }
    None
}

/// The place of the child of this name, else of the child whose name with `.value` is this name.
#[tactic(auto, unfolding(agg_reading::specs::Orders::child_named))]
pub fn child_named(children: &[Agg], name: &str) -> Option<u32>
    requires { length children.now ≤ MAX_AGGREGATIONS }
    ensures { result ≡ child_named name.now children.now }
{
    match child_ended(children, "", name) {
        Some(place) => Some(place),
        None => child_ended(children, ".value", name),
    }
}

/// What an order compares; refused with `NO_SUCH_CHILD` where it names no fitting child.
#[tactic(auto, unfolding(agg_reading::specs::Orders::compared_by))]
fn compared_by(alloc: Global, children: &[Agg], order: &NamedOrder) -> Result<OrderBy, RequestFault>
    requires { length children.now ≤ MAX_AGGREGATIONS }
    ensures { Gives (λ x. x) result (compared_by children.now order.now) }
{
    match order.name.as_str() {
        "_count" => Ok(OrderBy::Count),
        "_key" => Ok(OrderBy::Key),
        name => match child_named(children, name) {
            Some(place) => Ok(OrderBy::Child(place)),
            None => At::Start(order.at.as_str()).refuse(alloc, NO_SUCH_CHILD),
        },
    }
}

/// The orders, by count, by key or by the child that each names. The first that names no fitting child is refused with
/// `NO_SUCH_CHILD` at its name. There are at most `MAX_ORDERS` orders and `MAX_AGGREGATIONS` children.
#[tactic(auto, unfolding(agg_reading::specs::Orders::resolved))]
pub fn resolved(
    alloc: Global,
    children: &[Agg],
    orders: &[NamedOrder],
) -> Result<List<Order>, RequestFault>
    requires { length children.now ≤ MAX_AGGREGATIONS }
    ensures { Gives (λ os. os) result (resolved children.now [] orders.now) }
{
    let mut all = List::new(alloc);
    for order in orders {
        let by = compared_by(alloc, children, order)?;
        all.push(Order {
            by,
            descending: order.descending,
        })?;
    }
    Ok(all)
}

/// The kind with these orders, where it has orders at all.
#[tactic(auto, unfolding(agg_reading::specs::Orders::with_order))]
pub fn with_order(order: List<Order>, kind: Kind) -> Kind
    ensures { result ≡ with_order order kind }
{
    match kind {
        Kind::Terms {
            field,
            size,
            shard_size,
            min_doc_count,
            order: _,
            include,
            exclude,
            missing,
            show_error,
        } => Kind::Terms {
            field,
            size,
            shard_size,
            min_doc_count,
            order,
            include,
            exclude,
            missing,
            show_error,
        },
        Kind::Histogram {
            field,
            interval,
            offset,
            min_doc_count,
            extended,
            hard,
            keyed,
            order: _,
            missing,
        } => Kind::Histogram {
            field,
            interval,
            offset,
            min_doc_count,
            extended,
            hard,
            keyed,
            order,
            missing,
        },
        Kind::DateHistogram {
            field,
            period,
            zone,
            min_doc_count,
            extended,
            hard,
            keyed,
            order: _,
            missing,
        } => Kind::DateHistogram {
            field,
            period,
            zone,
            min_doc_count,
            extended,
            hard,
            keyed,
            order,
            missing,
        },
        Kind::Filters { .. }
        | Kind::Filter { .. }
        | Kind::Missing { .. }
        | Kind::Global
        | Kind::Nested { .. }
        | Kind::ReverseNested { .. }
        | Kind::Composite { .. }
        | Kind::Sum { .. }
        | Kind::Min { .. }
        | Kind::Max { .. }
        | Kind::Avg { .. }
        | Kind::ValueCount { .. } => kind,
    }
}
