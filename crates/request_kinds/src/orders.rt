//! Orders of buckets as written ('Terms aggregation': order).

ghost use Rattle.std.specs.Prelude.{◌≡◌, ◌∷◌, [], IfOk, codes, unwrap_or, nat_le, ◌&&◌};
ghost use Rattle.serde_json.specs.View.{view, items_view, members_view};
ghost use Rattle.json_walk.specs.Places.{pointer};
ghost use Rattle.agg_reading.specs.Reading.{Gives};
ghost use Rattle.agg_reading.specs.Json.{optional};
ghost use Rattle.agg_reading.specs.Orders.{direction_at, order_at, item_count, orders_from, orders_at, by_default};

use agg_model::body_refusal::{NOT_ONE_MEMBER, OUT_OF_RANGE, WRONG_TYPE};
use agg_model::limits::MAX_ORDERS;
use agg_model::{List, Text};
use agg_reading::{NamedOrder, RequestFault};
use json_walk::{At, choice, member, object, sole_member};
use serde_json::{Map, Value};
use std::alloc::{AllocError, Global};

/// Whether a direction, `asc` or `desc`, is descending.
#[tactic(auto, unfolding(agg_reading::specs::Orders::direction_at))]
pub fn direction(alloc: Global, at: &At<'_>, value: &Value) -> Result<bool, RequestFault>
    ensures { Gives (λ x. x) result (direction_at (pointer at.now) (view value.now)) }
{
    let word = choice(alloc, &["asc", "desc"], at, value)?;
    Ok(word == "desc")
}

/// Whether the direction in the member `order` is descending; none where it is absent.
pub fn direction_in(
    alloc: Global,
    at: &At<'_>,
    members: &Map<String, Value>,
) -> Result<Option<bool>, RequestFault>
    ensures { Gives (λ x. x) result
        (optional direction_at (codes "order") (pointer at.now) (members_view members.now.entries)) }
{
    match member(members, "order") {
        None => Ok(None),
        Some(value) => Ok(Some(direction(alloc, &At::Member(at, "order"), value)?)),
    }
}

/// An order: an object of one member, from a name to a direction. It keeps its pointer, since its name is refused only
/// after the children were read.
#[tactic(auto, unfolding(agg_reading::specs::Orders::order_at, agg_reading::specs::Json::sole_at))]
fn order(
    alloc: Global,
    at: &At<'_>,
    members: &Map<String, Value>,
) -> Result<NamedOrder, RequestFault>
    ensures { Gives (λ o. o) result (order_at (pointer at.now) (members_view members.now.entries)) }
{
    let Some((name, value)) = sole_member(members) else {
        return at.refuse(alloc, NOT_ONE_MEMBER);
    };
    let at = At::Member(at, name);
    let descending = direction(alloc, &at, value)?;
    Ok(NamedOrder {
        name: Text::of(alloc, name)?,
        descending,
        at: at.text(alloc)?,
    })
}

/// The orders of the items.
#[tactic(auto, unfolding(agg_reading::specs::Orders::orders_from))]
fn order_list(
    alloc: Global,
    at: &At<'_>,
    items: &Vec<Value>,
) -> Result<List<NamedOrder>, RequestFault>
    ensures { Gives (λ os. os) result (orders_from (pointer at.now) 0 [] (items_view items.now.items)) }
{
    let mut orders = List::new(alloc);
    for (place, item) in items.iter().enumerate() {
        let at = At::Item(at, place);
        let members = object(alloc, WRONG_TYPE, &at, item)?;
        orders.push(order(alloc, &at, members)?)?;
    }
    Ok(orders)
}

/// One order.
fn single(alloc: Global, order: NamedOrder) -> Result<List<NamedOrder>, AllocError>
    ensures { IfOk result (λ os. os ≡ order ∷ []) }
{
    let mut orders = List::new(alloc);
    orders.push(order)?;
    Ok(orders)
}

/// Whether there are 1 to `MAX_ORDERS` items.
#[tactic(auto, using(crate::proofs::Lists::counted))]
fn is_few(items: &Vec<Value>) -> bool
    ensures { result ≡ (nat_le 1 (item_count (items_view items.now.items)) && nat_le (item_count (items_view items.now.items)) MAX_ORDERS) }
{
    1 <= items.len() && items.len() <= MAX_ORDERS
}

/// An order, or a list of 1 to `MAX_ORDERS` orders. A list of another length is refused with `OUT_OF_RANGE`, a value
/// that is neither with `WRONG_TYPE`.
#[tactic(auto, unfolding(agg_reading::specs::Orders::orders_at))]
fn orders(alloc: Global, at: &At<'_>, value: &Value) -> Result<List<NamedOrder>, RequestFault>
    ensures { Gives (λ os. os) result (orders_at (pointer at.now) (view value.now)) }
{
    match value {
        Value::Object(members) => Ok(single(alloc, order(alloc, at, members)?)?),
        Value::Array(items) if is_few(items) => order_list(alloc, at, items),
        Value::Array(_) => at.refuse(alloc, OUT_OF_RANGE),
        _ => at.refuse(alloc, WRONG_TYPE),
    }
}

/// The orders in the member `order`; none where it is absent.
pub fn orders_in(
    alloc: Global,
    at: &At<'_>,
    members: &Map<String, Value>,
) -> Result<Option<List<NamedOrder>>, RequestFault>
    ensures { Gives (λ os. os) result
        (optional orders_at (codes "order") (pointer at.now) (members_view members.now.entries)) }
{
    match member(members, "order") {
        None => Ok(None),
        Some(value) => Ok(Some(orders(alloc, &At::Member(at, "order"), value)?)),
    }
}

/// The orders that are given, else the one of this name and direction.
pub fn orders_or(
    alloc: Global,
    given: Option<List<NamedOrder>>,
    name: &str,
    descending: bool,
) -> Result<List<NamedOrder>, AllocError>
    ensures { IfOk result (λ os. os ≡ unwrap_or given (by_default name.now descending ∷ [])) }
{
    match given {
        Some(orders) => Ok(orders),
        None => single(
            alloc,
            NamedOrder {
                name: Text::of(alloc, name)?,
                descending,
                at: Text::of(alloc, "")?,
            },
        ),
    }
}
