//! The parts of an aggregation object: its kind, and its children under either of two names.

ghost use Rattle.std.specs.Prelude.{◌≡◌, ◌≤◌, ◌<◌, ◌∷◌, ◌++◌, [], IfOk, None, codes, length, map};
ghost use Rattle.serde_json.specs.View.{view, members_view};
ghost use Rattle.json_walk.specs.Places.{pointer};
ghost use Rattle.agg_reading.specs.Reading.{Gives, or_refuse};
ghost use Rattle.agg_reading.specs.Json.{sole_besides};
ghost use Rattle.agg_reading.specs.Aggregations.{is_metric, is_top_kind, has_both, kind_member, children_name};
ghost use Rattle.agg_reading.specs.Request.{is_childless, no_siblings, with_item, placed, assembled, assembled_pipe, pipe_below};
ghost use Rattle.agg_model.specs.declared.aggregation.Agg.{roll-Agg};
ghost use Rattle.agg_reading.specs.declared.pipes.ReadItem.TheVariants.{Aggregation};
ghost use Rattle.agg_request.specs.Children.{ItemHasFewChildren};
ghost use Rattle.agg_request.specs.Fitted.{fitted};
ghost use Rattle.request_pipes.specs.Children.{HaveFewChildren};

use agg_model::body_refusal::{MISPLACED_AGGREGATION, NOT_ONE_MEMBER};
use agg_model::limits::MAX_AGGREGATIONS;
use agg_model::{Agg, Kind, List, Order, Pipe, Text};
use agg_reading::{
    Counts, FoundPipe, KindName, NamedOrder, ReadItem, ReadKind, ReadPipe, ReadPipeKind,
    RequestFault, Siblings,
};
use json_walk::{At, member, sole_besides};
use request_kinds::{resolved, with_order};
use request_pipes::{around_of, fitted_pipes};
use serde_json::{Map, Value};
use std::alloc::{AllocError, Global};

/// Whether an object has both names of its children.
pub fn has_both(members: &Map<String, Value>) -> bool
    ensures { result ≡ has_both (members_view members.now.entries) }
{
    member(members, "aggregations").is_some() && member(members, "aggs").is_some()
}

/// The name of the member that holds the children.
pub fn children_name(members: &Map<String, Value>) -> &'static str
    ensures { result.now ≡ children_name (members_view members.now.entries) }
{
    if member(members, "aggs").is_some() {
        "aggs"
    } else {
        "aggregations"
    }
}

/// The only member beside the children; the object is refused with `NOT_ONE_MEMBER` where there is no such member or
/// more than one.
fn sole_kind<'v>(
    alloc: Global,
    at: &At<'_>,
    members: &'v Map<String, Value>,
) -> Result<(&'v str, &'v Value), RequestFault>
    ensures { Gives (λ x. (x.0.now, view x.1.now)) result
        (or_refuse NOT_ONE_MEMBER (pointer at.now) (sole_besides (codes "aggregations" ∷ codes "aggs" ∷ []) None (members_view members.now.entries))) }
{
    let Some((name, said)) = sole_besides(members, &["aggregations", "aggs"]) else {
        return at.refuse(alloc, NOT_ONE_MEMBER);
    };
    Ok((name, said))
}

/// The name of the one kind of an aggregation, and what is said of it. The object is refused with `NOT_ONE_MEMBER`
/// where it has no kind or more than one, or both names of its children.
#[tactic(auto, unfolding(agg_reading::specs::Aggregations::kind_member))]
pub fn kind_member<'v>(
    alloc: Global,
    at: &At<'_>,
    members: &'v Map<String, Value>,
) -> Result<(&'v str, &'v Value), RequestFault>
    ensures { Gives (λ x. (x.0.now, view x.1.now)) result (kind_member (pointer at.now) (members_view members.now.entries)) }
{
    if has_both(members) {
        return at.refuse(alloc, NOT_ONE_MEMBER);
    }
    sole_kind(alloc, at, members)
}

/// Whether a kind gives a number for each bucket around it, and so has no children.
fn is_metric(kind: KindName) -> bool
    ensures { result ≡ is_metric kind }
{
    match kind {
        KindName::Sum | KindName::Min | KindName::Max | KindName::Avg | KindName::ValueCount =>
            true,
        KindName::Composite
        | KindName::DateHistogram
        | KindName::Filter
        | KindName::Filters
        | KindName::Global
        | KindName::Histogram
        | KindName::Missing
        | KindName::Nested
        | KindName::ReverseNested
        | KindName::Terms => false,
    }
}

/// Whether a kind stands only at the top of a search.
fn is_top_kind(kind: KindName) -> bool
    ensures { result ≡ is_top_kind kind }
{
    match kind {
        KindName::Global | KindName::Composite => true,
        KindName::Avg
        | KindName::DateHistogram
        | KindName::Filter
        | KindName::Filters
        | KindName::Histogram
        | KindName::Max
        | KindName::Min
        | KindName::Missing
        | KindName::Nested
        | KindName::ReverseNested
        | KindName::Sum
        | KindName::Terms
        | KindName::ValueCount => false,
    }
}

/// Whether there are no children, neither aggregations nor pipelines.
fn is_childless(children: &Siblings) -> bool
    ensures { result ≡ is_childless children.now }
{
    children.aggs.is_empty() && children.pipes.is_empty()
}

/// No aggregation and no pipeline.
pub fn none(alloc: Global) -> Siblings
    ensures { result ≡ no_siblings }
{
    Siblings {
        aggs: List::new(alloc),
        pipes: List::new(alloc),
    }
}

/// The members that were read, and one more. The pipelines that an aggregation encloses are seen from its object.
pub fn with_item(item: ReadItem, done: Siblings) -> Result<Siblings, AllocError>
    requires { length done.aggs < MAX_AGGREGATIONS }
    ensures { IfOk result (λ s. s ≡ with_item item done) }
{
    let mut aggs = done.aggs;
    match item {
        ReadItem::Aggregation { agg, pipes } => {
            let pipes = with_pipes_below(aggs.len() as u32, pipes, done.pipes)?;
            aggs.push(agg)?;
            Ok(Siblings { aggs, pipes })
        }
        ReadItem::Pipeline(pipe) => {
            let mut pipes = done.pipes;
            pipes.push(FoundPipe::Here(pipe))?;
            Ok(Siblings { aggs, pipes })
        }
    }
}

/// The pipelines that were found, and behind them those that the aggregation at a place encloses.
fn with_pipes_below(
    place: u32,
    pipes: List<Pipe>,
    found: List<FoundPipe>,
) -> Result<List<FoundPipe>, AllocError>
    ensures { IfOk result (λ all. all ≡ found ++ map (pipe_below place) pipes) }
{
    let mut all = found;
    for pipe in pipes.into_vec() {
        all.push(FoundPipe::Below(below(place, pipe)?))?;
    }
    Ok(all)
}

/// A pipeline that the aggregation at a place encloses, seen from the object in which the aggregation stands.
fn below(place: u32, pipe: Pipe) -> Result<Pipe, AllocError>
    ensures { IfOk result (λ p. p ≡ record pipe { at = place ∷ pipe.at }) }
{
    let mut at = pipe.at.into_vec();
    at.insert(0, place)?;
    Ok(Pipe {
        at: List::from_vec(at),
        name: pipe.name,
        kind: pipe.kind,
    })
}

/// Refuses, with `MISPLACED_AGGREGATION`, children of a metric at the member that holds them, and at `at` a kind that
/// is for the top alone.
#[tactic(auto, unfolding(agg_reading::specs::Request::placed))]
fn check_place(
    alloc: Global,
    top: bool,
    kind: KindName,
    at: &At<'_>,
    members: &Map<String, Value>,
    children: &Siblings,
) -> Result<(), RequestFault>
    ensures { Gives (λ u. u) result (placed top kind (pointer at.now) (members_view members.now.entries) children.now) }
{
    if is_metric(kind) && !is_childless(children) {
        return At::Member(at, children_name(members)).refuse(alloc, MISPLACED_AGGREGATION);
    }
    if is_top_kind(kind) && !top {
        return at.refuse(alloc, MISPLACED_AGGREGATION);
    }
    Ok(())
}

/// The orders and the pipelines of an aggregation, resolved against its children. Refused as `check_place`, `resolved` and
/// `fitted_pipes` say, in this order.
#[tactic(auto, unfolding(crate::specs::Fitted::fitted))]
fn fitted(
    alloc: Global,
    top: bool,
    kind: KindName,
    at: &At<'_>,
    members: &Map<String, Value>,
    orders: &List<NamedOrder>,
    children: &Siblings,
) -> Result<(List<Order>, List<Pipe>), RequestFault>
    requires few { length children.now.aggs ≤ MAX_AGGREGATIONS }
    requires below { HaveFewChildren children.now.aggs }
    ensures { Gives (λ x. x) result (fitted top kind (pointer at.now) (members_view members.now.entries) orders.now children.now) }
{
    check_place(alloc, top, kind, at, members, children)?;
    let aggs = children.aggs.as_slice();
    let orders = resolved(alloc, aggs, orders.as_slice())?;
    let pipes = fitted_pipes(alloc, around_of(kind), aggs, &children.pipes)?;
    Ok((orders, pipes))
}

/// An aggregation and the pipelines that it encloses.
fn aggregation(
    alloc: Global,
    name: &str,
    kind: Kind,
    children: List<Agg>,
    pipes: List<Pipe>,
) -> Result<ReadItem, AllocError>
    ensures { IfOk result (λ i. i ≡ Aggregation (roll-Agg (record { name = name.now; kind = kind; children = children })) pipes) }
{
    let name = Text::of(alloc, name)?;
    Ok(ReadItem::Aggregation {
        agg: Agg {
            name,
            kind,
            children,
        },
        pipes,
    })
}

/// The aggregation of a kind and its children, with the orders resolved against them, and then its pipelines; the counts
/// stay.
pub fn assembled(
    alloc: Global,
    top: bool,
    kind: KindName,
    name: &str,
    at: &At<'_>,
    members: &Map<String, Value>,
    found: ReadKind,
    children: Siblings,
    counts: Counts,
) -> Result<(ReadItem, Counts), RequestFault>
    requires few { length children.aggs ≤ MAX_AGGREGATIONS }
    requires below { HaveFewChildren children.aggs }
    ensures value { Gives (λ x. x) result
        (assembled top kind name.now (pointer at.now) (members_view members.now.entries) found (children, counts)) }
    ensures counts { IfOk result (λ x. x.1 ≡ counts) }
    ensures below { IfOk result (λ x. ItemHasFewChildren x.0) }
{
    let (order, pipes) = fitted(alloc, top, kind, at, members, &found.order, &children)?;
    let kind = with_order(order, found.kind);
    let item = aggregation(alloc, name, kind, children.aggs, pipes)?;
    Ok((item, counts))
}

/// A pipeline; refused with `MISPLACED_AGGREGATION` at the member that holds its children, where it has any. The counts
/// stay.
#[tactic(auto, unfolding(agg_reading::specs::Request::assembled_pipe))]
pub fn assembled_pipe(
    alloc: Global,
    name: &str,
    at: &At<'_>,
    members: &Map<String, Value>,
    kind: ReadPipeKind,
    children: &Siblings,
    counts: Counts,
) -> Result<(ReadItem, Counts), RequestFault>
    ensures value { Gives (λ x. x) result
        (assembled_pipe name.now (pointer at.now) (members_view members.now.entries) kind (children.now, counts)) }
    ensures counts { IfOk result (λ x. x.1 ≡ counts) }
    ensures below { IfOk result (λ x. ItemHasFewChildren x.0) }
{
    if !is_childless(children) {
        return At::Member(at, children_name(members)).refuse(alloc, MISPLACED_AGGREGATION);
    }
    let pipe = ReadPipe {
        name: Text::of(alloc, name)?,
        kind,
        at: at.text(alloc)?,
    };
    Ok((ReadItem::Pipeline(pipe), counts))
}
