//! Aggregations and pipelines, and those below them.

ghost use Rattle.std.specs.Prelude.{◌≡◌, ◌≤◌, ◌<◌, ◌+◌, IfOk, true, false, length};
ghost use Rattle.serde_json.specs.View.{view, members_view};
ghost use Rattle.json_walk.specs.Places.{pointer};
ghost use Rattle.agg_reading.specs.Reading.{Gives};
ghost use Rattle.agg_reading.specs.Request.{aggregations_from, aggregations_at, children_in, kind_of, pipe_of, item_of, aggregation_of, aggregation_at, no_counts, no_siblings};
ghost use Rattle.agg_request.specs.Children.{ItemHasFewChildren};
ghost use Rattle.request_pipes.specs.Children.{HaveFewChildren};

use crate::names::is_aggregation_name;
use crate::parts::{assembled, assembled_pipe, children_name, kind_member, none, with_item};
use agg_mapping::OrderedMapping;
use agg_model::body_refusal::{INVALID_NAME, LIMIT_EXCEEDED, UNKNOWN_KIND, WRONG_TYPE};
use agg_model::limits::{MAX_AGGREGATION_LEVELS, MAX_AGGREGATIONS, MAX_QUERIES};
use agg_reading::{Counts, PipeName, ReadItem, RequestFault, Siblings};
use json_walk::{At, member, object};
use request_kinds::{kind_at, kind_name};
use request_pipes::{pipe_kind_at, pipe_name};
use serde_json::{Map, Value};
use std::alloc::Global;

/// What the walk of aggregations always has in hand.
#[derive(Drop)]
struct Reader<'m> {
    alloc: Global,
    mapping: &'m OrderedMapping<'m>,
}

impl Reader<'_> {
    /// The aggregations of the members, over rows of this context, and the counts after them.
    #[cycle(tree)]
    #[tactic(auto, unfolding(agg_reading::specs::Request::aggregations_from))]
    fn all(
        &self,
        left: u32,
        top: bool,
        context: u32,
        at: &At<'_>,
        before: Counts,
        members: &Map<String, Value>,
    ) -> Result<(Siblings, Counts), RequestFault>
        requires queries { before.queries ≤ MAX_QUERIES }
        requires aggregations { before.aggregations ≤ MAX_AGGREGATIONS }
        ensures value { Gives (λ x. x) result
            (aggregations_from (aggregation_at left self.now.mapping.now top) context (pointer at.now) no_siblings before (members_view members.now.entries)) }
        ensures queries { IfOk result (λ x. x.1.queries ≤ MAX_QUERIES) }
        ensures aggregations { IfOk result (λ x. x.1.aggregations ≤ MAX_AGGREGATIONS) }
        ensures added { IfOk result (λ x. before.aggregations + length x.0.aggs ≤ x.1.aggregations) }
        ensures below { IfOk result (λ x. HaveFewChildren x.0.aggs) }
    {
        let mut done = none(self.alloc);
        let mut counts = before;
        for (name, value) in members {
            let at = At::Member(&*at, name.as_str());
            if !is_aggregation_name(name.as_str()) {
                return at.refuse(self.alloc, INVALID_NAME);
            }
            let (item, after) = self.aggregation(
                left,
                top,
                context,
                name.as_str(),
                &at,
                counts,
                value,
            )?;
            done = with_item(item, done)?;
            counts = after;
        }
        Ok((done, counts))
    }

    /// The aggregations of an object.
    #[cycle(tree)]
    #[tactic(auto, unfolding(agg_reading::specs::Request::aggregations_at))]
    fn aggregations(
        &self,
        left: u32,
        top: bool,
        context: u32,
        at: &At<'_>,
        before: Counts,
        value: &Value,
    ) -> Result<(Siblings, Counts), RequestFault>
        requires queries { before.queries ≤ MAX_QUERIES }
        requires aggregations { before.aggregations ≤ MAX_AGGREGATIONS }
        ensures value { Gives (λ x. x) result
            (aggregations_at (aggregation_at left self.now.mapping.now top) context (pointer at.now) before (view value.now)) }
        ensures queries { IfOk result (λ x. x.1.queries ≤ MAX_QUERIES) }
        ensures aggregations { IfOk result (λ x. x.1.aggregations ≤ MAX_AGGREGATIONS) }
        ensures added { IfOk result (λ x. before.aggregations + length x.0.aggs ≤ x.1.aggregations) }
        ensures below { IfOk result (λ x. HaveFewChildren x.0.aggs) }
    {
        let members = object(self.alloc, WRONG_TYPE, &*at, value)?;
        self.all(left, top, context, &*at, before, members)
    }

    /// The aggregations of the member `aggs` or `aggregations`; none where it is absent.
    #[cycle(tree)]
    #[tactic(auto, unfolding(agg_reading::specs::Request::children_in))]
    fn children_in(
        &self,
        left: u32,
        top: bool,
        context: u32,
        at: &At<'_>,
        before: Counts,
        members: &Map<String, Value>,
    ) -> Result<(Siblings, Counts), RequestFault>
        requires queries { before.queries ≤ MAX_QUERIES }
        requires aggregations { before.aggregations ≤ MAX_AGGREGATIONS }
        ensures value { Gives (λ x. x) result
            (children_in (aggregation_at left self.now.mapping.now top) context (pointer at.now) before (members_view members.now.entries)) }
        ensures queries { IfOk result (λ x. x.1.queries ≤ MAX_QUERIES) }
        ensures aggregations { IfOk result (λ x. x.1.aggregations ≤ MAX_AGGREGATIONS) }
        ensures added { IfOk result (λ x. before.aggregations + length x.0.aggs ≤ x.1.aggregations) }
        ensures below { IfOk result (λ x. HaveFewChildren x.0.aggs) }
    {
        let name = children_name(members);
        match member(members, name) {
            None => Ok((none(self.alloc), before)),
            Some(value) => {
                let at = At::Member(&*at, name);
                self.aggregations(left, top, context, &at, before, value)
            }
        }
    }

    /// An aggregation whose kind has this name: the kind, then the children, where so many levels may nest below.
    #[cycle(tree)]
    #[tactic(auto, unfolding(agg_reading::specs::Request::kind_of))]
    fn kind_of(
        &self,
        left: u32,
        top: bool,
        context: u32,
        name: &str,
        at: &At<'_>,
        before: Counts,
        members: &Map<String, Value>,
        said: &str,
        inner: &Value,
    ) -> Result<(ReadItem, Counts), RequestFault>
        requires queries { before.queries ≤ MAX_QUERIES }
        requires aggregations { before.aggregations < MAX_AGGREGATIONS }
        ensures value { Gives (λ x. x) result
            (kind_of (aggregation_at left self.now.mapping.now false) self.now.mapping.now top context name.now (pointer at.now) before
            (members_view members.now.entries) (said.now, view inner.now)) }
        ensures queries { IfOk result (λ x. x.1.queries ≤ MAX_QUERIES) }
        ensures aggregations { IfOk result (λ x. x.1.aggregations ≤ MAX_AGGREGATIONS) }
        ensures added { IfOk result (λ x. before.aggregations < x.1.aggregations) }
        ensures below { IfOk result (λ x. ItemHasFewChildren x.0) }
    {
        let place = At::Member(&*at, said);
        let Some(kind) = kind_name(said) else {
            return place.refuse(self.alloc, UNKNOWN_KIND);
        };
        let found = kind_at(
            self.alloc,
            kind,
            self.mapping,
            context,
            before.queries,
            &place,
            inner,
        )?;
        let counts = Counts {
            queries: found.queries,
            aggregations: before.aggregations + 1,
        };
        let (children, counts) = self.children_in(
            left,
            false,
            found.within,
            &*at,
            counts,
            members,
        )?;
        assembled(
            self.alloc, top, kind, name, &*at, members, found, children, counts,
        )
    }

    /// A pipeline of this kind: what it says, then what is below it, which is refused.
    #[cycle(tree)]
    #[tactic(auto, unfolding(agg_reading::specs::Request::pipe_of))]
    fn pipe_of(
        &self,
        left: u32,
        pipe: PipeName,
        context: u32,
        name: &str,
        at: &At<'_>,
        before: Counts,
        members: &Map<String, Value>,
        said: &str,
        inner: &Value,
    ) -> Result<(ReadItem, Counts), RequestFault>
        requires queries { before.queries ≤ MAX_QUERIES }
        requires aggregations { before.aggregations < MAX_AGGREGATIONS }
        ensures value { Gives (λ x. x) result
            (pipe_of (aggregation_at left self.now.mapping.now false) pipe context name.now (pointer at.now) before
            (members_view members.now.entries) (said.now, view inner.now)) }
        ensures queries { IfOk result (λ x. x.1.queries ≤ MAX_QUERIES) }
        ensures aggregations { IfOk result (λ x. x.1.aggregations ≤ MAX_AGGREGATIONS) }
        ensures added { IfOk result (λ x. before.aggregations < x.1.aggregations) }
        ensures below { IfOk result (λ x. ItemHasFewChildren x.0) }
    {
        let kind = pipe_kind_at(self.alloc, pipe, &At::Member(&*at, said), inner)?;
        let counts = Counts {
            queries: before.queries,
            aggregations: before.aggregations + 1,
        };
        let (children, counts) = self.children_in(left, false, context, &*at, counts, members)?;
        assembled_pipe(self.alloc, name, &*at, members, kind, &children, counts)
    }

    /// An aggregation or a pipeline within its limits, where so many levels may nest below.
    #[cycle(tree)]
    #[tactic(auto, unfolding(agg_reading::specs::Request::aggregation_of, agg_reading::specs::Request::item_of))]
    fn aggregation_of(
        &self,
        left: u32,
        top: bool,
        context: u32,
        name: &str,
        at: &At<'_>,
        before: Counts,
        value: &Value,
    ) -> Result<(ReadItem, Counts), RequestFault>
        requires queries { before.queries ≤ MAX_QUERIES }
        requires aggregations { before.aggregations < MAX_AGGREGATIONS }
        ensures value { Gives (λ x. x) result
            (aggregation_of (aggregation_at left self.now.mapping.now false) self.now.mapping.now top context name.now (pointer at.now) before
            (view value.now)) }
        ensures queries { IfOk result (λ x. x.1.queries ≤ MAX_QUERIES) }
        ensures aggregations { IfOk result (λ x. x.1.aggregations ≤ MAX_AGGREGATIONS) }
        ensures added { IfOk result (λ x. before.aggregations < x.1.aggregations) }
        ensures below { IfOk result (λ x. ItemHasFewChildren x.0) }
    {
        let members = object(self.alloc, WRONG_TYPE, &*at, value)?;
        let (said, inner) = kind_member(self.alloc, &*at, members)?;
        match pipe_name(said) {
            Some(pipe) => self.pipe_of(
                left, pipe, context, name, &*at, before, members, said, inner,
            ),
            None => self.kind_of(left, top, context, name, &*at, before, members, said, inner),
        }
    }

    /// An aggregation or a pipeline, where so many levels may still nest. One too deep or too many is refused with
    /// `LIMIT_EXCEEDED`.
    #[cycle(tree)]
    fn aggregation(
        &self,
        left: u32,
        top: bool,
        context: u32,
        name: &str,
        at: &At<'_>,
        before: Counts,
        value: &Value,
    ) -> Result<(ReadItem, Counts), RequestFault>
        requires queries { before.queries ≤ MAX_QUERIES }
        requires aggregations { before.aggregations ≤ MAX_AGGREGATIONS }
        ensures value { Gives (λ x. x) result
            (aggregation_at left self.now.mapping.now top context name.now (pointer at.now) before (view value.now)) }
        ensures queries { IfOk result (λ x. x.1.queries ≤ MAX_QUERIES) }
        ensures aggregations { IfOk result (λ x. x.1.aggregations ≤ MAX_AGGREGATIONS) }
        ensures added { IfOk result (λ x. before.aggregations < x.1.aggregations) }
        ensures below { IfOk result (λ x. ItemHasFewChildren x.0) }
    {
        if left == 0 || MAX_AGGREGATIONS <= before.aggregations {
            return at.refuse(self.alloc, LIMIT_EXCEEDED);
        }
        self.aggregation_of(left - 1, top, context, name, &*at, before, value)
    }
}

/// The aggregations and pipelines of a search, at most `MAX_AGGREGATIONS`, nested at most `MAX_AGGREGATION_LEVELS` deep, and
/// how many queries and aggregations were begun.
pub fn aggregations_in(
    alloc: Global,
    mapping: &OrderedMapping<'_>,
    at: &At<'_>,
    members: &Map<String, Value>,
) -> Result<(Siblings, Counts), RequestFault>
    ensures value { Gives (λ x. x) result
        (children_in (aggregation_at MAX_AGGREGATION_LEVELS mapping.now true) 0 (pointer at.now) no_counts (members_view members.now.entries)) }
    ensures queries { IfOk result (λ x. x.1.queries ≤ MAX_QUERIES) }
    ensures few { IfOk result (λ x. length x.0.aggs ≤ MAX_AGGREGATIONS) }
    ensures below { IfOk result (λ x. HaveFewChildren x.0.aggs) }
{
    let reader = Reader { alloc, mapping };
    let nothing = Counts {
        queries: 0,
        aggregations: 0,
    };
    reader.children_in(MAX_AGGREGATION_LEVELS, true, 0, at, nothing, members)
}
