//! Queries, with those that hold others: `bool` and `nested` ('Query DSL': compound and joining queries).

ghost use Rattle.std.specs.Prelude.{◌≡◌, ◌≢◌, ◌≤◌, [], Err, IfOk, codes};
ghost use Rattle.serde_json.specs.View.{view, items_view, members_view};
ghost use Rattle.json_walk.specs.Places.{pointer};
ghost use Rattle.agg_reading.specs.declared.fault.RequestFault.TheVariants.{NotJson};
ghost use Rattle.agg_reading.specs.Reading.{Gives};
ghost use Rattle.agg_reading.specs.Json.{optional, sole_at};
ghost use Rattle.agg_reading.specs.Numbers.{whole_at};
ghost use Rattle.agg_reading.specs.Query.{query_name, minimum, queries_from, clause_at, all_at, clauses_at, bool_at, within_at, named_at, query_at, top_query_at, query_from};
ghost use Rattle.agg_model.specs.MappingOrder.{IsOrdered};

use crate::fields::path_in;
use crate::leaves::{exists, ids, match_all, range, term, terms};
use agg_mapping::OrderedMapping;
use agg_model::body_refusal::{
    LIMIT_EXCEEDED, NOT_ONE_MEMBER, UNKNOWN_MEMBER, UNKNOWN_QUERY, WRONG_TYPE,
};
use agg_model::limits::{MAX_QUERIES, MAX_QUERY_LEVELS, MAX_SHOULD_MATCH};
use agg_model::{Boxed, List, Mapping, Query, Text};
use agg_reading::{QueryName, RequestFault};
use json_walk::{At, check_names, member, object, required, sole_member, whole_in};
use serde_json::{Map, Value};
use std::alloc::Global;

/// The query of this name.
#[tactic(auto, unfolding(agg_reading::specs::Query::query_name))]
fn query_name(name: &str) -> Option<QueryName>
    ensures { result ≡ query_name name.now }
{
    match name {
        "match_all" => Some(QueryName::MatchAll),
        "term" => Some(QueryName::Term),
        "terms" => Some(QueryName::Terms),
        "range" => Some(QueryName::Range),
        "exists" => Some(QueryName::Exists),
        "ids" => Some(QueryName::Ids),
        "bool" => Some(QueryName::Bool),
        "nested" => Some(QueryName::Nested),
        _ => None,
    }
}

/// The name and value of the only member; the object is refused with `NOT_ONE_MEMBER` where there is no member or more
/// than one.
#[tactic(auto, unfolding(agg_reading::specs::Json::sole_at))]
fn sole_name<'v>(
    alloc: Global,
    at: &At<'_>,
    members: &'v Map<String, Value>,
) -> Result<(&'v str, &'v Value), RequestFault>
    ensures { Gives (λ m. (m.0.now, view m.1.now)) result (sole_at NOT_ONE_MEMBER (pointer at.now) (members_view members.now.entries)) }
{
    let Some((name, value)) = sole_member(members) else {
        return at.refuse(alloc, NOT_ONE_MEMBER);
    };
    Ok((name, value))
}

/// The number in the member `minimum_should_match`, at most `MAX_SHOULD_MATCH`; none where it is absent.
fn said_minimum(
    alloc: Global,
    at: &At<'_>,
    members: &Map<String, Value>,
) -> Result<Option<u32>, RequestFault>
    ensures { Gives (λ n. n) result
        (optional (whole_at 0 MAX_SHOULD_MATCH) (codes "minimum_should_match") (pointer at.now) (members_view members.now.entries)) }
{
    match whole_in(
        alloc,
        0,
        MAX_SHOULD_MATCH,
        "minimum_should_match",
        at,
        members,
    )? {
        None => Ok(None),
        Some(least) => Ok(Some(least as u32)),
    }
}

/// How many of `should` have to match: none where it is empty, else what is said, else 1 where `must` is empty.
fn minimum(must: &List<Query>, should: &List<Query>, said: Option<u32>) -> u32
    ensures { result ≡ minimum must.now should.now said }
{
    if should.len() == 0 {
        return 0;
    }
    match said {
        Some(least) => least,
        None if must.len() == 0 => 1,
        None => 0,
    }
}

/// A reader of the queries of one search.
#[derive(Clone, Copy)]
struct Reader<'m> {
    alloc: Global,
    mapping: &'m OrderedMapping<'m>,
}

impl Reader<'_> {
    /// The queries of a list, after those before.
    #[cycle(read)]
    #[tactic(auto, unfolding(agg_reading::specs::Query::queries_from))]
    fn queries(
        &self,
        left: u32,
        context: u32,
        at: &At<'_>,
        mut done: List<Query>,
        before: u32,
        items: &Vec<Value>,
    ) -> Result<(List<Query>, u32), RequestFault>
        requires count { before ≤ MAX_QUERIES }
        ensures value { Gives (λ x. x) result
            (queries_from (query_at left self.now.mapping.now context) (pointer at.now) 0 done before (items_view items.now.items)) }
        ensures count { IfOk result (λ x. x.1 ≤ MAX_QUERIES) }
    {
        let mut count = before;
        for (place, item) in items.iter().enumerate() {
            let (query, after) = self.query(left, context, &At::Item(&*at, place), count, item)?;
            done.push(query)?;
            count = after;
        }
        Ok((done, count))
    }

    /// The queries of the member of this name, a query or a list of them, after those before.
    #[cycle(read)]
    #[tactic(auto, unfolding(agg_reading::specs::Query::clause_at))]
    fn clause(
        &self,
        left: u32,
        context: u32,
        name: &str,
        at: &At<'_>,
        mut done: List<Query>,
        before: u32,
        members: &Map<String, Value>,
    ) -> Result<(List<Query>, u32), RequestFault>
        requires count { before ≤ MAX_QUERIES }
        ensures value { Gives (λ x. x) result
            (clause_at (query_at left self.now.mapping.now context) name.now (pointer at.now) done before (members_view members.now.entries)) }
        ensures count { IfOk result (λ x. x.1 ≤ MAX_QUERIES) }
    {
        let at = At::Member(&*at, &*name);
        match member(members, name) {
            None => Ok((done, before)),
            Some(Value::Array(items)) => self.queries(left, context, &at, done, before, items),
            Some(value) => {
                let (query, after) = self.query(left, context, &at, before, value)?;
                done.push(query)?;
                Ok((done, after))
            }
        }
    }

    /// The queries that all have to match, those of `filter` first, and what is said of `should`.
    #[cycle(read)]
    #[tactic(auto, unfolding(agg_reading::specs::Query::all_at))]
    fn all(
        &self,
        left: u32,
        context: u32,
        at: &At<'_>,
        before: u32,
        members: &Map<String, Value>,
    ) -> Result<(List<Query>, Option<u32>, u32), RequestFault>
        requires count { before ≤ MAX_QUERIES }
        ensures value { Gives (λ x. x) result
            (all_at (query_at left self.now.mapping.now context) (pointer at.now) before (members_view members.now.entries)) }
        ensures count { IfOk result (λ x. x.2 ≤ MAX_QUERIES) }
    {
        let none = List::new(self.alloc);
        let (filter, count) = self.clause(left, context, "filter", at, none, before, members)?;
        let said = said_minimum(self.alloc, at, members)?;
        let (must, count) = self.clause(left, context, "must", at, filter, count, members)?;
        Ok((must, said, count))
    }

    /// A `bool` query from its members.
    #[cycle(read)]
    #[tactic(auto, unfolding(agg_reading::specs::Query::clauses_at))]
    fn clauses(
        &self,
        left: u32,
        context: u32,
        at: &At<'_>,
        before: u32,
        members: &Map<String, Value>,
    ) -> Result<(Query, u32), RequestFault>
        requires count { before ≤ MAX_QUERIES }
        ensures value { Gives (λ x. x) result
            (clauses_at (query_at left self.now.mapping.now context) (pointer at.now) before (members_view members.now.entries)) }
        ensures count { IfOk result (λ x. x.1 ≤ MAX_QUERIES) }
    {
        let (must, said, count) = self.all(left, context, at, before, members)?;
        let none = List::new(self.alloc);
        let (must_not, count) = self.clause(left, context, "must_not", at, none, count, members)?;
        let none = List::new(self.alloc);
        let (should, count) = self.clause(left, context, "should", at, none, count, members)?;
        let minimum = minimum(&must, &should, said);
        let query = Query::Bool {
            must,
            must_not,
            should,
            minimum,
        };
        Ok((query, count))
    }

    /// A `bool` query.
    #[cycle(read)]
    #[tactic(auto, unfolding(agg_reading::specs::Query::bool_at))]
    fn bool_query(
        &self,
        left: u32,
        context: u32,
        at: &At<'_>,
        before: u32,
        value: &Value,
    ) -> Result<(Query, u32), RequestFault>
        requires count { before ≤ MAX_QUERIES }
        ensures value { Gives (λ x. x) result
            (bool_at (query_at left self.now.mapping.now context) (pointer at.now) before (view value.now)) }
        ensures count { IfOk result (λ x. x.1 ≤ MAX_QUERIES) }
    {
        let members = object(self.alloc, WRONG_TYPE, at, value)?;
        check_names(
            self.alloc,
            UNKNOWN_MEMBER,
            at,
            members,
            &[
                "boost",
                "filter",
                "minimum_should_match",
                "must",
                "must_not",
                "should",
            ],
        )?;
        self.clauses(left, context, at, before, members)
    }

    /// The query of the member `query`, over the rows at a nested path.
    #[cycle(read)]
    #[tactic(auto, unfolding(agg_reading::specs::Query::within_at))]
    fn within(
        &self,
        left: u32,
        context: u32,
        at: &At<'_>,
        before: u32,
        value: &Value,
    ) -> Result<(Query, u32), RequestFault>
        requires count { before ≤ MAX_QUERIES }
        ensures value { Gives (λ x. x) result
            (within_at (query_at left self.now.mapping.now) self.now.mapping.now context (pointer at.now) before (view value.now)) }
        ensures count { IfOk result (λ x. x.1 ≤ MAX_QUERIES) }
    {
        let members = object(self.alloc, WRONG_TYPE, at, value)?;
        check_names(
            self.alloc,
            UNKNOWN_MEMBER,
            at,
            members,
            &["boost", "ignore_unmapped", "path", "query", "score_mode"],
        )?;
        let (path, _) = path_in(self.alloc, self.mapping, context, at, members)?;
        let inner = required(self.alloc, at, members, "query")?;
        let inner_at = At::Member(&*at, "query");
        let (query, count) = self.query(left, path + 1, &inner_at, before, inner)?;
        let query = Boxed::new(self.alloc, query)?;
        Ok((Query::Nested { path, query }, count))
    }

    /// The query of this name.
    #[cycle(read)]
    #[tactic(auto, unfolding(agg_reading::specs::Query::named_at))]
    fn named(
        &self,
        left: u32,
        context: u32,
        at: &At<'_>,
        count: u32,
        name: &str,
        value: &Value,
    ) -> Result<(Query, u32), RequestFault>
        requires count { count ≤ MAX_QUERIES }
        ensures value { Gives (λ x. x) result
            (named_at (query_at left self.now.mapping.now) self.now.mapping.now context (pointer at.now) count name.now (view value.now)) }
        ensures count { IfOk result (λ x. x.1 ≤ MAX_QUERIES) }
    {
        let at = At::Member(&*at, &*name);
        match query_name(name) {
            None => at.refuse(self.alloc, UNKNOWN_QUERY),
            Some(QueryName::MatchAll) => Ok((match_all(self.alloc, &at, value)?, count)),
            Some(QueryName::Term) => Ok((term(self.alloc, self.mapping, &at, value)?, count)),
            Some(QueryName::Terms) => Ok((terms(self.alloc, self.mapping, &at, value)?, count)),
            Some(QueryName::Range) => Ok((range(self.alloc, self.mapping, &at, value)?, count)),
            Some(QueryName::Exists) => Ok((exists(self.alloc, self.mapping, &at, value)?, count)),
            Some(QueryName::Ids) => Ok((ids(self.alloc, &at, value)?, count)),
            Some(QueryName::Bool) => self.bool_query(left, context, &at, count, value),
            Some(QueryName::Nested) => self.within(left, context, &at, count, value),
        }
    }

    /// A query, where so many levels may still nest, and how many queries of the search were begun up to its end.
    #[cycle(read)]
    #[tactic(auto, unfolding(agg_reading::specs::Query::query_at))]
    fn query(
        &self,
        left: u32,
        context: u32,
        at: &At<'_>,
        before: u32,
        value: &Value,
    ) -> Result<(Query, u32), RequestFault>
        requires count { before ≤ MAX_QUERIES }
        ensures value { Gives (λ x. x) result
            (query_at left self.now.mapping.now context before (pointer at.now) (view value.now)) }
        ensures count { IfOk result (λ x. x.1 ≤ MAX_QUERIES) }
    {
        if left == 0 || MAX_QUERIES <= before {
            return at.refuse(self.alloc, LIMIT_EXCEEDED);
        }
        let members = object(self.alloc, WRONG_TYPE, at, value)?;
        let (name, value) = sole_name(self.alloc, at, members)?;
        self.named(left - 1, context, at, before + 1, name, value)
    }
}

/// The query that a value within a search is, over rows of this context (0 for the root, i + 1 for the i-th nested
/// path), and how many queries of the search were begun up to its end, where so many were begun before it. Refused with
/// the pointer of the first thing that breaks a rule: a query nests at most `MAX_QUERY_LEVELS` deep, and a search has
/// at most `MAX_QUERIES`. Never `NotJson`, since the value was read.
#[tactic(auto, unfolding(agg_reading::specs::Query::top_query_at))]
pub fn counted_query_at(
    alloc: Global,
    mapping: &OrderedMapping<'_>,
    context: u32,
    before: u32,
    at: &At<'_>,
    value: &Value,
) -> Result<(Query, u32), RequestFault>
    requires count { before ≤ MAX_QUERIES }
    ensures value { Gives (λ x. x) result
        (top_query_at mapping.now context before (pointer at.now) (view value.now)) }
    ensures json { result ≢ Err NotJson }
    ensures count { IfOk result (λ x. x.1 ≤ MAX_QUERIES) }
{
    let reader = Reader { alloc, mapping };
    reader.query(MAX_QUERY_LEVELS, context, at, before, value)
}

/// The query that a value is, as by `counted_query_at`, without the count. `at` is the pointer of the value.
#[tactic(auto, unfolding(agg_reading::specs::Query::query_from))]
pub fn query_of(
    alloc: Global,
    value: &Value,
    mapping: &Mapping,
    context: u32,
    at: &Text,
    before: u32,
) -> Result<Query, RequestFault>
    requires ordered { IsOrdered mapping.now }
    requires count { before ≤ MAX_QUERIES }
    ensures value { Gives (λ q. q) result (query_from mapping.now context before at.now (view value.now)) }
    ensures json { result ≢ Err NotJson }
{
    let mapping = OrderedMapping::of(mapping);
    let at = At::Start(at.as_str());
    let (query, _) = counted_query_at(alloc, &mapping, context, before, &at, value)?;
    Ok(query)
}
