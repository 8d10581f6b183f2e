//! The line that answers a search.
ghost use Rattle.std.specs.Prelude.{◌≡◌, ◌≤◌, ◌∷◌, [], IfOk, None, codes, false, length};
ghost use Rattle.serde_json.specs.Data.{object, boolean};
ghost use Rattle.serde_json.specs.View.{view, members_view};
ghost use Rattle.serde_json.specs.Written.{compact_text};
ghost use Rattle.agg_spec.specs.Json.{with_members, count};
ghost use Rattle.agg_spec.specs.NoteZones.{zoned_notes};
ghost use Rattle.agg_spec.specs.RangeCheck.{out_of_range};
ghost use Rattle.agg_spec.specs.Response as definition;

use crate::answers::with_answers;
use crate::errors::with_failures;
use crate::notes::Seen;
use crate::numbers::null_value;
use crate::values::{Array, Json, Object, flag_value, text_value};
use agg_model::{Failure, List, Mapping, Piped, Search, Text};
use std::alloc::{AllocError, Global};

/// How many shards there are, and how many answered; the others failed.
fn shards_value(alloc: Global, shards: u32, failures: &List<Failure>) -> Result<Json, AllocError>
    requires { length failures.now ≤ shards }
    ensures { IfOk result (λ j. view j.value ≡ (definition.shards_member shards failures.now).1) }
{
    let total = u64::from(shards);
    let failed = failures.len() as u64;
    let counted = Object::new(alloc).with_count(alloc, "failed", failed)?;
    Ok(
        with_failures(alloc, counted, failures)?
            .with_count(alloc, "skipped", 0)?
            .with_count(alloc, "successful", total - failed)?
            .with_count(alloc, "total", total)?
            .into_json(),
    )
}

/// The exact number of documents found, none of which is shown.
fn hits_value(alloc: Global, hits: u64) -> Result<Json, AllocError>
    ensures { IfOk result (λ j. view j.value ≡ (definition.hits_member hits).1) }
{
    let total = Object::new(alloc)
        .with_text(alloc, "relation", "eq")?
        .with_count(alloc, "value", hits)?;
    Ok(
        Object::new(alloc)
            .with(alloc, "hits", Array::new(alloc).into_json())?
            .with(alloc, "max_score", null_value())?
            .with(alloc, "total", total.into_json())?
            .into_json(),
    )
}

/// The object with the answers to the aggregations and what the pipelines say, where the search has an aggregation.
fn with_aggregations(
    alloc: Global,
    object: Object,
    search: &Search,
    mapping: &Mapping,
    piped: &Piped,
) -> Result<Object, AllocError>
    requires { out_of_range search.now piped.now.answer ≡ None }
    ensures { IfOk result (λ o. members_view o.members.entries
        ≡ with_members
        (definition.aggregations mapping.now search.now.aggs (zoned_notes search.now mapping.now piped.now.notes) piped.now.answer.nodes)
        (members_view object.members.entries)) }
{
    if search.aggs.is_empty() {
        return Ok(object);
    }
    let seen = Seen::all(alloc, search, mapping, &piped.notes)?;
    let answers = with_answers(
        alloc,
        mapping,
        &piped.answer.nodes,
        &search.aggs,
        &seen,
        Object::new(alloc),
    )?;
    object.with(alloc, "aggregations", answers.into_json())
}

/// The line of an object with these members and those that stand behind the aggregations, the hits first.
fn finished(alloc: Global, members: Object, hits: Json) -> Result<Text, AllocError>
    ensures { IfOk result (λ t. t ≡ compact_text (object (with_members
        ((codes "hits", view hits.value) ∷ (codes "status", count 200) ∷ (codes "timed_out", boolean false)
        ∷ (codes "took", count 0) ∷ []) (members_view members.members.entries)))) }
{
    members
        .with(alloc, "hits", hits)?
        .with_count(alloc, "status", 200)?
        .with(alloc, "timed_out", flag_value(false))?
        .with_count(alloc, "took", 0)?
        .into_json()
        .text(alloc)
}

/// The line of the final answer to a search, with what its pipelines say, of an index with this mapping and so many shards, of
/// which some failed. Only numbers of 64 bits can be printed, so an answer with a wider sum or key is refused before.
pub fn response(
    alloc: Global,
    search: &Search,
    mapping: &Mapping,
    piped: &Piped,
    shards: u32,
    failures: &List<Failure>,
) -> Result<Text, AllocError>
    requires in_range { out_of_range search.now piped.now.answer ≡ None }
    requires few { length failures.now ≤ shards }
    ensures { IfOk result (λ t. t ≡ definition.response_line search.now mapping.now piped.now shards failures.now) }
{
    let told = shards_value(alloc, shards, failures)?;
    let opened = Object::new(alloc).with(alloc, "_shards", told)?;
    let answered = with_aggregations(alloc, opened, search, mapping, piped)?;
    let hits = hits_value(alloc, piped.answer.hits)?;
    finished(alloc, answered, hits)
}
