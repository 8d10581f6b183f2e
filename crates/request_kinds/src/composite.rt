//! The kind `composite` ('Composite aggregation').

ghost use Rattle.std.specs.Prelude.{◌≡◌, [], IfOk, map, option_map};
ghost use Rattle.serde_json.specs.View.{view, members_view};
ghost use Rattle.json_walk.specs.Places.{pointer};
ghost use Rattle.agg_reading.specs.Reading.{Gives};
ghost use Rattle.agg_reading.specs.After.{source_names, after_key, distinct_from, composite_in, composite_at};
ghost use Rattle.request_kinds.specs.Pages.{after_view};

use crate::after::{After, after_in, after_key, check_after, is_source_name};
use crate::numbers::small_in;
use crate::sources::{Source, sources};
use agg_mapping::OrderedMapping;
use agg_model::body_refusal::{OUT_OF_RANGE, UNKNOWN_MEMBER, WRONG_TYPE};
use agg_model::limits::MAX_PAGE;
use agg_model::{CompositeSource, Key, Kind, List};
use agg_reading::RequestFault;
use json_walk::{At, check_names, object, required};
use serde_json::{Map, Value};
use std::alloc::{AllocError, Global};

/// Refuses, with `OUT_OF_RANGE` at its place, a source that has the name of one before it. There are at most
/// `MAX_SOURCES` sources.
#[tactic(auto, unfolding(agg_reading::specs::After::distinct_from))]
fn check_distinct(alloc: Global, at: &At<'_>, sources: &[Source]) -> Result<(), RequestFault>
    ensures { Gives (λ u. u) result (distinct_from (pointer at.now) 0 [] (source_names sources.now)) }
{
    for (place, source) in sources.iter().enumerate() {
        if is_source_name(&sources[..place], source.0.name.as_str()) {
            return At::Item(at, place).refuse(alloc, OUT_OF_RANGE);
        }
    }
    Ok(())
}

/// The sources alone, moved.
fn without_kinds(alloc: Global, sources: List<Source>) -> Result<List<CompositeSource>, AllocError>
    ensures { IfOk result (λ s. s ≡ map (λ x. x.0) sources) }
{
    let mut all = List::new(alloc);
    for (source, _) in sources.into_vec() {
        all.push(source)?;
    }
    Ok(all)
}

/// The key of the last bucket of the page before; none where `after` is absent.
fn key_of(
    alloc: Global,
    sources: &[Source],
    after: &Option<After<'_>>,
) -> Result<Option<Key>, AllocError>
    ensures { IfOk result (λ k. k ≡ option_map (after_key sources.now) (option_map after_view after.now)) }
{
    match after {
        None => Ok(None),
        Some(after) => Ok(Some(after_key(alloc, sources, after)?)),
    }
}

/// The members beside `sources`, over these sources.
#[tactic(auto, unfolding(agg_reading::specs::After::composite_in))]
fn composite_over(
    alloc: Global,
    sources: List<Source>,
    at: &At<'_>,
    members: &Map<String, Value>,
) -> Result<Kind, RequestFault>
    ensures { Gives (λ k. k) result (composite_in sources (pointer at.now) (members_view members.now.entries)) }
{
    let after = after_in(alloc, sources.as_slice(), at, members)?;
    let size = small_in(alloc, 1, MAX_PAGE, "size", at, members)?;
    check_after(alloc, at, sources.as_slice(), &after)?;
    check_distinct(alloc, &At::Member(at, "sources"), sources.as_slice())?;
    let after = key_of(alloc, sources.as_slice(), &after)?;
    Ok(Kind::Composite {
        sources: without_kinds(alloc, sources)?,
        size: size.unwrap_or(10),
        after,
    })
}

/// The kind `composite`.
#[tactic(auto, unfolding(agg_reading::specs::After::composite_at))]
pub fn composite(
    alloc: Global,
    mapping: &OrderedMapping<'_>,
    at: &At<'_>,
    value: &Value,
) -> Result<Kind, RequestFault>
    ensures { Gives (λ k. k) result (composite_at mapping.now (pointer at.now) (view value.now)) }
{
    let members = object(alloc, WRONG_TYPE, at, value)?;
    check_names(
        alloc,
        UNKNOWN_MEMBER,
        at,
        members,
        &["after", "size", "sources"],
    )?;
    let said = required(alloc, at, members, "sources")?;
    let sources = sources(alloc, mapping, &At::Member(at, "sources"), said)?;
    composite_over(alloc, sources, at, members)
}
