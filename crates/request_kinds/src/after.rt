//! `after` of a composite aggregation: the key of the last bucket of the page before ('Composite aggregation').

ghost use Rattle.std.specs.Prelude.{◌≡◌, [], IfOk, codes, option_map, option_copied};
ghost use Rattle.std.specs.List.{list_all};
ghost use Rattle.serde_json.specs.View.{view, members_view};
ghost use Rattle.json_walk.specs.Places.{pointer};
ghost use Rattle.agg_reading.specs.Reading.{Gives};
ghost use Rattle.agg_reading.specs.Json.{optional, is_among};
ghost use Rattle.agg_reading.specs.After.{part_at, source_of, parts_from, names_of, has_names, after_at, source_names, after_rule, after_key};
ghost use Rattle.agg_model.specs.ValueKeys.{probe_key};
ghost use Rattle.request_kinds.specs.Pages.{after_view, part_named};

use crate::sources::Source;
use agg_model::body_refusal::{OUT_OF_RANGE, WRONG_TYPE};
use agg_model::{Copying, Key, List, Probe, Text};
use agg_query::probe;
use agg_reading::RequestFault;
use json_walk::{At, member, object};
use serde_json::{Map, Value};
use std::alloc::{AllocError, Global};

/// `after` as read.
#[derive(Drop)]
pub struct After<'v> {
    /// The parts of those members that name a source, by their names.
    pub parts: List<(Text, Key)>,
    /// All members.
    pub members: &'v Map<String, Value>,
}

/// The part of a key that a value of a field is.
fn probe_key(probe: Probe) -> Key
    ensures { result ≡ probe_key probe }
{
    match probe {
        Probe::Whole(number) => Key::Whole(number),
        Probe::Word(word) => Key::Word(word),
        Probe::Flag(flag) => Key::Flag(flag),
    }
}

/// The part of a source. `null` is one where rows without a value have it, and else refused with `OUT_OF_RANGE`.
#[tactic(auto, unfolding(agg_reading::specs::After::part_at))]
fn part(alloc: Global, source: &Source, at: &At<'_>, value: &Value) -> Result<Key, RequestFault>
    ensures { Gives (λ k. k) result (part_at source.now (pointer at.now) (view value.now)) }
{
    match value {
        Value::Null => {
            if source.0.missing_bucket {
                Ok(Key::Null)
            } else {
                at.refuse(alloc, OUT_OF_RANGE)
            }
        }
        _ => Ok(probe_key(probe(alloc, source.1, at, value)?)),
    }
}

/// The first source of a name.
#[tactic(auto, unfolding(agg_reading::specs::After::source_of))]
fn source_of<'s>(sources: &'s [Source], name: &str) -> Option<&'s Source>
    ensures { option_copied result ≡ source_of name.now sources.now }
{
    sources.iter().find(|s| s.0.name.as_str() == name)
}

/// The parts of those members that name a source.
#[tactic(auto, unfolding(agg_reading::specs::After::parts_from))]
fn parts(
    alloc: Global,
    sources: &[Source],
    at: &At<'_>,
    members: &Map<String, Value>,
) -> Result<List<(Text, Key)>, RequestFault>
    ensures { Gives (λ x. x) result (parts_from sources.now (pointer at.now) [] (members_view members.now.entries)) }
{
    let mut parts = List::new(alloc);
    for (name, value) in members {
        if let Some(source) = source_of(sources, name.as_str()) {
            let part = part(alloc, source, &At::Member(at, name.as_str()), value)?;
            parts.push((Text::of(alloc, name.as_str())?, part))?;
        }
    }
    Ok(parts)
}

/// `after`, an object whose members are parts by the names of sources.
#[tactic(auto, unfolding(agg_reading::specs::After::after_at))]
fn after_of<'v>(
    alloc: Global,
    sources: &[Source],
    at: &At<'_>,
    value: &'v Value,
) -> Result<After<'v>, RequestFault>
    ensures { Gives after_view result (after_at sources.now (pointer at.now) (view value.now)) }
{
    let members = object(alloc, WRONG_TYPE, at, value)?;
    let parts = parts(alloc, sources, at, members)?;
    Ok(After { parts, members })
}

/// The member `after`; none where it is absent.
pub fn after_in<'v>(
    alloc: Global,
    sources: &[Source],
    at: &At<'_>,
    members: &'v Map<String, Value>,
) -> Result<Option<After<'v>>, RequestFault>
    ensures { Gives (option_map after_view) result
        (optional (after_at sources.now) (codes "after") (pointer at.now) (members_view members.now.entries)) }
{
    let Some(value) = member(members, "after") else {
        return Ok(None);
    };
    let found = after_of(alloc, sources, &At::Member(at, "after"), value)?;
    Ok(Some(found))
}

/// Whether there is a member of this name.
#[tactic(auto, using(crate::proofs::NameLemmas::named))]
fn has_member(members: &Map<String, Value>, name: &str) -> bool
    ensures { result ≡ is_among (names_of (members_view members.now.entries)) name.now }
{
    member(members, name).is_some()
}

/// Whether a source has this name.
pub fn is_source_name(sources: &[Source], name: &str) -> bool
    ensures { result ≡ is_among (source_names sources.now) name.now }
{
    for source in sources {
        if name == source.0.name.as_str() {
            return true;
        }
    }
    false
}

/// Whether each source has a member of its name.
fn has_all_sources(sources: &[Source], members: &Map<String, Value>) -> bool
    ensures { result ≡ list_all (is_among (names_of (members_view members.now.entries))) (source_names sources.now) }
{
    for source in sources {
        if !has_member(members, source.0.name.as_str()) {
            return false;
        }
    }
    true
}

/// Whether each member has the name of a source.
fn has_only_sources(sources: &[Source], members: &Map<String, Value>) -> bool
    ensures { result ≡ list_all (is_among (source_names sources.now)) (names_of (members_view members.now.entries)) }
{
    for (name, _) in members {
        if !is_source_name(sources, name.as_str()) {
            return false;
        }
    }
    true
}

/// Refuses, with `OUT_OF_RANGE` at the member `after`, names other than exactly those of the sources.
#[tactic(auto, unfolding(agg_reading::specs::After::after_rule, agg_reading::specs::After::has_names))]
pub fn check_after(
    alloc: Global,
    at: &At<'_>,
    sources: &[Source],
    after: &Option<After<'_>>,
) -> Result<(), RequestFault>
    ensures { Gives (λ u. u) result (after_rule (pointer at.now) sources.now (option_map after_view after.now)) }
{
    let Some(after) = after else {
        return Ok(());
    };
    if has_all_sources(sources, after.members) && has_only_sources(sources, after.members) {
        Ok(())
    } else {
        At::Member(at, "after").refuse(alloc, OUT_OF_RANGE)
    }
}

/// The part of this name.
fn part_of<'p>(parts: &'p [(Text, Key)], name: &str) -> Option<&'p Key>
    ensures { option_copied result ≡ part_named name.now parts.now }
{
    for part in parts {
        if part.0.as_str() == name {
            return Some(&part.1);
        }
    }
    None
}

/// The parts in the order of the sources, as a key.
#[tactic(auto, unfolding(agg_reading::specs::After::after_key))]
pub fn after_key(alloc: Global, sources: &[Source], after: &After<'_>) -> Result<Key, AllocError>
    ensures { IfOk result (λ k. k ≡ after_key sources.now (after_view after.now)) }
{
    let mut keys = List::new(alloc);
    for source in sources {
        if let Some(part) = part_of(after.parts.as_slice(), source.0.name.as_str()) {
            keys.push(part.copy(alloc)?)?;
        }
    }
    Ok(Key::Many(keys))
}
