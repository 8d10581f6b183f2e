//! The keys of buckets as JSON members and values.
ghost use Rattle.std.specs.Prelude.{◌≡◌, IfOk, IsTrue, map, zip, string_bytes};
ghost use Rattle.std.specs.List.{list_all};
ghost use Rattle.serde_json.specs.View.{view, members_view};
ghost use Rattle.agg_spec.specs.AnswerTree as tree;
ghost use Rattle.agg_spec.specs.Json.{with_members};
ghost use Rattle.agg_spec.specs.RangeCheck.{is_in_range, key_in_range};

use crate::instants::instant_text;
use crate::numbers::{null_value, wide_value};
use crate::values::{Json, Object, flag_value, text_value};
use agg_model::{CompositeSource, FieldKind, Key, List, Mapping};
use std::alloc::{AllocError, Global};

/// The text of a truth value.
fn flag_text(flag: bool) -> &'static str
    ensures { result.now ≡ tree.flag_text flag }
{
    if flag { "true" } else { "false" }
}

/// The zone in which the terms of a field are printed, where it is one of dates.
pub(crate) fn zone_of_terms(mapping: &Mapping, field: u32) -> Option<i64>
    ensures { result ≡ tree.zone_of_terms mapping.now field }
{
    match mapping.fields.get(field as usize)?.kind {
        FieldKind::Date => Some(0),
        FieldKind::Long
        | FieldKind::Integer
        | FieldKind::Short
        | FieldKind::Byte
        | FieldKind::Keyword
        | FieldKind::Boolean => None,
    }
}

/// The object with a number as its key, and where that is an instant with its text in a zone.
fn with_number(
    alloc: Global,
    object: Object,
    zone: Option<i64>,
    n: i128,
) -> Result<Object, AllocError>
    requires { IsTrue (is_in_range n) }
    ensures { IfOk result (λ o. members_view o.members.entries
        ≡ with_members (tree.number_members zone n) (members_view object.members.entries)) }
{
    let keyed = object.with(alloc, "key", wide_value(n))?;
    match zone {
        Some(zone) => {
            let text = instant_text(alloc, zone, n)?;
            keyed.with_text(alloc, "key_as_string", text.as_str())
        }
        None => Ok(keyed),
    }
}

/// The object with the key of a bucket, whose whole numbers are instants where there is a zone. An instant and a truth value have
/// a number and a text.
pub(crate) fn with_term_key(
    alloc: Global,
    object: Object,
    zone: Option<i64>,
    key: &Key,
) -> Result<Object, AllocError>
    requires { IsTrue (key_in_range key.now) }
    ensures { IfOk result (λ o. members_view o.members.entries
        ≡ with_members (tree.term_members zone key.now) (members_view object.members.entries)) }
{
    match key {
        Key::Whole(n) => with_number(alloc, object, zone, *n),
        Key::Word(word) => object.with_text(alloc, "key", word.as_str()),
        Key::Flag(flag) => object
            .with_count(alloc, "key", u64::from(*flag))?
            .with_text(alloc, "key_as_string", flag_text(*flag)),
        Key::Null | Key::Fixed(_) | Key::Many(_) => object.with(alloc, "key", null_value()),
    }
}

/// A number as a name, or where it is an instant its text in a zone.
fn number_name(alloc: Global, zone: Option<i64>, n: i128) -> Result<String, AllocError>
    ensures { IfOk result (λ s. string_bytes s ≡ tree.number_name zone n) }
{
    match zone {
        Some(zone) => instant_text(alloc, zone, n),
        None => format!(in alloc; "{n}"),
    }
}

/// The name of a bucket with a whole key; empty for any other.
pub(crate) fn key_name(alloc: Global, zone: Option<i64>, key: &Key) -> Result<String, AllocError>
    ensures { IfOk result (λ s. string_bytes s ≡ tree.key_name zone key.now) }
{
    match key {
        Key::Whole(n) => number_name(alloc, zone, *n),
        Key::Null | Key::Flag(_) | Key::Word(_) | Key::Fixed(_) | Key::Many(_) => {
            Ok(String::new(alloc))
        }
    }
}

/// The text of a key, of a number its decimal text or where there is a zone that of an instant; empty for a key that is no value.
pub(crate) fn key_text(alloc: Global, zone: Option<i64>, key: &Key) -> Result<String, AllocError>
    ensures { IfOk result (λ s. string_bytes s ≡ tree.key_text zone key.now) }
{
    match key {
        Key::Whole(n) => number_name(alloc, zone, *n),
        Key::Flag(flag) => String::from_str(alloc, flag_text(*flag)),
        Key::Word(word) => String::from_str(alloc, word.as_str()),
        Key::Null | Key::Fixed(_) | Key::Many(_) => Ok(String::new(alloc)),
    }
}

/// One part of a composite key.
fn part_value(alloc: Global, key: &Key) -> Result<Json, AllocError>
    requires { IsTrue (key_in_range key.now) }
    ensures { IfOk result (λ j. view j.value ≡ tree.part_value key.now) }
{
    match key {
        Key::Whole(n) => Ok(wide_value(*n)),
        Key::Word(word) => text_value(alloc, word.as_str()),
        Key::Flag(flag) => Ok(flag_value(*flag)),
        Key::Null | Key::Fixed(_) | Key::Many(_) => Ok(null_value()),
    }
}

/// The object with the parts of a composite key, each under the name of its source.
fn with_parts(
    alloc: Global,
    object: Object,
    sources: &List<CompositeSource>,
    keys: &List<Key>,
) -> Result<Object, AllocError>
    requires { IsTrue (list_all key_in_range keys.now) }
    ensures { IfOk result (λ o. members_view o.members.entries
        ≡ with_members (map (λ p. (p.0.name, tree.part_value p.1)) (zip sources.now keys.now)) (members_view object.members.entries)) }
{
    let mut object = object;
    for (place, source) in sources.as_slice().iter().enumerate() {
        let Some(key) = keys.get(place) else {
            return Ok(object);
        };
        object = object.with(alloc, source.name.as_str(), part_value(alloc, key)?)?;
    }
    Ok(object)
}

/// A composite key.
pub(crate) fn composite_value(
    alloc: Global,
    sources: &List<CompositeSource>,
    key: &Key,
) -> Result<Json, AllocError>
    requires { IsTrue (key_in_range key.now) }
    ensures { IfOk result (λ j. view j.value ≡ tree.composite_value sources.now key.now) }
{
    let object = Object::new(alloc);
    match key {
        Key::Many(keys) => Ok(with_parts(alloc, object, sources, keys)?.into_json()),
        Key::Null | Key::Whole(_) | Key::Flag(_) | Key::Word(_) | Key::Fixed(_) => {
            Ok(object.into_json())
        }
    }
}
