//! The change of the settings in force by a settings line.

ghost use Rattle.std.specs.Prelude.{◌≡◌, ◌≤◌, IfOk, IfErr, IfSome, IsErrAnd, Ok, option_map, true};
ghost use Rattle.serde_json.specs.View.{members_view, view};
ghost use Rattle.agg_reading.specs.SettingsLines.{is_settings_line, scope_of};
ghost use Rattle.agg_settings.specs.Changes.{batch_after, batch_in, buckets_after, buckets_in, changed, count_in, first_refused, is_taken, limit_after, limit_in, limits_after, settings_after};
ghost use Rattle.agg_settings.specs.ChangeFaults.{IsRefused, Refuses};
ghost use Rattle.agg_settings.specs.Ranges.{AreInRange, AreLimits};

use crate::amount::byte_size;
use crate::change_fault::ChangeFault;
use crate::names::{BATCH, FIELDDATA, INFLIGHT, MAX_BUCKETS, REQUEST, TOTAL};
use agg_model::limits::{GREATEST_MAX_BUCKETS, MAX_BATCH, MAX_BYTE_SIZE, MIN_BATCH};
use agg_model::{Limits, Settings, Text};
use json_walk::{is_one_of, member, sole_member, whole};
use serde_json::{Map, Value};
use std::alloc::Global;

/// The name and the value of a settings line's only member; none for any other value.
#[tactic(auto, unfolding(agg_reading::specs::SettingsLines::scope_of))]
fn scope_of(line: &Value) -> Option<(&str, &Value)>
    ensures { option_map (λ m. (m.0.now, view m.1.now)) result ≡ scope_of (view line.now) }
{
    let (name, value) = sole_member(line.as_object()?)?;
    if is_one_of(name, &["persistent", "transient"]) {
        Some((name, value))
    } else {
        None
    }
}

/// Whether a value is a settings line: an object whose only member is `persistent` or `transient`.
pub fn is_settings_line(line: &Value) -> bool
    ensures { result ≡ is_settings_line (view line.now) }
{
    scope_of(line).is_some()
}

/// The bytes of a limit, in a text as for `-E`; none for any other value.
#[tactic(auto, unfolding(crate::specs::Changes::limit_in))]
fn limit_in(heap: u64, value: &Value) -> Option<u64>
    ensures value { result ≡ limit_in heap (view value.now) }
    ensures high { heap ≤ MAX_BYTE_SIZE → IfSome result (λ n. n ≤ MAX_BYTE_SIZE) }
{
    match value.as_str() {
        Some(text) => byte_size(text.as_bytes(), heap),
        None => None,
    }
}

/// A whole number or a decimal text, from `least` to `most`; none for any other value.
#[tactic(auto, unfolding(crate::specs::Changes::count_in))]
fn count_in(least: u64, most: u64, value: &Value) -> Option<u64>
    ensures value { result ≡ count_in least most (view value.now) }
    ensures low { IfSome result (λ n. least ≤ n) }
    ensures high { IfSome result (λ n. n ≤ most) }
{
    match whole(value) {
        Some(n) if i128::from(least) <= n && n <= i128::from(most) => Some(n as u64),
        _ => None,
    }
}

/// How many results may be merged at a time.
fn batch_in(value: &Value) -> Option<u32>
    ensures value { result ≡ batch_in (view value.now) }
    ensures low { IfSome result (λ n. MIN_BATCH ≤ n) }
    ensures high { IfSome result (λ n. n ≤ MAX_BATCH) }
{
    match count_in(u64::from(MIN_BATCH), u64::from(MAX_BATCH), value) {
        Some(n) => Some(n as u32),
        None => None,
    }
}

/// How many buckets an answer may have.
fn buckets_in(value: &Value) -> Option<u64>
    ensures value { result ≡ buckets_in (view value.now) }
    ensures low { IfSome result (λ n. 1 ≤ n) }
    ensures high { IfSome result (λ n. n ≤ GREATEST_MAX_BUCKETS) }
{
    count_in(1, GREATEST_MAX_BUCKETS, value)
}

/// Whether a line may give this value to the setting of this name.
#[tactic(auto, unfolding(crate::specs::Changes::is_taken))]
fn is_taken(heap: u64, name: &str, value: &Value) -> bool
    ensures { result ≡ is_taken heap name.now (view value.now) }
{
    if name == BATCH {
        value.is_null() || batch_in(value).is_some()
    } else if name == MAX_BUCKETS {
        value.is_null() || buckets_in(value).is_some()
    } else {
        is_one_of(name, &[FIELDDATA, REQUEST, TOTAL, INFLIGHT])
            && (value.is_null() || limit_in(heap, value).is_some())
    }
}

/// The first name, in byte order, that is unknown or has a bad value.
#[tactic(auto, unfolding(crate::specs::Changes::first_refused))]
fn first_refused(heap: u64, members: &Map<String, Value>) -> Option<&str>
    ensures { option_map (λ s. s.now) result ≡ first_refused heap (members_view members.now.entries) }
{
    for (name, value) in members {
        if !is_taken(heap, name.as_str(), value) {
            return Some(name.as_str());
        }
    }
    None
}

/// A limit after the line.
#[tactic(auto, unfolding(crate::specs::Changes::limit_after))]
fn limit_after(name: &str, heap: u64, start: u64, now: u64, members: &Map<String, Value>) -> u64
    ensures value { result ≡ limit_after name.now heap start now (members_view members.now.entries) }
    ensures high { heap ≤ MAX_BYTE_SIZE → start ≤ MAX_BYTE_SIZE → now ≤ MAX_BYTE_SIZE → result ≤ MAX_BYTE_SIZE }
{
    match member(members, name) {
        None => now,
        Some(Value::Null) => start,
        Some(value) => limit_in(heap, value).unwrap_or(now),
    }
}

/// The limits of the breakers after the line.
#[tactic(auto, unfolding(crate::specs::Changes::limits_after))]
fn limits_after(heap: u64, start: Limits, now: Limits, members: &Map<String, Value>) -> Limits
    ensures value { result ≡ limits_after heap start now (members_view members.now.entries) }
    ensures high { heap ≤ MAX_BYTE_SIZE → AreLimits start → AreLimits now → AreLimits result }
{
    Limits {
        request: limit_after(REQUEST, heap, start.request, now.request, members),
        fielddata: limit_after(FIELDDATA, heap, start.fielddata, now.fielddata, members),
        inflight: limit_after(INFLIGHT, heap, start.inflight, now.inflight, members),
        parent: limit_after(TOTAL, heap, start.parent, now.parent, members),
    }
}

/// The number of results that are merged at a time, after the line.
#[tactic(auto, unfolding(crate::specs::Changes::batch_after))]
fn batch_after(start: u32, now: u32, members: &Map<String, Value>) -> u32
    ensures value { result ≡ batch_after start now (members_view members.now.entries) }
    ensures low { MIN_BATCH ≤ start → MIN_BATCH ≤ now → MIN_BATCH ≤ result }
    ensures high { start ≤ MAX_BATCH → now ≤ MAX_BATCH → result ≤ MAX_BATCH }
{
    match member(members, BATCH) {
        None => now,
        Some(Value::Null) => start,
        Some(value) => batch_in(value).unwrap_or(now),
    }
}

/// The greatest number of buckets of an answer after the line.
#[tactic(auto, unfolding(crate::specs::Changes::buckets_after))]
fn buckets_after(start: u64, now: u64, members: &Map<String, Value>) -> u64
    ensures value { result ≡ buckets_after start now (members_view members.now.entries) }
    ensures low { 1 ≤ start → 1 ≤ now → 1 ≤ result }
    ensures high { start ≤ GREATEST_MAX_BUCKETS → now ≤ GREATEST_MAX_BUCKETS → result ≤ GREATEST_MAX_BUCKETS }
{
    match member(members, MAX_BUCKETS) {
        None => now,
        Some(Value::Null) => start,
        Some(value) => buckets_in(value).unwrap_or(now),
    }
}

/// The settings after the line.
#[tactic(auto, unfolding(crate::specs::Changes::settings_after))]
fn settings_after(settings: &Settings, start: &Settings, members: &Map<String, Value>) -> Settings
    ensures value { result ≡ settings_after settings.now start.now (members_view members.now.entries) }
    ensures in_range { AreInRange settings.now → AreInRange start.now → AreInRange result }
{
    Settings {
        batch: batch_after(start.batch, settings.batch, members),
        limits: limits_after(start.heap, start.limits, settings.limits, members),
        max_buckets: buckets_after(start.max_buckets, settings.max_buckets, members),
        ..*settings
    }
}

/// The refusal of a name, or want of memory.
fn refused(alloc: Global, name: &str) -> Result<Settings, ChangeFault>
    ensures { IsErrAnd result (IsRefused name.now) }
{
    Err(ChangeFault::Refused {
        key: Text::of(alloc, name)?,
    })
}

/// The settings after a settings line, by the settings in force and those that the program's words gave (`start`).
///
/// The line may name the four limits of the breakers, each with a text as for `-E`, and `search.max_buckets` (1 to
/// 1,000,000) and `batched_reduce_size` (2 to 1,024), each with a whole number or a decimal text. `null` gives back
/// what the words gave, and percentages are of the heap of the words. All else stays as it is in force.
///
/// Refused with the first name, in byte order, that is none of these or has another value, and with `persistent` or
/// `transient` where that is no object. Want of memory may come in the place of a refusal alone.
#[tactic(auto, unfolding(crate::specs::Changes::changed))]
pub fn change(
    alloc: Global,
    settings: &Settings,
    start: &Settings,
    line: &Value,
) -> Result<Settings, ChangeFault>
    requires line { is_settings_line (view line.now) ≡ true }
    ensures changed { IfOk result (λ new. changed settings.now start.now (view line.now) ≡ Ok new) }
    ensures refused { IfErr result (λ fault. Refuses fault (changed settings.now start.now (view line.now))) }
    ensures in_range { AreInRange settings.now → AreInRange start.now → IfOk result AreInRange }
{
    let (scope, value) = scope_of(line).unwrap();
    let Some(members) = value.as_object() else {
        return refused(alloc, scope);
    };
    match first_refused(start.heap, members) {
        Some(name) => refused(alloc, name),
        None => Ok(settings_after(settings, start, members)),
    }
}
