//! Numbers, booleans and words of a set, as values and as members that may be absent. `null` is a value, not an
//! absent member.

ghost use Rattle.std.specs.Prelude.{◌≡◌, ◌≤◌, option_map, map, [], None, Some, IfOk, IfSome, ⊤};
ghost use Rattle.serde_json.specs.View.{view, members_view, items_view};
ghost use Rattle.json_walk.specs.Places.{pointer};
ghost use Rattle.agg_reading.specs.Reading.{Gives};
ghost use Rattle.agg_reading.specs.Json.{optional};
ghost use Rattle.agg_reading.specs.Numbers.{whole_at, signed_at, truth_at, choice_at};

use crate::at::At;
use crate::members::{is_one_of, member, text};
use agg_model::body_refusal::{OUT_OF_RANGE, WRONG_TYPE};
use agg_reading::RequestFault;
use serde_json::{Map, Number, Value};
use std::alloc::Global;

/// A whole number from `least` to `most`. A value that is no number is refused with `WRONG_TYPE`, any other number with
/// `OUT_OF_RANGE`.
#[tactic(auto, unfolding(agg_reading::specs::Numbers::whole_at, agg_reading::specs::Numbers::number_at))]
pub fn whole(
    alloc: Global,
    least: u64,
    most: u64,
    at: &At<'_>,
    value: &Value,
) -> Result<u64, RequestFault>
    ensures value { Gives (λ x. x) result (whole_at least most (pointer at.now) (view value.now)) }
    ensures high { IfOk result (λ n. n ≤ most) }
{
    let Some(number) = value.as_number() else {
        return at.refuse(alloc, WRONG_TYPE);
    };
    match number.as_u64() {
        Some(n) if least <= n && n <= most => Ok(n),
        _ => at.refuse(alloc, OUT_OF_RANGE),
    }
}

/// The whole number from `least` to `most` in the member of this name; none where it is absent.
pub fn whole_in(
    alloc: Global,
    least: u64,
    most: u64,
    name: &str,
    at: &At<'_>,
    members: &Map<String, Value>,
) -> Result<Option<u64>, RequestFault>
    ensures value { Gives (λ x. x) result (optional (whole_at least most) name.now (pointer at.now) (members_view members.now.entries)) }
    ensures high { IfOk result (λ o. IfSome o (λ n. n ≤ most)) }
{
    match member(members, name) {
        None => Ok(None),
        Some(value) => Ok(Some(whole(alloc, least, most, &At::Member(at, name), value)?)),
    }
}

/// `true` or `false`; any other value is refused with `WRONG_TYPE`.
#[tactic(auto, unfolding(agg_reading::specs::Numbers::truth_at))]
pub fn truth(alloc: Global, at: &At<'_>, value: &Value) -> Result<bool, RequestFault>
    ensures { Gives (λ x. x) result (truth_at (pointer at.now) (view value.now)) }
{
    match value.as_bool() {
        Some(b) => Ok(b),
        None => at.refuse(alloc, WRONG_TYPE),
    }
}

/// A text that is one of the words. A value that is no text is refused with `WRONG_TYPE`, any other text with
/// `OUT_OF_RANGE`.
#[tactic(auto, unfolding(agg_reading::specs::Numbers::choice_at))]
pub fn choice<'v>(
    alloc: Global,
    words: &[&str],
    at: &At<'_>,
    value: &'v Value,
) -> Result<&'v str, RequestFault>
    ensures { Gives (λ s. s.now) result (choice_at (map (λ n. n.now) words.now) (pointer at.now) (view value.now)) }
{
    let found = text(alloc, WRONG_TYPE, at, value)?;
    if is_one_of(found, words) {
        Ok(found)
    } else {
        at.refuse(alloc, OUT_OF_RANGE)
    }
}

/// A whole number of signed 64 bits. A value that is no number is refused with `WRONG_TYPE`, any other number with
/// `OUT_OF_RANGE`.
#[tactic(auto, unfolding(agg_reading::specs::Numbers::signed_at, agg_reading::specs::Numbers::number_at))]
pub fn signed(alloc: Global, at: &At<'_>, value: &Value) -> Result<i64, RequestFault>
    ensures { Gives (λ x. x) result (signed_at (pointer at.now) (view value.now)) }
{
    let Some(number) = value.as_number() else {
        return at.refuse(alloc, WRONG_TYPE);
    };
    match number.as_i64() {
        Some(n) => Ok(n),
        None => at.refuse(alloc, OUT_OF_RANGE),
    }
}

/// The whole number of signed 64 bits in the member of this name; none where it is absent.
pub fn signed_in(
    alloc: Global,
    name: &str,
    at: &At<'_>,
    members: &Map<String, Value>,
) -> Result<Option<i64>, RequestFault>
    ensures { Gives (λ x. x) result (optional signed_at name.now (pointer at.now) (members_view members.now.entries)) }
{
    match member(members, name) {
        None => Ok(None),
        Some(value) => Ok(Some(signed(alloc, &At::Member(at, name), value)?)),
    }
}

/// The `true` or `false` in the member of this name; none where it is absent.
pub fn truth_in(
    alloc: Global,
    name: &str,
    at: &At<'_>,
    members: &Map<String, Value>,
) -> Result<Option<bool>, RequestFault>
    ensures { Gives (λ x. x) result (optional truth_at name.now (pointer at.now) (members_view members.now.entries)) }
{
    match member(members, name) {
        None => Ok(None),
        Some(value) => Ok(Some(truth(alloc, &At::Member(at, name), value)?)),
    }
}
