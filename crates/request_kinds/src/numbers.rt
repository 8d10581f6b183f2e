//! Members of one plain value that several kinds have.

ghost use Rattle.std.specs.Prelude.{◌≡◌, ◌≤◌, IfOk, IfSome, map, option_map};
ghost use Rattle.serde_json.specs.View.{members_view};
ghost use Rattle.json_walk.specs.Places.{pointer};
ghost use Rattle.agg_reading.specs.Reading.{Gives};
ghost use Rattle.agg_reading.specs.Json.{optional, text_at};
ghost use Rattle.agg_reading.specs.Numbers.{whole_at, choice_at};

use agg_model::body_refusal::WRONG_TYPE;
use agg_reading::RequestFault;
use json_walk::{At, choice, member, text, whole_in};
use serde_json::{Map, Value};
use std::alloc::Global;

/// The whole number from `least` to `most` in the member of this name; none where it is absent.
pub fn small_in(
    alloc: Global,
    least: u32,
    most: u32,
    name: &str,
    at: &At<'_>,
    members: &Map<String, Value>,
) -> Result<Option<u32>, RequestFault>
    ensures value { Gives (λ x. x) result (optional (whole_at least most) name.now (pointer at.now) (members_view members.now.entries)) }
    ensures high { IfOk result (λ o. IfSome o (λ n. n ≤ most)) }
{
    match whole_in(alloc, u64::from(least), u64::from(most), name, at, members)? {
        None => Ok(None),
        Some(n) => Ok(Some(n as u32)),
    }
}

/// The word of this set in the member of this name; none where it is absent.
pub fn choice_in<'v>(
    alloc: Global,
    words: &[&str],
    name: &str,
    at: &At<'_>,
    members: &'v Map<String, Value>,
) -> Result<Option<&'v str>, RequestFault>
    ensures { Gives (λ o. option_map (λ s. s.now) o) result
        (optional (choice_at (map (λ n. n.now) words.now)) name.now (pointer at.now) (members_view members.now.entries)) }
{
    let Some(value) = member(members, name) else {
        return Ok(None);
    };
    let word = choice(alloc, words, &At::Member(at, name), value)?;
    Ok(Some(word))
}

/// The text in the member of this name; none where it is absent.
pub fn text_in<'v>(
    alloc: Global,
    name: &str,
    at: &At<'_>,
    members: &'v Map<String, Value>,
) -> Result<Option<&'v str>, RequestFault>
    ensures { Gives (λ o. option_map (λ s. s.now) o) result
        (optional (text_at WRONG_TYPE) name.now (pointer at.now) (members_view members.now.entries)) }
{
    let Some(value) = member(members, name) else {
        return Ok(None);
    };
    let found = text(alloc, WRONG_TYPE, &At::Member(at, name), value)?;
    Ok(Some(found))
}
