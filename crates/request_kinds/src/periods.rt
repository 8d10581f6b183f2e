//! The intervals of a date histogram, and its time zone ('Date histogram aggregation': `calendar_interval`,
//! `fixed_interval`, `time_zone`).

ghost use Rattle.std.specs.Prelude.{◌≡◌, ◌≤◌, IfSome, None, Some, codes, if◌then◌else◌, true};
ghost use Rattle.std.specs.Char.{is_ascii_digit};
ghost use Rattle.std.specs.List.{list_all, prefix_len};
ghost use Rattle.std.specs.Str.Parse.{digits_value};
ghost use Rattle.serde_json.specs.View.{members_view};
ghost use Rattle.json_walk.specs.Places.{pointer};
ghost use Rattle.agg_reading.specs.Reading.{Gives};
ghost use Rattle.agg_reading.specs.Json.{optional};
ghost use Rattle.agg_reading.specs.DateHistogram.{calendar_period, unit_millis, is_amount, fixed_of, fixed_period, zone_of, said_at};

use agg_model::body_refusal::{OUT_OF_RANGE, WRONG_TYPE};
use agg_reading::RequestFault;
use date_spec::Period;
use date_text::ahead_of;
use json_walk::{At, member, text};
use serde_json::{Map, Value};
use std::alloc::Global;

/// The greatest number of units of a fixed interval.
const GREATEST_AMOUNT: u64 = 2_147_483_647;

/// How many bytes an offset from UTC has as a zone, as `+01:00`.
const OFFSET_LENGTH: usize = 6;

/// The period of the calendar that has this name.
#[tactic(auto, unfolding(agg_reading::specs::DateHistogram::calendar_period))]
fn calendar_period(name: &str) -> Option<Period>
    ensures { result ≡ calendar_period name.now }
{
    match name {
        "minute" | "1m" => Some(Period::Fixed(60_000)),
        "hour" | "1h" => Some(Period::Fixed(3_600_000)),
        "day" | "1d" => Some(Period::Fixed(86_400_000)),
        "week" | "1w" => Some(Period::Week),
        "month" | "1M" => Some(Period::Month),
        "quarter" | "1q" => Some(Period::Quarter),
        "year" | "1y" => Some(Period::Year),
        _ => None,
    }
}

/// The milliseconds of the unit of this name.
#[tactic(auto, unfolding(agg_reading::specs::DateHistogram::unit_millis))]
fn unit_millis(name: &str) -> Option<u64>
    ensures millis { result ≡ unit_millis name.now }
    ensures bound { IfSome result (λ millis. millis ≤ 86_400_000) }
{
    match name {
        "ms" => Some(1),
        "s" => Some(1000),
        "m" => Some(60_000),
        "h" => Some(3_600_000),
        "d" => Some(86_400_000),
        _ => None,
    }
}

/// How many digits a text begins with.
fn digit_count(text: &str) -> usize
    ensures { result ≡ prefix_len is_ascii_digit text.now }
{
    text.as_bytes()
        .iter()
        .take_while(|byte| byte.is_ascii_digit())
        .count()
}

/// The amount that digits write, from 1 to `GREATEST_AMOUNT`; none where they write another, or have a zero in front.
#[tactic(auto, unfolding(agg_reading::specs::DateHistogram::is_amount))]
fn amount_of(digits: &str) -> Option<u64>
    requires { list_all is_ascii_digit digits.now ≡ true }
    ensures amount { result ≡ (if is_amount digits.now then Some (digits_value 10 digits.now) else None) }
    ensures bound { IfSome result (λ amount. amount ≤ GREATEST_AMOUNT) }
{
    if let [b'0', ..] = digits.as_bytes() {
        return None;
    }
    match digits.parse::<u64>() {
        Ok(amount) if amount <= GREATEST_AMOUNT => Some(amount),
        _ => None,
    }
}

/// So many of a unit, as one period.
#[tactic(auto, unfolding(agg_reading::specs::DateHistogram::fixed_of))]
fn fixed_of(digits: &str, unit: &str) -> Option<Period>
    requires { list_all is_ascii_digit digits.now ≡ true }
    ensures { result ≡ fixed_of digits.now unit.now }
{
    let amount = amount_of(digits)?;
    let millis = unit_millis(unit)?;
    Some(Period::Fixed(amount * millis))
}

/// The period that a text writes as an amount and a unit behind it.
#[tactic(auto, unfolding(agg_reading::specs::DateHistogram::fixed_period))]
fn fixed_period(text: &str) -> Option<Period>
    ensures { result ≡ fixed_period text.now }
{
    let (digits, unit) = text.split_at(digit_count(text));
    fixed_of(digits, unit)
}

/// How many milliseconds the zone of this name is ahead of UTC: `UTC`, `Z`, or an offset `+hh:mm` or `-hh:mm` up to 18
/// hours.
#[tactic(auto, unfolding(agg_reading::specs::DateHistogram::zone_of))]
fn zone_of(name: &str) -> Option<i64>
    ensures { result ≡ zone_of name.now }
{
    match name {
        "UTC" | "Z" => Some(0),
        offset if offset.len() == OFFSET_LENGTH => ahead_of(offset.as_bytes()),
        _ => None,
    }
}

/// The period of the member `calendar_interval`; none where it is absent. A value that is no text is refused with
/// `WRONG_TYPE`, a text that names no period of the calendar with `OUT_OF_RANGE`.
#[tactic(auto, unfolding(agg_reading::specs::DateHistogram::said_at))]
pub fn calendar_in(
    alloc: Global,
    at: &At<'_>,
    members: &Map<String, Value>,
) -> Result<Option<Period>, RequestFault>
    ensures { Gives (λ p. p) result
        (optional (said_at calendar_period) (codes "calendar_interval") (pointer at.now) (members_view members.now.entries)) }
{
    let Some(value) = member(members, "calendar_interval") else {
        return Ok(None);
    };
    let at = At::Member(at, "calendar_interval");
    match calendar_period(text(alloc, WRONG_TYPE, &at, value)?) {
        Some(period) => Ok(Some(period)),
        None => at.refuse(alloc, OUT_OF_RANGE),
    }
}

/// The period of the member `fixed_interval`; none where it is absent. A value that is no text is refused with
/// `WRONG_TYPE`, a text that is no amount of a unit with `OUT_OF_RANGE`.
#[tactic(auto, unfolding(agg_reading::specs::DateHistogram::said_at))]
pub fn fixed_in(
    alloc: Global,
    at: &At<'_>,
    members: &Map<String, Value>,
) -> Result<Option<Period>, RequestFault>
    ensures { Gives (λ p. p) result
        (optional (said_at fixed_period) (codes "fixed_interval") (pointer at.now) (members_view members.now.entries)) }
{
    let Some(value) = member(members, "fixed_interval") else {
        return Ok(None);
    };
    let at = At::Member(at, "fixed_interval");
    match fixed_period(text(alloc, WRONG_TYPE, &at, value)?) {
        Some(period) => Ok(Some(period)),
        None => at.refuse(alloc, OUT_OF_RANGE),
    }
}

/// How many milliseconds the zone of the member `time_zone` is ahead of UTC; none where it is absent. A value that is no
/// text is refused with `WRONG_TYPE`, a text that names no zone with `OUT_OF_RANGE`.
#[tactic(auto, unfolding(agg_reading::specs::DateHistogram::said_at))]
pub fn zone_in(
    alloc: Global,
    at: &At<'_>,
    members: &Map<String, Value>,
) -> Result<Option<i64>, RequestFault>
    ensures { Gives (λ z. z) result
        (optional (said_at zone_of) (codes "time_zone") (pointer at.now) (members_view members.now.entries)) }
{
    let Some(value) = member(members, "time_zone") else {
        return Ok(None);
    };
    let at = At::Member(at, "time_zone");
    match zone_of(text(alloc, WRONG_TYPE, &at, value)?) {
        Some(zone) => Ok(Some(zone)),
        None => at.refuse(alloc, OUT_OF_RANGE),
    }
}
