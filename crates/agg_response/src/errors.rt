//! The lines of refused searches, and the last line of a run that ends early.
ghost use Rattle.std.specs.Prelude.{◌≡◌, IfOk, codes, [], ◌∷◌, map, string_bytes};
ghost use Rattle.serde_json.specs.Data.{object, no_members};
ghost use Rattle.serde_json.specs.View.{view, members_view};
ghost use Rattle.serde_json.specs.Written.{compact_text};
ghost use Rattle.agg_spec.specs.Json.{array_of, object_of, count, with_members};
ghost use Rattle.agg_spec.specs.EndLines as definition;
ghost use Rattle.agg_spec.specs.ErrorLines.{breaker_name as name_of_breaker, durability as durability_of, breaker_reason};
ghost use Rattle.agg_spec.specs.ErrorLines.{breaker_members as members_of_breaker, failure_value, failures_member, exception_line};
ghost use Rattle.agg_spec.specs.ErrorLines.{refusal_members as members_of_refusal, refusal_line};

use crate::values::{Array, Json, Object};
use agg_model::script_refusal::{
    BAD_HEADER, BAD_INDEX_LINE, INPUT_TOO_LONG, LINE_TOO_LONG, MALFORMED_ACTION, MISSING_BODY,
    MISSING_SECTION, MISSING_SOURCE, NOT_BUILT, TOO_MANY_DOCUMENTS, UPDATE_NOT_SUPPORTED,
};
use agg_model::{Failure, List, Refused, Text, Tripped, Usage, Which};
use std::alloc::{AllocError, Global};

/// The line of an error with these members.
pub(crate) fn error_line(alloc: Global, members: Object, status: u16) -> Result<Text, AllocError>
    ensures { IfOk result (λ t. t ≡ compact_text (object_of
        ((codes "error", object (members_view members.members.entries)) ∷ (codes "status", count status) ∷ []))) }
{
    let line = Object::new(alloc)
        .with(alloc, "error", members.into_json())?
        .with_count(alloc, "status", u64::from(status))?;
    line.into_json().text(alloc)
}

/// The name of a breaker.
pub(crate) fn breaker_name(which: Which) -> &'static str
    ensures { result.now ≡ name_of_breaker which }
{
    match which {
        Which::Request => "request",
        Which::Fielddata => "fielddata",
        Which::Inflight => "inflight_requests",
        Which::Parent => "parent",
    }
}

/// Whether a later try can help.
fn durability(which: Which) -> &'static str
    ensures { result.now ≡ durability_of which }
{
    match which {
        Which::Fielddata => "PERMANENT",
        Which::Request | Which::Inflight | Which::Parent => "TRANSIENT",
    }
}

/// What a breaker says of the charge that it refused.
fn reason(alloc: Global, tripped: &Tripped, label: &str) -> Result<String, AllocError>
    ensures { IfOk result (λ s. string_bytes s ≡ breaker_reason tripped.now label.now) }
{
    let name = breaker_name(tripped.which);
    let (wanted, limit) = (tripped.wanted, tripped.limit);
    format!(in alloc;
        "[{name}] Data too large, data for [{label}] would be [{wanted}b], which is larger than the limit of [{limit}b]"
    )
}

/// The members of a charge that a breaker refused; `label` says what the bytes were for.
fn breaker_members(alloc: Global, tripped: &Tripped, label: &str) -> Result<Object, AllocError>
    ensures { IfOk result (λ o. members_view o.members.entries ≡ with_members (members_of_breaker tripped.now label.now) no_members) }
{
    Object::new(alloc)
        .with_count(alloc, "bytes_limit", tripped.limit)?
        .with_count(alloc, "bytes_wanted", tripped.wanted)?
        .with_text(alloc, "durability", durability(tripped.which))?
        .with_text(alloc, "reason", reason(alloc, tripped, label)?.as_str())?
        .with_text(alloc, "type", "circuit_breaking_exception")
}

/// A shard that failed, with the refused charge of its task.
fn failure_value(alloc: Global, failure: &Failure) -> Result<Json, AllocError>
    ensures { IfOk result (λ j. view j.value ≡ failure_value failure.now) }
{
    let reason = breaker_members(alloc, &failure.tripped, "search")?;
    Ok(
        Object::new(alloc)
            .with(alloc, "reason", reason.into_json())?
            .with_count(alloc, "shard", u64::from(failure.shard))?
            .into_json(),
    )
}

/// All shards that failed.
fn failure_values(alloc: Global, failures: &List<Failure>) -> Result<Json, AllocError>
    ensures { IfOk result (λ j. view j.value ≡ array_of (map failure_value failures.now)) }
{
    let mut values = Array::new(alloc);
    for failure in failures.as_slice() {
        values = values.with(failure_value(alloc, failure)?)?;
    }
    Ok(values.into_json())
}

/// The object with the shards that failed, where there are some.
pub(crate) fn with_failures(
    alloc: Global,
    object: Object,
    failures: &List<Failure>,
) -> Result<Object, AllocError>
    ensures { IfOk result (λ o. members_view o.members.entries
        ≡ with_members (failures_member failures.now) (members_view object.members.entries)) }
{
    if failures.is_empty() {
        return Ok(object);
    }
    object.with(alloc, "failures", failure_values(alloc, failures)?)
}

/// The line of a charge that a breaker refused. `label` says what the bytes were for, `search` or `columns`; `status` is
/// 429 for a search and for columns that are beyond a limit of a settings line, and the program's exit status for columns
/// that it can't keep at all. `failures` are the shards that had failed before, which a search with partial results
/// leaves out.
pub fn exception(
    alloc: Global,
    tripped: &Tripped,
    label: &str,
    status: u16,
    failures: &List<Failure>,
) -> Result<Text, AllocError>
    ensures { IfOk result (λ t. t ≡ exception_line tripped.now label.now status failures.now) }
{
    let members = breaker_members(alloc, tripped, label)?;
    let all = with_failures(alloc, members, failures)?;
    error_line(alloc, all, status)
}

/// The members of a refusal.
fn refusal_members(alloc: Global, refused: &Refused) -> Result<Object, AllocError>
    ensures { IfOk result (λ o. members_view o.members.entries ≡ with_members (members_of_refusal refused.now) no_members) }
{
    let members = Object::new(alloc);
    match refused {
        Refused::NotJson => members
            .with_text(alloc, "reason", "the body is not JSON")?
            .with_text(alloc, "type", "parsing_exception"),
        Refused::Bad { code, path } => members
            .with_count(alloc, "code", u64::from(*code))?
            .with_text(alloc, "path", path.as_str())?
            .with_text(alloc, "reason", "bad request")?
            .with_text(alloc, "type", "parsing_exception"),
        Refused::TooManyBuckets { count, max } => members
            .with_count(alloc, "count", *count)?
            .with_count(alloc, "max_buckets", *max)?
            .with_text(alloc, "reason", "too many buckets")?
            .with_text(alloc, "type", "too_many_buckets_exception"),
        Refused::SumRange { path } => members
            .with_text(alloc, "path", path.as_str())?
            .with_text(alloc, "reason", "a number is outside 64 bits")?
            .with_text(alloc, "type", "number_range_exception"),
        Refused::TooWide => members
            .with_text(alloc, "reason", "the search is too wide")?
            .with_text(alloc, "type", "too_wide_exception"),
    }
}

/// The line of a refused search, with the shards that it left out.
pub fn refusal(
    alloc: Global,
    refused: &Refused,
    failures: &List<Failure>,
) -> Result<Text, AllocError>
    ensures { IfOk result (λ t. t ≡ refusal_line refused.now failures.now) }
{
    let members = refusal_members(alloc, refused)?;
    let all = with_failures(alloc, members, failures)?;
    error_line(alloc, all, 400)
}

/// The last line of a run whose words are outside the grammar.
pub fn usage_line(alloc: Global, usage: &Usage) -> Result<Text, AllocError>
    ensures { IfOk result (λ t. t ≡ definition.usage_line usage.now) }
{
    let members = Object::new(alloc)
        .with_text(alloc, "key", usage.key.as_str())?
        .with_text(alloc, "type", "usage")?
        .with_text(alloc, "value", usage.value.as_str())?;
    error_line(alloc, members, 2)
}

/// The error type of a refused script; empty for a number that refuses none.
fn script_type(number: u8) -> &'static str
    ensures { result.now ≡ definition.script_type number }
{
    match number {
        NOT_BUILT => "not_built",
        LINE_TOO_LONG => "line_too_long",
        BAD_INDEX_LINE => "bad_index_line",
        MALFORMED_ACTION => "malformed_action",
        UPDATE_NOT_SUPPORTED => "update_not_supported",
        MISSING_SOURCE => "missing_source",
        TOO_MANY_DOCUMENTS => "too_many_documents",
        MISSING_BODY => "missing_body",
        INPUT_TOO_LONG => "input_too_long",
        MISSING_SECTION => "missing_section",
        BAD_HEADER => "bad_header",
        _ => "",
    }
}

/// The last line of a run whose script is refused: the refusal's number in `agg_model::script_refusal`, the line where
/// it was found, counted from 1, and the JSON pointer in the index line, which prints for `BAD_INDEX_LINE` alone.
pub fn script_line(alloc: Global, number: u8, line: u64, path: &Text) -> Result<Text, AllocError>
    ensures { IfOk result (λ t. t ≡ definition.script_line number line path.now) }
{
    let members = Object::new(alloc)
        .with_count(alloc, "line", line)?
        .with_count(alloc, "number", u64::from(number))?;
    let located = if number == BAD_INDEX_LINE {
        members.with_text(alloc, "path", path.as_str())?
    } else {
        members
    };
    let members = located.with_text(alloc, "type", script_type(number))?;
    error_line(alloc, members, 5)
}
