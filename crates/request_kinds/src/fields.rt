//! Fields of whole numbers and of dates, and nested paths that enclose a context.

ghost use Rattle.std.specs.Prelude.{◌≡◌};
ghost use Rattle.serde_json.specs.View.{members_view};
ghost use Rattle.json_walk.specs.Places.{pointer};
ghost use Rattle.agg_reading.specs.Reading.{Gives};
ghost use Rattle.agg_model.specs.FieldKinds.{is_date_kind, is_number_kind, is_whole_kind};
ghost use Rattle.agg_reading.specs.DateHistogram.{date_field_in};
ghost use Rattle.agg_reading.specs.Histogram.{whole_field_in};
ghost use Rattle.agg_reading.specs.Metrics.{enclosing_at, number_field_in};

use agg_mapping::OrderedMapping;
use agg_model::body_refusal::{NO_SUCH_FIELD, NO_SUCH_PATH};
use agg_model::{Field, FieldKind};
use agg_query::{field_in, nested};
use agg_reading::RequestFault;
use json_walk::At;
use serde_json::{Map, Value};
use std::alloc::Global;

/// Whether a field of this kind has whole numbers.
fn is_whole_kind(kind: FieldKind) -> bool
    ensures { result ≡ is_whole_kind kind }
{
    match kind {
        FieldKind::Long | FieldKind::Integer | FieldKind::Short | FieldKind::Byte => true,
        FieldKind::Keyword | FieldKind::Boolean | FieldKind::Date => false,
    }
}

/// Whether a field of this kind has whole numbers or dates.
fn is_number_kind(kind: FieldKind) -> bool
    ensures { result ≡ is_number_kind kind }
{
    match kind {
        FieldKind::Long
        | FieldKind::Integer
        | FieldKind::Short
        | FieldKind::Byte
        | FieldKind::Date => true,
        FieldKind::Keyword | FieldKind::Boolean => false,
    }
}

/// Whether a field of this kind has dates.
fn is_date_kind(kind: FieldKind) -> bool
    ensures { result ≡ is_date_kind kind }
{
    match kind {
        FieldKind::Date => true,
        FieldKind::Long
        | FieldKind::Integer
        | FieldKind::Short
        | FieldKind::Byte
        | FieldKind::Keyword
        | FieldKind::Boolean => false,
    }
}

/// The field of whole numbers that the member `field` names, and its place. Refused as any field is, and the member with
/// `NO_SUCH_FIELD` where the field has no whole numbers.
#[tactic(auto, unfolding(agg_reading::specs::Histogram::whole_field_in))]
pub fn whole_field_in<'m>(
    alloc: Global,
    mapping: &OrderedMapping<'m>,
    at: &At<'_>,
    members: &Map<String, Value>,
) -> Result<(u32, &'m Field), RequestFault>
    ensures { Gives (λ f. (f.0, f.1.now)) result (whole_field_in mapping.now (pointer at.now) (members_view members.now.entries)) }
{
    let (place, field) = field_in(alloc, mapping, at, members)?;
    if !is_whole_kind(field.kind) {
        return At::Member(at, "field").refuse(alloc, NO_SUCH_FIELD);
    }
    Ok((place, field))
}

/// The field of whole numbers or dates that the member `field` names, and its place. Refused as any field is, and the member
/// with `NO_SUCH_FIELD` where the field has neither.
#[tactic(auto, unfolding(agg_reading::specs::Metrics::number_field_in))]
pub fn number_field_in<'m>(
    alloc: Global,
    mapping: &OrderedMapping<'m>,
    at: &At<'_>,
    members: &Map<String, Value>,
) -> Result<(u32, &'m Field), RequestFault>
    ensures { Gives (λ f. (f.0, f.1.now)) result (number_field_in mapping.now (pointer at.now) (members_view members.now.entries)) }
{
    let (place, field) = field_in(alloc, mapping, at, members)?;
    if !is_number_kind(field.kind) {
        return At::Member(at, "field").refuse(alloc, NO_SUCH_FIELD);
    }
    Ok((place, field))
}

/// The field of dates that the member `field` names, and its place. Refused as any field is, and the member with
/// `NO_SUCH_FIELD` where the field has no dates.
#[tactic(auto, unfolding(agg_reading::specs::DateHistogram::date_field_in))]
pub fn date_field_in<'m>(
    alloc: Global,
    mapping: &OrderedMapping<'m>,
    at: &At<'_>,
    members: &Map<String, Value>,
) -> Result<(u32, &'m Field), RequestFault>
    ensures { Gives (λ f. (f.0, f.1.now)) result (date_field_in mapping.now (pointer at.now) (members_view members.now.entries)) }
{
    let (place, field) = field_in(alloc, mapping, at, members)?;
    if !is_date_kind(field.kind) {
        return At::Member(at, "field").refuse(alloc, NO_SUCH_FIELD);
    }
    Ok((place, field))
}

/// The context of a nested path that strictly encloses this context; any other path is refused with `NO_SUCH_PATH` at
/// `at`.
#[tactic(auto, unfolding(agg_reading::specs::Metrics::enclosing_at, agg_reading::specs::Query::nested_at, agg_model::specs::Contexts::is_in_context))]
pub fn enclosing(
    alloc: Global,
    mapping: &OrderedMapping<'_>,
    context: u32,
    at: &At<'_>,
    path: &str,
) -> Result<u32, RequestFault>
    ensures { Gives (λ x. x) result (enclosing_at mapping.now context (pointer at.now) path.now) }
{
    if !mapping.encloses(path.as_bytes(), context) {
        return at.refuse(alloc, NO_SUCH_PATH);
    }
    let (place, _) = nested(alloc, mapping, 0, at, path)?;
    Ok(place + 1)
}
