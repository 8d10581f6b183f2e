//! Documents as rows.

ghost use Rattle.lent_json.specs.View.{view, members_view};
ghost use Rattle.agg_reading.specs.Document.{document_value_at, document_at};
ghost use Rattle.document_rows.specs.Faults.{Gives};
ghost use Rattle.document_rows.specs.States.{root_at};

use crate::draft::RowDraft;
use crate::fault::ItemFault;
use crate::refusal::refuse;
use crate::walk::{Walked, members};
use agg_mapping::OrderedMapping;
use agg_model::item_refusal::SOURCE_NOT_OBJECT;
use agg_model::{Mapping, Row};
use lent_json::{Lent, Scratch, reading};
use std::alloc::Global;

/// The root row that the members of an object give.
fn row_of_members(
    alloc: Global,
    mapping: &OrderedMapping<'_>,
    found: &Vec<(&str, Lent<'_>)>,
) -> Result<Row, ItemFault>
    ensures { Gives (λ r. r) result (root_at mapping.now (members_view found.now.items)) }
{
    let mut walked = Walked {
        row: RowDraft::new(alloc),
        met: 0,
        path: String::new(alloc),
    };
    members(alloc, mapping, 0, &mut walked, found)?;
    Ok(walked.row.finish(alloc)?)
}

/// The root row that a value gives: `SOURCE_NOT_OBJECT` where it is none.
#[tactic(auto, unfolding(agg_reading::specs::Document::document_value_at, agg_reading::specs::Json::object_at))]
fn row_of(alloc: Global, mapping: &OrderedMapping<'_>, value: &Lent<'_>) -> Result<Row, ItemFault>
    ensures { Gives (λ r. r) result (document_value_at mapping.now (view value.now)) }
{
    match value {
        Lent::Object(found) => row_of_members(alloc, mapping, found),
        _ => refuse(alloc, SOURCE_NOT_OBJECT, ""),
    }
}

/// The root row that a source gives by a mapping (Elasticsearch Reference 8, 'Mapping', 'Nested field type'). Members
/// are walked in byte order of their names; null and, unless the mapping is strict, an unmapped member stand for nothing,
/// and a list for its elements.
///
/// The first refusal of the walk has the path of the member, its names joined by dots: `WRONG_FIELD_TYPE`,
/// `NUMBER_OUT_OF_RANGE`, `KEYWORD_TOO_LONG`, `TOO_MANY_NESTED_OBJECTS`, `TOO_MANY_FIELD_VALUES` in a row, and
/// `STRICT_MAPPING` for an unmapped member. `SOURCE_NOT_OBJECT`, with no path, is a source that is no JSON
/// object (RFC 8259) or nests deeper than 127. Want of memory may come in the place of any answer.
///
/// It takes time in proportion to the bytes of the source, and for each member the comparison of its path, with the names
/// around it, to as many paths as the logarithm of the size of the mapping.
///
/// The scratch is kept from one source to the next. It grows to the longest, and nothing else of a source stays in it.
#[tactic(auto, unfolding(agg_reading::specs::Document::document_at))]
pub fn root_row_with(
    alloc: Global,
    mapping: &OrderedMapping<'_>,
    source: &[u8],
    scratch: &mut Scratch,
) -> Result<Row, ItemFault>
    ensures row { Gives (λ r. r) result (document_at mapping.now source.now) }
{
    match reading(alloc, source, scratch)? {
        Some(value) => row_of(alloc, mapping, &value),
        None => refuse(alloc, SOURCE_NOT_OBJECT, ""),
    }
}

/// The same with a scratch of its own, for a single source.
pub fn root_row_of(
    alloc: Global,
    mapping: &OrderedMapping<'_>,
    source: &[u8],
) -> Result<Row, ItemFault>
    ensures row { Gives (λ r. r) result (document_at mapping.now source.now) }
{
    let mut scratch = Scratch::new(alloc);
    root_row_with(alloc, mapping, source, &mut scratch)
}
