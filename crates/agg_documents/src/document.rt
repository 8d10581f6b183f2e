//! One document.

ghost use Rattle.std.specs.Prelude.{◌≡◌, IfOk};
ghost use Rattle.agg_model.specs.MappingOrder.{IsOrdered};
ghost use Rattle.agg_reading.specs.Document.{document_at};
ghost use Rattle.document_rows.specs.Faults.{Gives};

use agg_mapping::OrderedMapping;
use agg_model::{Copying, Document, Mapping, Text};
use document_rows::{ItemFault, root_row_of};
use std::alloc::Global;

/// The document of a source line with this id and this routing ('Bulk API', 'Mapping' of Elasticsearch Reference 8).
///
/// The first refusal in the walk of the source counts: `SOURCE_NOT_OBJECT`, `WRONG_FIELD_TYPE`, `NUMBER_OUT_OF_RANGE`,
/// `KEYWORD_TOO_LONG`, `TOO_MANY_NESTED_OBJECTS`, `TOO_MANY_FIELD_VALUES` or `STRICT_MAPPING`. JSON is that of RFC
/// 8259. `Memory` may come in the place of any of them.
pub fn document_of(
    alloc: Global,
    mapping: &Mapping,
    id: &Text,
    routing: &Text,
    source: &[u8],
) -> Result<Document, ItemFault>
    requires { IsOrdered mapping.now }
    ensures root { Gives (λ document. document.root) result (document_at mapping.now source.now) }
    ensures id { IfOk result (λ document. document.id ≡ id.now) }
    ensures routing { IfOk result (λ document. document.routing ≡ routing.now) }
{
    let root = root_row_of(alloc, &OrderedMapping::of(mapping), source)?;
    Ok(Document {
        id: id.copy(alloc)?,
        routing: routing.copy(alloc)?,
        root,
    })
}
