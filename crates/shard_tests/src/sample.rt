//! The worked example of the tests: a shard of one document with three nested objects, of one word each.
ghost use Rattle.std.specs.Prelude.{◌≡◌, ◌∷◌, [], IfOk};
ghost use Rattle.agg_model.specs.declared.mapping.FieldKind.TheVariants.{Keyword};
ghost use Rattle.agg_evaluation.specs.Counted.{IsApart};
ghost use Rattle.shard_columns.specs.Built.{IsShardOf};
ghost use Rattle.shard_tests.specs.Example.{item_of, example_root, example_mapping, example_documents};

use agg_model::{
    Children, Document, Field, FieldKind, FieldValues, List, Mapping, NestedPath, Row, Scalar, Text,
};
use shard_columns::Shard;
use std::alloc::{AllocError, Global};

// A nested object with one word of the field 0.
fn item(alloc: Global, word: &str) -> Result<Row, AllocError>
    ensures { IfOk result (λ r. r ≡ item_of word.now) }
{
    let mut words = List::new(alloc);
    words.push(Scalar::Word(Text::of(alloc, word)?))?;
    let mut values = List::new(alloc);
    values.push(FieldValues {
        field: 0,
        values: words,
    })?;
    Ok(Row {
        values,
        children: List::new(alloc),
    })
}

fn mapping(alloc: Global) -> Result<Mapping, AllocError>
    ensures { IfOk result (λ m. m ≡ example_mapping) }
{
    let mut fields = List::new(alloc);
    fields.push(Field {
        path: Text::of(alloc, "items.s")?,
        kind: FieldKind::Keyword,
        ignore_above: None,
        context: 1,
    })?;
    let mut nested = List::new(alloc);
    nested.push(NestedPath {
        path: Text::of(alloc, "items")?,
        parent: 0,
    })?;
    Ok(Mapping {
        fields,
        nested,
        objects: List::new(alloc),
        strict: false,
    })
}

// The document `{"items":[{"s":"k"},{"s":"mm"},{"s":"k"}]}`.
fn root(alloc: Global) -> Result<Row, AllocError>
    ensures { IfOk result (λ r. r ≡ example_root) }
{
    let mut items = List::new(alloc);
    items.push(item(alloc, "k")?)?;
    items.push(item(alloc, "mm")?)?;
    items.push(item(alloc, "k")?)?;
    let mut children = List::new(alloc);
    children.push(Children {
        path: 0,
        rows: items,
    })?;
    Ok(Row {
        values: List::new(alloc),
        children,
    })
}

fn documents(alloc: Global) -> Result<List<Document>, AllocError>
    ensures { IfOk result (λ ds. ds ≡ example_documents) }
{
    let mut documents = List::new(alloc);
    documents.push(Document {
        id: Text::of(alloc, "1")?,
        routing: Text::of(alloc, "1")?,
        root: root(alloc)?,
    })?;
    Ok(documents)
}

/// The shard of that document.
pub(crate) fn sample_shard(alloc: Global) -> Result<Shard, AllocError>
    ensures kinds { IfOk result (λ s. s.kinds ≡ Keyword ∷ []) }
    ensures built { IfOk result (λ s. IsShardOf example_mapping s) }
    ensures apart { IfOk result (λ s. IsApart s.rows) }
{
    let documents = documents(alloc)?;
    let mapping = mapping(alloc)?;
    let shard = Shard::build(alloc, &documents, &mapping)?;
    Ok(shard)
}
