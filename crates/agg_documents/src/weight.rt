//! What a document weighs: one for each of its rows, one for each of its values, and the bytes of its words.
//!
//! A weight of 2^64 - 1 or more is counted as 2^64 - 1, so that no sum leaves its type.

ghost use Rattle.std.specs.Prelude.{◌≡◌, min, sum_by};
ghost use Rattle.agg_reading.specs.Store.{row_weight, children_weight, weight};
ghost use Rattle.agg_model.specs.Weight.{scalar_weight, field_weight};

use agg_model::{Children, Document, FieldValues, List, Row, Scalar};

fn scalar_weight(value: &Scalar) -> u64
    ensures { result ≡ min (scalar_weight value.now) u64.MAX }
{
    match value {
        Scalar::Word(word) => (word.len() as u64).saturating_add(1),
        Scalar::Whole(_) | Scalar::Flag(_) => 1,
    }
}

fn field_weight(field: &FieldValues) -> u64
    ensures { result ≡ min (field_weight field.now) u64.MAX }
{
    let mut weight = 0u64;
    for value in field.values.as_slice() {
        weight = weight.saturating_add(scalar_weight(value));
    }
    weight
}

fn values_weight(fields: &List<FieldValues>) -> u64
    ensures { result ≡ min (sum_by field_weight fields.now) u64.MAX }
{
    let mut weight = 0u64;
    for field in fields.as_slice() {
        weight = weight.saturating_add(field_weight(field));
    }
    weight
}

/// The weight of a row with all rows within it.
#[cycle(weight)]
pub(crate) fn row_weight(row: &Row) -> u64
    ensures { result ≡ min (row_weight row.now) u64.MAX }
{
    let mut weight = values_weight(&row.values).saturating_add(1);
    for children in row.children.as_slice() {
        weight = weight.saturating_add(children_weight(children));
    }
    weight
}

#[cycle(weight)]
fn children_weight(children: &Children) -> u64
    ensures { result ≡ min (children_weight children.now) u64.MAX }
{
    let mut weight = 0u64;
    for row in children.rows.as_slice() {
        weight = weight.saturating_add(row_weight(row));
    }
    weight
}

/// The weight of a document.
pub fn weight_of(document: &Document) -> u64
    ensures { result ≡ min (weight document.now) u64.MAX }
{
    row_weight(&document.root)
}
