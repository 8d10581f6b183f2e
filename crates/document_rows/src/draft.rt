//! A row while its object is walked.

ghost use Rattle.std.specs.Prelude.{◌≡◌, ◌<◌, List as Items, true, map, nat_lt, IfOk, IsTrue, OnOk};
ghost use Rattle.agg_model.specs.declared.mapping.Field.{Field};
ghost use Rattle.agg_reading.specs.Rows.{finished_field};
ghost use Rattle.document_rows.specs.Drafts.{field_values, child_rows, is_typed};

use crate::lists::{append, joined};
use crate::values::in_order;
use agg_model::{Children, FieldValues, List, Row, Scalar};
use std::alloc::{AllocError, Global};
use std::collections::BTreeMap;
use std::marker::Model;

/// The values of each field, walked to the end.
#[tactic(auto, unfolding(agg_reading::specs::Rows::finished_field))]
fn finished_fields(
    alloc: Global,
    fields: Vec<(u32, List<Scalar>)>,
) -> Result<List<FieldValues>, AllocError>
    requires { (all : Items Field) × (is_typed all (map field_values fields.items) ≡ true) }
    ensures { IfOk result (λ fs. fs ≡ map finished_field (map field_values fields.items)) }
{
    let mut finished = List::from_vec(Vec::with_capacity(alloc, fields.len())?);
    for (field, values) in fields {
        finished.push(FieldValues {
            field,
            values: in_order(values)?,
        })?;
    }
    Ok(finished)
}

/// The rows at each nested path.
fn all_children(
    alloc: Global,
    children: Vec<(u32, List<Row>)>,
) -> Result<List<Children>, AllocError>
    ensures { IfOk result (λ cs. cs ≡ map child_rows children.items) }
{
    let mut all = List::from_vec(Vec::with_capacity(alloc, children.len())?);
    for (path, rows) in children {
        all.push(Children { path, rows })?;
    }
    Ok(all)
}

/// A row while its object is walked: the values of each field and the rows at each nested path, in the order of the
/// walk. A value is put in its place in time in the logarithm of the fields that have one, and at once where the fields
/// come in their order.
#[derive(Drop)]
pub(crate) struct RowDraft {
    values: Vec<(u32, List<Scalar>)>,
    /// The values instead, once a field came late.
    other_values: BTreeMap<u32, List<Scalar>>,
    children: Vec<(u32, List<Row>)>,
    /// The rows instead, once a path came late.
    other_children: BTreeMap<u32, List<Row>>,
}

impl Model for RowDraft {
    ghost use Rattle.agg_reading.specs.declared.parts.Draft.{Draft};
    ghost use Rattle.agg_model.specs.contracts.row.Children as child;
    ghost use Rattle.std.specs.Coded.{codes};
    ghost use Rattle.document_rows.specs.Drafts.{all_lists, draft_of, Ascends};

    ghost Value = { Draft };

    ghost coded = { Prim.hlevel (codes, child.the_row.coded) };

    ghost view = { λ d. draft_of (all_lists d.values.items d.other_values.entries) (all_lists d.children.items d.other_children.entries) };

    ghost invariant = { λ d. Ascends 0 d.values.items × Ascends 0 d.children.items };
}

impl RowDraft {
    ghost use Rattle.agg_reading.specs.Rows.{empty_draft, count_in, with_value, with_row, finished};

    /// A row without values; it takes no memory.
    pub(crate) fn new(alloc: Global) -> Self
        ensures { result ≡ empty_draft }
    {
        RowDraft {
            values: Vec::new(alloc),
            other_values: BTreeMap::new(alloc),
            children: Vec::new(alloc),
            other_children: BTreeMap::new(alloc),
        }
    }

    /// One more value of a field, behind those before. The answer is `false` where the field has `most` already, and
    /// then the row is of no more use.
    pub(crate) fn add_value(
        &mut self,
        alloc: Global,
        field: u32,
        most: usize,
        value: Scalar,
    ) -> Result<bool, AllocError>
        requires { 0 < most }
        ensures room { IfOk result (λ added. added ≡ nat_lt (count_in field self.old.values) most) }
        ensures added { IfOk result (λ added. IsTrue added → self.new ≡ record { values = with_value field value self.old.values; children = self.old.children }) }
    {
        let added = append(
            alloc,
            &mut self.values,
            &mut self.other_values,
            field,
            Some(most),
            value,
        )?;
        Ok(added)
    }

    /// One more row beneath at a nested path, behind those before.
    pub(crate) fn add_row(&mut self, alloc: Global, path: u32, row: Row) -> Result<(), AllocError>
        ensures { OnOk result (self.new ≡ record { values = self.old.values; children = with_row path row self.old.children }) }
    {
        append(
            alloc,
            &mut self.children,
            &mut self.other_children,
            path,
            None,
            row,
        )?;
        Ok(())
    }

    /// The row, walked to its end: the values of each field ascending, and each word once.
    #[tactic(auto, unfolding(agg_reading::specs::Rows::finished, agg_reading::specs::Rows::finished_field))]
    pub(crate) fn finish(self, alloc: Global) -> Result<Row, AllocError>
        requires { (fields : Items Field) × (is_typed fields self.values ≡ true) }
        ensures { IfOk result (λ row. row ≡ finished self) }
    {
        let RowDraft {
            values,
            other_values,
            children,
            other_children,
        } = self;
        Ok(Row {
            values: finished_fields(alloc, joined(alloc, values, other_values)?)?,
            children: all_children(alloc, joined(alloc, children, other_children)?)?,
        })
    }
}
