//! Documents as rows: the root of a document and each of its nested objects is one row.
ghost use Rattle.std.specs.Prelude.{◌≡◌, IfOk};

use crate::copying::Copying;
use crate::list::List;
use crate::text::Text;
use std::alloc::{AllocError, Global};

/// A value of a field.
#[derive(Drop, PartialEq, Eq)]
pub enum Scalar {
    Whole(i64),
    Word(Text),
    Flag(bool),
}

/// The values that one row has of one field, ascending. Words are distinct, numbers and flags may repeat.
#[derive(Drop)]
pub struct FieldValues {
    /// The field's place among the fields of the mapping.
    pub field: u32,
    pub values: List<Scalar>,
}

/// The rows directly beneath one row at one nested path, in the order of the document.
#[cycle(row)]
#[derive(Drop)]
pub struct Children {
    /// The path's place among the nested paths of the mapping.
    pub path: u32,
    pub rows: List<Row>,
}

/// A root or a nested object: the fields that have a value, ascending, and the nested paths that have a row.
#[cycle(row)]
#[derive(Drop)]
pub struct Row {
    pub values: List<FieldValues>,
    pub children: List<Children>,
}

/// A document of the store.
#[derive(Drop)]
pub struct Document {
    pub id: Text,
    /// The text whose hash chooses the shard.
    pub routing: Text,
    pub root: Row,
}

impl Copying for Scalar {
    fn copy(&self, alloc: Global) -> Result<Self, AllocError> {
        match self {
            Scalar::Whole(n) => Ok(Scalar::Whole(*n)),
            Scalar::Word(w) => Ok(Scalar::Word(w.copy(alloc)?)),
            Scalar::Flag(b) => Ok(Scalar::Flag(*b)),
        }
    }
}

impl Copying for FieldValues {
    fn copy(&self, alloc: Global) -> Result<Self, AllocError> {
        Ok(FieldValues {
            field: self.field,
            values: self.values.copy(alloc)?,
        })
    }
}

#[cycle(row)]
fn copy_rows(alloc: Global, rows: &List<Row>) -> Result<List<Row>, AllocError>
    ensures { IfOk result (λ c. c ≡ rows.now) }
{
    let mut copied = List::new(alloc);
    for row in rows.as_slice() {
        copied.push(row.copy(alloc)?)?;
    }
    Ok(copied)
}

#[cycle(row)]
fn copy_children(alloc: Global, children: &List<Children>) -> Result<List<Children>, AllocError>
    ensures { IfOk result (λ c. c ≡ children.now) }
{
    let mut copied = List::new(alloc);
    for child in children.as_slice() {
        copied.push(child.copy(alloc)?)?;
    }
    Ok(copied)
}

impl Copying for Children {
    #[cycle(row)]
    fn copy(&self, alloc: Global) -> Result<Self, AllocError> {
        Ok(Children {
            path: self.path,
            rows: copy_rows(alloc, &self.rows)?,
        })
    }
}

impl Copying for Row {
    #[cycle(row)]
    fn copy(&self, alloc: Global) -> Result<Self, AllocError> {
        Ok(Row {
            values: self.values.copy(alloc)?,
            children: copy_children(alloc, &self.children)?,
        })
    }
}

impl Copying for Document {
    fn copy(&self, alloc: Global) -> Result<Self, AllocError> {
        Ok(Document {
            id: self.id.copy(alloc)?,
            routing: self.routing.copy(alloc)?,
            root: self.root.copy(alloc)?,
        })
    }
}
