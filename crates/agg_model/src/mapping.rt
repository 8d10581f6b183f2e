//! Mappings (Elasticsearch Reference 8, 'Mapping').
use crate::copying::Copying;
use crate::list::List;
use crate::text::Text;
use std::alloc::{AllocError, Global};

/// The field data types of the engine.
#[derive(Clone, Copy, Debug, PartialEq, Eq)]
pub enum FieldKind {
    /// Whole numbers of 64 bits.
    Long,
    /// Whole numbers of 32 bits.
    Integer,
    /// Whole numbers of 16 bits.
    Short,
    /// Whole numbers of 8 bits.
    Byte,
    /// Words, compared by their bytes.
    Keyword,
    /// `true` and `false`.
    Boolean,
    /// Instants: whole milliseconds from 1970-01-01T00:00:00.000Z, from `LEAST_INSTANT` to `GREATEST_INSTANT`.
    Date,
}

/// A scalar field of a mapping.
#[derive(Drop)]
pub struct Field {
    /// The names from the root to the field, joined by dots.
    pub path: Text,
    pub kind: FieldKind,
    /// A keyword with more characters than this has no value; none where there is no such bound.
    pub ignore_above: Option<u32>,
    /// The context of its rows: 0 for the root, i + 1 for the i-th nested path.
    pub context: u32,
}

/// A path whose objects are rows of their own ('Nested field type').
#[derive(Drop)]
pub struct NestedPath {
    /// The names from the root to the nested objects, joined by dots.
    pub path: Text,
    /// The context that encloses it: 0 for the root, i + 1 for the i-th nested path.
    pub parent: u32,
}

/// What an index line says of documents. Fields and nested paths stand in byte order of their paths.
#[derive(Drop)]
pub struct Mapping {
    pub fields: List<Field>,
    pub nested: List<NestedPath>,
    /// The paths of the plain objects.
    pub objects: List<Text>,
    /// Whether `dynamic` is `strict`, so that an unmapped name refuses the document.
    pub strict: bool,
}

impl Copying for FieldKind {
    fn copy(&self, _alloc: Global) -> Result<Self, AllocError> {
        Ok(*self)
    }
}

impl Copying for Field {
    fn copy(&self, alloc: Global) -> Result<Self, AllocError> {
        Ok(Field {
            path: self.path.copy(alloc)?,
            kind: self.kind,
            ignore_above: self.ignore_above,
            context: self.context,
        })
    }
}

impl Copying for NestedPath {
    fn copy(&self, alloc: Global) -> Result<Self, AllocError> {
        Ok(NestedPath {
            path: self.path.copy(alloc)?,
            parent: self.parent,
        })
    }
}

impl Copying for Mapping {
    fn copy(&self, alloc: Global) -> Result<Self, AllocError> {
        Ok(Mapping {
            fields: self.fields.copy(alloc)?,
            nested: self.nested.copy(alloc)?,
            objects: self.objects.copy(alloc)?,
            strict: self.strict,
        })
    }
}
