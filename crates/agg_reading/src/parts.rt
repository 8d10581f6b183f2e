//! What a reading has in hand before it is done.
use agg_model::{ActionKind, Children, FieldKind, FieldValues, Kind, List, Mapping, Text};

/// A scalar field, while the other nested paths are not yet known.
#[derive(Drop)]
pub struct FoundField {
    pub path: Text,
    pub kind: FieldKind,
    pub ignore_above: Option<u32>,
    /// The innermost nested path that encloses it; empty for the root.
    pub within: Text,
}

/// A nested path, while the others are not yet known.
#[derive(Drop)]
pub struct FoundPath {
    pub path: Text,
    /// The innermost nested path that encloses it; empty for the root.
    pub within: Text,
}

/// What the walk of a mapping has found, each in byte order of the paths.
#[derive(Drop)]
pub struct Found {
    pub fields: List<FoundField>,
    pub nested: List<FoundPath>,
    pub objects: List<Text>,
}

/// What an index line says.
#[derive(Drop)]
pub struct IndexLine {
    pub name: Text,
    pub mapping: Mapping,
    /// 1 to `MAX_SHARDS`.
    pub shards: u32,
}

/// What an action line says.
#[derive(Drop)]
pub struct Heading {
    pub kind: ActionKind,
    /// 1 to `MAX_ID` bytes.
    pub id: Text,
    pub routing: Text,
}

/// A row while its object is walked: fields ascending, the values of each in the order of the walk.
#[derive(Drop)]
pub struct Draft {
    pub values: List<FieldValues>,
    pub children: List<Children>,
}

/// What a path is to the rows of a context.
#[derive(Clone, Copy, Debug, PartialEq, Eq)]
pub enum Role {
    /// A scalar field of these rows.
    Leaf {
        /// Its place among the fields of the mapping.
        field: u32,
        kind: FieldKind,
        ignore_above: Option<u32>,
    },
    /// An object without rows of its own.
    Plain,
    /// A nested path directly beneath these rows, by its place among the nested paths.
    Nested(u32),
    Unmapped,
}

/// One order of buckets, before its name is looked up among the children.
#[derive(Drop)]
pub struct NamedOrder {
    pub name: Text,
    pub descending: bool,
    /// Where the name stands, as a JSON pointer.
    pub at: Text,
}

/// How many queries and aggregations of a search were begun.
#[derive(Clone, Copy, Debug, PartialEq, Eq)]
pub struct Counts {
    pub queries: u32,
    pub aggregations: u32,
}

/// A kind of aggregation as read, before its children.
#[derive(Drop)]
pub struct ReadKind {
    /// With no order yet.
    pub kind: Kind,
    pub order: List<NamedOrder>,
    /// The context of the rows that it hands on.
    pub within: u32,
    /// How many queries of the search were begun up to its end.
    pub queries: u32,
}
