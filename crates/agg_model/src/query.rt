//! Queries (Elasticsearch Reference 8, 'Query DSL').
ghost use Rattle.std.specs.Prelude.{◌≡◌, IfOk};

use crate::boxed::Boxed;
use crate::copying::Copying;
use crate::list::List;
use crate::text::Text;
use std::alloc::{AllocError, Global};

/// A value that a query asks for. A whole number may lie outside the field's range and then equals nothing.
#[derive(Drop, PartialEq, Eq)]
pub enum Probe {
    Whole(i128),
    Word(Text),
    Flag(bool),
}

/// The four bounds of a `range` query.
#[derive(Clone, Copy, Debug, PartialEq, Eq)]
pub enum RangeOp {
    Gt,
    Gte,
    Lt,
    Lte,
}

/// One bound of a `range` query.
#[derive(Drop, PartialEq, Eq)]
pub struct RangeTest {
    pub op: RangeOp,
    pub value: Probe,
}

/// A query. Fields and nested paths are named by their places in the mapping.
#[derive(Drop, PartialEq, Eq)]
pub enum Query {
    /// `match_all`.
    All,
    /// One value of the field equals this one.
    Term {
        field: u32,
        value: Probe,
    },
    /// One value of the field is in the list.
    Terms {
        field: u32,
        values: List<Probe>,
    },
    /// One value of the field passes all the tests, which stand in the order gt, gte, lt, lte.
    Range {
        field: u32,
        tests: List<RangeTest>,
    },
    /// The field has a value.
    Exists {
        field: u32,
    },
    /// The document's id is in the list.
    Ids {
        values: List<Text>,
    },
    /// All of `must`, none of `must_not`, at least `minimum` of `should`. A `filter` stands in `must`, before it.
    Bool {
        must: List<Query>,
        must_not: List<Query>,
        should: List<Query>,
        minimum: u32,
    },
    /// Some row beneath at the nested path matches.
    Nested {
        path: u32,
        query: Boxed<Query>,
    },
}

impl Copying for Probe {
    fn copy(&self, alloc: Global) -> Result<Self, AllocError> {
        match self {
            Probe::Whole(n) => Ok(Probe::Whole(*n)),
            Probe::Word(w) => Ok(Probe::Word(w.copy(alloc)?)),
            Probe::Flag(b) => Ok(Probe::Flag(*b)),
        }
    }
}

impl Copying for RangeTest {
    fn copy(&self, alloc: Global) -> Result<Self, AllocError> {
        Ok(RangeTest {
            op: self.op,
            value: self.value.copy(alloc)?,
        })
    }
}

#[cycle(query)]
fn copy_queries(alloc: Global, queries: &List<Query>) -> Result<List<Query>, AllocError>
    ensures { IfOk result (λ c. c ≡ queries.now) }
{
    let mut copied = List::new(alloc);
    for query in queries.as_slice() {
        copied.push(query.copy(alloc)?)?;
    }
    Ok(copied)
}

impl Copying for Query {
    #[cycle(query)]
    fn copy(&self, alloc: Global) -> Result<Self, AllocError> {
        match self {
            Query::All => Ok(Query::All),
            Query::Term { field, value } => Ok(Query::Term {
                field: *field,
                value: value.copy(alloc)?,
            }),
            Query::Terms { field, values } => Ok(Query::Terms {
                field: *field,
                values: values.copy(alloc)?,
            }),
            Query::Range { field, tests } => Ok(Query::Range {
                field: *field,
                tests: tests.copy(alloc)?,
            }),
            Query::Exists { field } => Ok(Query::Exists { field: *field }),
            Query::Ids { values } => Ok(Query::Ids {
                values: values.copy(alloc)?,
            }),
            Query::Bool {
                must,
                must_not,
                should,
                minimum,
            } => Ok(Query::Bool {
                must: copy_queries(alloc, must)?,
                must_not: copy_queries(alloc, must_not)?,
                should: copy_queries(alloc, should)?,
                minimum: *minimum,
            }),
            Query::Nested { path, query } => Ok(Query::Nested {
                path: *path,
                query: Boxed::new(alloc, query.get().copy(alloc)?)?,
            }),
        }
    }
}
