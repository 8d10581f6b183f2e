//! Aggregations and searches (Elasticsearch Reference 8, 'Aggregations').
ghost use Rattle.std.specs.Prelude.{◌≡◌, IfOk};

use crate::copying::Copying;
use crate::key::Key;
use crate::list::List;
use crate::pipeline::Pipe;
use crate::query::{Probe, Query};
use crate::row::Scalar;
use crate::text::Text;
use date_spec::Period;
use std::alloc::{AllocError, Global};

/// What an order of buckets compares.
#[derive(Clone, Copy, Debug, PartialEq, Eq)]
pub enum OrderBy {
    /// The number of documents, `_count`.
    Count,
    /// The key, `_key`.
    Key,
    /// The value of the metric at this place among the children; null stands last in both directions.
    Child(u32),
}

/// One order of buckets.
#[derive(Clone, Copy, Debug, PartialEq, Eq)]
pub struct Order {
    pub by: OrderBy,
    pub descending: bool,
}

/// `extended_bounds` and `hard_bounds` of a histogram.
#[derive(Clone, Copy, Debug, PartialEq, Eq)]
pub struct Bounds {
    pub min: Option<i64>,
    pub max: Option<i64>,
}

/// Where the buckets of a histogram begin.
#[derive(Clone, Copy, Debug, Drop, PartialEq, Eq)]
pub enum Spacing {
    /// Of numbers: at the multiples of `interval`, plus `offset`.
    Numbers { interval: u64, offset: u64 },
    /// Of dates: where the periods do, in a zone that is so many milliseconds ahead of UTC.
    Dates { period: Period, zone: i64 },
}

/// One source of a composite aggregation.
#[derive(Drop, PartialEq, Eq)]
pub struct CompositeSource {
    pub name: Text,
    pub field: u32,
    /// There for a `histogram` source alone.
    pub interval: Option<u64>,
    pub descending: bool,
    /// Whether a row without a value has the part null, where it else has no key.
    pub missing_bucket: bool,
}

/// What an aggregation does, with defaults filled in.
#[derive(Drop, PartialEq, Eq)]
pub enum Kind {
    /// One bucket for each distinct value ('Terms aggregation').
    Terms {
        field: u32,
        size: u32,
        shard_size: u32,
        min_doc_count: u64,
        order: List<Order>,
        include: Option<List<Probe>>,
        exclude: List<Probe>,
        missing: Option<Scalar>,
        show_error: bool,
    },
    /// One bucket for each interval ('Histogram aggregation').
    Histogram {
        field: u32,
        interval: u64,
        offset: u64,
        min_doc_count: u64,
        extended: Bounds,
        hard: Bounds,
        keyed: bool,
        order: List<Order>,
        missing: Option<Scalar>,
    },
    /// One bucket for each period of the calendar, or of one length ('Date histogram aggregation').
    DateHistogram {
        field: u32,
        period: Period,
        /// How many milliseconds the time zone is ahead of UTC.
        zone: i64,
        min_doc_count: u64,
        extended: Bounds,
        hard: Bounds,
        keyed: bool,
        order: List<Order>,
        missing: Option<Scalar>,
    },
    /// One bucket for each query, and one for the rest where `other` has its key ('Filters aggregation').
    Filters {
        names: Option<List<Text>>,
        filters: List<Query>,
        other: Option<Text>,
    },
    /// The rows that match ('Filter aggregation').
    Filter {
        query: Query,
    },
    /// The rows without a value ('Missing aggregation').
    Missing {
        field: u32,
    },
    /// All roots, whatever the query ('Global aggregation').
    Global,
    /// The rows at a nested path ('Nested aggregation').
    Nested {
        context: u32,
    },
    /// The rows that enclose ('Reverse nested aggregation').
    ReverseNested {
        context: u32,
    },
    /// The combinations of the sources' keys, page by page ('Composite aggregation').
    Composite {
        sources: List<CompositeSource>,
        size: u32,
        after: Option<Key>,
    },
    Sum {
        field: u32,
        missing: Option<Scalar>,
    },
    Min {
        field: u32,
        missing: Option<Scalar>,
    },
    Max {
        field: u32,
        missing: Option<Scalar>,
    },
    Avg {
        field: u32,
        missing: Option<Scalar>,
    },
    ValueCount {
        field: u32,
        missing: Option<Scalar>,
    },
}

/// An aggregation with those below it, in byte order of their names.
#[derive(Drop, PartialEq, Eq)]
pub struct Agg {
    pub name: Text,
    pub kind: Kind,
    pub children: List<Agg>,
}

/// A search body as read.
#[derive(Drop, PartialEq, Eq)]
pub struct Search {
    pub query: Query,
    pub aggs: List<Agg>,
    /// The length of the body in bytes.
    pub body_bytes: u64,
    /// `allow_partial_search_results`: a shard whose task a breaker refuses is left out.
    pub partial: bool,
    /// Its pipelines, in the order in which the body names them; they are no members of `aggs`.
    pub pipes: List<Pipe>,
}

impl Copying for OrderBy {
    fn copy(&self, _alloc: Global) -> Result<Self, AllocError> {
        Ok(*self)
    }
}

impl Copying for Order {
    fn copy(&self, _alloc: Global) -> Result<Self, AllocError> {
        Ok(*self)
    }
}

impl Copying for Bounds {
    fn copy(&self, _alloc: Global) -> Result<Self, AllocError> {
        Ok(*self)
    }
}

impl Copying for CompositeSource {
    fn copy(&self, alloc: Global) -> Result<Self, AllocError> {
        Ok(CompositeSource {
            name: self.name.copy(alloc)?,
            field: self.field,
            interval: self.interval,
            descending: self.descending,
            missing_bucket: self.missing_bucket,
        })
    }
}

impl Copying for Kind {
    fn copy(&self, alloc: Global) -> Result<Self, AllocError> {
        match self {
            Kind::Terms {
                field,
                size,
                shard_size,
                min_doc_count,
                order,
                include,
                exclude,
                missing,
                show_error,
            } => Ok(Kind::Terms {
                field: *field,
                size: *size,
                shard_size: *shard_size,
                min_doc_count: *min_doc_count,
                order: order.copy(alloc)?,
                include: include.copy(alloc)?,
                exclude: exclude.copy(alloc)?,
                missing: missing.copy(alloc)?,
                show_error: *show_error,
            }),
            Kind::Histogram {
                field,
                interval,
                offset,
                min_doc_count,
                extended,
                hard,
                keyed,
                order,
                missing,
            } => Ok(Kind::Histogram {
                field: *field,
                interval: *interval,
                offset: *offset,
                min_doc_count: *min_doc_count,
                extended: *extended,
                hard: *hard,
                keyed: *keyed,
                order: order.copy(alloc)?,
                missing: missing.copy(alloc)?,
            }),
            Kind::DateHistogram {
                field,
                period,
                zone,
                min_doc_count,
                extended,
                hard,
                keyed,
                order,
                missing,
            } => Ok(Kind::DateHistogram {
                field: *field,
                period: *period,
                zone: *zone,
                min_doc_count: *min_doc_count,
                extended: *extended,
                hard: *hard,
                keyed: *keyed,
                order: order.copy(alloc)?,
                missing: missing.copy(alloc)?,
            }),
            Kind::Filters {
                names,
                filters,
                other,
            } => Ok(Kind::Filters {
                names: names.copy(alloc)?,
                filters: filters.copy(alloc)?,
                other: other.copy(alloc)?,
            }),
            Kind::Filter { query } => Ok(Kind::Filter {
                query: query.copy(alloc)?,
            }),
            Kind::Missing { field } => Ok(Kind::Missing { field: *field }),
            Kind::Global => Ok(Kind::Global),
            Kind::Nested { context } => Ok(Kind::Nested { context: *context }),
            Kind::ReverseNested { context } => Ok(Kind::ReverseNested { context: *context }),
            Kind::Composite {
                sources,
                size,
                after,
            } => Ok(Kind::Composite {
                sources: sources.copy(alloc)?,
                size: *size,
                after: after.copy(alloc)?,
            }),
            Kind::Sum { field, missing } => Ok(Kind::Sum {
                field: *field,
                missing: missing.copy(alloc)?,
            }),
            Kind::Min { field, missing } => Ok(Kind::Min {
                field: *field,
                missing: missing.copy(alloc)?,
            }),
            Kind::Max { field, missing } => Ok(Kind::Max {
                field: *field,
                missing: missing.copy(alloc)?,
            }),
            Kind::Avg { field, missing } => Ok(Kind::Avg {
                field: *field,
                missing: missing.copy(alloc)?,
            }),
            Kind::ValueCount { field, missing } => Ok(Kind::ValueCount {
                field: *field,
                missing: missing.copy(alloc)?,
            }),
        }
    }
}

#[cycle(aggregation)]
fn copy_aggregations(alloc: Global, aggs: &List<Agg>) -> Result<List<Agg>, AllocError>
    ensures { IfOk result (λ c. c ≡ aggs.now) }
{
    let mut copied = List::new(alloc);
    for agg in aggs.as_slice() {
        copied.push(agg.copy(alloc)?)?;
    }
    Ok(copied)
}

impl Copying for Agg {
    #[cycle(aggregation)]
    fn copy(&self, alloc: Global) -> Result<Self, AllocError> {
        Ok(Agg {
            name: self.name.copy(alloc)?,
            kind: self.kind.copy(alloc)?,
            children: copy_aggregations(alloc, &self.children)?,
        })
    }
}

impl Copying for Search {
    fn copy(&self, alloc: Global) -> Result<Self, AllocError> {
        Ok(Search {
            query: self.query.copy(alloc)?,
            aggs: self.aggs.copy(alloc)?,
            body_bytes: self.body_bytes,
            partial: self.partial,
            pipes: self.pipes.copy(alloc)?,
        })
    }
}
