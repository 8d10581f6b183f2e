//! Pipeline aggregations: values that are made of the buckets of an answer (Elasticsearch Reference 8, 'Pipeline
//! aggregations').
use crate::answer::Answer;
use crate::copying::Copying;
use crate::key::Key;
use crate::list::List;
use crate::text::Text;
use std::alloc::{AllocError, Global};

/// Which value of a bucket is meant ('Pipeline aggregations', `buckets_path`).
#[derive(Clone, Copy, Debug, PartialEq, Eq)]
pub enum PipePath {
    /// The number of documents, `_count`.
    Count,
    /// The value of the metric at this place, counted from 0, among the children of the aggregation whose buckets are
    /// meant; it may be null.
    Child(u32),
}

/// One order of a `bucket_sort`; null stands last in both directions.
#[derive(Clone, Copy, Debug, PartialEq, Eq)]
pub struct PipeOrder {
    pub path: PipePath,
    pub descending: bool,
}

/// What a pipeline makes of the buckets that it is about, with defaults filled in.
#[derive(Drop, PartialEq, Eq)]
pub enum PipeKind {
    /// At each bucket of the histogram around it the sum of the values up to there ('Cumulative sum aggregation').
    CumulativeSum {
        path: PipePath,
    },
    /// At each bucket of the histogram around it the value less that of the bucket before ('Derivative aggregation').
    Derivative {
        path: PipePath,
    },
    /// The sum of the values of a sibling's buckets ('Sum bucket aggregation').
    SumBucket {
        /// The sibling's place, counted from 0, among the aggregations beside the pipeline.
        sibling: u32,
        path: PipePath,
    },
    /// The least value of a sibling's buckets, and the keys of those that have it ('Min bucket aggregation').
    MinBucket {
        /// The sibling's place, counted from 0, among the aggregations beside the pipeline.
        sibling: u32,
        path: PipePath,
    },
    /// The greatest value of a sibling's buckets, and the keys of those that have it ('Max bucket aggregation').
    MaxBucket {
        /// The sibling's place, counted from 0, among the aggregations beside the pipeline.
        sibling: u32,
        path: PipePath,
    },
    /// The buckets of the aggregation around it in another order, from one place on ('Bucket sort aggregation').
    BucketSort {
        /// The orders in turn; without any the buckets stay in their order.
        sort: List<PipeOrder>,
        /// How many buckets are left out in front, up to `MAX_SIZE`.
        from: u32,
        /// How many buckets are kept at most, up to `MAX_SIZE`; none where all are.
        size: Option<u32>,
    },
}

/// A pipeline of a search.
#[derive(Drop, PartialEq, Eq)]
pub struct Pipe {
    /// The aggregations that enclose it, the outermost first, each by its place among those beside it; empty at the top.
    pub at: List<u32>,
    pub name: Text,
    pub kind: PipeKind,
}

/// What a pipeline has to say in one object of an answer.
#[derive(Drop, PartialEq, Eq)]
pub struct Note {
    /// The object: the places of an aggregation and of its bucket by turns, from the top of the answer; empty at the top.
    pub at: List<u32>,
    pub name: Text,
    /// None where it is null.
    pub value: Option<i64>,
    /// The keys of the buckets that have the value, in the order of the buckets; empty but for the two extremes.
    pub keys: List<Key>,
}

/// An answer with what its pipelines say, in the order in which the answer prints.
#[derive(Drop)]
pub struct Piped {
    pub answer: Answer,
    pub notes: List<Note>,
}

impl Copying for PipePath {
    fn copy(&self, _alloc: Global) -> Result<Self, AllocError> {
        Ok(*self)
    }
}

impl Copying for PipeOrder {
    fn copy(&self, _alloc: Global) -> Result<Self, AllocError> {
        Ok(*self)
    }
}

impl Copying for PipeKind {
    fn copy(&self, alloc: Global) -> Result<Self, AllocError> {
        match self {
            PipeKind::CumulativeSum { path } => Ok(PipeKind::CumulativeSum { path: *path }),
            PipeKind::Derivative { path } => Ok(PipeKind::Derivative { path: *path }),
            PipeKind::SumBucket { sibling, path } => Ok(PipeKind::SumBucket {
                sibling: *sibling,
                path: *path,
            }),
            PipeKind::MinBucket { sibling, path } => Ok(PipeKind::MinBucket {
                sibling: *sibling,
                path: *path,
            }),
            PipeKind::MaxBucket { sibling, path } => Ok(PipeKind::MaxBucket {
                sibling: *sibling,
                path: *path,
            }),
            PipeKind::BucketSort { sort, from, size } => Ok(PipeKind::BucketSort {
                sort: sort.copy(alloc)?,
                from: *from,
                size: *size,
            }),
        }
    }
}

impl Copying for Pipe {
    fn copy(&self, alloc: Global) -> Result<Self, AllocError> {
        Ok(Pipe {
            at: self.at.copy(alloc)?,
            name: self.name.copy(alloc)?,
            kind: self.kind.copy(alloc)?,
        })
    }
}

impl Copying for Note {
    fn copy(&self, alloc: Global) -> Result<Self, AllocError> {
        Ok(Note {
            at: self.at.copy(alloc)?,
            name: self.name.copy(alloc)?,
            value: self.value,
            keys: self.keys.copy(alloc)?,
        })
    }
}

impl Copying for Piped {
    fn copy(&self, alloc: Global) -> Result<Self, AllocError> {
        Ok(Piped {
            answer: self.answer.copy(alloc)?,
            notes: self.notes.copy(alloc)?,
        })
    }
}
