//! Pipelines while the aggregations beside them are not yet known ('Pipeline aggregations').
use crate::parts::NamedOrder;
use agg_model::{Agg, List, Pipe, Text};

/// A `buckets_path`, before what it names is looked up.
#[derive(Drop)]
pub struct NamedPath {
    pub path: Text,
    /// Where it stands, as a JSON pointer.
    pub at: Text,
}

/// What a pipeline does, before its paths are looked up.
#[derive(Drop)]
pub enum ReadPipeKind {
    CumulativeSum(NamedPath),
    Derivative(NamedPath),
    SumBucket(NamedPath),
    MinBucket(NamedPath),
    MaxBucket(NamedPath),
    BucketSort {
        /// Each with a path as its name.
        sort: List<NamedOrder>,
        from: u32,
        size: Option<u32>,
    },
}

/// A pipeline as read, before its paths are looked up.
#[derive(Drop)]
pub struct ReadPipe {
    pub name: Text,
    pub kind: ReadPipeKind,
    /// Where the pipeline stands, as a JSON pointer.
    pub at: Text,
}

/// A pipeline that the walk of some aggregations has found.
#[derive(Drop)]
pub enum FoundPipe {
    /// One of these aggregations' own object: its paths are looked up once the object has ended.
    Here(ReadPipe),
    /// One that an aggregation of the object encloses.
    Below(Pipe),
}

/// The members of an object of aggregations that the walk has read, in byte order of their names.
#[derive(Drop)]
pub struct Siblings {
    pub aggs: List<Agg>,
    pub pipes: List<FoundPipe>,
}

/// A member of an object of aggregations as read.
#[derive(Drop)]
pub enum ReadItem {
    Aggregation {
        agg: Agg,
        /// The pipelines that it encloses, as they are seen from it.
        pipes: List<Pipe>,
    },
    Pipeline(ReadPipe),
}
