//! The words that choose how the value beside them is read.
use agg_model::FieldKind;

/// The queries ('Query DSL').
#[derive(Clone, Copy, Debug, PartialEq, Eq)]
pub enum QueryName {
    MatchAll,
    Term,
    Terms,
    Range,
    Exists,
    Ids,
    Bool,
    Nested,
}

/// The kinds of aggregations ('Aggregations').
#[derive(Clone, Copy, Debug, PartialEq, Eq)]
pub enum KindName {
    Avg,
    Composite,
    DateHistogram,
    Filter,
    Filters,
    Global,
    Histogram,
    Max,
    Min,
    Missing,
    Nested,
    ReverseNested,
    Sum,
    Terms,
    ValueCount,
}

/// The kinds of pipelines ('Pipeline aggregations').
#[derive(Clone, Copy, Debug, PartialEq, Eq)]
pub enum PipeName {
    BucketSort,
    CumulativeSum,
    Derivative,
    MaxBucket,
    MinBucket,
    SumBucket,
}

/// The kinds of sources ('Composite aggregation').
#[derive(Clone, Copy, Debug, PartialEq, Eq)]
pub enum SourceName {
    Histogram,
    Terms,
}

/// The types of a mapping ('Field data types').
#[derive(Clone, Copy, Debug, PartialEq, Eq)]
pub enum FieldType {
    Leaf(FieldKind),
    Object,
    Nested,
}
