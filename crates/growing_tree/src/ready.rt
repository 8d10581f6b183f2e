//! Aggregations that are prepared for a shard.

use agg_model::List;
use date_agg::PreparedDateHistogram;
use filters_agg::PreparedFilters;
use histogram_agg::PreparedHistogram;
use terms_agg::PreparedTerms;

/// What an aggregation needs of the shard, prepared once.
#[derive(Drop)]
pub enum ReadyKind {
    /// Each row that the aggregation counts has the one key.
    Single,
    Metric,
    Terms(PreparedTerms),
    /// Of a filters, a filter or a missing aggregation: the codes are the numbers of its buckets.
    Filters(PreparedFilters),
    Histogram(PreparedHistogram),
    DateHistogram(PreparedDateHistogram),
    /// It has no codes: its page is no tree that grows here.
    Composite,
}

/// The table in which the codes of a tree are looked up.
#[derive(Clone, Copy, Debug, PartialEq, Eq)]
pub struct Table {
    /// So many codes, from 0 on, have an entry.
    pub width: u32,
    /// Whether rows have no other codes.
    pub has_all_codes: bool,
    /// Whether a tree has it from the start, and not only once it has many codes.
    pub from_start: bool,
}

/// An aggregation that is prepared for a shard, with those below it.
#[derive(Drop)]
pub struct Ready {
    pub kind: ReadyKind,
    /// The table of each tree of the aggregation.
    pub table: Table,
    /// What the children of a bucket cost before its first row, in bytes.
    pub child_bytes: u64,
    pub children: List<Ready>,
}
