//! The final answer to a search. Parts that a kind has not are empty, 0 or none.
ghost use Rattle.std.specs.Prelude.{◌≡◌, IfOk};

use crate::copying::Copying;
use crate::key::Key;
use crate::list::List;
use crate::partial::Metric;
use crate::text::Text;
use std::alloc::{AllocError, Global};

/// A returned bucket.
#[cycle(answer)]
#[derive(Drop)]
pub struct BucketAnswer {
    pub key: Key,
    /// `doc_count`.
    pub count: u64,
    /// `doc_count_error_upper_bound` of the bucket; there for `terms` alone.
    pub error: Option<i64>,
    pub children: List<NodeAnswer>,
}

/// The answer of one aggregation.
#[cycle(answer)]
#[derive(Drop)]
pub struct NodeAnswer {
    pub name: Text,
    pub buckets: List<BucketAnswer>,
    /// `doc_count_error_upper_bound` of the aggregation.
    pub error: i64,
    /// `sum_other_doc_count`.
    pub other: u64,
    pub metric: Metric,
}

/// The answer to a search.
#[derive(Drop)]
pub struct Answer {
    /// `hits.total.value`.
    pub hits: u64,
    pub nodes: List<NodeAnswer>,
}

#[cycle(answer)]
fn copy_nodes(alloc: Global, nodes: &List<NodeAnswer>) -> Result<List<NodeAnswer>, AllocError>
    ensures { IfOk result (λ c. c ≡ nodes.now) }
{
    let mut copied = List::new(alloc);
    for node in nodes.as_slice() {
        copied.push(node.copy(alloc)?)?;
    }
    Ok(copied)
}

#[cycle(answer)]
fn copy_buckets(
    alloc: Global,
    buckets: &List<BucketAnswer>,
) -> Result<List<BucketAnswer>, AllocError>
    ensures { IfOk result (λ c. c ≡ buckets.now) }
{
    let mut copied = List::new(alloc);
    for bucket in buckets.as_slice() {
        copied.push(bucket.copy(alloc)?)?;
    }
    Ok(copied)
}

impl Copying for BucketAnswer {
    #[cycle(answer)]
    fn copy(&self, alloc: Global) -> Result<Self, AllocError> {
        Ok(BucketAnswer {
            key: self.key.copy(alloc)?,
            count: self.count,
            error: self.error,
            children: copy_nodes(alloc, &self.children)?,
        })
    }
}

impl Copying for NodeAnswer {
    #[cycle(answer)]
    fn copy(&self, alloc: Global) -> Result<Self, AllocError> {
        Ok(NodeAnswer {
            name: self.name.copy(alloc)?,
            buckets: copy_buckets(alloc, &self.buckets)?,
            error: self.error,
            other: self.other,
            metric: self.metric,
        })
    }
}

impl Copying for Answer {
    fn copy(&self, alloc: Global) -> Result<Self, AllocError> {
        Ok(Answer {
            hits: self.hits,
            nodes: self.nodes.copy(alloc)?,
        })
    }
}
