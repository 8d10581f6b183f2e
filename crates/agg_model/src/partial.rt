//! Partial results: the tree that one shard answers, and the union of several.
ghost use Rattle.std.specs.Prelude.{◌≡◌, IfOk};

use crate::copying::Copying;
use crate::key::Key;
use crate::list::List;
use std::alloc::{AllocError, Global};

/// The values that a metric has seen.
#[derive(Clone, Copy, Debug, PartialEq, Eq)]
pub struct Metric {
    pub count: u64,
    pub sum: i128,
    /// None where there was no whole number.
    pub least: Option<i64>,
    pub greatest: Option<i64>,
}

/// A bucket of a partial result.
#[cycle(partial)]
#[derive(Drop)]
pub struct Bucket {
    pub key: Key,
    pub count: u64,
    /// The sum of the errors of the shards that returned this key.
    pub covered: u64,
    pub children: List<Node>,
}

/// One aggregation's part of a partial result.
#[cycle(partial)]
#[derive(Drop)]
pub enum Node {
    /// Buckets that exist where a row has their key, distinct and ascending by key.
    Keyed {
        buckets: List<Bucket>,
        /// The sum of the shards' errors.
        error: u64,
        /// The number of shards that returned exactly `shard_size` terms.
        full: u32,
        /// The sum of the counts that shards did not return.
        cut: u64,
    },
    /// Buckets that exist from the start.
    Fixed {
        buckets: List<Bucket>,
    },
    /// A metric.
    Number(Metric),
}

/// What one shard answers to a search, or several together.
#[derive(Drop)]
pub struct Partial {
    /// The number of root rows that the query matched.
    pub hits: u64,
    /// One node for each aggregation at the top.
    pub nodes: List<Node>,
}

impl Copying for Metric {
    fn copy(&self, _alloc: Global) -> Result<Self, AllocError> {
        Ok(*self)
    }
}

#[cycle(partial)]
fn copy_nodes(alloc: Global, nodes: &List<Node>) -> Result<List<Node>, AllocError>
    ensures { IfOk result (λ c. c ≡ nodes.now) }
{
    let mut copied = List::new(alloc);
    for node in nodes.as_slice() {
        copied.push(node.copy(alloc)?)?;
    }
    Ok(copied)
}

#[cycle(partial)]
fn copy_buckets(alloc: Global, buckets: &List<Bucket>) -> Result<List<Bucket>, AllocError>
    ensures { IfOk result (λ c. c ≡ buckets.now) }
{
    let mut copied = List::new(alloc);
    for bucket in buckets.as_slice() {
        copied.push(bucket.copy(alloc)?)?;
    }
    Ok(copied)
}

impl Copying for Bucket {
    #[cycle(partial)]
    fn copy(&self, alloc: Global) -> Result<Self, AllocError> {
        Ok(Bucket {
            key: self.key.copy(alloc)?,
            count: self.count,
            covered: self.covered,
            children: copy_nodes(alloc, &self.children)?,
        })
    }
}

impl Copying for Node {
    #[cycle(partial)]
    fn copy(&self, alloc: Global) -> Result<Self, AllocError> {
        match self {
            Node::Keyed {
                buckets,
                error,
                full,
                cut,
            } => Ok(Node::Keyed {
                buckets: copy_buckets(alloc, buckets)?,
                error: *error,
                full: *full,
                cut: *cut,
            }),
            Node::Fixed { buckets } => Ok(Node::Fixed {
                buckets: copy_buckets(alloc, buckets)?,
            }),
            Node::Number(metric) => Ok(Node::Number(*metric)),
        }
    }
}

impl Copying for Partial {
    fn copy(&self, alloc: Global) -> Result<Self, AllocError> {
        Ok(Partial {
            hits: self.hits,
            nodes: self.nodes.copy(alloc)?,
        })
    }
}
