//! What a search may end in.
use crate::breaker::Tripped;
use crate::copying::Copying;
use crate::list::List;
use crate::text::Text;
use std::alloc::{AllocError, Global};

/// Why a search was refused.
#[derive(Drop, PartialEq, Eq)]
pub enum Refused {
    /// The body is not JSON.
    NotJson,
    /// The body breaks a rule of requests.
    Bad {
        /// One of `body_refusal`.
        code: u16,
        /// The JSON pointer of the first thing refused (RFC 6901).
        path: Text,
    },
    /// The answer would have more buckets than `search.max_buckets`.
    TooManyBuckets {
        count: u64,
        max: u64,
    },
    /// A printed number lies outside signed 64 bits.
    SumRange {
        /// `/` and the names of the aggregations on the way.
        path: Text,
    },
    /// The ceiling of the search is too high to run it.
    TooWide,
}

/// How a search ended.
#[derive(Drop)]
pub enum Outcome {
    /// The response line, without its newline.
    Response(Text),
    Refused(Refused),
    /// A breaker refused a charge of this search.
    Tripped(Tripped),
    /// Memory ran out.
    Memory,
}

/// A shard that a search with partial results leaves out, and the charge of its task that was refused.
#[derive(Clone, Copy, Debug, PartialEq, Eq)]
pub struct Failure {
    pub shard: u32,
    pub tripped: Tripped,
}

/// How a search ended, and the shards that it left out, by ascending number.
#[derive(Drop)]
pub struct Answered {
    pub outcome: Outcome,
    pub failures: List<Failure>,
}

impl Copying for Failure {
    fn copy(&self, _alloc: Global) -> Result<Self, AllocError> {
        Ok(*self)
    }
}

impl Copying for Refused {
    fn copy(&self, alloc: Global) -> Result<Self, AllocError> {
        match self {
            Refused::NotJson => Ok(Refused::NotJson),
            Refused::Bad { code, path } => Ok(Refused::Bad {
                code: *code,
                path: path.copy(alloc)?,
            }),
            Refused::TooManyBuckets { count, max } => Ok(Refused::TooManyBuckets {
                count: *count,
                max: *max,
            }),
            Refused::SumRange { path } => Ok(Refused::SumRange {
                path: path.copy(alloc)?,
            }),
            Refused::TooWide => Ok(Refused::TooWide),
        }
    }
}
