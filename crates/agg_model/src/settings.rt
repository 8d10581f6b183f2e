//! The settings that the program's words give.
use crate::breaker::Limits;
use crate::copying::Copying;
use crate::text::Text;
use std::alloc::{AllocError, Global};

/// The script that `--generate` asks for.
#[derive(Clone, Copy, Debug, PartialEq, Eq)]
pub struct Generate {
    /// The seed.
    pub number: u64,
    pub documents: u32,
    pub shards: u32,
}

/// All settings of a run.
#[derive(Clone, Copy, Debug, PartialEq, Eq)]
pub struct Settings {
    /// 1 to 64.
    pub workers: u32,
    /// `--batched-reduce-size`, 2 to 1,024.
    pub batch: u32,
    /// `--concurrent-searches`, 1 to 64.
    pub width: u32,
    pub limits: Limits,
    /// `heap_size` in bytes, of which limits in per cent are parts.
    pub heap: u64,
    /// `search.max_buckets`.
    pub max_buckets: u64,
    pub scan: bool,
    pub generate: Option<Generate>,
}

/// The first word that is not in the grammar; both texts are empty where the command line itself is refused.
#[derive(Drop, PartialEq, Eq)]
pub struct Usage {
    pub key: Text,
    pub value: Text,
}

impl Copying for Generate {
    fn copy(&self, _alloc: Global) -> Result<Self, AllocError> {
        Ok(*self)
    }
}

impl Copying for Settings {
    fn copy(&self, _alloc: Global) -> Result<Self, AllocError> {
        Ok(*self)
    }
}

impl Copying for Usage {
    fn copy(&self, alloc: Global) -> Result<Self, AllocError> {
        Ok(Usage {
            key: self.key.copy(alloc)?,
            value: self.value.copy(alloc)?,
        })
    }
}
