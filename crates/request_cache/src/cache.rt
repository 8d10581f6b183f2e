//! The cache and its entries.
ghost use Rattle.std.specs.Prelude.{◌≡◌, ◌<◌, ◌≤◌, [], IfOk, OnErr, OnOk, length};
ghost use Rattle.agg_evaluation.specs.Shard.{shard_answer};
ghost use Rattle.cache_spec.specs.Cache.{entry_of};
ghost use Rattle.agg_spec.specs.Index.{rows_in};
ghost use Rattle.fitting_laws.specs.Indexes.{index_of};
ghost use Rattle.request_cache.specs.Entries.{HoldsAnswers, answer_in, entries_found, entries_in, entries_put, found_in};

use agg_model::{Copying, Partial, Search};
use cache_spec::ShardSearch;
use lru::LruCache;
use shard_columns::Index;
use std::alloc::{AllocError, Global};
use std::num::NonZeroUsize;

/// Answers of the shards of an index to searches, at most as many as its capacity: the least recently used goes first.
///
/// Each entry is the answer of its shard to its search. No breaker is charged for entries. Searches are equal where they ask
/// for the same, with defaults filled in, however their bodies are written.
#[derive(Drop)]
pub struct Cache<'i> {
    index: &'i Index,
    entries: LruCache<ShardSearch, Partial>,
    ghost kept: { ∥ HoldsAnswers (index_of index.now) entries ∥₁ },
}

impl<'i> Cache<'i> {
    /// A cache without entries, which may have as many as `capacity`, at least 1.
    pub fn new(alloc: Global, index: &'i Index, capacity: u32) -> Result<Self, AllocError>
        requires { 1 ≤ capacity }
        ensures index { IfOk result (λ c. c.index.now ≡ index.now) }
        ensures capacity { IfOk result (λ c. c.entries.cap ≡ capacity) }
        ensures empty { IfOk result (λ c. entries_in c.entries ≡ []) }
    {
        let Some(capacity) = NonZeroUsize::new(capacity as usize) else {
            unreachable!()
        };
        Ok(Cache {
            index,
            entries: LruCache::sparse(alloc, capacity)?,
        })
    }

    /// The index whose shards answered.
    pub fn index(&self) -> &'i Index
        ensures { result.now ≡ self.now.index.now }
    {
        self.index
    }

    /// A copy of the answer of the shard to the search, whose entry comes to the front; none exactly where it is not kept.
    /// After want of memory all entries are as before.
    pub fn find(
        &mut self,
        alloc: Global,
        shard: u32,
        search: &Search,
    ) -> Result<Option<Partial>, AllocError>
        ensures found { IfOk result (λ found. found ≡ found_in self.old.entries (index_of self.old.index.now) (entry_of search.now shard)) }
        ensures entries { OnOk result (entries_in self.new.entries ≡ entries_found self.old.entries (entry_of search.now shard)) }
        ensures same { OnErr result (entries_in self.new.entries ≡ entries_in self.old.entries) }
        ensures index { self.new.index.now ≡ self.old.index.now }
        ensures capacity { self.new.entries.cap ≡ self.old.entries.cap }
    {
        let entry = ShardSearch::of(alloc, shard, search)?;
        self.look(alloc, &entry)
    }

    /// Keeps the answer of the shard to the search: its entry stands in front, and in a full cache the last one goes where
    /// the entry is new. After want of memory all entries are as before.
    pub fn put(
        &mut self,
        alloc: Global,
        shard: u32,
        search: &Search,
        partial: &Partial,
    ) -> Result<(), AllocError>
        requires place { shard < length self.old.index.now.shards }
        requires answer { partial.now ≡ shard_answer search.now (rows_in (index_of self.old.index.now) shard) }
        ensures entries { OnOk result (entries_in self.new.entries ≡ entries_put self.old.entries (entry_of search.now shard)) }
        ensures same { OnErr result (entries_in self.new.entries ≡ entries_in self.old.entries) }
        ensures index { self.new.index.now ≡ self.old.index.now }
        ensures capacity { self.new.entries.cap ≡ self.old.entries.cap }
    {
        let entry = ShardSearch::of(alloc, shard, search)?;
        self.keep(alloc, entry, partial)
    }

    /// A copy of the answer of an entry, which comes to the front.
    pub(crate) fn look(
        &mut self,
        alloc: Global,
        entry: &ShardSearch,
    ) -> Result<Option<Partial>, AllocError>
        ensures found { IfOk result (λ found. found ≡ found_in self.old.entries (index_of self.old.index.now) entry.now) }
        ensures entries { OnOk result (entries_in self.new.entries ≡ entries_found self.old.entries entry.now) }
        ensures same { OnErr result (entries_in self.new.entries ≡ entries_in self.old.entries) }
        ensures index { self.new.index.now ≡ self.old.index.now }
        ensures capacity { self.new.entries.cap ≡ self.old.entries.cap }
    {
        // A cache is asked for its length to learn that its keys are distinct.
        let _length = self.entries.len();
        let found = match self.entries.peek(entry) {
            Some(kept) => kept.copy(alloc)?,
            None => return Ok(None),
        };
        self.entries.promote(entry);
        Ok(Some(found))
    }

    /// Keeps a copy of the answer under this entry, in front.
    pub(crate) fn keep(
        &mut self,
        alloc: Global,
        entry: ShardSearch,
        partial: &Partial,
    ) -> Result<(), AllocError>
        requires { partial.now ≡ answer_in (index_of self.old.index.now) entry }
        ensures entries { OnOk result (entries_in self.new.entries ≡ entries_put self.old.entries entry) }
        ensures same { OnErr result (entries_in self.new.entries ≡ entries_in self.old.entries) }
        ensures index { self.new.index.now ≡ self.old.index.now }
        ensures capacity { self.new.entries.cap ≡ self.old.entries.cap }
    {
        let _length = self.entries.len();
        let copied = partial.copy(alloc)?;
        match self.entries.put(entry, copied) {
            Ok(_replaced) => Ok(()),
            Err(_handed_back) => Err(AllocError),
        }
    }
}
