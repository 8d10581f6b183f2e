//! Who answers the tasks of a search: the shards of an index alone, or a cache of what they answered.
ghost use Rattle.std.specs.Prelude.{◌≡◌, ◌<◌, ℕ, [], List as Items, None, Some, length, slice_get};
ghost use Rattle.std.specs.Option.{ForSome};
ghost use Rattle.agg_evaluation.specs.Shard.{shard_answer};
ghost use Rattle.cache_spec.specs.declared.shard_search.ShardSearch.{ShardSearch};
ghost use Rattle.cache_spec.specs.Cache.{entries_after, entry_of, is_kept};
ghost use Rattle.agg_spec.specs.Index.{rows_in};
ghost use Rattle.breaker_words.specs.Passes.{IsOf};
ghost use Rattle.collect_tree.specs.Ends.{IfDone, IfMemory, IfRefused};
ghost use Rattle.collect_tree.specs.Room.{HasRoom};
ghost use Rattle.fitting_laws.specs.Indexes.{index_of};
ghost use Rattle.request_cache.specs.Entries.{entries_in};
ghost use Rattle.request_cache.specs.Tasks.{GivesUp, IsTaskDone, IsTaskRefused};
ghost use Rattle.shard_columns.specs.Made.{IsSearchFor};
ghost use Rattle.shard_columns.specs.declared.index.Index.{Index as ShardIndex};

use agg_model::Search;
use breaker_words::{Pass, Trial, Words};
use collect_tree::{TaskEnd, run_task};
use request_cache::{Cache, cached_task};
use shard_columns::Index;
use std::alloc::Global;

/// Answers the tasks of searches of one index.
pub(crate) trait Tasks {
    /// The index.
    ghost index: { Self → ShardIndex };

    /// How many answers are kept at most; 0 where none are.
    ghost capacity: { Self → ℕ };

    /// The entries of what is kept, the most recently used first.
    ghost entries: { Self → Items ShardSearch };

    /// The index.
    fn index(&self) -> &Index
        ensures { result.now ≡ index self.now };

    /// What the shard answers to the search, which is made for its mapping. The pass has room for the task's ceiling.
    fn answer(
        &mut self,
        alloc: Global,
        words: &Words,
        pass: &mut Pass,
        shard: u32,
        search: &Search,
    ) -> TaskEnd
        requires of { IsOf words.now pass.old }
        requires rest { pass.old.view.trial ≡ Trial.Rest }
        requires place { shard < length (index self.old).shards }
        requires made { ForSome (slice_get (index self.old).shards shard) (λ s. IsSearchFor s search.now) }
        requires room { ForSome (slice_get (index self.old).shards shard) (λ s. HasRoom s search.now pass.old.view) }
        ensures answer { IfDone result (λ p. p ≡ shard_answer search.now (rows_in (index_of (index self.old)) shard)) }
        ensures done { IfDone result (λ p. IsTaskDone words.now.limits pass.old.view pass.new.view search.now
            (rows_in (index_of (index self.old)) shard)
            (is_kept (entry_of search.now shard) (entries self.old))) }
        ensures refused { IfRefused result (λ t. IsTaskRefused words.now.limits pass.old.view pass.new.view search.now
            (rows_in (index_of (index self.old)) shard)
            (is_kept (entry_of search.now shard) (entries self.old)) t) }
        ensures memory { IfMemory result (GivesUp pass.old.view pass.new.view search.now
            (rows_in (index_of (index self.old)) shard)) }
        ensures kept { IfDone result (λ p. entries self.new ≡ entries_after (capacity self.old)
            (is_kept (entry_of search.now shard) (entries self.old)) None
            (entry_of search.now shard) (entries self.old)) }
        ensures not_kept { IfRefused result (λ t. entries self.new ≡ entries_after (capacity self.old)
            (is_kept (entry_of search.now shard) (entries self.old)) (Some t)
            (entry_of search.now shard) (entries self.old)) }
        ensures same_index { index self.new ≡ index self.old }
        ensures same_capacity { capacity self.new ≡ capacity self.old }
        ensures of { IsOf words.now pass.new }
        ensures trial { pass.new.view.trial ≡ Trial.Rest }
        ensures cap { pass.new.view.cap ≡ pass.old.view.cap };
}

/// The shards of an index, of whose answers none is kept.
#[derive(Drop)]
pub(crate) struct Shards<'i> {
    pub(crate) index: &'i Index,
}

impl<'i> Tasks for Shards<'i> {
    ghost index = { λ s. s.index.now };

    ghost capacity = { λ s. 0 };

    ghost entries = { λ s. [] };

    fn index(&self) -> &Index {
        self.index
    }

    fn answer(
        &mut self,
        alloc: Global,
        words: &Words,
        pass: &mut Pass,
        shard: u32,
        search: &Search,
    ) -> TaskEnd {
        run_task(
            alloc,
            words,
            pass,
            &self.index.shards.as_slice()[shard as usize],
            search,
        )
    }
}

impl<'i> Tasks for Cache<'i> {
    ghost index = { λ c. c.index.now };

    ghost capacity = { λ c. c.entries.cap };

    ghost entries = { λ c. entries_in c.entries };

    fn index(&self) -> &Index {
        Cache::index(self)
    }

    fn answer(
        &mut self,
        alloc: Global,
        words: &Words,
        pass: &mut Pass,
        shard: u32,
        search: &Search,
    ) -> TaskEnd {
        cached_task(alloc, words, pass, self, shard, search)
    }
}
