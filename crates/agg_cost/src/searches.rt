//! The ceilings of searches over the shards of an index, computed before they run.
ghost use Rattle.std.specs.Prelude.{◌≡◌, ◌<◌, ℕ, [], IfOk, IsTrue, Ok, length, map, slice_index_or};
ghost use Rattle.std.specs.List.{list_all};
ghost use Rattle.agg_cost.specs.Searches.{AreApart, kinds_of, task_ceilings};
ghost use Rattle.agg_evaluation.specs.Ceiling.{ceiling as ceiling_of, search_ceiling as ceiling_of_search};
ghost use Rattle.agg_evaluation.specs.SearchFits.{search_fits};
ghost use Rattle.shard_columns.specs.Index.{rows_by_shard};

use crate::task::{ceiling, within_greatest};
use agg_model::{List, Search};
use shard_columns::Index;
use std::alloc::{AllocError, Global};
use std::thread::{Threads, for_each_mut};

// How many threads go through the shards at most: each takes a run of them.
const WALKERS: usize = 16;

/// The ceiling of a search over all shards of an index, in bytes: the sum of the ceilings of its tasks. None where one of them
/// has none, or where the sum is above 2^50. The search is made for the mapping of the index. It takes the time of `ceiling` for
/// each shard, the memory of one, and fails only where memory is wanting.
pub fn search_ceiling(
    alloc: Global,
    index: &Index,
    search: &Search,
) -> Result<Option<u64>, AllocError>
    requires apart { AreApart index.now.shards }
    requires made { IsTrue (search_fits index.now.mapping search.now) }
    ensures { IfOk result (λ c. c ≡ ceiling_of_search (kinds_of index.now.mapping) search.now (rows_by_shard index.now.shards)) }
{
    let mut bytes = 0;
    for shard in index.shards.as_slice() {
        let Some(more) = ceiling(alloc, shard, search)? else {
            return Ok(None);
        };
        bytes += more;
    }
    Ok(within_greatest(bytes))
}

// The ceiling of the search's task on the shard at this place.
fn ceiling_at(
    alloc: Global,
    index: &Index,
    search: &Search,
    place: usize,
) -> Result<Option<u64>, AllocError>
    requires in_range { place < length index.now.shards }
    requires apart { AreApart index.now.shards }
    requires made { IsTrue (search_fits index.now.mapping search.now) }
    ensures { IfOk result (λ c. c ≡ ceiling_of (kinds_of index.now.mapping) search.now
        (slice_index_or (rows_by_shard index.now.shards) place [])) }
{
    ceiling(alloc, &index.shards.as_slice()[place], search)
}

// What each call found, or want of memory where one of them met it.
fn all_found(
    alloc: Global,
    found: Vec<Result<Option<u64>, AllocError>>,
) -> Result<Vec<Option<u64>>, AllocError>
    ensures { IfOk result (λ all. map (λ c. Ok c) all.items ≡ found.items) }
{
    let mut all = Vec::with_capacity(alloc, found.len())?;
    for one in found {
        all.push(one?)?;
    }
    Ok(all)
}

// The ceiling of the search's task on each shard, or want of memory there, by up to `WALKERS` threads.
fn found_by_shard<R: Threads + Sync>(
    rt: &R,
    alloc: Global,
    index: &Index,
    search: &Search,
) -> Result<Vec<Result<Option<u64>, AllocError>>, AllocError>
    requires apart { AreApart index.now.shards }
    requires made { IsTrue (search_fits index.now.mapping search.now) }
    ensures number { IfOk result (λ found. length found.items ≡ length index.now.shards) }
    ensures each { IfOk result (λ found. (place : ℕ) (d : _) → place < length index.now.shards →
        IfOk (slice_index_or found.items place d) (λ c. c ≡
        ceiling_of (kinds_of index.now.mapping) search.now (slice_index_or (rows_by_shard index.now.shards) place []))) }
{
    let mut found = Vec::new(alloc);
    found.resize(index.shards.len(), Ok(None))?;
    let one = move |place: usize, slot: &mut Result<Option<u64>, AllocError>|
        requires { (place < length index.now.shards) × AreApart index.now.shards
            × IsTrue (search_fits index.now.mapping search.now) }
        ensures { IfOk slot.exit.now (λ c. c ≡ ceiling_of (kinds_of index.entry.now.mapping) search.entry.now
            (slice_index_or (rows_by_shard index.entry.now.shards) place [])) }
    { *slot = ceiling_at(alloc, index, search, place) };
    for_each_mut(rt, found.as_mut_slice(), WALKERS, &one);
    Ok(found)
}

// The ceilings of a search's tasks, shard by shard.
pub(crate) fn ceilings_by_shard<R: Threads + Sync>(
    rt: &R,
    alloc: Global,
    index: &Index,
    search: &Search,
) -> Result<Vec<Option<u64>>, AllocError>
    requires apart { AreApart index.now.shards }
    requires made { IsTrue (search_fits index.now.mapping search.now) }
    ensures { IfOk result (λ c. c.items ≡
        map (ceiling_of (kinds_of index.now.mapping) search.now) (rows_by_shard index.now.shards)) }
{
    let found = found_by_shard(rt, alloc, index, search)?;
    all_found(alloc, found)
}

/// The ceiling of each task of these searches, one search on one shard, in bytes: search by search, and shard by shard within
/// each; none where the task has none. Each search is made for the mapping of the index. It takes the time and memory of
/// `ceiling` for each task. The searches come one after another, and up to `WALKERS` threads, where they can be
/// made, go through the shards of each.
pub fn ceilings<R: Threads + Sync>(
    rt: &R,
    alloc: Global,
    index: &Index,
    searches: &List<Search>,
) -> Result<List<Option<u64>>, AllocError>
    requires apart { AreApart index.now.shards }
    requires made { IsTrue (list_all (search_fits index.now.mapping) searches.now) }
    ensures { IfOk result (λ c. c ≡ task_ceilings (kinds_of index.now.mapping) searches.now (rows_by_shard index.now.shards)) }
{
    let mut all = Vec::new(alloc);
    for search in searches.as_slice() {
        let mut found = ceilings_by_shard(rt, alloc, index, search)?;
        all.append(&mut found)?;
    }
    Ok(List::from_vec(all))
}
