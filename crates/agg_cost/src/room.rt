//! Room for the tasks of a search: for each at least its ceiling, and no more for all than a search may have.
ghost use Rattle.std.specs.Prelude.{◌≡◌, ◌≤◌, ◌^◌, IfOk, IfSome, IsTrue, Some, is_none, map, option_and_then, option_map, sum};
ghost use Rattle.agg_cost.specs.Searches.{AreApart, AreRoomsFor, kinds_of};
ghost use Rattle.agg_evaluation.specs.Ceiling.{ceiling as ceiling_of, search_ceiling as ceiling_of_search};
ghost use Rattle.agg_evaluation.specs.Ceiling.{sum_of_all, within_greatest};
ghost use Rattle.agg_evaluation.specs.SearchFits.{search_fits};
ghost use Rattle.shard_columns.specs.Index.{rows_by_shard};

use crate::searches::ceilings_by_shard;
use crate::task::GREATEST_CEILING;
use crate::width::task_most;
use agg_model::Search;
use shard_columns::Index;
use std::alloc::{AllocError, Global};
use std::thread::Threads;

// The ceilings themselves, in bytes; none where a task has none, or where they are above 2^50 together.
fn all_low(alloc: Global, found: &[Option<u64>]) -> Result<Option<Vec<u64>>, AllocError>
    ensures ceilings { IfOk result (λ low. IfSome low (λ all. map (λ c. Some c) all.items ≡ found.now)) }
    ensures sum { IfOk result (λ low. option_map (λ all. sum all.items) low ≡ option_and_then within_greatest (sum_of_all found.now)) }
{
    let mut all = Vec::with_capacity(alloc, found.len())?;
    let mut bytes: u64 = 0;
    for one in found {
        let Some(ceiling) = *one else {
            return Ok(None);
        };
        bytes = bytes.saturating_add(ceiling);
        if bytes > GREATEST_CEILING {
            return Ok(None);
        }
        all.push(ceiling)?;
    }
    Ok(Some(all))
}

// What the ceiling of each task is at most; none where the bounds leave it open whether the search is too wide.
fn rooms_by_bound(
    alloc: Global,
    index: &Index,
    search: &Search,
) -> Result<Option<Vec<u64>>, AllocError>
    requires made { IsTrue (search_fits index.now.mapping search.now) }
    ensures rooms { IfOk result (λ found. IfSome found (λ all.
        AreRoomsFor all.items (map (ceiling_of (kinds_of index.now.mapping) search.now) (rows_by_shard index.now.shards)))) }
    ensures low { IfOk result (λ found. IfSome found (λ all. sum all.items ≤ 2 ^ 50)) }
{
    let mut all = Vec::with_capacity(alloc, index.shards.len())?;
    let mut bytes: u64 = 0;
    for shard in index.shards.as_slice() {
        let Some(most) = task_most(shard, search) else {
            return Ok(None);
        };
        bytes = bytes.saturating_add(most);
        if bytes > GREATEST_CEILING {
            return Ok(None);
        }
        all.push(most)?;
    }
    Ok(Some(all))
}

// The ceiling of each task; none where the search is too wide.
fn rooms_by_ceilings<R: Threads + Sync>(
    rt: &R,
    alloc: Global,
    index: &Index,
    search: &Search,
) -> Result<Option<Vec<u64>>, AllocError>
    requires apart { AreApart index.now.shards }
    requires made { IsTrue (search_fits index.now.mapping search.now) }
    ensures rooms { IfOk result (λ found. IfSome found (λ all.
        AreRoomsFor all.items (map (ceiling_of (kinds_of index.now.mapping) search.now) (rows_by_shard index.now.shards)))) }
    ensures low { IfOk result (λ found. IfSome found (λ all. sum all.items ≤ 2 ^ 50)) }
    ensures wide { IfOk result (λ found. is_none found
        ≡ is_none (ceiling_of_search (kinds_of index.now.mapping) search.now (rows_by_shard index.now.shards))) }
{
    let found = ceilings_by_shard(rt, alloc, index, search)?;
    all_low(alloc, found.as_slice())
}

/// Room for each task of a search in bytes, one for each shard of the index in their order: at least the task's ceiling, and at most
/// 2^50 for all together. None where the search is too wide, which is so where it has no ceiling by `search_ceiling`. The search is
/// made for the mapping of the index.
///
/// Where a bound on the ceilings settles it, the rooms are the bounds, which take time by the aggregations and shards alone, and 8 bytes
/// a shard. Else the rooms are the ceilings themselves, which take the time and memory of `ceilings` beside that. It fails only where
/// memory is wanting.
pub fn rooms<R: Threads + Sync>(
    rt: &R,
    alloc: Global,
    index: &Index,
    search: &Search,
) -> Result<Option<Vec<u64>>, AllocError>
    requires apart { AreApart index.now.shards }
    requires made { IsTrue (search_fits index.now.mapping search.now) }
    ensures rooms { IfOk result (λ found. IfSome found (λ all.
        AreRoomsFor all.items (map (ceiling_of (kinds_of index.now.mapping) search.now) (rows_by_shard index.now.shards)))) }
    ensures low { IfOk result (λ found. IfSome found (λ all. sum all.items ≤ 2 ^ 50)) }
    ensures wide { IfOk result (λ found. is_none found
        ≡ is_none (ceiling_of_search (kinds_of index.now.mapping) search.now (rows_by_shard index.now.shards))) }
{
    if let Some(all) = rooms_by_bound(alloc, index, search)? {
        return Ok(Some(all));
    }
    rooms_by_ceilings(rt, alloc, index, search)
}
