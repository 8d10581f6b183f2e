//! The room for the tasks of a pool, taken before they have passes.
ghost use Rattle.std.specs.Prelude.{◌≡◌, IfOk, map};
ghost use Rattle.shard_pool.specs.Tasks.{place_of, task_places};

use crate::waiting::Waiting;
use pool_results::ShardRun;
use std::alloc::{AllocError, Global};
use std::collections::LinkedList;

fn waiting_task(alloc: Global, search: u32, shard: u32) -> Result<Waiting, AllocError>
    ensures { IfOk result (λ w. place_of w ≡ (search, shard)) }
{
    let mut runs = LinkedList::new(alloc);
    runs.push_back(ShardRun {
        shard,
        refused: None,
    })?;
    Ok(Waiting {
        search,
        shard,
        runs,
    })
}

/// The tasks of so many searches on so many shards, search by search.
pub(crate) fn waiting_tasks(
    alloc: Global,
    searches: u32,
    shards: u32,
) -> Result<Vec<Waiting>, AllocError>
    ensures { IfOk result (λ ws. map place_of ws.items ≡ task_places searches shards) }
{
    let mut tasks = Vec::new(alloc);
    for search in 0..searches {
        for shard in 0..shards {
            let task = waiting_task(alloc, search, shard)?;
            tasks.push(task)?;
        }
    }
    Ok(tasks)
}
