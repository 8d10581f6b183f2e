//! The results of a batch, one after another.
ghost use Rattle.std.specs.Prelude.{◌≡◌, ◌+◌, ◌<◌, ◌≤◌, ℕ, true, length};
ghost use Rattle.arrival_moves.specs.Lists.{times};
ghost use Rattle.pool_results.specs.Gathered.{IsAdded, IsKept, taken_of};
ghost use Rattle.pool_results.specs.Runs.{shards_in};

use crate::batch::Batch;
use crate::call::PoolCall;
use crate::outcome::Outcome;
use crate::taken::Taken;
use crate::work::Work;
use agg_model::List;
use breaker_words::{Words, join};
use std::alloc::Global;
use std::marker::PhantomData;

/// The first result of a batch, of one task.
pub fn begin<J: PoolCall>(alloc: Global, outcome: Outcome<J>) -> Batch<J>
    requires one { length outcome.work.runs ≡ 1 }
    ensures { IsKept outcome.work.part (taken_of outcome.work) result.taken }
{
    let Outcome { work, pass, of: _ } = outcome;
    let taken = Taken::of(alloc, work);
    Batch {
        taken,
        pass,
        of: PhantomData,
    }
}

/// Joins one more result of the batch, of one task. Where memory runs out for its part the search has no result any more.
pub fn add<J: PoolCall>(words: &Words, batch: Batch<J>, outcome: Outcome<J>) -> Batch<J>
    requires words { words.now ≡ J.pool.words }
    requires one { length outcome.work.runs ≡ 1 }
    requires search { outcome.work.search ≡ batch.taken.search }
    requires new { (s : ℕ) → times s (shards_in batch.taken.runs) + times s (shards_in outcome.work.runs) ≤ 1 }
    requires few { length batch.taken.runs < 4294967296 }
    ensures { IsAdded outcome.work batch.taken result.taken }
{
    let Batch {
        mut taken,
        mut pass,
        of: _,
    } = batch;
    let Outcome {
        work,
        pass: other,
        of: _,
    } = outcome;
    join(words, &mut pass, other);
    taken.add(work);
    Batch {
        taken,
        pass,
        of: PhantomData,
    }
}
