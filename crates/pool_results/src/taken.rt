//! Results that were taken one after another.
ghost use Rattle.std.specs.Prelude.{◌≡◌, ◌+◌, ◌<◌, ◌^◌, length};
ghost use Rattle.pool_results.specs.Gathered.{IsAdded, IsKept, is_stopped, taken_of};

use crate::shard_run::ShardRun;
use crate::work::Work;
use agg_model::{List, Partial, Tripped};
use std::alloc::Global;
use std::collections::LinkedList;

/// What became of some tasks of one search, whose parts are not merged yet.
#[derive(Drop)]
pub struct Taken {
    /// The number of the search.
    pub search: u32,
    pub runs: LinkedList<ShardRun, Global>,
    /// What each shard answers that is not left out.
    pub parts: List<Partial>,
    /// A charge that was refused and ended the search.
    pub refused: Option<Tripped>,
    /// Whether memory ran out.
    pub memory: bool,
    /// Whether a task was not run.
    pub skipped: bool,
}

impl Taken {
    /// Whether there is no result any more.
    pub(crate) fn is_stopped(&self) -> bool
        ensures { result ≡ is_stopped self.now }
    {
        self.refused.is_some() || self.memory || self.skipped
    }

    /// Puts a part at the end, unless memory runs out for that.
    fn keep(&mut self, part: Option<Partial>)
        ensures kept { IsKept part self.old self.new }
    {
        let Some(part) = part else {
            return;
        };
        if self.parts.push(part).is_err() {
            self.memory = true;
        }
    }

    /// What became of the first task.
    pub(crate) fn of(alloc: Global, work: Work) -> Taken
        ensures { IsKept work.part (taken_of work) result }
    {
        let Work {
            search,
            runs,
            part,
            refused,
            memory,
            skipped,
        } = work;
        let mut taken = Taken {
            search,
            runs,
            parts: List::new(alloc),
            refused,
            memory,
            skipped,
        };
        taken.keep(part);
        taken
    }

    /// Joins what became of one more task of the search.
    pub(crate) fn add(&mut self, work: Work)
        requires room { length self.old.runs + length work.runs < 2 ^ 63 }
        ensures { IsAdded work self.old self.new }
    {
        let Work {
            search: _,
            mut runs,
            part,
            refused,
            memory,
            skipped,
        } = work;
        // It takes no memory, and lists as short as these are always joined.
        let _joined = self.runs.append(&mut runs);
        self.refused = self.refused.or(refused);
        self.memory = self.memory || memory;
        self.skipped = self.skipped || skipped;
        self.keep(part);
    }
}
