//! Where the words and slots of each search stand.
ghost use Rattle.std.specs.Prelude.{◌≡◌, ℕ, ◌+◌, ◌*◌, ◌≤◌, ◌<◌, length, nat_lt, IfOk};
ghost use mathlib.Core.Option.{some};
ghost use lib.ListN.{get_elem?};
ghost use Rattle.arrival_moves.specs.declared.limits.TheConstants.{MAX_TASKS};
ghost use Rattle.arrival_moves.specs.declared.plan.Plan.{Plan as PlanValue};
ghost use Rattle.arrival_moves.specs.Plans.{task_count, search_of, tasks_of, first_of, place_of, batch_size, IsPlan};
ghost use Rattle.arrival_moves.specs.Counts.{AreCounts};

use crate::plan::Plan;
use std::alloc::{AllocError, Global};
use std::marker::Model;

/// The plan, with the number of tasks of the searches before each search and before none.
#[derive(Drop)]
pub struct Places {
    plan: Plan,
    starts: Vec<u64>,
}

impl Model for Places {
    ghost Value = { PlanValue };

    ghost view = { λ s. s.plan };

    ghost invariant = { λ s. IsPlan s.plan × (length s.starts.items ≡ s.plan.searches + 1)
        × ((q : ℕ) → q ≤ s.plan.searches → get_elem? s.starts.items q ≡ some (first_of s.plan q)) };
}

/// The number of tasks of each search.
fn task_counts(alloc: Global, plan: &Plan) -> Result<Vec<u64>, AllocError>
    requires plan { IsPlan plan.now }
    ensures { IfOk result (λ counts. AreCounts plan.now counts.items) }
{
    let mut counts = Vec::new(alloc);
    counts.resize(plan.searches as usize, 0)?;
    for search in plan.tasks.as_slice() {
        counts[*search as usize] += 1;
    }
    Ok(counts)
}

impl Places {
    /// The places of a plan.
    pub fn of(alloc: Global, plan: Plan) -> Result<Places, AllocError>
        requires plan { IsPlan plan }
        ensures { IfOk result (λ s. s ≡ plan) }
    {
        let counts = task_counts(alloc, &plan)?;
        let mut starts = Vec::new(alloc);
        let mut start = 0;
        starts.push(start)?;
        for count in counts.as_slice() {
            start += *count;
            starts.push(start)?;
        }
        Ok(Places { plan, starts })
    }

    /// The plan.
    pub fn plan(&self) -> &Plan
        ensures { result.now ≡ self.now }
    {
        &self.plan
    }

    /// The number of tasks.
    pub fn task_count(&self) -> usize
        ensures value { result ≡ task_count self.now }
        ensures few { result ≤ MAX_TASKS }
    {
        self.plan.tasks.len()
    }

    /// The number of searches.
    pub fn searches(&self) -> u32
        ensures { result ≡ self.now.searches }
    {
        self.plan.searches
    }

    /// How many results a batch has at most.
    pub fn batch(&self) -> u32
        ensures value { result ≡ self.now.batch }
        ensures least { 2 ≤ result }
    {
        self.plan.batch
    }

    /// The search of a task.
    pub fn search_of(&self, task: u32) -> u32
        requires range { task < task_count self.now }
        ensures value { result ≡ search_of self.now task }
        ensures range { result < self.now.searches }
    {
        self.plan.search_of(task)
    }

    /// The number of tasks of the searches before this one.
    fn start(&self, search: u64) -> u64
        requires range { search ≤ self.now.searches }
        ensures value { result ≡ first_of self.now search }
        ensures range { result ≤ task_count self.now }
        ensures few { result ≤ MAX_TASKS }
    {
        self.starts[search as usize]
    }

    /// Where the result of a ticket stands among the results, and a batch among the batches.
    pub fn place_of(&self, search: u32, number: u32) -> usize
        requires range { number < tasks_of self.now search }
        ensures value { result ≡ place_of self.now search number }
        ensures range { result < task_count self.now }
        ensures few { result ≤ MAX_TASKS }
    {
        self.starts[search as usize] as usize + number as usize
    }

    /// The number of tasks of a search.
    pub fn tasks_of(&self, search: u32) -> u64
        requires range { search < self.now.searches }
        ensures value { result ≡ tasks_of self.now search }
        ensures few { result ≤ MAX_TASKS }
    {
        self.start(search as u64 + 1) - self.start(search as u64)
    }

    /// The number of tickets of a batch; the last one of a search may be short.
    pub fn batch_size(&self, search: u32, batch: u32) -> u64
        requires range { search < self.now.searches }
        ensures { result ≡ batch_size self.now search batch }
    {
        let size = self.plan.batch as u64;
        let rest = self.tasks_of(search).saturating_sub(batch as u64 * size);
        size.min(rest)
    }

    /// Whether the search has this batch.
    pub fn has_batch(&self, search: u32, batch: u32) -> bool
        requires range { search < self.now.searches }
        ensures { result ≡ nat_lt (batch * self.now.batch) (tasks_of self.now search) }
    {
        (batch as u64) * (self.plan.batch as u64) < self.tasks_of(search)
    }
}
