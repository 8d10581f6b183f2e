//! How a table is opened.
ghost use Rattle.std.specs.Prelude.{◌≡◌, ◌+◌, ◌≤◌, ◌<◌, ℕ, [], List, length, map, replicate, IfOk, IfErr};
ghost use Rattle.std.specs.Vec.{vec_len, vec_capacity};
ghost use mathlib.Core.Option.{some};
ghost use lib.ListN.{get_elem?};
ghost use Rattle.arrival_moves.specs.declared.limits.TheConstants.{MAX_TASKS};
ghost use Rattle.arrival_moves.specs.AfterMove.{first_view};
ghost use Rattle.arrival_moves.specs.Labels.{task_label};
ghost use Rattle.arrival_moves.specs.Plans.{task_count};
ghost use Rattle.arrival_table.specs.declared.cell.Cell.TheVariants as cell;
ghost use Rattle.arrival_table.specs.declared.opening.Task.{Task as TaskValue};
ghost use Rattle.arrival_table.specs.Models.{IsOf};
ghost use Rattle.arrival_table.specs.Opening.{plan_of, IsFilled};

use crate::cell::{Cell, Labelled};
use crate::desk::Desk;
use crate::table::Arrivals;
use agg_model::List;
use arrival_moves::{ALL_CLAIMS, Places, Plan};
use atomic_table::{Refused, Table};
use std::alloc::{AllocError, Global};
use std::mem;

/// A task that a table is opened with: its search, and what a worker needs to run it.
#[derive(Drop)]
pub struct Task<A> {
    pub search: u32,
    pub load: A,
}

/// There was no memory. The tasks come back.
#[derive(Drop)]
pub struct OpenRefused<A> {
    pub tasks: List<Task<A>>,
}

fn plan_of<A>(
    alloc: Global,
    tasks: &[Task<A>],
    searches: u32,
    batch: u32,
) -> Result<Plan, AllocError>
    ensures { IfOk result (λ p. p ≡ plan_of tasks.now searches batch) }
{
    let mut numbers = Vec::new(alloc);
    for task in tasks {
        numbers.push(task.search)?;
    }
    Ok(Plan {
        tasks: List::from_vec(numbers),
        searches,
        batch,
    })
}

fn vacant<A: Drop, R: Drop>(alloc: Global, count: usize) -> Result<Vec<Cell<A, R>>, AllocError>
    ensures { IfOk result (λ v. v.items ≡ replicate count cell.Vacant) }
{
    let mut slots = Vec::new(alloc);
    for _ in 0..count {
        slots.push(Cell::Vacant)?;
    }
    Ok(slots)
}

// The loads come into the first slots, from the last one on.
fn fill<A: Drop, R: Drop>(slots: &mut Vec<Cell<A, R>>, tasks: &mut Vec<Task<A>>)
    requires vacant { slots.old.items ≡ replicate (length tasks.old.items + length tasks.old.items + length tasks.old.items) cell.Vacant }
    ensures slots { IsFilled 0 tasks.old.items slots.new.items }
    ensures tasks { vec_len tasks.new ≡ 0 }
    ensures capacity { vec_capacity tasks.new ≡ vec_capacity tasks.old }
{
    while let Some(task) = tasks.pop() {
        let place = tasks.len();
        slots[place] = Cell::Load(task.load);
    }
}

// The loads come back out of the first slots, in order.
fn take_back<A: Drop, R: Drop>(
    mut slots: Vec<Cell<A, R>>,
    plan: &Plan,
    mut tasks: Vec<Task<A>>,
) -> Vec<Task<A>>
    requires empty { vec_len tasks ≡ 0 }
    requires few { task_count plan.now ≤ MAX_TASKS }
    requires room { task_count plan.now ≤ vec_capacity tasks }
    requires slots { length slots.items ≡ task_count plan.now + task_count plan.now + task_count plan.now }
    ensures { (ts : List (TaskValue A)) → IsFilled 0 ts slots.items → plan.now.tasks ≡ map (λ (t : TaskValue A). t.search) ts → result.items ≡ ts }
{
    for place in 0..plan.tasks.len() {
        let search = plan.search_of(place as u32);
        if let Cell::Load(load) = mem::replace(&mut slots[place], Cell::Vacant) {
            tasks.push_reserved(Task { search, load });
        }
    }
    tasks
}

fn zero_words(alloc: Global, searches: u32, count: usize) -> Result<Vec<u64>, AllocError>
    requires few { count ≤ MAX_TASKS }
    ensures { IfOk result (λ v. v.items ≡ replicate (1 + searches + count + searches) 0) }
{
    let mut words = Vec::new(alloc);
    words.resize(1 + searches as usize + count + searches as usize, 0)?;
    Ok(words)
}

impl<A: Labelled + Drop, R: Labelled + Drop> Arrivals<A, R> {
    /// Opens a table on tasks of `searches` searches, with batches of at most `batch` results, and its one desk, which
    /// has all 2^32 claims. It takes all the memory that its calls need.
    pub fn open(
        alloc: Global,
        tasks: List<Task<A>>,
        searches: u32,
        batch: u32,
    ) -> Result<(Arrivals<A, R>, Desk<A, R>), OpenRefused<A>>
        requires batch { 2 ≤ batch }
        requires few { length tasks ≤ MAX_TASKS }
        requires searches { (k : ℕ) (t : TaskValue A) → get_elem? tasks k ≡ some t → t.search < searches }
        requires labels { (k : ℕ) (t : TaskValue A) → get_elem? tasks k ≡ some t → A.label t.load ≡ task_label k }
        ensures ok { IfOk result (λ r. (r.0.plan ≡ plan_of tasks searches batch) × IsOf r.0 r.1 × (r.1.view ≡ first_view)) }
        ensures err { IfErr result (λ r. r.tasks ≡ tasks) }
    {
        let Ok(plan) = plan_of(alloc, tasks.as_slice(), searches, batch) else {
            return Err(OpenRefused { tasks });
        };
        let Ok(places) = Places::of(alloc, plan) else {
            return Err(OpenRefused { tasks });
        };
        let count = places.task_count();
        let Ok(words) = zero_words(alloc, searches, count) else {
            return Err(OpenRefused { tasks });
        };
        let Ok(mut slots) = vacant(alloc, count + count + count) else {
            return Err(OpenRefused { tasks });
        };
        let Ok(room) = Vec::with_capacity(alloc, count) else {
            return Err(OpenRefused { tasks });
        };
        let mut rest = tasks.into_vec();
        fill(&mut slots, &mut rest);
        match Table::new(alloc, words.as_slice(), slots, places.plan()) {
            Ok((table, seat)) => Ok((
                Arrivals {
                    table,
                    places,
                    room,
                },
                Desk {
                    left: ALL_CLAIMS,
                    drawn: 0,
                    ended: false,
                    seat,
                },
            )),
            Err(Refused { slots }) => Err(OpenRefused {
                tasks: List::from_vec(take_back(slots, places.plan(), rest)),
            }),
        }
    }
}
