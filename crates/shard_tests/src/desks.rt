//! Desks that run the tasks of one table, alone and in two threads, and what a close gives then.
ghost use Rattle.std.specs.Prelude.{◌≡◌, ◌+◌, ◌*◌, ◌/◌, ◌<◌, ◌≤◌, ℕ, ◌∷◌, [], true, false, IsTrue, IfOk, IfErr, IfSome, IfNone, All, length, map};
ghost use mathlib.Core.Option.{some};
ghost use lib.ListN.{get_elem?};
ghost use Rattle.arrival_moves.specs.declared.item.Item.TheVariants as item;
ghost use Rattle.arrival_moves.specs.declared.limits.TheConstants.{MAX_TASKS};
ghost use Rattle.arrival_moves.specs.AfterMove.{first_view};
ghost use Rattle.arrival_moves.specs.Closing.{IsAtEnd};
ghost use Rattle.arrival_moves.specs.Labels.{task_label, no_label};
ghost use Rattle.arrival_moves.specs.Lists.{numbers_from};
ghost use Rattle.arrival_moves.specs.Plans.{task_count, search_of, tasks_of, batch_size, IsPlan};
ghost use Rattle.arrival_table.specs.declared.opening.Task.{Task as TaskValue};
ghost use Rattle.arrival_table.specs.Models.{IsOf};

use agg_model::List;
use arrival_moves::Plan;
use arrival_table::{Arrivals, Desk, Labelled, Merged, Task};
use std::alloc::{AllocError, Global};
use std::process::Abort;
use std::test::Fail;
use std::thread;

/// A load that has its task's number alone.
#[derive(Drop)]
struct Numbered {
    task: u32,
}

impl Labelled for Numbered {
    ghost label = { λ l. task_label l.task };
}

/// What one task, or the two of a batch, left behind.
#[derive(Drop)]
struct Done {
    task: u32,
    other: Option<u32>,
    failed: bool,
    skipped: bool,
}

impl Labelled for Done {
    ghost use Rattle.std.specs.List.{cons_option};

    ghost label = { λ d. record { tasks = d.task ∷ cons_option d.other []; failed = d.failed; skipped = d.skipped } };
}

/// A task that was run, and the batch that was complete with it.
type Run = (u32, Option<u32>);

/// Of a merged result its search, its batch, its tasks, and whether one failed and one was skipped.
type Row = (u32, u32, u32, Option<u32>, bool, bool);

// Stops the search of a task that fails.
fn end_task(
    table: &Arrivals<Numbered, Done>,
    desk: &mut Desk<Numbered, Done>,
    task: u32,
    fails: bool,
)
    requires of { IsOf table.now desk.old }
    requires range { task < task_count table.now.plan }
    requires loaded { desk.old.view.hand ≡ item.Loaded (record { task = task; failed = false }) ∷ [] }
    ensures of { IsOf table.now desk.new }
    ensures loaded { desk.new.view.hand ≡ item.Loaded (record { task = task; failed = fails }) ∷ [] }
    ensures notes { desk.new.view.stopped ≡ desk.old.view.stopped }
    ensures claims { (desk.new.view.left ≡ desk.old.view.left) × (desk.new.view.drawn ≡ desk.old.view.drawn) × (desk.new.view.ended ≡ desk.old.view.ended) }
{
    if fails {
        table.stop(desk, task);
    }
}

// Runs a task that the desk claimed, with nothing else in hand. Some batch where it is complete with it.
fn run_task(
    table: &Arrivals<Numbered, Done>,
    desk: &mut Desk<Numbered, Done>,
    search: u32,
    task: u32,
    fails: bool,
) -> Option<u32>
    requires of { IsOf table.now desk.old }
    requires claimed { desk.old.view.hand ≡ item.Claimed task ∷ [] }
    requires range { task < task_count table.now.plan }
    requires search { search ≡ search_of table.now.plan task }
    requires searches { search < table.now.plan.searches }
    ensures of { IsOf table.now desk.new }
    ensures last { IfSome result (λ b. desk.new.view.hand ≡ item.Batch (record {
      search = search;
      batch = b;
      due = numbers_from (b * table.now.plan.batch) (batch_size table.now.plan search b);
      taken = no_label;
      at_slot = false;
    }) ∷ []) }
    ensures batch { IfSome result (λ b. b * table.now.plan.batch < tasks_of table.now.plan search) }
    ensures early { IfNone result (desk.new.view.hand ≡ []) }
    ensures claims { (desk.new.view.left ≡ desk.old.view.left) × (desk.new.view.drawn ≡ desk.old.view.drawn) × (desk.new.view.ended ≡ desk.old.view.ended) }
{
    let load = table.take_task(desk, task);
    let skipped = table.stopped(desk, search);
    end_task(table, desk, task, fails);
    let ticket = table.arrive(desk, task);
    let done = Done {
        task: load.task,
        other: None,
        failed: fails,
        skipped,
    };
    table.put(desk, search, ticket, done);
    table.count(desk, search, ticket)
}

// Merges a batch of one or two results, which the desk counted last.
fn merge(
    table: &Arrivals<Numbered, Done>,
    desk: &mut Desk<Numbered, Done>,
    search: u32,
    batch: u32,
    size: u64,
)
    requires of { IsOf table.now desk.old }
    requires two { table.now.plan.batch ≡ 2 }
    requires range { (batch < MAX_TASKS) × (1 ≤ size) × (size ≤ 2) }
    requires batch { desk.old.view.hand ≡ item.Batch (record {
      search = search;
      batch = batch;
      due = numbers_from (batch * 2) size;
      taken = no_label;
      at_slot = false;
    }) ∷ [] }
    ensures of { IsOf table.now desk.new }
    ensures empty { desk.new.view.hand ≡ [] }
    ensures claims { (desk.new.view.left ≡ desk.old.view.left) × (desk.new.view.drawn ≡ desk.old.view.drawn) × (desk.new.view.ended ≡ desk.old.view.ended) }
{
    let first = table.take_result(desk, search, batch * 2);
    if size == 1 {
        table.put_merged(desk, search, batch, first);
        return;
    }
    let second = table.take_result(desk, search, batch * 2 + 1);
    let both = Done {
        task: first.task,
        other: Some(second.task),
        failed: first.failed || second.failed,
        skipped: first.skipped || second.skipped,
    };
    table.put_merged(desk, search, batch, both);
}

// How many tasks of the plan are of the search.
fn count_of(plan: &Plan, search: u32) -> u64
    ensures { result ≡ tasks_of plan.now search }
{
    let mut count = 0;
    for one in plan.tasks.as_slice() {
        if *one == search {
            count += 1;
        }
    }
    count
}

// How many results a batch has that is begun.
fn size_of(plan: &Plan, search: u32, batch: u32) -> u64
    requires begun { batch * plan.now.batch < tasks_of plan.now search }
    ensures { result ≡ batch_size plan.now search batch }
{
    u64::from(plan.batch).min(count_of(plan, search) - u64::from(batch) * u64::from(plan.batch))
}

// Runs tasks until there is none more, and merges the batches that it completes. The task of the number `failing` fails.
fn work(
    table: &Arrivals<Numbered, Done>,
    desk: &mut Desk<Numbered, Done>,
    plan: &Plan,
    failing: u32,
    runs: &mut Vec<Run>,
) -> Result<(), AllocError>
    requires of { IsOf table.now desk.old }
    requires plan { plan.now ≡ table.now.plan }
    requires whole { IsPlan table.now.plan }
    requires two { table.now.plan.batch ≡ 2 }
    requires claims { (desk.old.view.drawn ≤ task_count table.now.plan) × (task_count table.now.plan + 1 ≤ desk.old.view.left + desk.old.view.drawn) }
    requires empty { desk.old.view.hand ≡ [] }
    ensures of { IsOf table.now desk.new }
    ensures claims { desk.new.view.left + desk.new.view.drawn ≡ desk.old.view.left + desk.old.view.drawn }
    ensures ended { IfOk result (λ _. IsTrue desk.new.view.ended) }
    ensures empty { IfOk result (λ _. desk.new.view.hand ≡ []) }
{
    while let Some(task) = table.claim(desk) {
        let search = plan.search_of(task);
        let last = run_task(table, desk, search, task, task == failing);
        runs.push((task, last))?;
        if let Some(batch) = last {
            merge(table, desk, search, batch, size_of(plan, search, batch));
        }
    }
    Ok(())
}

// The same by a thread of its own.
fn work_apart(
    alloc: Global,
    table: &Arrivals<Numbered, Done>,
    plan: &Plan,
    mut desk: Desk<Numbered, Done>,
) -> (Desk<Numbered, Done>, Result<Vec<Run>, AllocError>)
    requires of { IsOf table.now desk }
    requires plan { plan.now ≡ table.now.plan }
    requires whole { IsPlan table.now.plan }
    requires two { table.now.plan.batch ≡ 2 }
    requires claims { (desk.view.drawn ≤ task_count table.now.plan) × (task_count table.now.plan + 1 ≤ desk.view.left + desk.view.drawn) }
    requires empty { desk.view.hand ≡ [] }
    ensures of { IsOf table.now result.0 }
    ensures claims { result.0.view.left + result.0.view.drawn ≡ desk.view.left + desk.view.drawn }
    ensures ended { IfOk result.1 (λ _. IsTrue result.0.view.ended) }
    ensures empty { IfOk result.1 (λ _. result.0.view.hand ≡ []) }
{
    let mut runs = Vec::new(alloc);
    match work(table, &mut desk, plan, NO_TASK, &mut runs) {
        Ok(()) => (desk, Ok(runs)),
        Err(failed) => (desk, Err(failed)),
    }
}

/// No task has this number.
const NO_TASK: u32 = u32::MAX;

// The plan of these tasks in batches of 2.
fn plan_of(alloc: Global, searches: &[u32], count: u32) -> Result<Plan, AllocError>
    ensures { IfOk result (λ p. p ≡ record { tasks = searches.now; searches = count; batch = 2 }) }
{
    let mut tasks = List::new(alloc);
    for search in searches {
        tasks.push(*search)?;
    }
    Ok(Plan {
        tasks,
        searches: count,
        batch: 2,
    })
}

// The tasks of a plan, each with its load.
fn tasks_of(alloc: Global, plan: &Plan) -> Result<List<Task<Numbered>>, AllocError>
    requires few { task_count plan.now ≤ MAX_TASKS }
    ensures plan { IfOk result (λ ts. map (λ (t : TaskValue Numbered). t.search) ts ≡ plan.now.tasks) }
    ensures loads { IfOk result (λ ts. (k : ℕ) (t : TaskValue Numbered) → get_elem? ts k ≡ some t → (t.search ≡ search_of plan.now k) × (t.load.task ≡ k)) }
{
    let mut tasks = List::new(alloc);
    for place in 0..plan.tasks.len() {
        let task = place as u32;
        tasks.push(Task {
            search: plan.search_of(task),
            load: Numbered { task },
        })?;
    }
    Ok(tasks)
}

// A table on these tasks in batches of 2, with its plan.
fn opened(
    alloc: Global,
    searches: &[u32],
    count: u32,
) -> Result<(Arrivals<Numbered, Done>, Desk<Numbered, Done>, Plan), AllocError>
    requires few { length searches.now ≤ MAX_TASKS }
    requires searches { All (λ q. q < count) searches.now }
    ensures of { IfOk result (λ r. IsOf r.0 r.1) }
    ensures plan { IfOk result (λ r. r.2 ≡ r.0.plan) }
    ensures whole { IfOk result (λ r. IsPlan r.0.plan) }
    ensures two { IfOk result (λ r. r.0.plan.batch ≡ 2) }
    ensures tasks { IfOk result (λ r. task_count r.0.plan ≡ length searches.now) }
    ensures view { IfOk result (λ r. r.1.view ≡ first_view) }
{
    let plan = plan_of(alloc, searches, count)?;
    let tasks = tasks_of(alloc, &plan)?;
    match Arrivals::open(alloc, tasks, count, 2) {
        Ok((table, desk)) => Ok((table, desk, plan)),
        Err(_refused) => Err(AllocError),
    }
}

fn rows_of(alloc: Global, merged: &[Merged<Done>]) -> Result<Vec<Row>, AllocError> {
    let mut rows = Vec::new(alloc);
    for one in merged {
        let done = &one.result;
        rows.push((
            one.search,
            one.batch,
            done.task,
            done.other,
            done.failed,
            done.skipped,
        ))?;
    }
    Ok(rows)
}

// What one desk makes of the tasks in batches of 2.
fn alone(
    alloc: Global,
    searches: &[u32],
    count: u32,
    failing: u32,
) -> Result<(Vec<Run>, Vec<Row>), AllocError>
    requires few { length searches.now ≤ MAX_TASKS }
    requires searches { All (λ q. q < count) searches.now }
{
    let (table, mut desk, plan) = opened(alloc, searches, count)?;
    let mut runs = Vec::new(alloc);
    work(&table, &mut desk, &plan, failing, &mut runs)?;
    let merged = table.close(desk);
    let rows = rows_of(alloc, merged.as_slice())?;
    Ok((runs, rows))
}

// What one desk makes of the tasks: which batch was complete with each, and what was merged.
fn expect_alone(
    rt: &impl Abort,
    alloc: Global,
    searches: &[u32],
    count: u32,
    failing: u32,
    runs: &[Run],
    rows: &[Row],
) -> Result<(), Fail>
    requires few { length searches.now ≤ MAX_TASKS }
    requires searches { All (λ q. q < count) searches.now }
{
    let (made, merged) = alone(alloc, searches, count, failing)?;
    assert!(rt; made.as_slice() == runs);
    assert!(rt; merged.as_slice() == rows);
    Ok(())
}

fn expect_one_search(rt: &impl Abort, alloc: Global) -> Result<(), Fail> {
    let runs = [(0, None), (1, Some(0)), (2, Some(1))];
    let rows = [
        (0, 0, 0, Some(1), false, false),
        (0, 1, 2, None, false, false),
    ];
    expect_alone(
        rt,
        alloc,
        &[0, 0, 0],
        1,
        NO_TASK,
        runs.as_slice(),
        rows.as_slice(),
    )
}

// Of four searches the last has no task.
fn expect_four_searches(rt: &impl Abort, alloc: Global) -> Result<(), Fail> {
    let runs = [
        (0, None),
        (1, Some(0)),
        (2, Some(0)),
        (3, Some(0)),
        (4, Some(1)),
    ];
    let rows = [
        (0, 0, 1, None, false, false),
        (1, 0, 0, Some(2), false, false),
        (1, 1, 4, None, false, false),
        (2, 0, 3, None, false, false),
    ];
    expect_alone(
        rt,
        alloc,
        &[1, 0, 1, 2, 1],
        4,
        NO_TASK,
        runs.as_slice(),
        rows.as_slice(),
    )
}

// The first task fails, so the others of its search are skipped.
fn expect_stopped(rt: &impl Abort, alloc: Global) -> Result<(), Fail> {
    let runs = [(0, None), (1, Some(0)), (2, Some(0)), (3, Some(1))];
    let rows = [
        (0, 0, 0, Some(1), true, true),
        (0, 1, 3, None, false, true),
        (1, 0, 2, None, false, false),
    ];
    expect_alone(
        rt,
        alloc,
        &[0, 0, 1, 0],
        2,
        0,
        runs.as_slice(),
        rows.as_slice(),
    )
}

#[test]
fn one_desk_merges_every_batch(rt: HostRuntime) -> Result<(), Fail> {
    let alloc = rt.alloc();
    expect_one_search(&rt, alloc)?;
    expect_four_searches(&rt, alloc)?;
    expect_stopped(&rt, alloc)?;
    expect_alone(&rt, alloc, &[], 0, NO_TASK, [].as_slice(), [].as_slice())
}

// A table on 20 tasks of three searches.
fn table_of_twenty(
    alloc: Global,
) -> Result<(Arrivals<Numbered, Done>, Desk<Numbered, Done>, Plan), AllocError>
    ensures of { IfOk result (λ r. IsOf r.0 r.1) }
    ensures plan { IfOk result (λ r. r.2 ≡ r.0.plan) }
    ensures whole { IfOk result (λ r. IsPlan r.0.plan) }
    ensures two { IfOk result (λ r. r.0.plan.batch ≡ 2) }
    ensures tasks { IfOk result (λ r. task_count r.0.plan ≡ 20) }
    ensures view { IfOk result (λ r. r.1.view ≡ first_view) }
{
    let searches = [0, 1, 1, 0, 2, 1, 0, 1, 1, 2, 1, 0, 1, 1, 2, 0, 1, 1, 2, 1];
    opened(alloc, searches.as_slice(), 3)
}

// Each batch of those searches, once and in their order.
fn expect_batches(rt: &impl Abort, batches: &[(u32, u32)]) {
    let all = [
        (0, 0),
        (0, 1),
        (0, 2),
        (1, 0),
        (1, 1),
        (1, 2),
        (1, 3),
        (1, 4),
        (1, 5),
        (2, 0),
        (2, 1),
    ];
    assert!(rt; batches == all.as_slice());
}

// Each of the 20 tasks, once.
fn expect_tasks(rt: &impl Abort, mut tasks: Vec<u32>) {
    tasks.sort_unstable();
    for (place, task) in tasks.iter().enumerate() {
        assert_eq!(rt; *task as usize, place);
    }
    assert_eq!(rt; tasks.len(), 20);
}

// What was merged of those tasks, none of which failed.
fn expect_merged(rt: &impl Abort, alloc: Global, merged: &[Merged<Done>]) -> Result<(), Fail> {
    let mut batches = Vec::new(alloc);
    let mut tasks = Vec::new(alloc);
    for (search, batch, task, other, failed, skipped) in rows_of(alloc, merged)? {
        batches.push((search, batch))?;
        tasks.push(task)?;
        if let Some(other) = other {
            tasks.push(other)?;
        }
        assert!(rt; !failed && !skipped);
    }
    expect_batches(rt, batches.as_slice());
    expect_tasks(rt, tasks);
    Ok(())
}

#[test]
fn two_threads_share_the_tasks(rt: HostRuntime) -> Result<(), Fail> {
    let (table, mut a, plan) = table_of_twenty(rt.alloc())?;
    let b = table.split(&mut a, 21);
    let (one, two) = (rt.alloc(), rt.alloc());
    let ((mut a, first), (b, second)) = thread::join(
        &rt,
        || work_apart(one, &table, &plan, a),
        || work_apart(two, &table, &plan, b),
    );
    let (Ok(first), Ok(second)) = (first, second) else {
        return Err(Fail::from(AllocError));
    };
    table.join(&mut a, b);
    assert_eq!(rt; a.drawn(), 22);
    assert_eq!(rt; first.len() + second.len(), 20);
    let merged = table.close(a);
    expect_merged(&rt, rt.alloc(), merged.as_slice())
}
