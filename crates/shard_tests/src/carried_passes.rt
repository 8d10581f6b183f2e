//! A pass of the breakers that goes through the table: as a task's load, with its result and out again at the close.
ghost use Rattle.std.specs.Prelude.{◌≡◌, ◌+◌, ◌<◌, ◌≤◌, ◌∷◌, [], false, IsTrue, IfOk, IfSome, IfNone};
ghost use Rattle.arrival_moves.specs.declared.item.Item.TheVariants as item;
ghost use Rattle.arrival_moves.specs.Labels.{task_label, no_label};
ghost use Rattle.arrival_moves.specs.Plans.{task_count};
ghost use Rattle.arrival_table.specs.Models.{IsOf};
ghost use Rattle.breaker_words.specs.Passes.{PassModel, IsOf as IsOfWords};

use crate::pairs::pair_of;
use crate::passes::expect_granted;
use agg_model::List;
use arrival_table::{Arrivals, Desk, Labelled, Task};
use breaker_words::{Limits, Pass, Step, Trial, Which, Words, join, look};
use std::alloc::{AllocError, Global};
use std::marker::{Brand, PhantomData};
use std::process::Abort;
use std::test::Fail;

/// The pass that lies in the table's slots, with all that it knows.
trait Carried {
    ghost pass: { PassModel };
}

// A call at `Brand` picks it.
impl Carried for Brand {
    ghost use Rattle.std.specs.Prelude.{[]};
    ghost use Rattle.breaker_words.specs.Passes.{PassModel};
    ghost use Rattle.breaker_words.specs.Views.{spent_view};

    ghost pass = { record { table = record { words = 0; slots = 0; views_name = 0; atom = 0; block = 0; offset = 0; slot_names = [] }; view = spent_view } };
}

/// A task with its pass.
#[derive(Drop)]
struct Load<Z: Carried> {
    task: u32,
    pass: Pass,
    of: PhantomData<Z>,
    ghost carried: { pass ≡ Z.pass },
}

impl<Z: Carried> Labelled for Load<Z> {
    ghost label = { λ l. task_label l.task };
}

/// A task's result with the pass that it was run with.
#[derive(Drop)]
struct Outcome<Z: Carried> {
    task: u32,
    pass: Pass,
    of: PhantomData<Z>,
    ghost carried: { pass ≡ Z.pass },
}

impl<Z: Carried> Labelled for Outcome<Z> {
    ghost label = { λ o. task_label o.task };
}

// Runs the one task of a table, with nothing else in hand, and merges its batch, which it alone is.
fn run_task<Z: Carried>(table: &Arrivals<Load<Z>, Outcome<Z>>, desk: &mut Desk<Load<Z>, Outcome<Z>>)
    requires plan { table.now.plan ≡ record { tasks = 0 ∷ []; searches = 1; batch = 2 } }
    requires of { IsOf table.now desk.old }
    requires claimed { desk.old.view.hand ≡ item.Claimed 0 ∷ [] }
    ensures of { IsOf table.now desk.new }
    ensures empty { desk.new.view.hand ≡ [] }
    ensures claims { (desk.new.view.left ≡ desk.old.view.left) × (desk.new.view.drawn ≡ desk.old.view.drawn) × (desk.new.view.ended ≡ desk.old.view.ended) }
{
    let Load { task, pass, of: _ } = table.take_task(desk, 0);
    let ticket = table.arrive(desk, 0);
    let outcome = Outcome {
        task,
        pass,
        of: PhantomData,
    };
    table.put(desk, 0, ticket, outcome);
    if let Some(batch) = table.count(desk, 0, ticket) {
        let merged = table.take_result(desk, 0, ticket);
        table.put_merged(desk, 0, batch, merged);
    }
}

// Runs all tasks of such a table.
fn work<Z: Carried>(table: &Arrivals<Load<Z>, Outcome<Z>>, desk: &mut Desk<Load<Z>, Outcome<Z>>)
    requires plan { table.now.plan ≡ record { tasks = 0 ∷ []; searches = 1; batch = 2 } }
    requires of { IsOf table.now desk.old }
    requires claims { (desk.old.view.drawn ≤ 1) × (2 ≤ desk.old.view.left + desk.old.view.drawn) }
    requires empty { desk.old.view.hand ≡ [] }
    ensures of { IsOf table.now desk.new }
    ensures claims { desk.new.view.left + desk.new.view.drawn ≡ desk.old.view.left + desk.old.view.drawn }
    ensures ended { IsTrue desk.new.view.ended }
    ensures empty { desk.new.view.hand ≡ [] }
{
    while let Some(_task) = table.claim(desk) {
        run_task(table, desk);
    }
}

fn carry_by<Z: Carried>(alloc: Global, pass: Pass) -> Result<Pass, AllocError>
    requires carried { Z.pass ≡ pass }
    ensures { IfOk result (λ p. p ≡ pass) }
{
    let load: Load<Z> = Load {
        task: 0,
        pass,
        of: PhantomData,
    };
    let mut tasks = List::new(alloc);
    tasks.push(Task { search: 0, load })?;
    let Ok((table, mut desk)) = Arrivals::<Load<Z>, Outcome<Z>>::open(alloc, tasks, 1, 2) else {
        return Err(AllocError);
    };
    work(&table, &mut desk);
    let mut merged = table.close(desk).into_vec();
    let Some(row) = merged.pop() else {
        unreachable!()
    };
    Ok(row.result.pass)
}

// Opens a table on one task that has the pass, runs the task, closes the table and takes the pass out of the result. It
// is the pass that was given, with its cap, its holds and its words.
fn carry(alloc: Global, pass: Pass) -> Result<Pass, AllocError>
    ensures { IfOk result (λ p. p ≡ pass) }
{
    carry_by::<Brand>(alloc, pass)
}

// The two passes as one, after the second came back.
fn expect_joined(rt: &impl Abort, words: &Words, mut a: Pass, b: Pass)
    requires of { IsOfWords words.now a }
    requires other { IsOfWords words.now b }
    requires rest { a.view.trial ≡ Trial.Rest }
    requires other_rest { b.view.trial ≡ Trial.Rest }
{
    assert_eq!(rt;
        (b.cap(), b.hold(Which::Request), b.hold(Which::Parent)),
        (150, 60, 60)
    );
    join(words, &mut a, b);
    assert_eq!(rt; (a.cap(), a.total()), (200, 200));
    assert_eq!(rt; look(words, &mut a, Which::Request), 60);
}

#[test]
fn a_pass_comes_back_out_of_the_slots(rt: HostRuntime) -> Result<(), Fail> {
    let limits = Limits {
        request: 100,
        fielddata: 100,
        inflight: 100,
        parent: 100,
    };
    let (words, a, mut b) = pair_of(rt.alloc(), limits, 200, 150)?;
    let granted = Step {
        total: 60,
        granted: true,
    };
    expect_granted(&rt, &words, &mut b, 60, granted);
    let b = carry(rt.alloc(), b)?;
    expect_joined(&rt, &words, a, b);
    Ok(())
}
