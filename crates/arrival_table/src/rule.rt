//! The rule that the table keeps between any two steps, and what each step tells its desk.
use crate::cell::{Cell, Labelled};
use crate::given::Given;
use crate::known::Known;
use arrival_moves::Plan;
use atomic_table::{Join, Play, Split, TableRule};
use std::marker::PhantomData;

/// Some list of moves from the opening makes the words, the slots at home and the views of all desks.
pub(crate) struct ArrivalRule<A, R> {
    of: PhantomData<(A, R)>,
}

impl<A: Labelled, R: Labelled> TableRule<Cell<A, R>, Known, Plan> for ArrivalRule<A, R> {
    ghost use Rattle.arrival_moves.specs.AfterMove.{first_view};
    ghost use Rattle.arrival_table.specs.Outs.{knows};
    ghost use Rattle.arrival_table.specs.Steps.{IsReached};

    ghost holds = { IsReached A.label R.label };

    ghost first = { λ _. knows first_view };
}

pub(crate) struct Claim<A, R, Z> {
    of: PhantomData<(A, R, Z)>,
}

impl<A: Labelled, R: Labelled, Z: Given> Play<Cell<A, R>, Known> for Claim<A, R, Z> {
    ghost use Rattle.arrival_table.specs.Steps.{Claims};

    ghost then = { Claims A.label R.label Z.plan };
}

pub(crate) struct TakeTask<A, R, Z> {
    of: PhantomData<(A, R, Z)>,
}

impl<A: Labelled, R: Labelled, Z: Given> Play<Cell<A, R>, Known> for TakeTask<A, R, Z> {
    ghost use Rattle.arrival_table.specs.Steps.{TakesTask};

    ghost then = { TakesTask A.label R.label Z.task };
}

/// The slot that is out goes back.
pub(crate) struct GiveBack<A, R> {
    of: PhantomData<(A, R)>,
}

impl<A: Labelled, R: Labelled> Play<Cell<A, R>, Known> for GiveBack<A, R> {
    ghost use Rattle.arrival_table.specs.Steps.{GivesBack};

    ghost then = { GivesBack A.label R.label };
}

pub(crate) struct Arrive<A, R, Z> {
    of: PhantomData<(A, R, Z)>,
}

impl<A: Labelled, R: Labelled, Z: Given> Play<Cell<A, R>, Known> for Arrive<A, R, Z> {
    ghost use Rattle.arrival_table.specs.Steps.{Arrives};

    ghost then = { Arrives A.label R.label Z.plan Z.task };
}

/// The desk comes to the slot of a result, and then it is put there.
pub(crate) struct ReachResult<A, R, Z> {
    of: PhantomData<(A, R, Z)>,
}

impl<A: Labelled, R: Labelled, Z: Given> Play<Cell<A, R>, Known> for ReachResult<A, R, Z> {
    ghost use Rattle.arrival_table.specs.Steps.{ReachesResult};

    ghost then = { ReachesResult A.label R.label Z.plan Z.search Z.number };
}

pub(crate) struct PutResult<A, R, Z> {
    of: PhantomData<(A, R, Z)>,
}

impl<A: Labelled, R: Labelled, Z: Given> Play<Cell<A, R>, Known> for PutResult<A, R, Z> {
    ghost use Rattle.arrival_table.specs.Steps.{PutsResult};

    ghost then = { PutsResult A.label R.label Z.search Z.number };
}

pub(crate) struct Count<A, R, Z> {
    of: PhantomData<(A, R, Z)>,
}

impl<A: Labelled, R: Labelled, Z: Given> Play<Cell<A, R>, Known> for Count<A, R, Z> {
    ghost use Rattle.arrival_table.specs.Steps.{Counts};

    ghost then = { Counts A.label R.label Z.plan Z.search Z.number };
}

pub(crate) struct TakeResult<A, R, Z> {
    of: PhantomData<(A, R, Z)>,
}

impl<A: Labelled, R: Labelled, Z: Given> Play<Cell<A, R>, Known> for TakeResult<A, R, Z> {
    ghost use Rattle.arrival_table.specs.Steps.{TakesResult};

    ghost then = { TakesResult A.label R.label Z.plan Z.search Z.number };
}

/// The desk comes to the slot of a batch, and then the merged result is put there.
pub(crate) struct ReachBatch<A, R, Z> {
    of: PhantomData<(A, R, Z)>,
}

impl<A: Labelled, R: Labelled, Z: Given> Play<Cell<A, R>, Known> for ReachBatch<A, R, Z> {
    ghost use Rattle.arrival_table.specs.Steps.{ReachesBatch};

    ghost then = { ReachesBatch A.label R.label Z.plan Z.search Z.number };
}

pub(crate) struct PutMerged<A, R, Z> {
    of: PhantomData<(A, R, Z)>,
}

impl<A: Labelled, R: Labelled, Z: Given> Play<Cell<A, R>, Known> for PutMerged<A, R, Z> {
    ghost use Rattle.arrival_table.specs.Steps.{PutsMerged};

    ghost then = { PutsMerged A.label R.label Z.search Z.number };
}

pub(crate) struct Stop<A, R, Z> {
    of: PhantomData<(A, R, Z)>,
}

impl<A: Labelled, R: Labelled, Z: Given> Play<Cell<A, R>, Known> for Stop<A, R, Z> {
    ghost use Rattle.arrival_table.specs.Steps.{Stops};

    ghost then = { Stops A.label R.label Z.task };
}

pub(crate) struct ReadStop<A, R, Z> {
    of: PhantomData<(A, R, Z)>,
}

impl<A: Labelled, R: Labelled, Z: Given> Play<Cell<A, R>, Known> for ReadStop<A, R, Z> {
    ghost use Rattle.arrival_table.specs.Steps.{ReadsStop};

    ghost then = { ReadsStop A.label R.label Z.search };
}

pub(crate) struct Look<A, R> {
    of: PhantomData<(A, R)>,
}

impl<A: Labelled, R: Labelled> Play<Cell<A, R>, Known> for Look<A, R> {
    ghost use Rattle.arrival_table.specs.Steps.{Looks};

    ghost then = { Looks A.label R.label };
}

pub(crate) struct SplitClaims<Z> {
    of: PhantomData<Z>,
}

impl<Z: Given> Split<Known> for SplitClaims<Z> {
    ghost use Rattle.arrival_moves.specs.AfterMove.{after_split, split_off};
    ghost use Rattle.arrival_table.specs.Outs.{knows, now_knows};

    ghost left = { λ d. now_knows d (after_split d.view Z.claims) };

    ghost right = { λ _. knows (split_off Z.claims) };
}

pub(crate) struct JoinDesks;

impl Join<Known> for JoinDesks {
    ghost use Rattle.arrival_moves.specs.AfterMove.{after_join, spent_view};
    ghost use Rattle.arrival_table.specs.Outs.{knows, now_knows};

    ghost both = { λ d e. now_knows d (after_join d.view e.view) };

    ghost spent = { knows spent_view };
}
