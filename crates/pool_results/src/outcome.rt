//! What became of some tasks, with the charges for them.
ghost use Rattle.std.proofs.Props.{props};
ghost use Rattle.pool_results.specs.Carried.{IsCarried, label_of};
ghost use Rattle.pool_results.specs.Sets.{Partial-set};

use crate::call::PoolCall;
use crate::work::Work;
use arrival_table::Labelled;
use breaker_words::Pass;
use std::marker::PhantomData;

/// What became of some tasks of one search, with the pass that holds what it costs. Whoever takes it out of a slot has the
/// charges with it.
#[derive(Drop)]
pub struct Outcome<J: PoolCall> {
    pub work: Work,
    pub pass: Pass,
    pub of: PhantomData<J>,
    pub ghost carried: { IsCarried J.pool work pass } by { Prim.hlevel (Partial-set, props) },
}

impl<J: PoolCall> Labelled for Outcome<J> {
    ghost label = { λ o. label_of J.pool o.work };
}
