//! A batch while its results are taken.
ghost use Rattle.std.proofs.Props.{props};
ghost use Rattle.pool_results.specs.Gathered.{IsGathered};
ghost use Rattle.pool_results.specs.Sets.{Partial-set};

use crate::call::PoolCall;
use crate::taken::Taken;
use breaker_words::Pass;
use std::marker::PhantomData;

/// Results of a batch that were taken, with one pass that holds what they cost.
#[derive(Drop)]
pub struct Batch<J: PoolCall> {
    pub taken: Taken,
    pub pass: Pass,
    pub of: PhantomData<J>,
    pub ghost gathered: { IsGathered J.pool taken pass } by { Prim.hlevel (Partial-set, props) },
}
