// The rule that the words keep between any two steps, and what each step tells its pass.
ghost use Rattle.std.specs.Prelude.{ℕ};
ghost use Rattle.agg_model.specs.declared.breaker.Child.{Child};

use crate::view::View;
use agg_model::Limits;
use atomic_table::{Join, Play, Split, TableRule};
use std::marker::{Brand, PhantomData};

/// Some list of moves from the opening makes the words and the views of all passes.
pub(crate) struct BreakerRule;

impl TableRule<(), View, Limits> for BreakerRule {
    ghost use Rattle.breaker_words.specs.Views.{first_view};
    ghost use Rattle.breaker_words.specs.Steps.{IsReached};

    ghost holds = { IsReached };

    ghost first = { first_view };
}

pub(crate) struct TryChild;

impl Play<(), View> for TryChild {
    ghost use Rattle.breaker_words.specs.Steps.{TriesChild};

    ghost then = { TriesChild };
}

pub(crate) struct TakeBackChild;

impl Play<(), View> for TakeBackChild {
    ghost use Rattle.breaker_words.specs.Steps.{TakesBackChild};

    ghost then = { TakesBackChild };
}

pub(crate) struct TryParent;

impl Play<(), View> for TryParent {
    ghost use Rattle.breaker_words.specs.Steps.{TriesParent};

    ghost then = { TriesParent };
}

pub(crate) struct TakeBackParent;

impl Play<(), View> for TakeBackParent {
    ghost use Rattle.breaker_words.specs.Steps.{TakesBackParent};

    ghost then = { TakesBackParent };
}

pub(crate) struct GiveChild;

impl Play<(), View> for GiveChild {
    ghost use Rattle.breaker_words.specs.Steps.{GivesChild};

    ghost then = { GivesChild };
}

pub(crate) struct SetCeiling;

impl Play<(), View> for SetCeiling {
    ghost use Rattle.breaker_words.specs.Steps.{SetsCeiling};

    ghost then = { SetsCeiling };
}

pub(crate) struct Look;

impl Play<(), View> for Look {
    ghost use Rattle.breaker_words.specs.Steps.{Looks};

    ghost then = { Looks };
}

/// The child whose amount is given back at the parent, which no operand of that step shows.
pub(crate) trait GivenChild {
    ghost whose: { Child };
}

// A call at `Brand` picks the child.
impl GivenChild for Brand {
    ghost use Rattle.agg_model.specs.declared.breaker.Child.TheVariants as child;

    ghost whose = { child.Request };
}

pub(crate) struct GiveParent<Z> {
    whose: PhantomData<Z>,
}

impl<Z: GivenChild> Play<(), View> for GiveParent<Z> {
    ghost use Rattle.breaker_words.specs.Steps.{GivesParent};

    ghost then = { GivesParent Z.whose };
}

/// The cap of a pass that is split off, which no operand of that step shows.
pub(crate) trait SplitSize {
    ghost size: { ℕ };
}

// A call at `Brand` picks the cap.
impl SplitSize for Brand {
    ghost size = { 0 };
}

pub(crate) struct SplitCap<Z> {
    size: PhantomData<Z>,
}

impl<Z: SplitSize> Split<View> for SplitCap<Z> {
    ghost use Rattle.breaker_words.specs.AfterStep.{after_split, split_off};

    ghost left = { λ v. after_split v Z.size };

    ghost right = { λ v. split_off v Z.size };
}

pub(crate) struct JoinPasses;

impl Join<View> for JoinPasses {
    ghost use Rattle.breaker_words.specs.Views.{spent_view};
    ghost use Rattle.breaker_words.specs.AfterStep.{after_join};

    ghost both = { after_join };

    ghost spent = { spent_view };
}
