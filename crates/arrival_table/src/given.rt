//! What no operand of a step shows.
ghost use Rattle.std.specs.Prelude.{ℕ, []};
ghost use Rattle.arrival_moves.specs.declared.plan.Plan.{Plan};

use std::marker::Brand;

/// The plan of a step's table, and the arguments of its call.
pub(crate) trait Given {
    ghost plan: { Plan };

    ghost task: { ℕ };

    ghost search: { ℕ };

    /// A ticket or a batch.
    ghost number: { ℕ };

    /// The claims that are split off.
    ghost claims: { ℕ };
}

// A call at `Brand` picks them.
impl Given for Brand {
    ghost plan = { record { tasks = []; searches = 0; batch = 0 } };

    ghost task = { 0 };

    ghost search = { 0 };

    ghost number = { 0 };

    ghost claims = { 0 };
}
