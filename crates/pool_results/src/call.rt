//! Which searches loads and results belong to.
ghost use Rattle.pool_results.specs.Pools.{Pool};

use std::marker::Brand;

/// The call that loads and results belong to: its words, index and searches, and what the pass of each task may hold. Contracts
/// alone see it.
pub trait PoolCall {
    ghost pool: { Pool };
}

// A call at `Brand` picks it.
impl PoolCall for Brand {
    ghost use Rattle.pool_results.specs.Pools.{no_pool};

    ghost pool = { no_pool };
}
