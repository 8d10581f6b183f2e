//! Charges at the circuit breakers (Elasticsearch Reference 8, 'Circuit breaker settings'): whole at a child and at the
//! parent, or not at all. And the statistics that one pass with the whole cap shows. No call waits or takes memory.
#![tactic(auto)]

mod charging;
mod reopening;
mod statistics;

pub use agg_model::{BreakerStats, Totals, Tripped};
pub use charging::{charge, give_back};
pub use reopening::{Reopened, reopen};
pub use statistics::{close, stats};
