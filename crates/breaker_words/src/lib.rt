//! The words of the circuit breakers (Elasticsearch Reference 8, 'Circuit breaker settings'), shared by threads with no
//! lock, and the passes that callers charge with. Each call makes one atomic step on one word, waits for nobody and,
//! but for `Words::open`, takes no memory.
//!
//! `laws` says what holds between any two steps of running threads.
#![tactic(auto)]

mod breaker;
pub mod laws;
mod rule;
mod trial;
mod view;
mod words;

pub use agg_model::{Child, Limits, Which};
pub use breaker::which_of;
pub use trial::{Step, Trial};
pub use view::{Account, Accounts, View};
pub use words::{
    Pass, Words, give_child, give_parent, join, look, set_ceiling, split, take_back_child,
    take_back_parent, try_child, try_parent,
};
