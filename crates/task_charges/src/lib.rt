//! What a task charges and gives back while its tree grows (Elasticsearch Reference 8, 'Circuit breaker settings': the
//! request circuit breaker). A task holds a number of bytes at request: it begins with a first one, settles from one to
//! the next, and gives all back where it is refused or cannot go on. No call waits or takes memory.
//!
//! Contracts tell what a pass comes to by the list of amounts so far; `laws` says what that is for all amounts of a task.
#![tactic(auto)]

mod charging;
pub mod laws;

pub use charging::{begin, give_up, settle};
