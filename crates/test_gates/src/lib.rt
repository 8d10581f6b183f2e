//! Gates that hold workers back, so that tasks run in the order that a test asks for. Nobody but tests uses them.
#![tactic(auto)]

mod gates;

pub use gates::{HeldBack, MAX_TURNS, Meeting};
