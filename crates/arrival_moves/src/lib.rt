//! The machine of arrivals: workers at desks claim tasks, results arrive by tickets, and the desk that counts a batch's
//! last result merges it. These are the plain types of what a desk knows and has in hand; `specs` has the machine with
//! its twelve moves.
//!
//! `laws` says what holds after every list of moves, whoever makes each.
#![tactic(auto)]

mod item;
mod label;
pub mod laws;
mod limits;
mod places;
mod plan;
mod view;

pub use item::{ArrivedTask, ClosedBatch, HeldBatch, Item, LoadedTask, Ticket};
pub use label::Label;
pub use limits::{ALL_CLAIMS, MAX_TASKS};
pub use places::Places;
pub use plan::Plan;
pub use view::View;
