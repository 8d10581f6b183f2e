//! The table of arrivals: workers claim tasks, results arrive by tickets, and whoever counts a batch's last result merges
//! it. Threads share it with no lock. Each call makes single atomic steps, waits for nobody and takes no memory.
#![tactic(auto)]

mod cell;
mod claims;
mod closing;
mod desk;
mod given;
mod known;
pub mod laws;
mod merging;
mod opening;
mod results;
mod rule;
mod sharing;
mod stops;
mod table;

pub use cell::Labelled;
pub use desk::Desk;
pub use opening::{OpenRefused, Task};
pub use table::{Arrivals, Merged};
