//! The texts of dates, read to the instants that they name, and instants printed.
#![tactic(auto)]

mod calendar;
mod clocks;
mod offsets;
mod printing;
mod reading;
mod shapes;

pub use date_spec::DateFault;
pub use offsets::ahead_of;
pub use printing::print;
pub use reading::read;
