//! Dates, said once: the Gregorian calendar, instants in milliseconds, the texts that name them, and the
//! periods that hold them. This crate has definitions, their laws, and the types and constants that they speak of.
#![tactic(auto)]

mod fault;
pub mod laws;
mod period;
pub mod period_laws;
mod range;

pub use fault::DateFault;
pub use period::{GREATEST_INTERVAL, Period};
pub use range::{GREATEST_INSTANT, LEAST_INSTANT};
