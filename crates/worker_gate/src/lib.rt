//! The gate that workers of a search pass, for whoever wants to see where they stand, or to hold them up.
#![tactic(auto)]

mod gate;

pub use gate::{Gate, OpenGate, Point};
