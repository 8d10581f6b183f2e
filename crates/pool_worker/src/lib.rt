//! One worker: it claims tasks until there is none more, runs or skips each, and merges the batches that it completes. Workers
//! share words and a table, with no lock, and none waits for another.
#![tactic(auto)]

mod delivering;
mod merging;
mod running;
mod threads;
mod working;

pub use threads::work_all;
pub use worker_gate::{Gate, OpenGate, Point};
pub use working::work;
