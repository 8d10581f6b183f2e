//! Tests of partial results and answers, of pools of workers, and of whole runs over memory. They stand in a crate of their own,
//! since a crate that has tests is proved once more for them.
#![tactic(auto)]

#[cfg(test)]
mod batches;
#[cfg(test)]
mod cases;
#[cfg(test)]
mod classes;
#[cfg(test)]
mod ends;
#[cfg(test)]
mod faults;
#[cfg(test)]
mod finals;
#[cfg(test)]
mod gaps;
#[cfg(test)]
mod gated;
#[cfg(test)]
mod lines;
#[cfg(test)]
mod listeners;
#[cfg(test)]
mod meetings;
#[cfg(test)]
mod memory;
#[cfg(test)]
mod merges;
#[cfg(test)]
mod partials;
#[cfg(test)]
mod parts;
#[cfg(test)]
mod pipelines;
#[cfg(test)]
mod pools;
#[cfg(test)]
mod refusals;
#[cfg(test)]
mod runs;
#[cfg(test)]
mod scripts;
