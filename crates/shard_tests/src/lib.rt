//! Tests of what stands below a search: shards (columns, matching rows, keys of rows, trees), circuit breakers and what charges
//! them, arrivals (the tasks that workers share), and loading. They stand in a crate of their own, since a crate that has tests is
//! proved once more for them.
#![tactic(auto)]

// Shards.
#[cfg(test)]
mod columns;
#[cfg(test)]
mod counts;
#[cfg(test)]
mod filters;
#[cfg(test)]
mod matching;
#[cfg(test)]
mod months;
#[cfg(test)]
mod nesting;
#[cfg(test)]
mod places;
#[cfg(test)]
mod sample;
#[cfg(test)]
mod terms;
#[cfg(test)]
mod trees;

// Circuit breakers.
#[cfg(test)]
mod charges;
#[cfg(test)]
mod held_tasks;
#[cfg(test)]
mod pairs;
#[cfg(test)]
mod passes;

// Arrivals.
#[cfg(test)]
mod carried_passes;
#[cfg(test)]
mod desks;
#[cfg(test)]
mod plans;

// Loading.
#[cfg(test)]
mod generating;
#[cfg(test)]
mod loaded_sections;
