//! Sorted lists, said once, and lemmas on lists, tests, orders and sums that several crates cite.
//! This crate has definitions and lemmas, stands on std alone, and has no code that runs.
#![tactic(auto)]
