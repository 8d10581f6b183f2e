//! Searches that pass the test of their type are one and the same value. This crate has the law, and no code.
#![tactic(auto)]

pub mod laws;
