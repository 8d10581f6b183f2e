//! Tests of dates. They stand in a crate of their own, since a crate that has tests is proved once more for them.
#![tactic(auto)]

#[cfg(test)]
mod tests;
