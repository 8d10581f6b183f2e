//! Laws of searches by one worker, of the shards that a search leaves out, and of pages; and whole outputs, computed from
//! the bytes of the words and of the input. Each law is the contract of a function of `laws`.
#![tactic(auto)]

pub mod laws;
