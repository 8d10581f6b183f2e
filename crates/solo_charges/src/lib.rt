//! The charges of one caller that is alone at the breakers (Elasticsearch Reference 8, 'Circuit breaker settings'): its pass
//! stands where the run of the definitions does, charge by charge. `laws` says the same of tasks and of merges. No call waits
//! or takes memory.
#![tactic(auto)]

mod charging;
pub mod laws;

pub use charging::{charge_bytes, give_all_back, make_room};
