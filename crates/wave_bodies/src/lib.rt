//! The charges of the bodies of searches that are answered side by side (Elasticsearch Reference 8, 'Multi search API', 'Circuit
//! breaker settings'): all are charged, one after another, before the first is read.
#![tactic(auto)]

mod asked;
mod bodies;
mod progress;
mod reading;

pub use agg_model::Tripped;
pub use asked::Asked;
pub use bodies::charge_bodies;
pub use reading::{Reading, read_bodies};
