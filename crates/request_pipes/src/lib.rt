//! The pipelines of a search, each read from JSON to its value or to the first refusal of its walk, which has a number and
//! a pointer.
//!
//! A pipeline is read without the aggregations beside it: its paths keep where they stand, and are looked up, and its own
//! place is tried, once the object in which it stands has ended.
#![tactic(auto)]

mod fitting;
mod members;
mod paths;
mod placing;

pub use fitting::fitted_pipes;
pub use members::{pipe_kind_at, pipe_name};
pub use placing::{Around, around_of};
