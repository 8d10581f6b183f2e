//! The kinds of aggregations, each read from JSON to its value or to the first refusal of its walk, which has a number
//! and a pointer.
//!
//! A kind is read without its children: an order that names one keeps the name and where it stands, and is resolved
//! once the children are known.
#![tactic(auto)]

mod after;
mod bounds;
mod composite;
mod date_histogram;
mod fields;
mod filters;
mod histogram;
mod kind;
mod metrics;
mod names;
mod numbers;
mod orders;
mod periods;
mod resolving;
mod sources;
mod terms;

pub use kind::{kind_at, kind_name};
pub use names::is_name;
pub use numbers::small_in;
pub use orders::direction;
pub use resolving::{child_named, resolved, with_order};
