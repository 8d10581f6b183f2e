//! Search bodies, read from bytes to a search or to the first refusal of their walk, which has a number and a pointer.
//!
//! Names are refused first, then each member is read in byte order; but of an aggregation the kind is read before the
//! children, and in what takes a `field` that member before the others. The kinds themselves are read by
//! `request_kinds`, queries by `agg_query`.
#![tactic(auto)]

mod body;
mod names;
mod parts;
mod tree;

pub use body::search_of;
