//! Reading JSON values part by part, each part found or refused with the pointer of the first thing refused.
//! The readers of mappings, documents, queries and search bodies stand on this crate.
//!
//! Each function that may refuse takes the allocator, for the text of the pointer alone, and where its value stands.
//! Its one clause says that it gives what a definition of `agg_reading` gives, unless memory ran out.
#![tactic(auto)]

mod at;
mod bytes;
mod members;
mod numbers;
mod ranges;
mod scalars;

pub use at::At;
pub use bytes::{json, reading};
pub use members::{
    check_names, is_one_of, list, member, object, required, sole_besides, sole_member, text,
};
pub use numbers::{choice, signed, signed_in, truth, truth_in, whole_in};
pub use ranges::{fits_kind, is_longer, stored};
pub use scalars::{decimal_of, flag, probe_of, whole, word};
