//! JSON values whose texts are lent from the bytes that they stand in, for the lines of a bulk section.
//!
//! A value here stands for the same data as `serde_json`'s, so the definitions of reading serve both. No name and no text
//! is copied, and the room that reading needs is kept from one line to the next.
#![tactic(auto)]

mod bytes;
mod fault;
mod members;
mod number;
mod scalars;
mod value;

pub use bytes::reading;
pub use json::Scratch;
pub use members::member;
pub use scalars::{flag, whole, word};
pub use value::Lent;
