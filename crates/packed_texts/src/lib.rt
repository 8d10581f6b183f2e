//! Byte strings and texts behind one another in one array: each takes four bytes beside its own, and no memory of its own.
#![tactic(auto)]

mod bytes;
mod texts;

pub use bytes::PackedBytes;
pub use texts::PackedTexts;
