//! How much is read.

/// How many bytes are read at once.
pub const BLOCK: usize = 65_536;
