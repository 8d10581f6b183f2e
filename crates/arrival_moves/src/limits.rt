//! How many claims a table has, and how many tasks it takes.

/// The claims of all desks together, those made and those left.
pub const ALL_CLAIMS: u64 = 4_294_967_296;

/// The most tasks of a plan.
pub const MAX_TASKS: usize = 65_536;
