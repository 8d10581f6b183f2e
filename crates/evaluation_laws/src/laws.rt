//! Laws of the definitions. Each function has a law as its contract, over all values of the definitions, and does nothing.
pub mod charges;
pub mod keys;
pub mod shards;
pub mod wholes;
