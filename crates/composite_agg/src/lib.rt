//! Composite aggregations over the columns of a shard: the keys of a row, and a page while its keys come (Elasticsearch Reference 8,
//! 'Composite aggregation').
#![tactic(auto)]

mod behind;
pub mod coded;
mod first_keys;
mod keyed;
pub mod lasts;
pub mod laws;
mod odometer;
mod offered;
mod offering;
mod parts;
mod places;
mod row_keys;
pub mod runs;
mod sought;
mod swapping;

pub use behind::are_behind;
pub use first_keys::FirstKeys;
pub use keyed::HasKey;
pub use odometer::Combinations;
pub use offered::Offered;
pub use row_keys::{key_count, keys};
pub use sought::Sought;
