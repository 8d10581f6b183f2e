//! The page of a composite: its first buckets behind a key (Elasticsearch Reference 8, 'Composite aggregation', 'Pagination').
#![tactic(auto)]

pub mod laws;
mod paging;

pub use paging::{is_beyond_key, page};
