//! The items of a bulk response, kept small until they are written (Elasticsearch Reference 8, 'Bulk API').
#![tactic(auto)]

mod items;

pub use items::{EndView, Items};
