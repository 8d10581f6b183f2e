//! Action lines: what each line of the bulk section asks for (Elasticsearch Reference 8, 'Bulk API').
//!
//! A line is an object with one member, `index`, `create` or `delete`, whose value is an object with at will `_id`,
//! `_index` and `routing`.
#![tactic(auto)]

mod action;
mod label;
mod members;

pub use action::{action_of, action_with};
