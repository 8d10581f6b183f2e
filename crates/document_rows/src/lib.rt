//! The walk of one document's JSON source into its root row, the value that it gives each field, and the first refusal
//! with its number and path.
#![tactic(auto)]

mod document;
mod draft;
mod fault;
mod field_value;
mod lists;
mod refusal;
mod roles;
mod values;
mod walk;

pub use document::{root_row_of, root_row_with};
pub use fault::ItemFault;
pub use lent_json::Scratch;
pub use refusal::refuse;
