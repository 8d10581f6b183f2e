//! The lines of a script, one after another, with the refusal of a line that is too long or beyond the greatest input,
//! and what a line is where a header is due (Elasticsearch Reference 8, 'Bulk API', 'Multi search API', 'Cluster update
//! settings API').
#![tactic(auto)]

mod fault;
mod header;
mod line;
mod reader;

pub use fault::{ScriptFault, ScriptRefusal};
pub use header::{Header, header_of};
pub use line::{is_empty_line, next_line, refused, refused_here, take_line};
pub use reader::{Entry, next_entry};
