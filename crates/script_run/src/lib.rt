//! The run of a script, by whoever answers its searches: the words, the lines of the input or of a generated script, and the lines
//! of the output (Elasticsearch Reference 8, 'Bulk API', 'Multi search API').
//!
//! `run` is the top call for any source, any sink and any `Opens`; it answers the exit status.
#![tactic(auto)]

mod answering;
mod given;
mod loading;
mod opening;
mod running;
mod status;
mod writing;

pub use opening::Opens;
pub use running::run;
pub use status::Status;
