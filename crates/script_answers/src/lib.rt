//! The answers to the third section of a script: its searches in waves, its settings lines between them, and the statistics
//! at its end, each as a line of the output (Elasticsearch Reference 8, 'Multi search API', 'Cluster update settings API').
//!
//! Who answers a search is a type parameter: `Answerer`. A line counts as written once all of it was, its newline with it.
#![tactic(auto)]

mod answerer;
mod changing;
mod end;
pub mod laws;
mod running;
mod step;
mod stop;
mod wave;
mod writing;

pub use answerer::{Answerer, Reopening};
pub use end::ScriptEnd;
pub use running::answer_script;
pub use stop::Stop;
pub use writing::{write_line, write_refusal};
