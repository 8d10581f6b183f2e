//! The whole program over a source and a sink: the words, the script, and its answers line by line, by as many workers as the words
//! say. `run` is the top call; it answers the exit status, which `main` gives to the process.
#![tactic(auto)]

mod arguments;
mod running;

pub use running::{Ended, run, run_arguments};
pub use script_run::Status;
