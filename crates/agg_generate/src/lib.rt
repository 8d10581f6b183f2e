//! The script that `--generate` asks for.
#![tactic(auto)]

mod draws;
mod script;

pub use script::make;
