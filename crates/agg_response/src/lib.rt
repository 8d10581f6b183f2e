//! The lines that the program prints, each exactly the text that its definition gives: the answers to bulk actions,
//! refusals, breakers' exceptions, settings lines, statistics, and the last line of a run that ends early. Each call fails only
//! where memory is wanting.
#![tactic(auto)]

mod answers;
mod buckets;
mod bulk;
mod errors;
mod instants;
mod keys;
mod note_zones;
mod notes;
mod numbers;
mod search_line;
mod settings;
mod statistics;
mod values;

pub use bulk::bulk_line;
pub use errors::{exception, refusal, script_line, usage_line};
pub use search_line::response;
pub use settings::settings_line;
pub use statistics::stats_line;
