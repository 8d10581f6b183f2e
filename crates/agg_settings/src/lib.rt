//! The words of the command line, read to the settings of a run or to the first word that is not in the grammar, and
//! the change of these settings by a settings line.
//!
//! The grammar, the settings that words give and those after a settings line stand as definitions in `specs/`.
#![tactic(auto)]

mod amount;
mod change_fault;
mod command;
mod entries;
mod fault;
mod generate;
pub mod laws;
mod names;
mod numbers;
mod options;
mod settings;
mod settings_line;
mod values;

pub use amount::byte_size;
pub use change_fault::ChangeFault;
pub use fault::SettingsFault;
pub use settings::settings_of;
pub use settings_line::{change, is_settings_line};
