//! Who is told of an answer once its line is written: listeners, which say each time whether they stay.
#![tactic(auto)]

mod audience;
mod large_answers;
pub mod laws;
mod list_listener;
mod listener;

pub use audience::Audience;
pub use large_answers::LargeAnswers;
pub use list_listener::ListListener;
pub use listener::{Keep, Listener, Told};
