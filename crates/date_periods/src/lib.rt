//! The periods of a date histogram: the keys of instants, and the steps from key to key. Each call takes constant time and no
//! memory.
#![tactic(auto)]

mod calendar;
mod codes;
mod intervals;
mod keys;
mod numbers;

pub use codes::{code_of, key_of_code, keys_rise_with_codes};
pub use date_spec::Period;
pub use keys::{after, key_of, steps};
