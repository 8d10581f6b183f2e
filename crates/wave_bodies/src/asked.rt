//! What a body asks for.

use agg_model::{Refused, Tripped};

/// What a body asks for.
#[derive(Drop)]
pub enum Asked {
    /// Nothing, since the charge of the body was refused.
    Tripped(Tripped),
    /// Nothing that runs: it is no search, or one that is too wide.
    Refused(Refused),
    /// The next of the searches that run.
    Runs,
}
