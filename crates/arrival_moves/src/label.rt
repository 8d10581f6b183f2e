//! What a load or a result stands for.
use agg_model::List;

/// The tasks that a load or a result stands for, whether one of them failed, and whether one was skipped. Contracts alone
/// see it.
pub struct Label {
    pub tasks: List<u32>,
    pub failed: bool,
    pub skipped: bool,
}
