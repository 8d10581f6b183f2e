//! What the table keeps of a desk.
use agg_model::List;
use arrival_moves::View;

/// What the desk knows, and the slots that are out with it. Contracts alone see it.
pub struct Known {
    pub view: View,
    pub out: List<u64>,
}
