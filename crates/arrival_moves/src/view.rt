//! What a desk knows of itself.
use crate::item::Item;
use agg_model::List;

/// What a desk knows: the claims that it may still make, those that it made, whether one of them found no task, what it
/// has in hand, and the searches that it noted as stopped. Contracts alone see it.
pub struct View {
    pub left: u64,
    pub drawn: u64,
    pub ended: bool,
    pub hand: List<Item>,
    pub stopped: List<u32>,
}
