//! What a desk has in hand. Contracts alone see these types.
use crate::label::Label;
use agg_model::List;

/// A task whose load was taken, and whether it was marked failed.
pub struct LoadedTask {
    pub task: u32,
    pub failed: bool,
}

/// A task that drew a ticket of its search and whose result is not yet put; `at_slot` says that the desk is at the
/// result's slot.
pub struct ArrivedTask {
    pub task: u32,
    pub failed: bool,
    pub search: u32,
    pub ticket: u32,
    pub at_slot: bool,
}

/// A ticket of a search, from 0 in each search.
pub struct Ticket {
    pub search: u32,
    pub ticket: u32,
}

/// A batch that this desk counted last: the tickets whose results are still to be taken, what those that were taken stand
/// for, and whether the desk is at the slot of the merged result.
pub struct HeldBatch {
    pub search: u32,
    pub batch: u32,
    pub due: List<u32>,
    pub taken: Label,
    pub at_slot: bool,
}

/// A merged result that was taken out when the table was closed.
pub struct ClosedBatch {
    pub search: u32,
    pub batch: u32,
    pub taken: Label,
}

/// One thing that a desk has in hand.
pub enum Item {
    /// A task whose load is still in its slot.
    Claimed(u32),
    Loaded(LoadedTask),
    Arrived(ArrivedTask),
    /// A ticket whose result is in its slot and not yet counted.
    Put(Ticket),
    Batch(HeldBatch),
    Closed(ClosedBatch),
}
