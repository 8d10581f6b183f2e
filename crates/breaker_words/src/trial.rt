// Where a charge or a return stands between its steps.

/// What a pass has begun and not yet ended. Only in `Rest` may it begin something else.
#[derive(Clone, Copy, Debug, PartialEq, Eq)]
pub enum Trial {
    /// Nothing is begun.
    Rest,
    /// The child refused, and its word still has the amount.
    ChildRefused,
    /// The child granted, and the parent is to be asked.
    ChildGranted,
    /// The parent refused, and both words still have the amount.
    ParentRefused,
    /// The parent's word is as before, and the child's still has the amount.
    ChildReturning,
    /// A return was made at the parent, and is to be made at the child.
    ParentGiven,
}

/// What a breaker answered to a charge.
#[derive(Clone, Copy, Debug, PartialEq, Eq)]
pub struct Step {
    /// The word that was found plus the amount, in bytes.
    pub total: u64,
    /// Whether the total is at most the limit.
    pub granted: bool,
}
