//! The numbers of the circuit breakers (Elasticsearch Reference 8, 'Circuit breaker settings'). All are bytes of
//! the stated cost model.

/// The limits of the four breakers.
#[derive(Clone, Copy, Debug, PartialEq, Eq)]
pub struct Limits {
    pub request: u64,
    pub fielddata: u64,
    pub inflight: u64,
    pub parent: u64,
}

/// The breakers that stand below the parent.
#[derive(Clone, Copy, Debug, PartialEq, Eq)]
pub enum Child {
    Request,
    Fielddata,
    Inflight,
}

/// All four breakers.
#[derive(Clone, Copy, Debug, PartialEq, Eq)]
pub enum Which {
    Request,
    Fielddata,
    Inflight,
    Parent,
}

/// A refused charge.
#[derive(Clone, Copy, Debug, PartialEq, Eq)]
pub struct Tripped {
    /// The breaker that refused.
    pub which: Which,
    /// The total that was seen there with the charge.
    pub wanted: u64,
    pub limit: u64,
}

/// One breaker's line of the statistics.
#[derive(Clone, Copy, Debug, PartialEq, Eq)]
pub struct BreakerStats {
    pub limit: u64,
    /// What is held.
    pub estimated: u64,
    /// The sum of all granted amounts.
    pub granted: u64,
    /// The overhead in per cent.
    pub overhead: u32,
    /// The number of refused charges.
    pub tripped: u64,
}

/// The statistics of the four breakers.
#[derive(Clone, Copy, Debug, PartialEq, Eq)]
pub struct Totals {
    pub request: BreakerStats,
    pub fielddata: BreakerStats,
    pub inflight: BreakerStats,
    pub parent: BreakerStats,
}
