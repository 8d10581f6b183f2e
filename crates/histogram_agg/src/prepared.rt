//! The prepared form of a histogram.
ghost use Rattle.std.specs.Prelude.{◌<◌, ◌^◌};

use agg_model::Bounds;

/// A histogram, prepared. It gives each key a code, the number of intervals from the offset to it, which has 64 bits.
#[derive(Clone, Copy)]
pub struct PreparedHistogram {
    pub(crate) field: u32,
    pub(crate) interval: u64,
    pub(crate) offset: u64,
    pub(crate) hard: Bounds,
    /// The code of a row without a value.
    pub(crate) missing: Option<i64>,
    ghost below: { offset < interval },
    ghost small: { interval < 2 ^ 63 },
}
