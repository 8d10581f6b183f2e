//! The periods of a date histogram.

/// The longest fixed interval, 2,147,483,647 days, in milliseconds.
pub const GREATEST_INTERVAL: u64 = 185_542_587_100_800_000;

/// How long the periods of a date histogram are. They begin in the local time of a zone.
#[derive(Clone, Copy, Debug, Drop, PartialEq, Eq)]
pub enum Period {
    /// So many milliseconds each, from 1 to `GREATEST_INTERVAL`; one of them begins at 1970-01-01T00:00. A minute, an hour
    /// and a day are such periods.
    Fixed(u64),
    /// From midnight before a Monday.
    Week,
    /// From midnight before the first day of a month.
    Month,
    /// From midnight before the first day of January, April, July or October.
    Quarter,
    /// From midnight before the first of January.
    Year,
}
