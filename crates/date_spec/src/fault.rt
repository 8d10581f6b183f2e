//! Why a text names no instant.

/// Why a text names no instant.
#[derive(Clone, Copy, Debug, Drop, PartialEq, Eq)]
pub enum DateFault {
    /// It has none of the forms of a date, or names a day or a time of day that there is not.
    Malformed,
    /// Its instant lies before `LEAST_INSTANT` or after `GREATEST_INSTANT`.
    OutOfRange,
}
