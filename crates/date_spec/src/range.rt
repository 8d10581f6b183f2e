//! The instants that a date field holds.

/// The least instant of a date field, 0000-01-01T00:00:00.000Z, in milliseconds from 1970-01-01T00:00:00.000Z.
pub const LEAST_INSTANT: i64 = -62_167_219_200_000;

/// The greatest one, 9999-12-30T23:59:59.999Z.
pub const GREATEST_INSTANT: i64 = 253_402_214_399_999;
