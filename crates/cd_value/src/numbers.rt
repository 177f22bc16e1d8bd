//! The numbers that the rules name: the unit of time, and the limits on texts and values.

/// A second as a time or an interval, which are whole numbers of 2^-30 s.
pub const SECOND: u64 = 1 << 30;

/// The most bytes that a field of an identifier has.
pub const FIELD_LIMIT: usize = 127;

/// The most bytes that the message of a notification has.
pub const MESSAGE_LIMIT: usize = 255;

/// The millionths in one: gauges, bounds and the numbers of a configuration are whole numbers of them.
pub const MILLIONTHS: u128 = 1_000_000;

/// The greatest magnitude of a gauge and of a bound, in millionths.
pub const NUMBER_LIMIT: u128 = 1_000_000_000_000_000_000_000_000_000_000;

/// Where a counter of 32 bits wraps.
pub const WRAP_OF_32_BITS: u64 = 1 << 32;
