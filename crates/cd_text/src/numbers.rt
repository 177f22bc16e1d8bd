//! The limits of numbers and times as text.

/// The most digits of a number before its exponent.
pub const DIGITS_LIMIT: usize = 36;

/// The most digits of a number's exponent.
pub const EXPONENT_LIMIT: usize = 4;

/// The most digits behind the dot of a time.
pub const FRACTION_LIMIT: usize = 9;

/// The first number of seconds that is out of range as a time.
pub const SECONDS_END: u64 = 1 << 34;

/// The most millionths of a second that `to_time` takes.
pub const DURATION_LIMIT: i128 = 1_000_000_000_000_000;
