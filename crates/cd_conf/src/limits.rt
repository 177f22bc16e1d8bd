//! The limits of a configuration text.

/// The most bytes of a configuration text.
pub const FILE_LIMIT: usize = 1_048_576;

/// The most sections that are open at a place.
pub const NESTING_LIMIT: usize = 16;

/// The greatest magnitude of a number.
pub const NUMBER_LIMIT: u64 = 1_000_000_000_000_000;

/// The most digits of a number behind its dot.
pub const DECIMALS_LIMIT: usize = 6;
