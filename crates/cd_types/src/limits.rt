//! The limits of a text of types.db(5).

/// The most bytes of a text.
pub const FILE_LIMIT: usize = 1_048_576;

/// The most bytes of a set's name.
pub const NAME_LIMIT: usize = 127;

/// The most bytes of a source's name.
pub const SOURCE_NAME_LIMIT: usize = 63;

/// The most sources of a set.
pub const SOURCES_LIMIT: usize = 16;

/// The digits behind the dot of a number in millionths.
pub(crate) const DECIMALS: usize = 6;
