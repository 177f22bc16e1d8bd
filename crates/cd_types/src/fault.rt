//! Why a text is no types.db(5).
ghost use Rattle.cd_types.specs.declared.fault.TypesKind.TheVariants as kinds;
ghost use Rattle.std.specs.Prelude.{◌≡◌};

use cd_value::Memory;
use std::alloc::{AllocError, AllocFailed};
use thiserror::Error;

/// Why a text is no types.db(5).
#[derive(Clone, Copy, Debug, PartialEq, Eq, Error)]
pub enum TypesKind {
    /// A set's name isn't one to `NAME_LIMIT` letters, digits and `_`.
    #[error("bad name")]
    BadName,
    /// A set has no entry, or an entry hasn't four parts, or its name isn't one to
    /// `SOURCE_NAME_LIMIT` letters, digits and `_`, or is that of an earlier one.
    #[error("bad source")]
    BadSource,
    /// The kind is none of ABSOLUTE, COUNTER, DERIVE and GAUGE.
    #[error("bad kind")]
    BadKind,
    /// A bound is neither `U` nor a number, or the minimum is above the maximum.
    #[error("bad bound")]
    BadBound,
    /// More than `SOURCES_LIMIT` entries.
    #[error("too many sources")]
    TooMany,
    /// The line isn't UTF-8.
    #[error("not UTF-8")]
    NotText,
    /// The source couldn't be read.
    #[error("read failed")]
    ReadFault,
    /// More than `FILE_LIMIT` bytes.
    #[error("too long")]
    TooLong,
    /// Memory was lacking.
    #[error("out of memory")]
    Memory,
}

/// The first fault of a text.
#[derive(Clone, Copy, Debug, PartialEq, Eq)]
pub struct TypesFault {
    /// What is wrong.
    pub kind: TypesKind,
    /// The line where it is, from 1; 0 for a fault of the whole text, and for want of memory.
    pub line: u32,
}

impl From<AllocError> for TypesKind {
    ghost from_gives = { λ _ e. e ≡ kinds.Memory };

    fn from(_: AllocError) -> Self {
        TypesKind::Memory
    }
}

impl<T: Drop> From<AllocFailed<T>> for TypesKind {
    ghost from_gives = { λ _ e. e ≡ kinds.Memory };

    fn from(_: AllocFailed<T>) -> Self {
        TypesKind::Memory
    }
}

impl From<Memory> for TypesKind {
    ghost from_gives = { λ _ e. e ≡ kinds.Memory };

    fn from(_: Memory) -> Self {
        TypesKind::Memory
    }
}

impl From<AllocError> for TypesFault {
    ghost from_gives = { λ _ e. e ≡ record { kind = kinds.Memory; line = 0 } };

    fn from(_: AllocError) -> Self {
        TypesFault {
            kind: TypesKind::Memory,
            line: 0,
        }
    }
}

impl From<Memory> for TypesFault {
    ghost from_gives = { λ _ e. e ≡ record { kind = kinds.Memory; line = 0 } };

    fn from(_: Memory) -> Self {
        TypesFault {
            kind: TypesKind::Memory,
            line: 0,
        }
    }
}
