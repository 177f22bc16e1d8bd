//! Why a text is no configuration.
ghost use Rattle.cd_conf.specs.declared.fault.ConfKind.TheVariants as kinds;
ghost use Rattle.std.specs.Prelude.{◌≡◌};

use cd_value::Memory;
use std::alloc::{AllocError, AllocFailed};
use thiserror::Error;

/// Why a text is no configuration.
#[derive(Clone, Copy, Debug, PartialEq, Eq, Error)]
pub enum ConfKind {
    /// A line begins with no key, no `<` and a key, and no `</` and a key.
    #[error("bad key")]
    BadKey,
    /// A value, or what stands in a value's place, has no form of a value, or is missing.
    #[error("bad value")]
    BadValue,
    /// A quoted string doesn't end in its line.
    #[error("unterminated string")]
    Unterminated,
    /// A section is open where the text ends.
    #[error("unclosed section")]
    UnclosedSection,
    /// A section end where no section is open, or one of another key.
    #[error("wrong end")]
    WrongEnd,
    /// A section start in `NESTING_LIMIT` open sections.
    #[error("too deep")]
    TooDeep,
    /// More than `FILE_LIMIT` bytes.
    #[error("too long")]
    TooLong,
    /// The source couldn't be read.
    #[error("read failed")]
    ReadFault,
    /// The text isn't UTF-8.
    #[error("not UTF-8")]
    NotText,
    /// Memory was lacking.
    #[error("out of memory")]
    Memory,
}

/// The first fault of a text.
#[derive(Clone, Copy, Debug, PartialEq, Eq)]
pub struct ConfFault {
    /// What is wrong.
    pub kind: ConfKind,
    /// The line where it is, from 1; 0 for a fault of the whole text, and for want of memory.
    pub line: u32,
}

impl From<AllocError> for ConfFault {
    ghost from_gives = { λ _ e. e ≡ record { kind = kinds.Memory; line = 0 } };

    fn from(_: AllocError) -> Self {
        ConfFault {
            kind: ConfKind::Memory,
            line: 0,
        }
    }
}

impl<T: Drop> From<AllocFailed<T>> for ConfFault {
    ghost from_gives = { λ _ e. e ≡ record { kind = kinds.Memory; line = 0 } };

    fn from(_: AllocFailed<T>) -> Self {
        ConfFault {
            kind: ConfKind::Memory,
            line: 0,
        }
    }
}

impl From<Memory> for ConfFault {
    ghost from_gives = { λ _ e. e ≡ record { kind = kinds.Memory; line = 0 } };

    fn from(_: Memory) -> Self {
        ConfFault {
            kind: ConfKind::Memory,
            line: 0,
        }
    }
}
