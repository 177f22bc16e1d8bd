//! Why a line is refused.
ghost use Rattle.cd_sock.specs.declared.fault.LineFault.TheVariants as faults;
ghost use Rattle.std.specs.Prelude.{◌≡◌};

use cd_text::WordFault;
use cd_value::{IdFault, Memory};
use std::alloc::{AllocError, AllocFailed};

/// Why a line is refused, in the order in which the first is given; collectd-unixsock(5) says what
/// a line may be.
#[derive(Clone, Copy, Debug, PartialEq, Eq)]
pub enum LineFault {
    /// The line has more than `LINE_LIMIT` bytes, a carriage return at its end among them.
    LineTooLong,
    /// The line isn't UTF-8.
    NotUtf8,
    /// The line ends inside quotes.
    UnterminatedQuote,
    /// The first word is no command.
    UnknownCommand,
    /// PUTVAL lacks an identifier or a value, or GETVAL an identifier.
    MissingArgument,
    /// An identifier is none.
    BadIdentifier,
    /// No type has the identifier's type name.
    UnknownType,
    /// PUTVAL has an option other than `interval`, GETVAL or LISTVAL a word too many, or FLUSH a
    /// word that is none of its options.
    BadOption,
    /// A time is neither `N` nor a time below `SECONDS_END` seconds, an interval isn't such a time
    /// or is 0, or a timeout is neither `-1` nor such a time.
    BadTime,
    /// A value word of PUTVAL hasn't as many values as the type has sources.
    WrongNumberOfValues,
    /// A value isn't of its source's kind.
    BadValue,
    /// Memory was lacking.
    Memory,
}

impl From<AllocError> for LineFault {
    ghost from_gives = { λ _ e. e ≡ faults.Memory };

    fn from(_: AllocError) -> Self {
        LineFault::Memory
    }
}

impl<T: Drop> From<AllocFailed<T>> for LineFault {
    ghost from_gives = { λ _ e. e ≡ faults.Memory };

    fn from(_: AllocFailed<T>) -> Self {
        LineFault::Memory
    }
}

impl From<Memory> for LineFault {
    ghost from_gives = { λ _ e. e ≡ faults.Memory };

    fn from(_: Memory) -> Self {
        LineFault::Memory
    }
}

impl From<WordFault> for LineFault {
    ghost use Rattle.cd_sock.specs.Faults.{of_words};

    ghost from_gives = { λ f e. e ≡ of_words f };

    fn from(fault: WordFault) -> Self {
        match fault {
            WordFault::Unterminated => LineFault::UnterminatedQuote,
            WordFault::Memory => LineFault::Memory,
        }
    }
}

impl From<IdFault> for LineFault {
    ghost use Rattle.cd_sock.specs.Faults.{of_identifier};

    ghost from_gives = { λ f e. e ≡ of_identifier f };

    fn from(fault: IdFault) -> Self {
        match fault {
            IdFault::BadIdentifier | IdFault::FieldTooLong => LineFault::BadIdentifier,
            IdFault::Memory => LineFault::Memory,
        }
    }
}
