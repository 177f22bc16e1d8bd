//! How far a dialogue came.
ghost use Rattle.std.specs.Prelude.{◌≡◌};

use cd_io::Failed;
use cd_value::Memory;

/// What one step of a dialogue brought.
#[derive(Clone, Copy, Debug, PartialEq, Eq)]
pub enum Step {
    /// This many bytes, at least 1 and at most `PIECE`.
    Heard(usize),
    /// More bytes than are taken.
    TooLong,
    /// Bytes with a line at which the server closed the dialogue; what came behind that line is lost.
    Closed,
    /// The end of what the peer sends.
    Ended,
    /// Nothing within the link's own limit of waiting.
    Quiet,
}

/// How the service of a whole input ends.
#[derive(Clone, Copy, Debug, PartialEq, Eq)]
pub enum InputEnd {
    /// The input ended, or the link was quiet.
    Ended,
    /// More bytes came than are taken.
    TooLong,
    /// The server closed the dialogue.
    Closed,
}

/// Why a dialogue breaks off.
#[derive(Clone, Copy, Debug, PartialEq, Eq)]
pub enum DialogueFault {
    /// The link failed: its count of faults rose.
    Link,
    /// Memory was lacking.
    Memory,
}

impl From<Failed> for DialogueFault {
    ghost use Rattle.cd_dialogue.specs.declared.ends.DialogueFault.TheVariants as faults;

    ghost from_gives = { λ _ e. e ≡ faults.Link };

    fn from(_: Failed) -> Self {
        DialogueFault::Link
    }
}

impl From<Memory> for DialogueFault {
    ghost use Rattle.cd_dialogue.specs.declared.ends.DialogueFault.TheVariants as faults;

    ghost from_gives = { λ _ e. e ≡ faults.Memory };

    fn from(_: Memory) -> Self {
        DialogueFault::Memory
    }
}
