//! Words, and why a line has none.
ghost use Rattle.cd_text.specs.declared.word.WordFault.TheVariants as errors;
ghost use Rattle.std.specs.Prelude.{◌≡◌};

use cd_value::{Memory, Sequence, Text, TryCopy};
use std::alloc::{AllocError, AllocFailed, Global};

/// A word of a line.
#[derive(Drop)]
pub struct Word {
    /// The word without its quotes.
    pub text: Text,
    /// The byte place in the line of the word's first byte, which may be a quote.
    pub start: u64,
}

impl TryCopy for Word {
    fn copy(&self, alloc: Global) -> Result<Word, Memory> {
        let text = self.text.copy(alloc)?;
        Ok(Word {
            text,
            start: self.start,
        })
    }
}

/// Words in order.
pub type Words = Sequence<Word>;

/// Why a line has no words.
#[derive(Clone, Copy, Debug, PartialEq, Eq)]
pub enum WordFault {
    /// The line ends inside quotes.
    Unterminated,
    /// Memory was lacking.
    Memory,
}

impl From<AllocError> for WordFault {
    ghost from_gives = { λ _ e. e ≡ errors.Memory };

    fn from(_: AllocError) -> Self {
        WordFault::Memory
    }
}

impl<T: Drop> From<AllocFailed<T>> for WordFault {
    ghost from_gives = { λ _ e. e ≡ errors.Memory };

    fn from(_: AllocFailed<T>) -> Self {
        WordFault::Memory
    }
}

impl From<Memory> for WordFault {
    ghost from_gives = { λ _ e. e ≡ errors.Memory };

    fn from(_: Memory) -> Self {
        WordFault::Memory
    }
}
