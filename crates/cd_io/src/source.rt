//! Texts that are read from their beginning to their end.
ghost use Rattle.cd_io.specs.Causes.{Counts};
ghost use Rattle.cd_io.specs.Source.{IsWhole, Reads, SourceTells, is_reading_fault, read_count};
ghost use Rattle.cd_io.specs.Told.{Takes};
ghost use Rattle.std.specs.Prelude.{Err, IfOk, IfSome, List, length, ℕ, ◌<◌, ◌≡◌, ◌≤◌};

use crate::Failed;
use std::alloc::{AllocError, Global};

/// How many bytes `read_all` asks for in one call.
const PIECE: usize = 8_192;

/// What bytes are read from, as a file.
pub trait Source: Drop {
    /// What it tells: the bytes that are left, where it tells them, and the count of faults.
    ghost source_tells: { Self → SourceTells };

    /// Takes the next bytes into the front of the buffer, and answers how many: none, for a buffer that isn't empty,
    /// is the end. What the buffer has behind them is left open.
    fn read(&mut self, buf: &mut [u8]) -> Result<usize, Failed>
        ensures bound { read_count result ≤ length buf.new }
        ensures reads { Reads result buf.new (source_tells self.old) (source_tells self.new) };
}

/// Why a source wasn't read to its end.
#[derive(Clone, Copy, Debug, PartialEq, Eq)]
pub enum ReadAllFault {
    /// A call on the source failed.
    Failed,
    /// The source gives more bytes than the limit.
    TooLong,
    /// Memory was lacking.
    Memory,
}

impl From<Failed> for ReadAllFault {
    ghost use Rattle.cd_io.specs.declared.source.ReadAllFault.TheVariants as fault;

    ghost from_gives = { λ _ e. e ≡ fault.Failed };

    fn from(_failed: Failed) -> ReadAllFault {
        ReadAllFault::Failed
    }
}

impl From<AllocError> for ReadAllFault {
    ghost use Rattle.cd_io.specs.declared.source.ReadAllFault.TheVariants as fault;

    ghost from_gives = { λ _ e. e ≡ fault.Memory };

    fn from(_lacking: AllocError) -> ReadAllFault {
        ReadAllFault::Memory
    }
}

/// Reads all that a source has left, which is at most `limit` bytes.
pub fn read_all<S: Source>(
    alloc: Global,
    source: &mut S,
    limit: usize,
) -> Result<Vec<u8>, ReadAllFault>
    ensures whole { IfOk result (λ bytes.
        IsWhole limit bytes.items (S.source_tells source.old) (S.source_tells source.new)) }
    ensures too_long { result ≡ Err ReadAllFault.TooLong
        → IfSome (S.source_tells source.old).left (λ text. limit < length text) }
    ensures takes { (bytes : List ℕ)
        × Takes bytes (S.source_tells source.old).left (S.source_tells source.new).left }
    ensures faults { Counts (is_reading_fault result)
        (S.source_tells source.old).faults (S.source_tells source.new).faults }
{
    let mut bytes = Vec::new(alloc);
    let mut piece = [0u8; PIECE];
    loop {
        let count = source.read(&mut piece)?;
        if count == 0 {
            return Ok(bytes);
        }
        bytes.extend_from_slice(&piece[..count])?;
        if bytes.len() > limit {
            return Err(ReadAllFault::TooLong);
        }
    }
}
