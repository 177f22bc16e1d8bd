//! A reader as a source.
ghost use Rattle.std.specs.Prelude.{IfOk, None, length, ◌≡◌, ◌≤◌};

use crate::{Failed, Source};
use std::io::{self, ErrorKind, Read};

/// A reader as a source, as an open file. An interrupted read is tried again; any other error is a fault.
#[derive(Drop)]
pub struct ReaderSource<R> {
    reader: R,
    faults: u64,
}

impl<R: Read + Drop> ReaderSource<R> {
    /// The source that reads from `reader`.
    pub fn new(reader: R) -> Self
        ensures { ⟦<ReaderSource<R> as Source>⟧.source_tells result
            ≡ record { left = None; faults = 0 } }
    {
        ReaderSource { reader, faults: 0 }
    }

    /// How many calls have failed.
    pub(crate) fn faults(&self) -> u64
        ensures { result ≡ (⟦<ReaderSource<R> as Source>⟧.source_tells self.now).faults }
    {
        self.faults
    }
}

impl<R: Read + Drop> Source for ReaderSource<R> {
    ghost source_tells = { λ s. record { left = None; faults = s.faults } };

    fn read(&mut self, buf: &mut [u8]) -> Result<usize, Failed> {
        match read_some(&mut self.reader, buf) {
            Ok(count) => Ok(count),
            Err(_) => Err(Failed::counted(&mut self.faults)),
        }
    }
}

/// Reads the next bytes into the front of the buffer, and answers how many. An interrupted read is tried again.
fn read_some<R: Read>(reader: &mut R, buf: &mut [u8]) -> io::Result<usize>
    ensures { IfOk result (λ n. n ≤ length buf.new) }
{
    for _ in 0..u64::MAX {
        match reader.read(buf) {
            Err(error) if error.kind() == ErrorKind::Interrupted => {}
            answer => return answer,
        }
    }
    Err(io::Error::from(ErrorKind::Interrupted))
}
