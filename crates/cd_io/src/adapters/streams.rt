//! A reader and a writer as a link.
ghost use Rattle.cd_io.specs.Link.{Says, counts_alone};
ghost use Rattle.std.specs.Io.KnownBytes.{WriteAppends};
ghost use Rattle.std.specs.Prelude.{IfOk, length, ◌<◌, ◌≡◌, ◌≤◌};

use crate::{Failed, Heard, Link};
use std::io::{self, ErrorKind, Read, Write};
use std::marker::Send;
use std::thread;
use std::time::{Clock, Duration};

/// How many milliseconds pass before a call that would block is tried again.
const PAUSE: u64 = 1;

/// A reader and a writer as a link, as standard input and standard output. The writer is to keep nothing back, as
/// theirs, files and sockets don't: it isn't flushed, and the bytes that it took are said.
///
/// A call that was interrupted is tried again, and so is one that would block, after a pause of a millisecond. A read
/// that timed out is quiet; any other error is a fault.
#[derive(Drop)]
pub struct Streams<C, R, W> {
    clock: C,
    reader: R,
    writer: W,
    faults: u64,
    quiets: u64,
}

impl<C: Clock + Send + Drop, R: Read + Send + Drop, W: Write + Send + Drop> Streams<C, R, W> {
    /// The link that hears from `reader`, says to `writer` and waits by `clock`.
    pub fn new(clock: C, reader: R, writer: W) -> Self
        ensures { ⟦<Streams<C, R, W> as Link>⟧.link_tells result ≡ counts_alone 0 0 }
    {
        Streams {
            clock,
            reader,
            writer,
            faults: 0,
            quiets: 0,
        }
    }
}

// The clauses of the trait, and what the writer holds, where it tells it.
impl<C: Clock + Send + Drop, R: Read + Send + Drop, W: Write + Send + Drop> Link
    for Streams<C, R, W> {
    ghost link_tells = { λ l. counts_alone l.faults l.quiets };

    fn hear(&mut self, buf: &mut [u8]) -> Result<Heard, Failed> {
        match read_some(&self.clock, &mut self.reader, buf) {
            Ok(0) => Ok(Heard::End),
            Ok(count) => Ok(Heard::Got(count)),
            Err(error) if error.kind() == ErrorKind::TimedOut => {
                self.quiets = self.quiets.saturating_add(1);
                Ok(Heard::Quiet)
            }
            Err(_) => Err(Failed::counted(&mut self.faults)),
        }
    }

    fn say(&mut self, text: &[u8]) -> Result<usize, Failed>
        ensures bound { IfOk result (λ n. n ≤ length text.now) }
        ensures some { IfOk result (λ n. 0 < length text.now → 0 < n) }
        ensures says { Says result text.now (counts_alone self.old.faults self.old.quiets)
            (counts_alone self.new.faults self.new.quiets) }

        // The writer took just the bytes that were said, and none in a call that failed.
        ensures written { WriteAppends (W.contents self.old.writer) (W.contents self.new.writer)
            result text.now }
    {
        match write_some(&self.clock, &mut self.writer, text) {
            Ok(taken) if taken > 0 || text.is_empty() => Ok(taken),
            _ => Err(Failed::counted(&mut self.faults)),
        }
    }
}

/// Whether a call that failed is to be tried again, which it waits for where that would block.
fn is_passing<C: Clock>(clock: &C, error: &io::Error) -> bool {
    match error.kind() {
        ErrorKind::Interrupted => true,
        ErrorKind::WouldBlock => {
            thread::sleep(clock, Duration::from_millis(PAUSE));
            true
        }
        _ => false,
    }
}

/// Reads the next bytes into the front of the buffer, and answers how many.
fn read_some<C: Clock, R: Read>(clock: &C, reader: &mut R, buf: &mut [u8]) -> io::Result<usize>
    ensures { IfOk result (λ n. n ≤ length buf.new) }
{
    for _ in 0..u64::MAX {
        match reader.read(buf) {
            Err(error) if is_passing(clock, &error) => {}
            answer => return answer,
        }
    }
    Err(io::Error::from(ErrorKind::WouldBlock))
}

/// Writes the first bytes of a text, and answers how many.
fn write_some<C: Clock, W: Write>(clock: &C, writer: &mut W, text: &[u8]) -> io::Result<usize>
    ensures bound { IfOk result (λ n. n ≤ length text.now) }
    ensures written { WriteAppends (W.contents writer.old) (W.contents writer.new)
        result text.now }
{
    for _ in 0..u64::MAX {
        match writer.write(text) {
            Err(error) if is_passing(clock, &error) => {}
            answer => return answer,
        }
    }
    Err(io::Error::from(ErrorKind::WouldBlock))
}
