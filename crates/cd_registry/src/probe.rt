//! Plug-ins that are read.
ghost use Rattle.std.specs.Prelude.{◌≡◌, ◌≤◌};

use cd_value::{Lists, Sequence};
use std::marker::Send;

/// What a reader gives when it is read.
#[derive(Drop)]
pub enum Reading {
    Lists(Lists),
    Failed,
    /// Memory was lacking.
    Memory,
}

/// A reading and its moment, in units of 2^-30 s.
#[derive(Drop)]
pub struct TimedReading {
    pub moment: u64,
    pub reading: Reading,
}

/// What a reader tells: a mark that tells it from others and that no reading changes, how many readings failed, and the
/// readings that it gave with their moments, oldest first, where it tells them. No value of this is made: it is for
/// contracts.
#[derive(Drop)]
pub struct ProbeTells {
    pub mark: u64,
    pub faults: u64,
    pub readings: Option<Sequence<TimedReading>>,
}

/// What tells the readings that it gave.
pub trait TellsReadings: Drop {
    ghost use Rattle.cd_registry.specs.declared.probe.ProbeTells.{ProbeTells};

    ghost probe_tells: { Self → ProbeTells };
}

/// A plug-in that the daemon reads.
pub trait Probe: TellsReadings + Send {
    ghost use Rattle.cd_registry.specs.Told.{Reads};

    /// Reads it at a moment, in units of 2^-30 s. It answers `Failed` only where its count of faults rose in this call.
    /// It tells this moment and reading behind the others, or answers that memory was lacking and tells no readings
    /// from then on.
    fn read(&mut self, now: u64) -> Reading
        ensures { Reads now result (Self.probe_tells self.old) (Self.probe_tells self.new) };
}

impl TellsReadings for Box<dyn Probe + Send> {
    ghost probe_tells = { λ b. (Probe-box b).TellsReadings.probe_tells b.value };
}

impl Probe for Box<dyn Probe + Send> {
    fn read(&mut self, now: u64) -> Reading {
        (**self).read(now)
    }
}
