//! The settings of the whole daemon, as the top of collectd.conf(5) gives them.
//!
//! - Stands on `cd_value`, and takes no handle.
//! - Read first `specs/Globals.antt`: the values where the configuration names none.
//! - `Globals` keeps no invariant; whoever reads a configuration keeps the bounds of each option.
//! - A new option of the whole daemon begins here, with its default in `specs/Globals.antt`.
#![tactic(auto)]

ghost use Rattle.cd_globals.specs.Globals.{default_globals};
ghost use Rattle.std.specs.Prelude.{IfOk, ◌≡◌};

use cd_value::{Memory, Text};
use std::alloc::Global;

/// The settings of the whole daemon, each named as its option in collectd.conf(5).
#[derive(Drop)]
pub struct Globals {
    /// `Hostname`: the host of value lists that the daemon's own readers give.
    pub hostname: Text,
    /// `Interval`, in 2^-30 s: that of readers, and of value lists whose source names none.
    pub interval: u64,
    /// `Timeout`: after how many of its intervals without a list a name counts as missing.
    pub timeout: u32,
    /// `MaxReadInterval`, in 2^-30 s: the longest interval of a reader that failed.
    pub longest: u64,
    /// `ReadThreads`: how many threads read.
    pub read_threads: u32,
    /// `WriteThreads`: how many threads write.
    pub write_threads: u32,
    /// `WriteQueueLimitHigh`: the most lists in the write queue; 0 is no limit.
    pub high: u32,
    /// `WriteQueueLimitLow`: from so many lists on some are dropped.
    pub low: u32,
}

/// `Interval`, where no option names one, in 2^-30 s: 10 seconds.
pub const INTERVAL: u64 = 10_737_418_240;

/// `Timeout`, where no option names one.
pub const TIMEOUT: u32 = 2;

/// `MaxReadInterval`, where no option names one, in 2^-30 s: a day.
pub const LONGEST: u64 = 92_771_293_593_600;

/// `ReadThreads` and `WriteThreads`, where no option names them.
pub const THREADS: u32 = 5;

impl Globals {
    /// The settings where the configuration names none.
    pub fn defaults(alloc: Global) -> Result<Globals, Memory>
        ensures { IfOk result (λ globals. globals ≡ default_globals) }
    {
        Ok(Globals {
            hostname: Text::of(alloc, "localhost")?,
            interval: INTERVAL,
            timeout: TIMEOUT,
            longest: LONGEST,
            read_threads: THREADS,
            write_threads: THREADS,
            high: 0,
            low: 0,
        })
    }
}
