//! The real clock.
ghost use Rattle.std.specs.Prelude.{None};

use crate::Clock;
use std::marker::Send;
use std::thread;
use std::time::{self, Duration};

/// A second as a time or an interval, which are whole numbers of 2^-30 s.
const SECOND: u64 = 1 << 30;

/// The clock of a runtime, in units of 2^-30 seconds since 1970. It stands at `u64::MAX` past its end, and gives
/// the last moment again where the runtime has none.
#[derive(Drop)]
pub struct RealClock<R> {
    rt: R,
    last: u64,
}

impl<R> RealClock<R> {
    /// The clock of a runtime.
    pub fn new(rt: R) -> Self {
        RealClock { rt, last: 0 }
    }
}

impl<R: time::Clock + Copy + Send + Drop> Clock for RealClock<R> {
    ghost clock_pair = { λ c. None };

    fn now(&mut self) -> u64 {
        if let Ok(since) = self.rt.since_1970() {
            self.last = units_of(since);
        }
        self.last
    }

    fn fork(&mut self) -> Self {
        RealClock {
            rt: self.rt,
            last: self.last,
        }
    }

    fn pause(&mut self) {
        thread::sleep(&self.rt, Duration::from_millis(100));
    }
}

/// A time in units of 2^-30 seconds, at most `u64::MAX`.
fn units_of(since: Duration) -> u64 {
    let parts = u64::from(since.subsec_nanos()) * SECOND / 1_000_000_000;
    since.as_secs().saturating_mul(SECOND).saturating_add(parts)
}
