//! A clock in memory.
ghost use Rattle.std.specs.Prelude.{Some, ◌≡◌};

use crate::Clock;

/// A clock that goes a step at each moment, and stands at `u64::MAX` once it is there.
#[derive(Drop)]
pub struct MemClock {
    next: u64,
    step: u64,
}

impl MemClock {
    /// A clock whose next moment and step are these, in units of 2^-30 seconds.
    pub fn new(next: u64, step: u64) -> Self
        ensures { ⟦<MemClock as Clock>⟧.clock_pair result ≡ Some (next, step) }
    {
        MemClock { next, step }
    }
}

impl Clock for MemClock {
    ghost clock_pair = { λ c. Some (c.next, c.step) };

    fn now(&mut self) -> u64 {
        let moment = self.next;
        self.next = moment.saturating_add(self.step);
        moment
    }

    fn fork(&mut self) -> Self {
        MemClock::new(self.next, self.step)
    }

    fn pause(&mut self) {}
}
