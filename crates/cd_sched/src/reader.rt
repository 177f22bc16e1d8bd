//! A reader, and what a reading makes of it.
ghost use Rattle.cd_sched.specs.Schedule.{begun, interval_after, new_reader, reader_after};
ghost use Rattle.std.specs.Prelude.{◌≡◌};

/// A reader of the schedule, as contracts see it. Moments and intervals are in 2^-30 s.
#[derive(Clone, Copy, Debug, PartialEq, Eq)]
pub struct Reader {
    /// The configured interval.
    pub interval: u64,
    /// When its next reading is due, or, while one is under way, when that was.
    pub due: u64,
    /// The interval in force: the configured one, or a longer one after failures.
    pub in_force: u64,
    /// Whether a reading is under way.
    pub under_way: bool,
}

/// Which reading is due.
#[derive(Clone, Copy, Debug, PartialEq, Eq)]
pub enum Due {
    /// That of the reader of this registration number.
    Ready(u64),
    /// None before this moment, in 2^-30 s.
    NotYet(u64),
    /// None: no reader is at rest.
    NoneReady,
}

impl Reader {
    /// A reader whose first reading is due now.
    pub(crate) fn new(interval: u64, now: u64) -> Reader
        ensures { result ≡ new_reader interval now }
    {
        Reader {
            interval,
            due: now,
            in_force: interval,
            under_way: false,
        }
    }

    /// The reader with a reading under way.
    pub(crate) fn begun(self) -> Reader
        ensures { result ≡ begun self }
    {
        Reader {
            interval: self.interval,
            due: self.due,
            in_force: self.in_force,
            under_way: true,
        }
    }

    /// The reader after a reading that ended now.
    pub(crate) fn after(self, longest: u64, ok: bool, now: u64) -> Reader
        ensures { result ≡ reader_after longest ok now self }
    {
        let in_force = self.interval_after(longest, ok);
        Reader {
            interval: self.interval,
            due: self.due.saturating_add(in_force).max(now),
            in_force,
            under_way: false,
        }
    }

    /// The interval in force after a reading.
    fn interval_after(self, longest: u64, ok: bool) -> u64
        ensures { result ≡ interval_after longest ok self }
    {
        if ok {
            self.interval
        } else {
            self.in_force
                .saturating_mul(2)
                .min(longest)
                .max(self.interval)
        }
    }
}
