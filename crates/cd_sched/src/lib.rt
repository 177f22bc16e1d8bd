//! The schedule of readers, which are plug-ins that are read at intervals, as in collectd.conf(5), Interval and
//! MaxReadInterval.
//!
//! It stands on `cd_value` and takes no handle. Read `specs/Schedule.antt` first: the readers as a finite map, and what
//! a reading makes of one; `specs/Due.antt` has which reading is due. The type keeps that its readers stand in the
//! order of their numbers, each once, and that its heap has the next read of each that is at rest. A change of the rule
//! begins in `Schedule.antt`; the calls stand in `schedule.rt`, the heap in `next_reads.rt`.
#![tactic(auto)]

mod next_reads;
mod reader;
mod schedule;

pub use reader::{Due, Reader};
pub use schedule::Schedule;
