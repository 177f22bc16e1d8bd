//! A step on a schedule and on a plain list beside it.
ghost use Rattle.cd_sched_walk.specs.Same.{IsSame};
ghost use Rattle.std.specs.Prelude.{OnOk};

use crate::plain::Plain;
use cd_sched::{Due, Schedule};
use cd_value::Memory;

/// What is done. Moments come from the walk.
#[derive(Clone, Copy, Drop)]
pub enum Step {
    /// Adds a reader of this number and interval, where none has the number.
    Add(u64, u64),
    /// Begins the reading that is due.
    Begin,
    /// Ends the reading of this number, where one is under way, and whether it succeeded.
    Return(u64, bool),
    /// Removes the reader of this number.
    Remove(u64),
}

/// What came of a step.
#[derive(Clone, Copy, PartialEq, Eq)]
pub enum Outcome {
    /// It was taken on both.
    Taken,
    /// There was nothing to do.
    Nothing,
    /// The two differ.
    Differs,
}

impl Step {
    /// Takes the step at a moment on both.
    pub fn take(
        self,
        schedule: &mut Schedule,
        plain: &mut Plain,
        now: u64,
    ) -> Result<Outcome, Memory>
        requires { IsSame schedule.old plain.old }
        ensures { OnOk result (IsSame schedule.new plain.new) }
    {
        match self {
            Step::Add(reg, interval) => add(schedule, plain, reg, interval, now),
            Step::Begin => Ok(begin(schedule, plain, now)),
            Step::Return(reg, ok) => Ok(end(schedule, plain, reg, ok, now)),
            Step::Remove(reg) => Ok(remove(schedule, plain, reg)),
        }
    }
}

fn add(
    schedule: &mut Schedule,
    plain: &mut Plain,
    reg: u64,
    interval: u64,
    now: u64,
) -> Result<Outcome, Memory>
    requires { IsSame schedule.old plain.old }
    ensures { OnOk result (IsSame schedule.new plain.new) }
{
    let there = plain.has(reg);
    if schedule.has(reg) != there {
        return Ok(Outcome::Differs);
    }
    if there {
        return Ok(Outcome::Nothing);
    }
    schedule.reserve()?;
    schedule.add(reg, interval, now)?;
    plain.reserve()?;
    plain.add(reg, interval, now)?;
    Ok(Outcome::Taken)
}

/// Begins the reading that is due at a moment.
pub fn begin(schedule: &mut Schedule, plain: &mut Plain, now: u64) -> Outcome
    requires { IsSame schedule.old plain.old }
    ensures { IsSame schedule.new plain.new }
{
    let due = plain.due(now);
    if schedule.due(now) != due {
        return Outcome::Differs;
    }
    let Due::Ready(reg) = due else {
        return Outcome::Nothing;
    };
    schedule.begin(reg);
    plain.begin(reg);
    Outcome::Taken
}

fn end(schedule: &mut Schedule, plain: &mut Plain, reg: u64, ok: bool, now: u64) -> Outcome
    requires { IsSame schedule.old plain.old }
    ensures { IsSame schedule.new plain.new }
{
    let Some(reader) = plain.reader(reg) else {
        return Outcome::Nothing;
    };
    if !reader.under_way {
        return Outcome::Nothing;
    }
    schedule.returned(reg, ok, now);
    plain.returned(reg, ok, now);
    Outcome::Taken
}

fn remove(schedule: &mut Schedule, plain: &mut Plain, reg: u64) -> Outcome
    requires { IsSame schedule.old plain.old }
    ensures { IsSame schedule.new plain.new }
{
    let there = plain.has(reg);
    if schedule.has(reg) != there {
        return Outcome::Differs;
    }
    if !there {
        return Outcome::Nothing;
    }
    schedule.remove(reg);
    plain.remove(reg);
    Outcome::Taken
}
