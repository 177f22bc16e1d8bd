//! Steps on a schedule and on a plain list beside it.
ghost use Rattle.cd_sched_walk.specs.Same.{IsSame};

use crate::draw::Draw;
use crate::plain::Plain;
use crate::step::{Outcome, Step, begin};
use cd_sched::Schedule;
use cd_value::Memory;
use std::alloc::Global;

/// The longest interval after failures.
const LONGEST: u64 = 1_000;

/// How many steps of each kind were taken.
#[derive(Clone, Copy)]
pub struct Tally {
    pub added: u64,
    pub removed: u64,
    pub begun: u64,
    pub returned: u64,
}

/// How a walk ended.
#[derive(Drop)]
pub enum End {
    /// The two agreed after each step.
    Agreed(Tally),
    /// They differed at the step of that number.
    Differs(u64),
}

/// Takes so many steps that a seed decides, up to the first one at which the two differ, and then begins each reading
/// that is left.
pub fn walk(alloc: Global, seed: u64, steps: u64) -> Result<End, Memory> {
    let mut schedule = Schedule::new(alloc, LONGEST);
    let mut plain = Plain::new(alloc, LONGEST);
    let mut draw = Draw::new(seed);
    let mut tally = Tally::none();
    let mut now = 0u64;
    for number in 1..=steps {
        now = now.saturating_add(draw.below(3));
        let step = draw.step();
        match step.take(&mut schedule, &mut plain, now)? {
            Outcome::Taken => tally.count(step),
            Outcome::Nothing => {}
            Outcome::Differs => return Ok(End::Differs(number)),
        }
    }
    if begins_all(&mut schedule, &mut plain) {
        Ok(End::Agreed(tally))
    } else {
        Ok(End::Differs(steps))
    }
}

/// Begins each reading that is left, however late it is due, and says whether the two agreed.
fn begins_all(schedule: &mut Schedule, plain: &mut Plain) -> bool
    requires { IsSame schedule.old plain.old }
{
    for _ in 0..1_000 {
        match begin(schedule, plain, u64::MAX) {
            Outcome::Taken => {}
            Outcome::Nothing => return true,
            Outcome::Differs => return false,
        }
    }
    false
}

impl Tally {
    fn none() -> Tally {
        Tally {
            added: 0,
            removed: 0,
            begun: 0,
            returned: 0,
        }
    }

    fn count(&mut self, step: Step) {
        match step {
            Step::Add(_, _) => self.added = self.added.saturating_add(1),
            Step::Begin => self.begun = self.begun.saturating_add(1),
            Step::Return(_, _) => self.returned = self.returned.saturating_add(1),
            Step::Remove(_) => self.removed = self.removed.saturating_add(1),
        }
    }
}
