//! Steps on the core and on a plain daemon beside it.
ghost use Rattle.cd_core_walk.specs.Out.{HasOut};
ghost use Rattle.std.specs.Prelude.{OnOk};

use crate::asking::{Unread, answer};
use crate::draw::{Counts, Draw};
use crate::opening::{Filters, types};
use crate::plain::Plain;
use crate::real::Real;
use crate::step::{Event, Reply};
use crate::tally::Tally;
use cd_plugins::Telling;
use cd_registry::{TellsCalls, TellsReadings};
use cd_value::Memory;
use std::alloc::Global;

/// How a walk ended.
#[derive(Drop)]
pub enum End {
    /// The two agreed at each step.
    Agreed(Tally),
    /// They differed at the step of that number.
    Differs(u64),
}

/// Takes steps that a seed decides, up to the first one at which the two differ. At the step of a number the daemon is
/// to stop.
pub fn walk(
    alloc: Global,
    seed: u64,
    filters: Filters,
    steps: u64,
    stop: u64,
) -> Result<End, Memory> {
    let mut real = Real::new(alloc, filters)?;
    let mut beside = Beside::new(alloc, seed, filters)?;
    for number in 1..=steps {
        let event = beside.event(alloc, number == stop)?;
        if !take_step(alloc, &mut real, &mut beside, &event)? {
            return Ok(End::Differs(number));
        }
    }
    Ok(End::Agreed(beside.tally))
}

/// How many lists wait, and whether the daemon stopped.
#[derive(Clone, Copy)]
struct State {
    queued: u64,
    stopped: bool,
}

/// What stands beside the core: the plain daemon, where the events come from, and what was answered.
#[derive(Drop)]
struct Beside {
    plain: Plain,
    draw: Draw,
    tally: Tally,
}

impl Beside {
    fn new(alloc: Global, seed: u64, filters: Filters) -> Result<Beside, Memory> {
        Ok(Beside {
            plain: Plain::new(alloc, filters, types(alloc)?),
            draw: Draw::new(seed),
            tally: Tally::default(),
        })
    }

    /// Leaves an event to another actor, where its own may not ask for it.
    fn leaves(&mut self, event: &Event) -> bool {
        if self.plain.may(event) {
            return false;
        }
        self.tally.leave();
        true
    }

    /// Takes a step, and says whether the plain daemon answers the same and stands so too.
    fn agrees(
        &mut self,
        alloc: Global,
        event: &Event,
        reply: &Reply,
        state: State,
    ) -> Result<bool, Memory> {
        let expected = self.plain.answer(alloc, event)?;
        self.tally.count(&expected);
        Ok(
            reply.is_same(&expected)
                && state.queued == self.plain.queued()
                && state.stopped == self.plain.stopped(),
        )
    }

    /// The next event.
    fn event(&mut self, alloc: Global, is_stop: bool) -> Result<Event, Memory> {
        if is_stop {
            return Ok(self.draw.stop());
        }
        let counts = Counts {
            registered: self.plain.registered(),
            begun: self.plain.begun(),
        };
        self.draw.event(alloc, counts)
    }
}

/// Takes a step on both, and says whether they answer the same, have as many lists waiting, and both stopped or didn't.
fn take_step(
    alloc: Global,
    real: &mut Real<Telling, Unread>,
    beside: &mut Beside,
    event: &Event,
) -> Result<bool, Memory>
    requires { HasOut ⟦<Telling as TellsCalls>⟧.plug_tells
        ⟦<Unread as TellsReadings>⟧.probe_tells real.old }
    ensures { OnOk result (HasOut ⟦<Telling as TellsCalls>⟧.plug_tells
        ⟦<Unread as TellsReadings>⟧.probe_tells real.new) }
{
    if beside.leaves(event) {
        return Ok(true);
    }
    let reply = answer(alloc, real, event)?;
    let state = State {
        queued: real.queued(),
        stopped: real.stopped(),
    };
    let agreed = beside.agrees(alloc, event, &reply, state)?;
    Ok(agreed)
}
