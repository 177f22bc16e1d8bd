//! The core is asked.
ghost use Rattle.cd_core_walk.specs.Out.{HasOut};
ghost use Rattle.std.specs.Prelude.{OnOk};

use crate::real::Real;
use crate::registrations::copy_of;
use crate::step::{Event, Joining, Reply, Step};
use cd_plugins::Telling;
use cd_registry::{AnsweredCall, MemberOf, RetireFault, TellsCalls, TellsReadings};
use cd_value::{Memory, TryCopy};
use std::alloc::Global;

/// What is read: nothing in a walk.
#[derive(Drop)]
pub struct Unread;

impl TellsReadings for Unread {
    ghost use Rattle.std.specs.Prelude.{None};

    ghost probe_tells = { λ probe. record { mark = 0; faults = 0; readings = None } };
}

/// What the core answers to an event.
pub fn answer(
    alloc: Global,
    real: &mut Real<Telling, Unread>,
    event: &Event,
) -> Result<Reply, Memory>
    requires { HasOut ⟦<Telling as TellsCalls>⟧.plug_tells
        ⟦<Unread as TellsReadings>⟧.probe_tells real.old }
    ensures { OnOk result (HasOut ⟦<Telling as TellsCalls>⟧.plug_tells
        ⟦<Unread as TellsReadings>⟧.probe_tells real.new) }
{
    match &event.step {
        Step::Register(joining) => register(alloc, real, joining),
        Step::Close(name) => Ok(real.close(name)),
        Step::Retire(reg) => told(alloc, real.retire(*reg)),
        Step::Take => real.take(alloc, event.actor),
        Step::Done(place) => Ok(real.done(*place)),
        Step::Accept(lists, words) => {
            let lists = lists.copy(alloc)?;
            real.accept(alloc, lists, words.as_slice())
        }
        Step::Handle => real.handle(alloc, event.now),
        Step::Get(name) => real.get(alloc, name),
        Step::List => real.list(alloc),
        Step::FlushBegin(request) => real.flush_begin(alloc, request),
        Step::FlushEnd(number) => Ok(real.flush_end(*number)),
        Step::Stop => Ok(real.stop()),
    }
}

fn register(
    alloc: Global,
    real: &mut Real<Telling, Unread>,
    joining: &Joining,
) -> Result<Reply, Memory>
    requires { HasOut ⟦<Telling as TellsCalls>⟧.plug_tells
        ⟦<Unread as TellsReadings>⟧.probe_tells real.old }
    ensures { OnOk result (HasOut ⟦<Telling as TellsCalls>⟧.plug_tells
        ⟦<Unread as TellsReadings>⟧.probe_tells real.new) }
{
    let name = joining.name.copy(alloc)?;
    let block = joining.block.copy(alloc)?;
    let answers = copy_of(alloc, joining.answers.as_slice())?;
    let object = Telling::new(alloc, 1, answers);
    real.register(alloc, name, joining.kinds, object, block)
}

/// The calls that a plug-in which is handed out got, with its answers.
fn told(
    alloc: Global,
    retired: Result<MemberOf<Telling, Unread>, RetireFault>,
) -> Result<Reply, Memory> {
    match retired {
        Ok(MemberOf::Plug(object)) => match object.calls() {
            Some(calls) => Ok(Reply::Retired(Ok(copies(alloc, calls)?))),
            None => Err(Memory),
        },
        Ok(MemberOf::Probe(_)) => Ok(Reply::Never),
        Err(why) => Ok(Reply::Retired(Err(why))),
    }
}

fn copies(alloc: Global, calls: &[AnsweredCall]) -> Result<Vec<AnsweredCall>, Memory> {
    let mut copies = Vec::with_capacity(alloc, calls.len())?;
    for one in calls {
        let call = one.call.copy(alloc)?;
        copies.push(AnsweredCall {
            call,
            answer: one.answer,
        })?;
    }
    Ok(copies)
}
