//! The core under test, with the plug-ins that are out of it for calls.
//!
//! Who gives a plug-in home owes that it is out. So each step leaves a core that stands for some history after which each
//! of the plug-ins here is out (`HasOut`); nothing more is said, since the walk compares what is answered.
ghost use Rattle.cd_core_walk.specs.Out.{HasOut};
ghost use Rattle.cd_types.specs.Types.{fits};
ghost use Rattle.std.specs.List.{list_all};
ghost use Rattle.std.specs.Prelude.{IfOk, nat_eq, not, ◌<◌, ◌≡◌};

use crate::opening::{Filters, globals, types};
use crate::step::Reply;
use cd_core::{AcceptFault, Core, FlushFault, HandleFault, QueryFault, RegisterFault};
use cd_history::{Handled, Why};
use cd_registry::{Kinds, LeaseOf, MemberOf, Plug, RetireFault, TellsReadings};
use cd_types::TypesDb;
use cd_value::{Fates, FlushRequest, Lists, Memory, Refused, Text, TryCopy, ValueList};
use std::alloc::Global;

/// A core, and the plug-ins that are out of it, in the order in which they were taken.
#[derive(Drop)]
pub struct Real<P, Q> {
    core: Core<P, Q>,
    out: Vec<LeaseOf<P>>,
}

impl<P: Plug, Q: TellsReadings> Real<P, Q> {
    /// Nobody is registered.
    pub fn new(alloc: Global, filters: Filters) -> Result<Self, Memory>
        ensures { IfOk result (λ real. HasOut P.plug_tells Q.probe_tells real) }
    {
        let (pre, post) = filters.numbers();
        let chains = filters.table(alloc)?;
        let core = Core::new(alloc, globals(alloc)?, types(alloc)?, chains, pre, post)?;
        Ok(Real {
            core,
            out: Vec::new(alloc),
        })
    }

    /// How many lists wait to be handled.
    pub fn queued(&self) -> u64 {
        self.core.queued()
    }

    pub fn stopped(&self) -> bool {
        self.core.stopped()
    }

    pub fn register(
        &mut self,
        alloc: Global,
        name: Text,
        kinds: Kinds,
        object: P,
        block: Text,
    ) -> Result<Reply, Memory>
        requires { HasOut P.plug_tells Q.probe_tells self.old }
        ensures { HasOut P.plug_tells Q.probe_tells self.new }
    {
        registered(self.core.register(alloc, name, kinds, object, block))
    }

    pub fn close(&mut self, name: &Text) -> Reply
        requires { HasOut P.plug_tells Q.probe_tells self.old }
        ensures { HasOut P.plug_tells Q.probe_tells self.new }
    {
        Reply::Closed(self.core.close(name))
    }

    pub fn retire(&mut self, reg: u64) -> Result<MemberOf<P, Q>, RetireFault>
        requires { HasOut P.plug_tells Q.probe_tells self.old }
        ensures { HasOut P.plug_tells Q.probe_tells self.new }
    {
        self.core.retire(reg)
    }

    pub fn take(&mut self, alloc: Global, actor: u64) -> Result<Reply, Memory>
        requires { HasOut P.plug_tells Q.probe_tells self.old }
        ensures { HasOut P.plug_tells Q.probe_tells self.new }
    {
        if self.out.reserve(1).is_err() {
            return Err(Memory);
        }
        match self.core.take(actor) {
            Some(lease) => {
                let reply = taken(alloc, &lease);
                self.out.push_reserved(lease);
                reply
            }
            None => Ok(Reply::NoneReady),
        }
    }

    /// Enters the plug-in that is out at a place, where the places go round, and gives it home.
    pub fn done(&mut self, place: u64) -> Reply
        requires { HasOut P.plug_tells Q.probe_tells self.old }
        ensures { HasOut P.plug_tells Q.probe_tells self.new }
    {
        let count = self.out.len();
        if count == 0 {
            return Reply::NoneOut;
        }
        let at = place_among(place, count);
        let lease = self.out.remove(at);
        let reg = lease.reg;
        if is_alone(self.out.as_slice(), reg) {
            let entered = lease.enter();
            let answer = entered.answer;
            self.core.done(entered);
            Reply::CameHome(reg, answer)
        } else {
            Reply::Never
        }
    }

    pub fn accept(&mut self, alloc: Global, lists: Lists, words: &[u64]) -> Result<Reply, Memory>
        requires { HasOut P.plug_tells Q.probe_tells self.old }
        ensures { HasOut P.plug_tells Q.probe_tells self.new }
    {
        if words.len() != lists.len() {
            return Ok(Reply::Never);
        }
        if !all_fit(self.core.types(), lists.as_slice()) {
            return Ok(Reply::Never);
        }
        accepted(self.core.accept(alloc, lists, words, 0))
    }

    pub fn handle(&mut self, alloc: Global, now: u64) -> Result<Reply, Memory>
        requires { HasOut P.plug_tells Q.probe_tells self.old }
        ensures { HasOut P.plug_tells Q.probe_tells self.new }
    {
        handled(self.core.handle(alloc, now))
    }

    pub fn get(&self, alloc: Global, name: &Text) -> Result<Reply, Memory> {
        match self.core.get(alloc, name) {
            Ok(got) => Ok(Reply::Got(Ok(got))),
            Err(QueryFault::Memory) => Err(Memory),
            Err(why) => Ok(Reply::Got(Err(why))),
        }
    }

    pub fn list(&self, alloc: Global) -> Result<Reply, Memory> {
        let rows = self.core.list(alloc)?;
        Ok(Reply::Listed(rows))
    }

    pub fn flush_begin(&mut self, alloc: Global, request: &FlushRequest) -> Result<Reply, Memory>
        requires { HasOut P.plug_tells Q.probe_tells self.old }
        ensures { HasOut P.plug_tells Q.probe_tells self.new }
    {
        flush_begun(self.core.flush_begin(alloc, request))
    }

    pub fn flush_end(&mut self, number: u64) -> Reply
        requires { HasOut P.plug_tells Q.probe_tells self.old }
        ensures { HasOut P.plug_tells Q.probe_tells self.new }
    {
        Reply::FlushEnded(self.core.flush_end(number))
    }

    pub fn stop(&mut self) -> Reply
        requires { HasOut P.plug_tells Q.probe_tells self.old }
        ensures { HasOut P.plug_tells Q.probe_tells self.new }
    {
        self.core.stop(Why::Asked);
        Reply::Stopped
    }
}

// The answers of the core; want of memory is none.

fn registered<P: Drop>(
    registered: Result<u64, Refused<P, RegisterFault>>,
) -> Result<Reply, Memory> {
    match registered {
        Ok(reg) => Ok(Reply::Registered(Ok(reg))),
        Err(refused) => match refused.why {
            RegisterFault::Memory => Err(Memory),
            why => Ok(Reply::Registered(Err(why))),
        },
    }
}

fn taken<P>(alloc: Global, lease: &LeaseOf<P>) -> Result<Reply, Memory> {
    let call = lease.call.copy(alloc)?;
    Ok(Reply::Taken(lease.reg, call))
}

fn accepted(accepted: Result<Fates, Refused<Lists, AcceptFault>>) -> Result<Reply, Memory> {
    match accepted {
        Ok(fates) => Ok(Reply::Accepted(Ok(fates))),
        Err(refused) => match refused.why {
            AcceptFault::Memory => Err(Memory),
            why => Ok(Reply::Accepted(Err(why))),
        },
    }
}

fn handled(handled: Result<Handled, HandleFault>) -> Result<Reply, Memory> {
    match handled {
        Ok(handled) => Ok(Reply::Handled(Ok(handled))),
        Err(HandleFault::Memory) => Err(Memory),
        Err(why) => Ok(Reply::Handled(Err(why))),
    }
}

fn flush_begun(begun: Result<u64, FlushFault>) -> Result<Reply, Memory> {
    match begun {
        Ok(number) => Ok(Reply::FlushBegun(Ok(number))),
        Err(FlushFault::Memory) => Err(Memory),
        Err(why) => Ok(Reply::FlushBegun(Err(why))),
    }
}

/// The place of a number among so many things, where the places go round.
fn place_among(number: u64, count: usize) -> usize
    requires { 0 < count }
    ensures { result < count }
{
    (number % count as u64) as usize
}

/// Whether none of these is of a registration.
fn is_alone<P>(leases: &[LeaseOf<P>], reg: u64) -> bool
    ensures { result ≡ list_all (λ lease. not (nat_eq reg lease.reg)) leases.now }
{
    leases.iter().all(|lease| reg != lease.reg)
}

/// Whether each of the lists fits its type.
fn all_fit(types: &TypesDb, lists: &[ValueList]) -> bool
    ensures { result ≡ list_all (fits types.now) lists.now }
{
    lists.iter().all(|list| types.fits(list))
}
