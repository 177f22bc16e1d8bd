//! The registry's slot of one registration.
ghost use Rattle.cd_registry.specs.Faults.{row_fault};
ghost use Rattle.cd_registry.specs.Rows.{IsHomeFor, after_back, after_close, after_give, after_lend, after_post, after_retire, after_take, home_of, new_row};
ghost use Rattle.cd_registry.specs.Slots.{has_slot_kinds, is_probe_home, is_slot_live_as, is_slot_ready, member_tells, row_of, slot_spare};
ghost use Rattle.std.specs.Prelude.{IfErr, IfOk, IfSome, IsNone, IsOk, MatchResult, None, OnErr, OnOk, Some, [], bit_and, if◌then◌else◌, is_ok, is_some, length, nat_eq, not, slice_get, true, ◌&&◌, ◌++◌, ◌+◌, ◌<◌, ◌==◌, ◌||◌, ◌∷◌, ◌≡◌, ◌≤◌};
ghost use Rattle.std.specs.Result.{result_err};
ghost use Rattle.std.specs.VecDeque.{deque_capacity, deque_len};

use crate::faults::RetireFault;
use crate::member::MemberOf;
use crate::place::Place;
use crate::{Call, Kinds, TellsCalls, TellsReadings};
use cd_value::{Memory, Refused, Text};
use std::collections::VecDeque;
use std::mem;

/// A registration, with its object where that is at home. Its kinds are empty where the object is read.
#[derive(Drop)]
pub struct Slot<P, Q> {
    pub name: Text,
    pub kinds: Kinds,
    pub live: bool,
    pub place: Place<P, Q>,
    pub waiting: VecDeque<Call>,
}

impl<P, Q> Slot<P, Q> {
    /// Whether it is live and has this name.
    pub fn is_live_as(&self, name: &Text) -> bool
        ensures { result ≡ is_slot_live_as name.now self.now }
    {
        self.live && self.name == *name
    }

    /// Whether it has all of these kinds.
    pub fn has_kinds(&self, kinds: Kinds) -> bool
        ensures { result ≡ has_slot_kinds kinds.0 self.now }
    {
        self.kinds.has(kinds)
    }

    /// Whether its plug-in is at home and a call waits for it.
    pub fn is_ready(&self) -> bool
        ensures { result ≡ is_slot_ready self.now }
    {
        match self.place {
            Place::PlugHome(_) => !self.waiting.is_empty(),
            _ => false,
        }
    }
}

impl<P: TellsCalls, Q: TellsReadings> Slot<P, Q> {
    /// A live registration for which no call waits.
    pub fn new(name: Text, kinds: Kinds, member: MemberOf<P, Q>, waiting: VecDeque<Call>) -> Self
        requires { waiting.items ≡ [] }
        ensures row { row_of P.plug_tells Q.probe_tells result ≡
            new_row name kinds.0 (member_tells P.plug_tells Q.probe_tells member) }
        ensures spare { slot_spare result ≡ deque_capacity waiting }
    {
        let (kinds, place) = match member {
            MemberOf::Plug(object) => (kinds, Place::PlugHome(object)),
            MemberOf::Probe(object) => (Kinds(0), Place::ProbeHome(object)),
        };
        Slot {
            name,
            kinds,
            live: true,
            place,
            waiting,
        }
    }

    /// Puts a call behind those that wait.
    pub fn post(&mut self, call: Call) -> Result<(), Refused<Call, Memory>>
        ensures ok { OnOk result (row_of P.plug_tells Q.probe_tells self.new ≡
            after_post call (row_of P.plug_tells Q.probe_tells self.old)) }
        ensures err { OnErr result (row_of P.plug_tells Q.probe_tells self.new ≡
            row_of P.plug_tells Q.probe_tells self.old) }
        ensures back { IfErr result (λ refused. refused.value ≡ call) }
        ensures room { 0 < slot_spare self.old → IsOk result }
        ensures spare { slot_spare self.old ≤ slot_spare self.new + 1 }
    {
        match self.waiting.push_back(call) {
            Ok(()) => Ok(()),
            Err(refused) => Err(Refused {
                value: refused.value,
                why: Memory,
            }),
        }
    }

    /// Makes room for calls.
    pub fn reserve(&mut self, calls: usize) -> Result<(), Memory>
        ensures ok { OnOk result (calls ≤ slot_spare self.new) }
        ensures row { row_of P.plug_tells Q.probe_tells self.new ≡
            row_of P.plug_tells Q.probe_tells self.old }
        ensures room { calls ≤ slot_spare self.old → IsOk result }
        ensures spare { slot_spare self.old ≤ slot_spare self.new }
    {
        self.waiting.reserve(calls)?;
        Ok(())
    }

    /// Takes the plug-in and the oldest call that waits.
    pub fn take(&mut self, actor: u64) -> (P, Call)
        requires { is_slot_ready self.old ≡ true }
        ensures lease { IsHomeFor (P.plug_tells result.0) result.1
            (row_of P.plug_tells Q.probe_tells self.old) }
        ensures row { row_of P.plug_tells Q.probe_tells self.new ≡
            after_take actor (row_of P.plug_tells Q.probe_tells self.old) }
        ensures spare { slot_spare self.old ≤ slot_spare self.new }
    {
        let call = self.waiting.pop_front();
        let place = mem::replace(&mut self.place, Place::PlugOut(actor));
        match (place, call) {
            (Place::PlugHome(object), Some(call)) => (object, call),
            _ => unreachable!(),
        }
    }

    /// Takes the plug-in that is read.
    pub fn lend(&mut self, actor: u64) -> Q
        requires { is_probe_home self.old.place ≡ true }
        ensures probe { (row_of P.plug_tells Q.probe_tells self.old).place ≡
            Place.ProbeHome (Q.probe_tells result) }
        ensures row { row_of P.plug_tells Q.probe_tells self.new ≡
            after_lend actor (row_of P.plug_tells Q.probe_tells self.old) }
        ensures spare { slot_spare self.new ≡ slot_spare self.old }
    {
        match mem::replace(&mut self.place, Place::ProbeOut(actor)) {
            Place::ProbeHome(object) => object,
            _ => unreachable!(),
        }
    }

    /// Puts an object there.
    pub fn put(&mut self, member: MemberOf<P, Q>)
        ensures row { row_of P.plug_tells Q.probe_tells self.new ≡
            record (row_of P.plug_tells Q.probe_tells self.old) {
              place = home_of (member_tells P.plug_tells Q.probe_tells member);
            } }
        ensures spare { slot_spare self.new ≡ slot_spare self.old }
    {
        self.place = match member {
            MemberOf::Plug(object) => Place::PlugHome(object),
            MemberOf::Probe(object) => Place::ProbeHome(object),
        };
    }

    /// Ends its life.
    pub fn close(&mut self)
        ensures row { row_of P.plug_tells Q.probe_tells self.new ≡
            after_close (row_of P.plug_tells Q.probe_tells self.old) }
        ensures spare { slot_spare self.new ≡ slot_spare self.old }
    {
        self.live = false;
    }

    /// Hands the object out for good.
    pub fn retire(&mut self) -> Result<MemberOf<P, Q>, RetireFault>
        ensures fault { result_err result ≡ row_fault (row_of P.plug_tells Q.probe_tells self.old) }
        ensures member { IfOk result (λ member. (row_of P.plug_tells Q.probe_tells self.old).place ≡
            home_of (member_tells P.plug_tells Q.probe_tells member)) }
        ensures ok { OnOk result (row_of P.plug_tells Q.probe_tells self.new ≡
            after_retire (row_of P.plug_tells Q.probe_tells self.old)) }
        ensures err { OnErr result (self.new ≡ self.old) }
        ensures ready { is_slot_ready self.new ≡ is_slot_ready self.old }
    {
        if let Some(why) = self.retire_fault() {
            return Err(why);
        }
        Ok(self.hand_out())
    }

    /// Why the object isn't handed out.
    fn retire_fault(&self) -> Option<RetireFault>
        ensures { result ≡ row_fault (row_of P.plug_tells Q.probe_tells self.now) }
    {
        if self.live {
            return Some(RetireFault::NotRegistered);
        }
        match self.place {
            Place::PlugOut(actor) | Place::ProbeOut(actor) => Some(RetireFault::Out(actor)),
            Place::Retired => Some(RetireFault::NotRegistered),
            _ if self.waiting.is_empty() => None,
            _ => Some(RetireFault::Pending(self.waiting.len() as u64)),
        }
    }

    /// Hands the object out, and gives the memory of its queue back.
    fn hand_out(&mut self) -> MemberOf<P, Q>
        requires { row_fault (row_of P.plug_tells Q.probe_tells self.old) ≡ None }
        ensures member { (row_of P.plug_tells Q.probe_tells self.old).place ≡
            home_of (member_tells P.plug_tells Q.probe_tells result) }
        ensures row { row_of P.plug_tells Q.probe_tells self.new ≡
            after_retire (row_of P.plug_tells Q.probe_tells self.old) }
        ensures ready { is_slot_ready self.new ≡ is_slot_ready self.old }
    {
        self.waiting.shrink_to_fit();
        match mem::replace(&mut self.place, Place::Retired) {
            Place::PlugHome(object) => MemberOf::Plug(object),
            Place::ProbeHome(object) => MemberOf::Probe(object),
            _ => unreachable!(),
        }
    }
}
