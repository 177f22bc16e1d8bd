//! The registry and its calls.
ghost use Rattle.cd_registry.specs.Faults.{add_fault, fault_of, is_reserved, retire_fault};
ghost use Rattle.cd_registry.specs.Rows.{At, IsHomeFor, IsLive, IsPlugOut, IsProbeHome, IsProbeOut, IsReady, after_back, after_close, after_give, after_lend, after_post, after_retire, after_take, has_kinds, home_of, is_live_as, is_ready, listening, live_count, live_number, live_number_with, new_row, numbers_of, with_row};
ghost use Rattle.cd_registry.specs.Slots.{has_slot_kinds, is_slot_live_as, is_slot_ready, member_tells};
ghost use Rattle.std.specs.List.{All};
ghost use Rattle.std.specs.Option.{ok_or};
ghost use Rattle.std.specs.Prelude.{IfErr, IfOk, IfSome, IsOk, IsTrue, OnErr, OnOk, [], filter, if◌then◌else◌, length, map, nat_le, position, slice_get, vec_len, ◌&&◌, ◌++◌, ◌<◌, ◌↔◌, ◌∷◌, ◌≡◌, ◌≢◌, ◌≤◌};
ghost use Rattle.std.specs.Result.{result_err};
ghost use Rattle.std.specs.Vec.{vec_capacity};
ghost use Rattle.std.specs.VecDeque.{deque_capacity};

use crate::faults::{AddFault, LIVE_LIMIT, NotRegistered, RetireFault};
use crate::flags::Flags;
use crate::lease::{EnteredOf, LeaseOf};
use crate::member::MemberOf;
use crate::slot::Slot;
use crate::{Call, Kinds, Regs, TellsCalls, TellsReadings};
use cd_value::{Memory, Refused, Sequence, Text};
use std::alloc::Global;
use std::collections::VecDeque;

/// Who is registered, where their objects are, and which calls wait for them. A registration's number is the count of
/// those before it. Contracts see a row for each, and for how many more calls of each there is room.
#[derive(Drop)]
pub struct Registry<P, Q> {
    slots: Vec<Slot<P, Q>>,
    /// Up for each registration that is ready.
    ready: Flags,
    ghost marked: { ready.flags ≡ map is_slot_ready slots.items },
}

impl<P: TellsCalls, Q: TellsReadings> Registry<P, Q> {
    ghost use Rattle.cd_registry.specs.Registry.{KeepsOtherRoom, KeepsRoom, UsesRoom, rows, spare_of};
    ghost use Rattle.cd_registry.specs.declared.place.Place.{Place};

    /// No registration.
    pub fn new(alloc: Global) -> Self
        ensures { rows P.plug_tells Q.probe_tells result ≡ [] }
    {
        Registry {
            slots: Vec::new(alloc),
            ready: Flags::new(alloc),
        }
    }

    /// Adds a registration, and gives its number. Its kinds are empty where its object is read.
    pub fn add(
        &mut self,
        alloc: Global,
        name: Text,
        kinds: Kinds,
        member: MemberOf<P, Q>,
    ) -> Result<u64, Refused<MemberOf<P, Q>, AddFault>>
        ensures fault { fault_of result ≡
            add_fault name (rows P.plug_tells Q.probe_tells self.old) }
        ensures number { IfOk result (λ reg.
            reg ≡ length (rows P.plug_tells Q.probe_tells self.old)) }
        ensures ok { OnOk result (rows P.plug_tells Q.probe_tells self.new ≡
            rows P.plug_tells Q.probe_tells self.old
            ++ new_row name kinds.0 (member_tells P.plug_tells Q.probe_tells member) ∷ []) }
        ensures err { OnErr result (rows P.plug_tells Q.probe_tells self.new ≡
            rows P.plug_tells Q.probe_tells self.old) }
        ensures back { IfErr result (λ refused. refused.value ≡ member) }
        ensures spare { IfOk result (λ reg. 1 ≤ spare_of self.new reg) }
        ensures room { KeepsRoom self.old self.new }
    {
        if let Some(why) = self.add_fault(&name) {
            return Err(Refused { value: member, why });
        }
        match self.make_room(alloc) {
            Ok(waiting) => Ok(self.put(Slot::new(name, kinds, member, waiting))),
            Err(_) => Err(Refused {
                value: member,
                why: AddFault::Memory,
            }),
        }
    }

    /// Appends a call to those that wait for a registration.
    pub fn post(&mut self, reg: u64, call: Call) -> Result<(), Refused<Call, Memory>>
        requires { At (rows P.plug_tells Q.probe_tells self.old) reg IsLive }
        ensures ok { OnOk result (rows P.plug_tells Q.probe_tells self.new ≡
            with_row reg (after_post call) (rows P.plug_tells Q.probe_tells self.old)) }
        ensures err { OnErr result (rows P.plug_tells Q.probe_tells self.new ≡
            rows P.plug_tells Q.probe_tells self.old) }
        ensures back { IfErr result (λ refused. refused.value ≡ call) }

        // Where there is room it takes no memory, and room for one call at most.
        ensures room { 0 < spare_of self.old reg → IsOk result }
        ensures spare { UsesRoom reg 1 self.old self.new }
    {
        let at = reg as usize;
        let posted = self.slots[at].post(call);
        let up = self.slots[at].is_ready();
        self.ready.set(at, up);
        posted
    }

    /// Makes room for calls of a registration.
    pub fn reserve(&mut self, reg: u64, calls: u64) -> Result<(), Memory>
        requires { At (rows P.plug_tells Q.probe_tells self.old) reg IsLive }
        ensures ok { OnOk result (calls ≤ spare_of self.new reg) }
        ensures rows { rows P.plug_tells Q.probe_tells self.new ≡
            rows P.plug_tells Q.probe_tells self.old }
        ensures room { calls ≤ spare_of self.old reg → IsOk result }
        ensures spare { KeepsRoom self.old self.new }
    {
        self.slots[reg as usize].reserve(calls as usize)
    }

    /// Whether there is a registration of that number, and it is live.
    pub fn is_live(&self, reg: u64) -> bool
        ensures { IsTrue result ↔ At (rows P.plug_tells Q.probe_tells self.now) reg IsLive }
    {
        let at = reg as usize;
        at < self.slots.len() && self.slots[at].live
    }

    /// Whether there is a registration of that number, and it is live, has that name and all of these kinds.
    pub fn is_named(&self, reg: u64, name: &Text, kinds: Kinds) -> bool
        ensures { IsTrue result ↔ At (rows P.plug_tells Q.probe_tells self.now) reg
            (λ row. IsTrue (is_live_as name.now row && has_kinds kinds.0 row)) }
    {
        let at = reg as usize;
        at < self.slots.len() && self.slots[at].is_live_as(name) && self.slots[at].has_kinds(kinds)
    }

    /// The number of the live registration of a name, where it has all of these kinds.
    pub fn find(&self, name: &Text, kinds: Kinds) -> Option<u64>
        requires { kinds.0 ≢ 0 }
        ensures number { result ≡
            live_number_with kinds.0 name.now (rows P.plug_tells Q.probe_tells self.now) }
        ensures live { IfSome result (λ reg.
            At (rows P.plug_tells Q.probe_tells self.now) reg IsLive) }
    {
        as_number(slot_with(&self.slots, name, kinds))
    }

    /// The numbers of the live registrations that have all of these kinds, in order.
    pub fn listening(&self, alloc: Global, kinds: Kinds) -> Result<Regs, Memory>
        requires { kinds.0 ≢ 0 }
        ensures numbers { IfOk result (λ regs.
            regs ≡ listening kinds.0 (rows P.plug_tells Q.probe_tells self.now)) }
        ensures live { IfOk result (λ regs. All (λ reg.
            At (rows P.plug_tells Q.probe_tells self.now) reg IsLive) regs) }
    {
        listening_slots(alloc, &self.slots, kinds)
    }

    /// Takes the plug-in of a registration for a reading.
    pub fn lend(&mut self, reg: u64, actor: u64) -> Q
        requires live { At (rows P.plug_tells Q.probe_tells self.old) reg IsLive }
        requires home { At (rows P.plug_tells Q.probe_tells self.old) reg IsProbeHome }
        ensures probe { At (rows P.plug_tells Q.probe_tells self.old) reg (λ row.
            row.place ≡ Place.ProbeHome (Q.probe_tells result)) }
        ensures rows { rows P.plug_tells Q.probe_tells self.new ≡
            with_row reg (after_lend actor) (rows P.plug_tells Q.probe_tells self.old) }
        ensures room { KeepsRoom self.old self.new }
    {
        self.slots[reg as usize].lend(actor)
    }

    /// Puts the plug-in of a registration home after a reading, also where it was closed meanwhile.
    pub fn back(&mut self, reg: u64, object: Q)
        requires { At (rows P.plug_tells Q.probe_tells self.old) reg IsProbeOut }
        ensures rows { rows P.plug_tells Q.probe_tells self.new ≡
            with_row reg (after_back (Q.probe_tells object))
            (rows P.plug_tells Q.probe_tells self.old) }
        ensures room { KeepsRoom self.old self.new }
    {
        self.slots[reg as usize].put(MemberOf::Probe(object));
    }

    /// The least registration whose plug-in is at home and for which a call waits.
    pub fn ready(&self) -> Option<u64>
        ensures { result ≡ position is_ready (rows P.plug_tells Q.probe_tells self.now) }
    {
        as_number(self.ready.first())
    }

    /// Takes the plug-in of a registration with the oldest call that waits for it.
    pub fn take(&mut self, reg: u64, actor: u64) -> LeaseOf<P>
        requires { At (rows P.plug_tells Q.probe_tells self.old) reg IsReady }
        ensures reg { result.reg ≡ reg }
        ensures lease { At (rows P.plug_tells Q.probe_tells self.old) reg
            (IsHomeFor (P.plug_tells result.object) result.call) }
        ensures rows { rows P.plug_tells Q.probe_tells self.new ≡
            with_row reg (after_take actor) (rows P.plug_tells Q.probe_tells self.old) }
        ensures room { KeepsRoom self.old self.new }
    {
        let at = reg as usize;
        let (object, call) = self.slots[at].take(actor);
        self.ready.set(at, false);
        LeaseOf { reg, object, call }
    }

    /// Puts a plug-in home that was entered.
    pub fn give(&mut self, entered: EnteredOf<P>)
        requires { At (rows P.plug_tells Q.probe_tells self.old) entered.reg IsPlugOut }
        ensures rows { rows P.plug_tells Q.probe_tells self.new ≡
            with_row entered.reg (after_give (P.plug_tells entered.object))
            (rows P.plug_tells Q.probe_tells self.old) }
        ensures room { KeepsRoom self.old self.new }
    {
        let EnteredOf { reg, object, .. } = entered;
        let at = reg as usize;
        self.slots[at].put(MemberOf::Plug(object));
        let up = self.slots[at].is_ready();
        self.ready.set(at, up);
    }

    /// Ends the life of the registration of a name, and gives its number. No call is posted to it again; those that
    /// wait stay.
    pub fn close(&mut self, name: &Text) -> Result<u64, NotRegistered>
        ensures reg { result ≡
            ok_or (live_number name.now (rows P.plug_tells Q.probe_tells self.old)) (record {}) }
        ensures ok { IfOk result (λ reg. rows P.plug_tells Q.probe_tells self.new ≡
            with_row reg after_close (rows P.plug_tells Q.probe_tells self.old)) }
        ensures err { OnErr result (rows P.plug_tells Q.probe_tells self.new ≡
            rows P.plug_tells Q.probe_tells self.old) }
        ensures room { KeepsRoom self.old self.new }
    {
        let Some(at) = self.live_as(name) else {
            return Err(NotRegistered);
        };
        self.slots[at].close();
        Ok(at as u64)
    }

    /// Hands out the object of a closed registration for good.
    pub fn retire(&mut self, reg: u64) -> Result<MemberOf<P, Q>, RetireFault>
        ensures fault { result_err result ≡
            retire_fault (slice_get (rows P.plug_tells Q.probe_tells self.old) reg) }
        ensures member { IfOk result (λ member.
            At (rows P.plug_tells Q.probe_tells self.old) reg (λ row.
            row.place ≡ home_of (member_tells P.plug_tells Q.probe_tells member))) }
        ensures ok { OnOk result (rows P.plug_tells Q.probe_tells self.new ≡
            with_row reg after_retire (rows P.plug_tells Q.probe_tells self.old)) }
        ensures err { OnErr result (rows P.plug_tells Q.probe_tells self.new ≡
            rows P.plug_tells Q.probe_tells self.old) }
        ensures room { KeepsOtherRoom reg self.old self.new }
        ensures kept { OnErr result (KeepsRoom self.old self.new) }
    {
        let at = reg as usize;
        if at >= self.slots.len() {
            return Err(RetireFault::NotRegistered);
        }
        self.slots[at].retire()
    }

    /// The index of the live registration of a name.
    fn live_as(&self, name: &Text) -> Option<usize>
        ensures number { result ≡ live_number name.now (rows P.plug_tells Q.probe_tells self.now) }
        ensures within { IfSome result (λ at. at < length self.now.slots.items) }
    {
        slot_named(&self.slots, name)
    }

    /// Why no registration of a name may be added.
    fn add_fault(&self, name: &Text) -> Option<AddFault>
        ensures { result ≡ add_fault name.now (rows P.plug_tells Q.probe_tells self.now) }
    {
        if is_reserved(name) {
            return Some(AddFault::Reserved);
        }
        if let Some(at) = self.live_as(name) {
            return Some(AddFault::NameTaken(at as u64));
        }
        if self.is_full() {
            return Some(AddFault::TableFull);
        }
        None
    }

    /// Whether as many registrations are live as there may be.
    fn is_full(&self) -> bool
        ensures { result ≡
            nat_le LIVE_LIMIT (live_count (rows P.plug_tells Q.probe_tells self.now)) }
    {
        live_slots(&self.slots) >= LIVE_LIMIT
    }

    /// Makes room for a registration, and gives the room for its calls.
    fn make_room(&mut self, alloc: Global) -> Result<VecDeque<Call>, Memory>
        ensures slots { self.new.slots.items ≡ self.old.slots.items }
        ensures waiting { IfOk result (λ waiting.
            (waiting.items ≡ []) × (1 ≤ deque_capacity waiting)) }
        ensures room { OnOk result (vec_len self.new.slots < vec_capacity self.new.slots) }
        ensures flags { OnOk result (1 ≤ self.new.ready.spare) }
    {
        self.slots.reserve(1)?;
        self.ready.reserve()?;
        Ok(VecDeque::with_capacity(alloc, 1)?)
    }

    /// Puts a slot for which no call waits behind the others, and gives its number.
    fn put(&mut self, slot: Slot<P, Q>) -> u64
        requires idle { slot.waiting.items ≡ [] }
        requires room { vec_len self.old.slots < vec_capacity self.old.slots }
        requires flags { 1 ≤ self.old.ready.spare }
        ensures slots { self.new.slots.items ≡ self.old.slots.items ++ slot ∷ [] }
        ensures number { result ≡ length self.old.slots.items }
    {
        let reg = self.slots.len() as u64;
        self.slots.push_reserved(slot);
        self.ready.push();
        reg
    }
}

/// The index of the live slot of a name.
fn slot_named<P, Q>(slots: &[Slot<P, Q>], name: &Text) -> Option<usize>
    ensures index { result ≡ position (is_slot_live_as name.now) slots.now }
    ensures within { IfSome result (λ at. at < length slots.now) }
{
    slots.iter().position(|slot| slot.is_live_as(name))
}

/// The same, where it has all of these kinds.
fn slot_with<P, Q>(slots: &[Slot<P, Q>], name: &Text, kinds: Kinds) -> Option<usize>
    ensures { result ≡
        position (λ slot. is_slot_live_as name.now slot && has_slot_kinds kinds.0 slot) slots.now }
{
    slots
        .iter()
        .position(|slot| slot.is_live_as(name) && slot.has_kinds(kinds))
}

/// The number of the registration whose slot has that index.
fn as_number(at: Option<usize>) -> Option<u64>
    ensures { result ≡ at }
{
    match at {
        Some(at) => Some(at as u64),
        None => None,
    }
}

/// How many slots are live.
fn live_slots<P, Q>(slots: &[Slot<P, Q>]) -> u64
    ensures { result ≡ length (filter (λ slot. slot.live) slots.now) }
{
    slots.iter().filter(|slot| slot.live).count() as u64
}

/// The numbers of the live slots that have all of these kinds, in order.
fn listening_slots<P, Q>(alloc: Global, slots: &[Slot<P, Q>], kinds: Kinds) -> Result<Regs, Memory>
    ensures { IfOk result (λ regs.
        regs ≡ numbers_of (λ slot. slot.live && has_slot_kinds kinds.0 slot) slots.now) }
{
    let mut regs = Regs::new(alloc);
    for (at, slot) in slots.iter().enumerate() {
        push_if(&mut regs, at as u64, slot.live && slot.has_kinds(kinds))?;
    }
    Ok(regs)
}

/// Puts a number behind the others, if it is to be.
fn push_if(regs: &mut Regs, reg: u64, wanted: bool) -> Result<(), Memory>
    ensures { OnOk result (regs.new ≡ regs.old ++ (if wanted then reg ∷ [] else [])) }
{
    if wanted {
        regs.push(reg)?;
    }
    Ok(())
}

/// Whether a name is one of the daemon's own.
fn is_reserved(name: &Text) -> bool
    ensures { result ≡ is_reserved name.now }
{
    let name = name.as_str();
    name == "threshold" || name == "unixsock" || name == "network"
}
