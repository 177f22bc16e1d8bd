//! Who is registered.
ghost use Rattle.cd_core.specs.Replies.{IsPlugMember, as_register_fault, close_reply, register_reply, retire_reply};
ghost use Rattle.cd_history.specs.History.{History};
ghost use Rattle.cd_history.specs.Registrations.{closed_by};
ghost use Rattle.cd_history.specs.declared.entry.Entry.TheVariants as entry;
ghost use Rattle.cd_history.specs.declared.entry.Joining.TheVariants as joining;
ghost use Rattle.cd_registry.specs.Rows.{home_of};
ghost use Rattle.cd_registry.specs.Slots.{member_tells};
ghost use Rattle.cd_registry.specs.declared.kinds.TheConstants.Kinds.{CONFIGURE, WRITE};
ghost use Rattle.cd_registry.specs.declared.member.MemberOf.TheVariants as MemberOf;
ghost use Rattle.std.specs.List.{filter};
ghost use Rattle.std.specs.Prelude.{IfErr, IfOk, IfSome, OnErr, [], bit_and, if◌then◌else◌, nat_eq, not, vec_len, ℕ, ◌++◌, ◌<◌, ◌==◌, ◌∷◌, ◌≡◌};
ghost use Rattle.std.specs.Vec.{vec_capacity};

use crate::{Core, RegisterFault};
use cd_registry::{
    AddFault, Call, Kinds, MemberOf, NotRegistered, RetireFault, TellsCalls, TellsReadings,
};
use cd_value::{Memory, Refused, Text};
use std::alloc::Global;

impl<P: TellsCalls, Q: TellsReadings> Core<P, Q> {
    ghost use Rattle.cd_core.specs.Objects.{TellsHome};
    ghost use Rattle.cd_core.specs.Seen.{seen};
    ghost use Rattle.cd_core.specs.Stands.{Anyhow, Makes, Stands};
    ghost use Rattle.cd_daemon.specs.declared.Opening.{Opening};
    ghost use Rattle.cd_registry.specs.Registry.{rows, spare_of};
    ghost use Rattle.cd_registry.specs.Rows.{At, IsLive, after_post, with_row};
    ghost use Rattle.cd_registry.specs.declared.calls.Call.TheVariants as calls;

    /// Registers a plug-in under a name for callbacks of these kinds, and gives its number. Where it is to be
    /// configured it is called first with its block of the configuration, in canonical text. It comes back with
    /// `Stopping` after a stop, `Reserved` for one of the daemon's own names, `NameTaken` where a live registration has
    /// the name, `TableFull` where `LIVE_LIMIT` are live, the first of these, or with `Memory`. Then all is as it was.
    pub fn register(
        &mut self,
        alloc: Global,
        name: Text,
        kinds: Kinds,
        object: P,
        config: Text,
    ) -> Result<u64, Refused<P, RegisterFault>>
        ensures step { IfSome (register_reply result) (λ reply. (actor : ℕ) →
            Makes (seen P.plug_tells Q.probe_tells self.old)
            (seen P.plug_tells Q.probe_tells self.new) Anyhow
            (entry.Register actor name (joining.Plug kinds config (P.plug_tells object)) reply)) }
        ensures err { OnErr result (seen P.plug_tells Q.probe_tells self.new
            ≡ seen P.plug_tells Q.probe_tells self.old) }
        ensures back { IfErr result (λ refused. refused.value ≡ object) }
    {
        if self.stopped {
            return Err(Refused {
                value: object,
                why: RegisterFault::Stopping,
            });
        }
        if self.writers.reserve(1).is_err() {
            return Err(Refused {
                value: object,
                why: RegisterFault::Memory,
            });
        }
        match self
            .registry
            .add(alloc, name, kinds, MemberOf::Plug(object))
        {
            Ok(reg) => {
                self.welcome(reg, kinds, config);
                Ok(reg)
            }
            Err(refused) => Err(handed_back(refused)),
        }
    }

    /// Ends the life of the registration of a name, and gives its number: no call is made to it from then on, and those
    /// that wait stay. `NotRegistered` where no live registration has the name.
    pub fn close(&mut self, name: &Text) -> Result<u64, NotRegistered>
        ensures step { (actor : ℕ) → Makes (seen P.plug_tells Q.probe_tells self.old)
            (seen P.plug_tells Q.probe_tells self.new) Anyhow
            (entry.Close actor name.now (close_reply result)) }
        ensures err { OnErr result (seen P.plug_tells Q.probe_tells self.new
            ≡ seen P.plug_tells Q.probe_tells self.old) }
    {
        match self.registry.close(name) {
            Ok(reg) => {
                take_out(&mut self.writers, reg);
                Ok(reg)
            }
            Err(NotRegistered) => Err(NotRegistered),
        }
    }

    /// Hands out the object of a closed registration for good, once it is at home and no call waits for it. Only the
    /// actor that closed it asks for it. `NotRegistered` where it isn't closed or was handed out, `Out` where the
    /// object is with an actor, `Pending` where calls wait.
    pub fn retire(&mut self, reg: u64) -> Result<MemberOf<P, Q>, RetireFault>
        ensures step { (actor : ℕ) → Makes (seen P.plug_tells Q.probe_tells self.old)
            (seen P.plug_tells Q.probe_tells self.new)
            (λ K H. IfSome (closed_by reg H) (λ closer. closer ≡ actor))
            (entry.Retire actor reg (retire_reply result)) }
        ensures err { OnErr result (seen P.plug_tells Q.probe_tells self.new
            ≡ seen P.plug_tells Q.probe_tells self.old) }

        // It tells what it told when it was registered, and the calls that were answered, each with its answer.
        ensures told { IfOk result (λ member. (K : Opening) (H : History) →
            Stands K (seen P.plug_tells Q.probe_tells self.old) H →
            TellsHome H reg (home_of (member_tells P.plug_tells Q.probe_tells member))) }
    {
        self.registry.retire(reg)
    }

    /// Notes a new writer, and posts its configuration to a plug-in that is to be configured.
    fn welcome(&mut self, reg: u64, kinds: Kinds, config: Text)
        requires live { At (rows P.plug_tells Q.probe_tells self.old.registry) reg IsLive }
        requires spare { 0 < spare_of self.old.registry reg }
        requires room { vec_len self.old.writers < vec_capacity self.old.writers }
        ensures { seen P.plug_tells Q.probe_tells self.new ≡
            record (seen P.plug_tells Q.probe_tells self.old) {
              rows = if bit_and kinds.0 CONFIGURE.0 == CONFIGURE.0
                  then with_row reg (after_post (calls.Configure config))
                  (rows P.plug_tells Q.probe_tells self.old.registry)
                  else rows P.plug_tells Q.probe_tells self.old.registry;
              writers = self.old.writers.items
                  ++ (if bit_and kinds.0 WRITE.0 == WRITE.0 then reg ∷ [] else []);
            } }
    {
        if kinds.has(Kinds::WRITE) {
            self.writers.push_reserved(reg);
        }
        if kinds.has(Kinds::CONFIGURE) {
            if self.registry.post(reg, Call::Configure(config)).is_err() {
                unreachable!();
            }
        }
    }
}

/// A plug-in that the registry handed back, and why.
fn handed_back<P, Q>(refused: Refused<MemberOf<P, Q>, AddFault>) -> Refused<P, RegisterFault>
    requires { IsPlugMember refused.value }
    ensures value { MemberOf.Plug result.value ≡ refused.value }
    ensures why { result.why ≡ as_register_fault refused.why }
{
    let Refused { value, why } = refused;
    match value {
        MemberOf::Plug(value) => Refused {
            value,
            why: as_register_fault(why),
        },
        MemberOf::Probe(_) => unreachable!(),
    }
}

fn as_register_fault(why: AddFault) -> RegisterFault
    ensures { result ≡ as_register_fault why }
{
    match why {
        AddFault::Reserved => RegisterFault::Reserved,
        AddFault::NameTaken(reg) => RegisterFault::NameTaken(reg),
        AddFault::TableFull => RegisterFault::TableFull,
        AddFault::Memory => RegisterFault::Memory,
    }
}

/// Takes a number out.
fn take_out(numbers: &mut Vec<u64>, number: u64)
    ensures { numbers.new.items ≡ filter (λ other. not (nat_eq other number)) numbers.old.items }
{
    numbers.retain(|other| *other != number);
}
