//! Plug-ins that are out for a call.
ghost use Rattle.cd_history.specs.History.{History};
ghost use Rattle.cd_history.specs.declared.entry.Entry.TheVariants as entry;
ghost use Rattle.cd_registry.specs.Rows.{At, IsPlugOut};
ghost use Rattle.std.specs.Prelude.{IfSome, IsNone, None, ℕ, ◌+◌, ◌≡◌};

use crate::Core;
use crate::flush::note_answer;
use cd_registry::{EnteredOf, LeaseOf, TellsCalls, TellsReadings};

impl<P: TellsCalls, Q: TellsReadings> Core<P, Q> {
    ghost use Rattle.cd_daemon.specs.Answers.{ready};
    ghost use Rattle.cd_core.specs.Objects.{IsEntered, IsLent};
    ghost use Rattle.cd_core.specs.Seen.{calls_waiting, seen};
    ghost use Rattle.cd_core.specs.Stands.{Anyhow, Makes, Stands};
    ghost use Rattle.cd_daemon.specs.declared.Opening.{Opening};
    ghost use Rattle.cd_history.specs.History.{◌▸◌};

    /// Takes the least registered plug-in that is at home and for which a call waits, with the oldest such call. The
    /// actor is to enter it, and to give it back.
    pub fn take(&mut self, actor: u64) -> Option<LeaseOf<P>>
        ensures step { IfSome result (λ lease. Makes (seen P.plug_tells Q.probe_tells self.old)
            (seen P.plug_tells Q.probe_tells self.new) Anyhow
            (entry.Take actor lease.reg lease.call)) }
        ensures lent { IfSome result (λ lease. (K : Opening) (H : History) →
            Stands K (seen P.plug_tells Q.probe_tells self.old) H →
            IsLent (H ▸ entry.Take actor lease.reg lease.call)
            actor lease.reg lease.call (P.plug_tells lease.object)) }

        ensures out { IfSome result (λ lease.
            At (seen P.plug_tells Q.probe_tells self.new).rows lease.reg IsPlugOut) }

        // There is none exactly where no plug-in is ready.
        ensures none { IsNone result → (K : Opening) (H : History) →
            Stands K (seen P.plug_tells Q.probe_tells self.old) H → ready K H ≡ None }
        ensures same { IsNone result → seen P.plug_tells Q.probe_tells self.new
            ≡ seen P.plug_tells Q.probe_tells self.old }

        // One call less waits, and no list more.
        ensures fewer { IfSome result (λ lease.
            calls_waiting (seen P.plug_tells Q.probe_tells self.old).rows
            ≡ calls_waiting (seen P.plug_tells Q.probe_tells self.new).rows + 1) }
        ensures queue { (seen P.plug_tells Q.probe_tells self.new).queue
            ≡ (seen P.plug_tells Q.probe_tells self.old).queue }
    {
        match self.registry.ready() {
            Some(reg) => Some(self.registry.take(reg, actor)),
            None => None,
        }
    }

    /// Gives a plug-in home that was entered once with its call, with its answer. Only the actor that took it does so.
    pub fn done(&mut self, entered: EnteredOf<P>)
        requires { At (seen P.plug_tells Q.probe_tells self.old).rows entered.reg IsPlugOut }
        ensures step { (actor : ℕ) → Makes (seen P.plug_tells Q.probe_tells self.old)
            (seen P.plug_tells Q.probe_tells self.new)
            (λ K H. IsEntered H actor entered.reg entered.call entered.answer
            (P.plug_tells entered.object))
            (entry.Done actor entered.reg entered.answer) }

        // As many calls wait, and as many lists.
        ensures waiting { calls_waiting (seen P.plug_tells Q.probe_tells self.new).rows
            ≡ calls_waiting (seen P.plug_tells Q.probe_tells self.old).rows }
        ensures queue { (seen P.plug_tells Q.probe_tells self.new).queue
            ≡ (seen P.plug_tells Q.probe_tells self.old).queue }
    {
        note_answer(&mut self.flushes, &entered.call, entered.answer);
        self.registry.give(entered);
    }
}
