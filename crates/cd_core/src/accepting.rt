//! Value lists that are offered to the write queue.
ghost use Rattle.cd_core.specs.Replies.{accept_reply};
ghost use Rattle.cd_history.specs.declared.entry.Entry.TheVariants as entry;
ghost use Rattle.cd_types.specs.Types.{fits};
ghost use Rattle.std.specs.List.{list_all};
ghost use Rattle.std.specs.Prelude.{IfErr, IfSome, IsTrue, OnErr, length, ℕ, ◌≡◌};

use crate::{AcceptFault, Core};
use cd_registry::{TellsCalls, TellsReadings};
use cd_value::{Fates, Lists, Refused};
use std::alloc::Global;

impl<P: TellsCalls, Q: TellsReadings> Core<P, Q> {
    ghost use Rattle.cd_core.specs.Seen.{seen};
    ghost use Rattle.cd_core.specs.Stands.{Anyhow, Makes};

    /// Offers value lists that fit the types to the write queue, in order, each with its word of the dice. `now`, in
    /// 2^-30 s, is the moment of the event. Each list is kept or dropped, as WriteQueueLimitHigh and WriteQueueLimitLow
    /// of collectd.conf(5) have it. All come back with `Stopping` after a stop, and with `Memory` where it was lacking.
    pub fn accept(
        &mut self,
        alloc: Global,
        lists: Lists,
        words: &[u64],
        now: u64,
    ) -> Result<Fates, Refused<Lists, AcceptFault>>
        requires words { length words.now ≡ length lists }
        requires fit { IsTrue (list_all
            (fits (seen P.plug_tells Q.probe_tells self.old).opening.types) lists) }
        ensures step { IfSome (accept_reply result) (λ reply. (actor : ℕ) →
            Makes (seen P.plug_tells Q.probe_tells self.old)
            (seen P.plug_tells Q.probe_tells self.new) Anyhow
            (entry.Accept actor lists words.now now reply)) }
        ensures err { OnErr result (seen P.plug_tells Q.probe_tells self.new
            ≡ seen P.plug_tells Q.probe_tells self.old) }
        ensures back { IfErr result (λ refused. refused.value ≡ lists) }
    {
        let _ = now;
        if self.stopped {
            return Err(Refused {
                value: lists,
                why: AcceptFault::Stopping,
            });
        }
        match self.queue.offer_all(alloc, lists, words) {
            Ok(fates) => Ok(fates),
            Err(refused) => Err(Refused {
                value: refused.value,
                why: AcceptFault::Memory,
            }),
        }
    }
}
