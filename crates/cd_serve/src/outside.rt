//! What the daemon of a run asks for: moments, words of the dice, and the steps of its core.
//!
//! One trait, which asks only that its type can be dropped, stands before the clock, the dice, and the core with its
//! plug-ins, so that the daemon is generic in one type alone. (A method of a trait can't hand on clocks or plug-ins
//! whose traits ask that they may go to other threads; the core asks for no such trait, and a plug-in is entered here.)
ghost use Rattle.cd_core.specs.Replies.{accept_reply, begin_reply, end_reply, get_reply};
ghost use Rattle.cd_core.specs.Seen.{CoreSeen, calls_waiting, seen};
ghost use Rattle.cd_core.specs.Stands.{Anyhow, Makes, Stands};
ghost use Rattle.cd_core.specs.declared.faults.HandleFault.TheVariants as faults;
ghost use Rattle.cd_daemon.specs.Answers.{ready};
ghost use Rattle.cd_daemon.specs.Flushes.{flush_begun_by};
ghost use Rattle.cd_daemon.specs.declared.Opening.{Opening};
ghost use Rattle.cd_history.specs.History.{History};
ghost use Rattle.cd_history.specs.declared.entry.Entry.TheVariants as entry;
ghost use Rattle.cd_history.specs.declared.entry.Found.TheVariants as found;
ghost use Rattle.cd_serve.specs.Tells.{Pairs};
ghost use Rattle.cd_serve.specs.Working.Outside.{WasCalled, after_moment, after_word};
ghost use Rattle.cd_types.specs.Types.{fits};
ghost use Rattle.cd_value.specs.Rows.{as_rows};
ghost use Rattle.std.specs.List.{list_all};
ghost use Rattle.std.specs.Prelude.{Err, IfOk, IfSome, IsNone, IsTrue, None, OnErr, OnOk, Some};
ghost use Rattle.std.specs.Prelude.{[], drop, length, ℕ, ◌+◌, ◌↔◌, ◌≡◌};

use cd_core::{AcceptFault, Core, FlushEnd, FlushFault, Got, HandleFault, QueryFault};
use cd_history::Handled;
use cd_io::{Clock, Dice};
use cd_registry::{Answer, EnteredOf, LeaseOf, Plug, Probe};
use cd_types::TypesDb;
use cd_value::{Fates, FlushRequest, Lists, Memory, Refused, Text};
use std::alloc::Global;

/// What a daemon asks for.
pub trait Outside: Drop {
    /// What its clock and its dice tell.
    ghost outside_pairs: { Self → Pairs };

    /// What is seen of its core.
    ghost outside_core: { Self → CoreSeen };

    /// Gives a moment, in units of 2^-30 s.
    fn moment(&mut self) -> u64
        ensures moment { IfSome (outside_pairs self.old).clock (λ pair. result ≡ pair.0) }
        ensures pairs { outside_pairs self.new ≡ after_moment (outside_pairs self.old) }
        ensures core { outside_core self.new ≡ outside_core self.old };

    /// Gives a word of the dice.
    fn word(&mut self) -> u64
        ensures word { IfSome (outside_pairs self.old).dice (λ pair. result ≡ pair.0) }
        ensures pairs { outside_pairs self.new ≡ after_word (outside_pairs self.old) }
        ensures core { outside_core self.new ≡ outside_core self.old };

    /// The types that are in force.
    fn types(&self) -> &TypesDb
        ensures { result.now ≡ (outside_core self.now).opening.types };

    /// The interval of lists that name none, in units of 2^-30 s.
    fn interval(&self) -> u64
        ensures { result ≡ (outside_core self.now).opening.globals.interval };

    /// Offers lists to the write queue at a moment in 2^-30 s, each with its word of the dice.
    fn accept(
        &mut self,
        alloc: Global,
        lists: Lists,
        words: &[u64],
        now: u64,
    ) -> Result<Fates, Refused<Lists, AcceptFault>>
        requires words { length words.now ≡ length lists }
        requires fit { IsTrue (list_all (fits (outside_core self.old).opening.types) lists) }
        ensures step { IfSome (accept_reply result) (λ reply. (actor : ℕ) →
            Makes (outside_core self.old) (outside_core self.new) Anyhow
            (entry.Accept actor lists words.now now reply)) }
        ensures err { OnErr result (outside_core self.new ≡ outside_core self.old) }
        ensures pairs { outside_pairs self.new ≡ outside_pairs self.old };

    /// How many lists wait.
    fn queued(&self) -> u64
        ensures { result ≡ length (outside_core self.now).queue };

    /// Handles the first list that waits, at a moment in 2^-30 s.
    fn handle(&mut self, alloc: Global, now: u64) -> Result<Handled, HandleFault>
        ensures step { IfOk result (λ handled. (actor : ℕ) →
            Makes (outside_core self.old) (outside_core self.new) Anyhow
            (entry.Handle actor now handled)) }
        ensures err { OnErr result (outside_core self.new ≡ outside_core self.old) }
        ensures queue { OnOk result ((outside_core self.new).queue
            ≡ drop 1 (outside_core self.old).queue) }
        ensures empty { (result ≡ Err faults.Empty) ↔ ((outside_core self.old).queue ≡ []) }
        ensures pairs { outside_pairs self.new ≡ outside_pairs self.old };

    /// Makes the oldest call of the least plug-in that is ready, and gives its answer.
    fn call(&mut self) -> Option<Answer>
        ensures called { IfSome result (λ answer.
            WasCalled answer (outside_core self.old) (outside_core self.new)) }
        ensures none { IsNone result → (K : Opening) (H : History) →
            Stands K (outside_core self.old) H → ready K H ≡ None }
        ensures same { IsNone result → outside_core self.new ≡ outside_core self.old }
        ensures fewer { IfSome result (λ answer. calls_waiting (outside_core self.old).rows
            ≡ calls_waiting (outside_core self.new).rows + 1) }
        ensures queue { (outside_core self.new).queue ≡ (outside_core self.old).queue }
        ensures pairs { outside_pairs self.new ≡ outside_pairs self.old };

    /// What is cached under a name.
    fn get(&self, alloc: Global, name: &Text) -> Result<Got, QueryFault>
        ensures { IfSome (get_reply result) (λ reply. (actor : ℕ) →
            Makes (outside_core self.now) (outside_core self.now) Anyhow
            (entry.Query actor (Some name.now) reply)) };

    /// The time, in 2^-30 s, and the name of each cached list, in the order of the names' bytes.
    fn listed(&self, alloc: Global) -> Result<Vec<(u64, &Text)>, Memory>
        ensures { IfOk result (λ rows. (actor : ℕ) →
            Makes (outside_core self.now) (outside_core self.now) Anyhow
            (entry.Query actor None (found.Listed (as_rows rows.items)))) };

    /// Begins a flush, and gives its number.
    fn flush_begin(&mut self, alloc: Global, request: &FlushRequest) -> Result<u64, FlushFault>
        ensures step { IfSome (begin_reply result) (λ reply. (actor : ℕ) →
            Makes (outside_core self.old) (outside_core self.new) Anyhow
            (entry.FlushOpen actor request.now reply)) }
        ensures err { OnErr result (outside_core self.new ≡ outside_core self.old) }
        ensures pairs { outside_pairs self.new ≡ outside_pairs self.old };

    /// The counts of a flush, once all its calls were answered.
    fn flush_end(&mut self, number: u64) -> Result<(u64, u64), FlushEnd>
        ensures step { (actor : ℕ) → Makes (outside_core self.old) (outside_core self.new)
            (λ K H. IfSome (flush_begun_by number H) (λ beginner. beginner ≡ actor))
            (entry.FlushClose actor number (end_reply result)) }
        ensures err { OnErr result (outside_core self.new ≡ outside_core self.old) }
        ensures pairs { outside_pairs self.new ≡ outside_pairs self.old };
}

/// A clock, dice, and a core with its plug-ins.
#[derive(Drop)]
pub struct Around<C, D, P, Q> {
    pub clock: C,
    pub dice: D,
    pub core: Core<P, Q>,
}

impl<C: Clock, D: Dice, P: Plug, Q: Probe> Outside for Around<C, D, P, Q> {
    ghost outside_pairs = { λ around.
        record { clock = C.clock_pair around.clock; dice = D.dice_pair around.dice } };

    ghost outside_core = { λ around. seen P.plug_tells Q.probe_tells around.core };

    fn moment(&mut self) -> u64 {
        self.clock.now()
    }

    fn word(&mut self) -> u64 {
        self.dice.word()
    }

    fn types(&self) -> &TypesDb {
        self.core.types()
    }

    fn interval(&self) -> u64 {
        self.core.globals().interval
    }

    fn accept(
        &mut self,
        alloc: Global,
        lists: Lists,
        words: &[u64],
        now: u64,
    ) -> Result<Fates, Refused<Lists, AcceptFault>> {
        self.core.accept(alloc, lists, words, now)
    }

    fn queued(&self) -> u64 {
        self.core.queued()
    }

    fn handle(&mut self, alloc: Global, now: u64) -> Result<Handled, HandleFault> {
        self.core.handle(alloc, now)
    }

    fn call(&mut self) -> Option<Answer> {
        let LeaseOf {
            reg,
            mut object,
            call,
        } = self.core.take(0)?;
        let answer = object.enter(&call);
        self.core.done(EnteredOf {
            reg,
            object,
            call,
            answer,
        });
        Some(answer)
    }

    fn get(&self, alloc: Global, name: &Text) -> Result<Got, QueryFault> {
        self.core.get(alloc, name)
    }

    fn listed(&self, alloc: Global) -> Result<Vec<(u64, &Text)>, Memory> {
        self.core.listed(alloc)
    }

    fn flush_begin(&mut self, alloc: Global, request: &FlushRequest) -> Result<u64, FlushFault> {
        self.core.flush_begin(alloc, request)
    }

    fn flush_end(&mut self, number: u64) -> Result<(u64, u64), FlushEnd> {
        self.core.flush_end(number)
    }
}
