//! The state, and the steps that touch one part of it.
ghost use Rattle.cd_history.specs.History.{History};
ghost use Rattle.cd_history.specs.declared.entry.Entry.TheVariants as entry;
ghost use Rattle.std.specs.Prelude.{IfOk, [], length, true, ℕ, ◌≡◌};

use crate::Flush;
use cd_cache::{Cache, HashKey};
use cd_chain::ChainTable;
use cd_daemon::Rules;
use cd_globals::Globals;
use cd_history::Why;
use cd_queue::WriteQueue;
use cd_registry::{Registry, TellsCalls, TellsReadings};
use cd_types::TypesDb;
use cd_value::Memory;
use std::alloc::Global;

/// The daemon's state: what is in force, the value cache, the write queue, who is registered, and the flushes that are
/// under way. Each method that makes an event is one step, whoever makes it (`actor` in its clause). Contracts see a
/// `CoreSeen`, which doesn't tell for how many more calls and lists there is room.
#[derive(Drop)]
pub struct Core<P, Q> {
    pub(crate) types: TypesDb,
    pub(crate) globals: Globals,
    pub(crate) rules: Rules,
    pub(crate) cache: Cache,
    pub(crate) queue: WriteQueue,
    pub(crate) registry: Registry<P, Q>,
    /// The numbers of the live writers, in order.
    pub(crate) writers: Vec<u64>,
    /// The flushes under way, in order of number.
    pub(crate) flushes: Vec<Flush>,
    /// How many flushes were begun.
    pub(crate) begun: u64,
    pub(crate) stopped: bool,
}

impl<P: TellsCalls, Q: TellsReadings> Core<P, Q> {
    ghost use Rattle.cd_daemon.specs.Answers.{in_force, limits_of, queued};
    ghost use Rattle.cd_core.specs.Seen.{opened, seen};
    ghost use Rattle.cd_core.specs.Stands.{Anyhow, Makes, Stands};
    ghost use Rattle.cd_daemon.specs.declared.Opening.{Opening};
    ghost use Rattle.cd_history.specs.History.{is_stopped};
    ghost use Rattle.cd_queue.specs.Drops.{AreInOrder};

    /// The state from the start, as `keyed` makes it, with a fixed key of the cache's hashes.
    pub fn new(
        alloc: Global,
        globals: Globals,
        types: TypesDb,
        chains: ChainTable,
        pre: Option<u64>,
        post: Option<u64>,
    ) -> Result<Self, Memory>
        requires { AreInOrder (limits_of globals) }
        ensures { IfOk result (λ core. Stands (opened globals types chains pre post)
            (seen P.plug_tells Q.probe_tells core) []) }
    {
        Core::keyed(alloc, globals, types, chains, pre, post, HashKey::new(0, 0))
    }

    /// The state from the start: nobody is registered, and cache and queue are empty. `pre` and `post` are the numbers
    /// of the chains that run before and behind the cache; one that is no chain of the table means that there is none.
    /// The key is that of the cache's hashes: no clause speaks of it. `Memory` doesn't come yet.
    pub fn keyed(
        alloc: Global,
        globals: Globals,
        types: TypesDb,
        chains: ChainTable,
        pre: Option<u64>,
        post: Option<u64>,
        key: HashKey,
    ) -> Result<Self, Memory>
        requires { AreInOrder (limits_of globals) }
        ensures { IfOk result (λ core. Stands (opened globals types chains pre post)
            (seen P.plug_tells Q.probe_tells core) []) }
    {
        Ok(Core {
            cache: Cache::keyed(alloc, globals.timeout, key),
            queue: WriteQueue::new(alloc, globals.high, globals.low),
            registry: Registry::new(alloc),
            writers: Vec::new(alloc),
            flushes: Vec::new(alloc),
            begun: 0,
            stopped: false,
            rules: Rules { chains, pre, post },
            types,
            globals,
        })
    }

    /// The daemon stops: from then on it answers `Stopping` to registrations, lists and flushes.
    pub fn stop(&mut self, why: Why)
        ensures step { (actor : ℕ) → Makes (seen P.plug_tells Q.probe_tells self.old)
            (seen P.plug_tells Q.probe_tells self.new) Anyhow (entry.Stop actor why) }
        ensures rest { seen P.plug_tells Q.probe_tells self.new ≡
            record (seen P.plug_tells Q.probe_tells self.old) { stopped = true } }
    {
        let _ = why;
        self.stopped = true;
    }

    /// Whether a stop came.
    pub fn stopped(&self) -> bool
        ensures shown { result ≡ (seen P.plug_tells Q.probe_tells self.now).stopped }
        ensures stands { (K : Opening) (H : History) →
            Stands K (seen P.plug_tells Q.probe_tells self.now) H → result ≡ is_stopped H }
    {
        self.stopped
    }

    /// How many lists wait in the write queue.
    pub fn queued(&self) -> u64
        ensures shown { result ≡ length (seen P.plug_tells Q.probe_tells self.now).queue }
        ensures stands { (K : Opening) (H : History) →
            Stands K (seen P.plug_tells Q.probe_tells self.now) H → result ≡ length (queued H) }
    {
        self.queue.len()
    }

    /// The types that are in force.
    pub fn types(&self) -> &TypesDb
        ensures shown { result.now ≡ (seen P.plug_tells Q.probe_tells self.now).opening.types }
        ensures stands { (K : Opening) (H : History) →
            Stands K (seen P.plug_tells Q.probe_tells self.now) H →
            result.now ≡ (in_force K H).types }
    {
        &self.types
    }

    /// The settings of the whole daemon that are in force.
    pub fn globals(&self) -> &Globals
        ensures shown { result.now ≡ (seen P.plug_tells Q.probe_tells self.now).opening.globals }
        ensures stands { (K : Opening) (H : History) →
            Stands K (seen P.plug_tells Q.probe_tells self.now) H →
            result.now ≡ (in_force K H).globals }
    {
        &self.globals
    }
}
