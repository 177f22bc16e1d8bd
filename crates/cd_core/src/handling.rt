//! Value lists of the write queue are handled.
ghost use Rattle.cd_cache.specs.Cache.{outcome, updated};
ghost use Rattle.cd_core.specs.Posting.{Finds, HasRoom, posted_live, write_if_any};
ghost use Rattle.cd_core.specs.Prepared.{prepared_cache, prepared_handling, prepared_how, prepared_posts, prepared_skipped};
ghost use Rattle.cd_daemon.specs.Handling.{after_run, as_how, run_before, scene_of, set_of};
ghost use Rattle.cd_history.specs.Registrations.{Registration};
ghost use Rattle.cd_history.specs.declared.entry.Entry.TheVariants as entry;
ghost use Rattle.cd_registry.specs.Registry.{rows};
ghost use Rattle.cd_value.specs.declared.data.ValueList.{ValueList};
ghost use Rattle.std.specs.Prelude.{Err, IfOk, List, OnErr, OnOk, [], drop, length, option_copied, ℕ, ◌↔◌, ◌≡◌};

use crate::posting::{make_room, post, post_all, reserve_all};
use crate::prepared::{Prepared, prepare, stored};
use crate::{Core, HandleFault};
use cd_cache::{Cache, Updated};
use cd_daemon::Rules;
use cd_history::{Handled, How};
use cd_registry::{Call, Registry, TellsCalls, TellsReadings};
use cd_types::TypesDb;
use cd_value::{DataSet, Memory, ValueList};
use std::alloc::Global;

/// Stores a list, unless what is cached under its name is as new or newer.
fn update(
    alloc: Global,
    cache: &mut Cache,
    set: &DataSet,
    list: &ValueList,
    now: u64,
) -> Result<How, Memory>
    ensures how { IfOk result (λ how. how ≡ as_how (outcome list.now cache.old)) }
    ensures ok { OnOk result (cache.new ≡ updated set.now list.now now cache.old) }
    ensures err { OnErr result (cache.new ≡ cache.old) }
{
    match cache.update(alloc, list, set, now) {
        Ok(Updated::Stored) => Ok(How::Stored),
        Ok(Updated::Old) => Ok(How::Old),
        Err(Memory) => Err(Memory),
    }
}

/// Makes room for the calls that handling a list makes, and stores it, unless the chain before the cache stopped it.
fn store<P: TellsCalls, Q: TellsReadings>(
    alloc: Global,
    cache: &mut Cache,
    registry: &mut Registry<P, Q>,
    set: &DataSet,
    list: &ValueList,
    prepared: &Prepared,
    now: u64,
) -> Result<How, Memory>
    ensures how { IfOk result (λ how. how ≡ prepared_how cache.old list.now prepared.now) }
    ensures ok { OnOk result (cache.new ≡
        prepared_cache set.now now cache.old list.now prepared.now) }
    ensures err { OnErr result (cache.new ≡ cache.old) }
    ensures room { OnOk result (HasRoom P.plug_tells Q.probe_tells
        (prepared_posts list.now prepared.now) registry.new) }
    ensures rows { rows P.plug_tells Q.probe_tells registry.new
        ≡ rows P.plug_tells Q.probe_tells registry.old }
{
    match prepared {
        Prepared::Stopped(effects) => {
            reserve_all(registry, effects.posts())?;
            Ok(How::StoppedBefore)
        }
        Prepared::Passed {
            changed,
            effects,
            last,
        } => {
            make_room(registry, effects.posts(), *last)?;
            update(alloc, cache, set, stored(changed, list), now)
        }
    }
}

/// Posts a write of a list, where there is a registration to which it goes.
fn write<P: TellsCalls, Q: TellsReadings>(
    registry: &mut Registry<P, Q>,
    list: ValueList,
    to: Option<u64>,
)
    requires { HasRoom P.plug_tells Q.probe_tells (write_if_any list to) registry.old }
    ensures { rows P.plug_tells Q.probe_tells registry.new ≡
        posted_live (write_if_any list to) (rows P.plug_tells Q.probe_tells registry.old) }
{
    match to {
        Some(reg) => post(registry, reg, Call::Write(list)),
        None => {}
    }
}

/// Posts the calls that handling a list makes.
fn post_prepared<P: TellsCalls, Q: TellsReadings>(
    registry: &mut Registry<P, Q>,
    list: ValueList,
    prepared: Prepared,
) -> u64
    requires { HasRoom P.plug_tells Q.probe_tells (prepared_posts list prepared) registry.old }
    ensures skipped { result ≡ prepared_skipped prepared }
    ensures rows { rows P.plug_tells Q.probe_tells registry.new ≡
        posted_live (prepared_posts list prepared)
        (rows P.plug_tells Q.probe_tells registry.old) }
{
    match prepared {
        Prepared::Stopped(effects) => {
            let skipped = effects.skipped();
            post_all(registry, effects.into_posts());
            skipped
        }
        Prepared::Passed {
            changed,
            effects,
            last,
        } => {
            let skipped = effects.skipped();
            post_all(registry, effects.into_posts());
            write(registry, changed.unwrap_or(list), last);
            skipped
        }
    }
}

/// What handling a list came to, and how it was stored.
#[derive(Drop)]
struct WorkedOut {
    prepared: Prepared,
    how: How,
}

/// Works out what handling a list of that data set comes to, makes room for its calls, and stores it, unless it was
/// stopped.
fn work_out<P: TellsCalls, Q: TellsReadings>(
    alloc: Global,
    rules: &mut Rules,
    cache: &mut Cache,
    registry: &mut Registry<P, Q>,
    writers: &[u64],
    set: &DataSet,
    list: &ValueList,
    now: u64,
) -> Result<WorkedOut, Memory>
    ensures handling { IfOk result (λ out. (regs : List Registration) →
        Finds regs writers.now (rows P.plug_tells Q.probe_tells registry.old) →
        prepared_handling set.now now cache.old list.now out.prepared
        ≡ after_run rules.old regs set.now now cache.old
        (run_before rules.old (scene_of set.now cache.old now) list.now)) }
    ensures how { IfOk result (λ out. out.how ≡ prepared_how cache.old list.now out.prepared) }
    ensures ok { IfOk result (λ out. cache.new ≡
        prepared_cache set.now now cache.old list.now out.prepared) }
    ensures err { OnErr result (cache.new ≡ cache.old) }
    ensures room { IfOk result (λ out. HasRoom P.plug_tells Q.probe_tells
        (prepared_posts list.now out.prepared) registry.new) }
    ensures rows { rows P.plug_tells Q.probe_tells registry.new
        ≡ rows P.plug_tells Q.probe_tells registry.old }
    ensures same { rules.new ≡ rules.old }
{
    let prepared = prepare(alloc, rules, set, cache, registry, writers, list, now)?;
    let how = store(alloc, cache, registry, set, list, &prepared, now)?;
    Ok(WorkedOut { prepared, how })
}

/// The data set of a list, where its type is known.
fn set_of<'a>(types: &'a TypesDb, list: &ValueList) -> Option<&'a DataSet>
    ensures { option_copied result ≡ set_of types.now list.now }
{
    types.get(list.id.type_name.as_str())
}

impl<P: TellsCalls, Q: TellsReadings> Core<P, Q> {
    ghost use Rattle.cd_core.specs.Seen.{seen};
    ghost use Rattle.cd_core.specs.Stands.{Anyhow, Makes};
    ghost use Rattle.cd_core.specs.declared.faults.HandleFault.TheVariants as faults;

    /// Handles the first list of the write queue at a moment in 2^-30 s, as collectd.conf(5) has it in "Filter
    /// configuration": it passes the chain before the cache, the cache and the chain behind it, and the calls that this
    /// makes are posted. `Empty` where none waits; at `Memory` the list waits on, and all is as it was.
    pub fn handle(&mut self, alloc: Global, now: u64) -> Result<Handled, HandleFault>
        ensures step { IfOk result (λ handled. (actor : ℕ) →
            Makes (seen P.plug_tells Q.probe_tells self.old)
            (seen P.plug_tells Q.probe_tells self.new) Anyhow
            (entry.Handle actor now handled)) }
        ensures queue { OnOk result ((seen P.plug_tells Q.probe_tells self.new).queue
            ≡ drop 1 (seen P.plug_tells Q.probe_tells self.old).queue) }
        ensures err { OnErr result (seen P.plug_tells Q.probe_tells self.new
            ≡ seen P.plug_tells Q.probe_tells self.old) }

        // There is none exactly where nothing is queued.
        ensures empty { (result ≡ Err faults.Empty)
            ↔ ((seen P.plug_tells Q.probe_tells self.old).queue ≡ []) }
    {
        let Some(list) = self.queue.front() else {
            return Err(HandleFault::Empty);
        };
        let Some(set) = set_of(&self.types, list) else {
            self.queue.pop();
            return Ok(Handled {
                how: How::StoppedBefore,
                skipped: 0,
            });
        };
        let worked = work_out(
            alloc,
            &mut self.rules,
            &mut self.cache,
            &mut self.registry,
            self.writers.as_slice(),
            set,
            list,
            now,
        );
        let Ok(WorkedOut { prepared, how }) = worked else {
            return Err(HandleFault::Memory);
        };
        let Some(list) = self.queue.pop() else {
            unreachable!()
        };
        let skipped = post_prepared(&mut self.registry, list, prepared);
        Ok(Handled { how, skipped })
    }
}
