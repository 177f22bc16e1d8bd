//! What handling a list of the write queue comes to, worked out before anything is changed.
ghost use Rattle.cd_cache.specs.Cache.{updated};
ghost use Rattle.cd_chain.specs.Chains.{run_numbered, run_of};
ghost use Rattle.cd_core.specs.Posting.{Finds, write_if_any};
ghost use Rattle.cd_core.specs.Prepared.{chain_there, passed_on, prepared_handling};
ghost use Rattle.cd_daemon.specs.Handling.{after_run, is_stop, run_before, run_behind, scene_of};
ghost use Rattle.cd_daemon.specs.Performing.{perform_all};
ghost use Rattle.cd_history.specs.Registrations.{Registration};
ghost use Rattle.cd_registry.specs.Registry.{rows};
ghost use Rattle.cd_value.specs.declared.data.ValueList.{ValueList};
ghost use Rattle.std.specs.Prelude.{IfOk, IfSome, List, OnOk, length, unwrap_or, ◌++◌, ◌<◌, ◌≡◌};

use crate::ahead::RatesAhead;
use crate::effects::{Effects, perform_all};
use cd_cache::Cache;
use cd_chain::{ChainTable, Evaluated, Verdict};
use cd_daemon::Rules;
use cd_registry::{Registry, TellsCalls, TellsReadings};
use cd_value::{DataSet, Memory, ValueList};
use std::alloc::Global;

/// What handling a list comes to.
#[derive(Drop)]
pub(crate) enum Prepared {
    /// The chain before the cache stopped it.
    Stopped(Effects),
    /// It is to be stored, as the chain before the cache left it, where that changed it. Behind the other calls it is
    /// written to one writer more, where there is one, which gets the list itself.
    Passed {
        changed: Option<ValueList>,
        effects: Effects,
        last: Option<u64>,
    },
}

/// The number of a chain, where the table has it.
fn chain_there(chains: &ChainTable, number: Option<u64>) -> Option<u64>
    ensures is { result ≡ chain_there chains.now number }
    ensures within { IfSome result (λ number. number < length chains.now) }
{
    match number {
        Some(number) => {
            if number < chains.len() as u64 {
                Some(number)
            } else {
                None
            }
        }
        None => None,
    }
}

/// Whether a chain stopped the list.
fn is_stop(verdict: Verdict) -> bool
    ensures { result ≡ is_stop verdict }
{
    matches!(verdict, Verdict::Stop)
}

/// The run of the chain before the cache; without one the list goes on as it is.
fn run_before(
    alloc: Global,
    rules: &mut Rules,
    set: &DataSet,
    cache: &Cache,
    list: &ValueList,
    now: u64,
) -> Result<Evaluated, Memory>
    ensures run { IfOk result (λ done. run_of list.now done
        ≡ run_before rules.old (scene_of set.now cache.now now) list.now) }
    ensures same { rules.new ≡ rules.old }
{
    match chain_there(&rules.chains, rules.pre) {
        Some(number) => rules.chains.run(alloc, number, list, set, cache, now),
        None => Ok(Evaluated::nothing(alloc)),
    }
}

/// The run of the chain of a number behind the cache, with the rates that there will be once the list is stored.
fn run_ahead(
    alloc: Global,
    chains: &mut ChainTable,
    number: u64,
    set: &DataSet,
    cache: &Cache,
    list: &ValueList,
    now: u64,
) -> Result<Evaluated, Memory>
    requires { number < length chains.old }
    ensures run { IfOk result (λ done. run_of list.now done ≡ run_numbered
        (scene_of set.now (updated set.now list.now now cache.now) now) chains.old number list.now) }
    ensures actions { IfOk result (λ done. done.actions ≡ (run_numbered
        (scene_of set.now (updated set.now list.now now cache.now) now)
        chains.old number list.now).actions) }
    ensures same { chains.new ≡ chains.old }
{
    let ahead = RatesAhead::of(alloc, cache, list, set)?;
    chains.run(alloc, number, list, set, &ahead, now)
}

/// Performs the actions of the chain of a number behind the cache.
fn perform_behind<P: TellsCalls, Q: TellsReadings>(
    alloc: Global,
    chains: &mut ChainTable,
    number: u64,
    set: &DataSet,
    cache: &Cache,
    registry: &Registry<P, Q>,
    writers: &[u64],
    effects: &mut Effects,
    list: &ValueList,
    now: u64,
) -> Result<(), Memory>
    requires { number < length chains.old }
    ensures performed { OnOk result ((regs : List Registration) →
        Finds regs writers.now (rows P.plug_tells Q.probe_tells registry.now) →
        effects.new ≡ perform_all regs (run_numbered
        (scene_of set.now (updated set.now list.now now cache.now) now)
        chains.old number list.now).actions effects.old) }
    ensures same { chains.new ≡ chains.old }
{
    let done = run_ahead(alloc, chains, number, set, cache, list, now)?;
    perform_all(alloc, registry, writers, effects, done.actions)
}

/// What comes behind the cache: the actions of the chain there, or without one a write to all.
fn behind<P: TellsCalls, Q: TellsReadings>(
    alloc: Global,
    rules: &mut Rules,
    set: &DataSet,
    cache: &Cache,
    registry: &Registry<P, Q>,
    writers: &[u64],
    effects: &mut Effects,
    list: &ValueList,
    now: u64,
) -> Result<Option<u64>, Memory>
    ensures posts { IfOk result (λ last. (regs : List Registration) →
        Finds regs writers.now (rows P.plug_tells Q.probe_tells registry.now) →
        effects.new.posts ++ write_if_any list.now last ≡ (perform_all regs
        (run_behind rules.old (scene_of set.now (updated set.now list.now now cache.now) now)
        list.now).actions effects.old).posts) }
    ensures skipped { IfOk result (λ last. (regs : List Registration) →
        Finds regs writers.now (rows P.plug_tells Q.probe_tells registry.now) →
        effects.new.skipped ≡ (perform_all regs
        (run_behind rules.old (scene_of set.now (updated set.now list.now now cache.now) now)
        list.now).actions effects.old).skipped) }
    ensures same { rules.new ≡ rules.old }
{
    match chain_there(&rules.chains, rules.post) {
        Some(number) => {
            perform_behind(
                alloc,
                &mut rules.chains,
                number,
                set,
                cache,
                registry,
                writers,
                effects,
                list,
                now,
            )?;
            Ok(None)
        }
        None => effects.write_copies(alloc, list, writers),
    }
}

/// The list as the chain before the cache left it.
pub(crate) fn stored<'a>(changed: &'a Option<ValueList>, list: &'a ValueList) -> &'a ValueList
    ensures { result.now ≡ unwrap_or changed.now list.now }
{
    match changed {
        Some(changed) => changed,
        None => list,
    }
}

/// What comes behind the chain before the cache, where that let the list pass.
fn passed<P: TellsCalls, Q: TellsReadings>(
    alloc: Global,
    rules: &mut Rules,
    set: &DataSet,
    cache: &Cache,
    registry: &Registry<P, Q>,
    writers: &[u64],
    mut effects: Effects,
    changed: Option<ValueList>,
    list: &ValueList,
    now: u64,
) -> Result<Prepared, Memory>
    ensures handling { IfOk result (λ prepared. (regs : List Registration) →
        Finds regs writers.now (rows P.plug_tells Q.probe_tells registry.now) →
        prepared_handling set.now now cache.now list.now prepared
        ≡ passed_on rules.old regs set.now now cache.now (unwrap_or changed list.now) effects) }
    ensures same { rules.new ≡ rules.old }
{
    let last = behind(
        alloc,
        rules,
        set,
        cache,
        registry,
        writers,
        &mut effects,
        stored(&changed, list),
        now,
    )?;
    Ok(Prepared::Passed {
        changed,
        effects,
        last,
    })
}

/// What comes after the run of the chain before the cache.
fn after_run<P: TellsCalls, Q: TellsReadings>(
    alloc: Global,
    rules: &mut Rules,
    set: &DataSet,
    cache: &Cache,
    registry: &Registry<P, Q>,
    writers: &[u64],
    done: Evaluated,
    list: &ValueList,
    now: u64,
) -> Result<Prepared, Memory>
    ensures handling { IfOk result (λ prepared. (regs : List Registration) →
        Finds regs writers.now (rows P.plug_tells Q.probe_tells registry.now) →
        prepared_handling set.now now cache.now list.now prepared
        ≡ after_run rules.old regs set.now now cache.now (run_of list.now done)) }
    ensures same { rules.new ≡ rules.old }
{
    let Evaluated {
        verdict,
        changed,
        actions,
    } = done;
    let mut effects = Effects::none(alloc);
    perform_all(alloc, registry, writers, &mut effects, actions)?;
    if is_stop(verdict) {
        return Ok(Prepared::Stopped(effects));
    }
    passed(
        alloc, rules, set, cache, registry, writers, effects, changed, list, now,
    )
}

/// What handling a list of that data set comes to.
pub(crate) fn prepare<P: TellsCalls, Q: TellsReadings>(
    alloc: Global,
    rules: &mut Rules,
    set: &DataSet,
    cache: &Cache,
    registry: &Registry<P, Q>,
    writers: &[u64],
    list: &ValueList,
    now: u64,
) -> Result<Prepared, Memory>
    ensures handling { IfOk result (λ prepared. (regs : List Registration) →
        Finds regs writers.now (rows P.plug_tells Q.probe_tells registry.now) →
        prepared_handling set.now now cache.now list.now prepared
        ≡ after_run rules.old regs set.now now cache.now
        (run_before rules.old (scene_of set.now cache.now now) list.now)) }
    ensures same { rules.new ≡ rules.old }
{
    let done = run_before(alloc, rules, set, cache, list, now)?;
    after_run(alloc, rules, set, cache, registry, writers, done, list, now)
}
