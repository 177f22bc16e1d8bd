//! The calls that a flush makes.
ghost use Rattle.cd_core.specs.Asked.{flusher_in, plugins_in};
ghost use Rattle.cd_daemon.specs.Flushes.{counted, flush_calls_to, names_meant};
ghost use Rattle.cd_daemon.specs.Performing.{Post as PostSeen};
ghost use Rattle.cd_registry.specs.Registry.{rows};
ghost use Rattle.cd_registry.specs.declared.calls.Call.TheVariants as calls;
ghost use Rattle.std.specs.List.{filter, flat_map};
ghost use Rattle.std.specs.Prelude.{IfOk, OnOk, Some, [], is_some, length, map, not, ◌*◌, ◌++◌, ◌∷◌, ◌≡◌};

use crate::effects::Post;
use cd_registry::{Call, Kinds, Registry, TellsCalls, TellsReadings};
use cd_value::{FlushRequest, Memory, Text, TryCopy};
use std::alloc::Global;

/// Registrations, each of which is there.
fn all_there(alloc: Global, regs: &[u64]) -> Result<Vec<Option<u64>>, Memory>
    ensures { IfOk result (λ plugins. plugins.items ≡ map Some regs.now) }
{
    let mut plugins = Vec::with_capacity(alloc, regs.len())?;
    for reg in regs {
        plugins.push(Some(*reg))?;
    }
    Ok(plugins)
}

/// The registrations of names, where they are flushed.
fn named<P: TellsCalls, Q: TellsReadings>(
    alloc: Global,
    registry: &Registry<P, Q>,
    names: &[Text],
) -> Result<Vec<Option<u64>>, Memory>
    ensures { IfOk result (λ plugins. plugins.items ≡
        map (flusher_in (rows P.plug_tells Q.probe_tells registry.now)) names.now) }
{
    let mut plugins = Vec::with_capacity(alloc, names.len())?;
    for name in names {
        plugins.push(registry.find(name, Kinds::FLUSH))?;
    }
    Ok(plugins)
}

/// The plug-ins that a request means.
pub(crate) fn plugins_meant<P: TellsCalls, Q: TellsReadings>(
    alloc: Global,
    registry: &Registry<P, Q>,
    request: &FlushRequest,
) -> Result<Vec<Option<u64>>, Memory>
    ensures { IfOk result (λ plugins. plugins.items ≡
        plugins_in (rows P.plug_tells Q.probe_tells registry.now) request.now) }
{
    if request.plugins.is_empty() {
        let regs = registry.listening(alloc, Kinds::FLUSH)?;
        all_there(alloc, regs.as_slice())
    } else {
        named(alloc, registry, request.plugins.as_slice())
    }
}

/// Puts a call behind the others.
fn push_call(
    posts: &mut Vec<Post>,
    reg: u64,
    number: u64,
    timeout: Option<u64>,
    name: Option<Text>,
) -> Result<(), Memory>
    ensures { OnOk result (posts.new.items ≡ posts.old.items
        ++ record { reg = reg; call = calls.Flush number timeout name } ∷ []) }
{
    posts.push(Post {
        reg,
        call: Call::Flush {
            number,
            timeout,
            name,
        },
    })?;
    Ok(())
}

/// Puts the calls of a plug-in behind the others, one for each name.
fn push_named(
    alloc: Global,
    posts: &mut Vec<Post>,
    reg: u64,
    number: u64,
    timeout: Option<u64>,
    names: &[Text],
) -> Result<(), Memory>
    ensures { OnOk result (posts.new.items ≡ posts.old.items
        ++ map (λ name. record { reg = reg; call = calls.Flush number timeout name })
        (map Some names.now)) }
{
    for name in names {
        let name = name.copy(alloc)?;
        push_call(posts, reg, number, timeout, Some(name))?;
    }
    Ok(())
}

/// Puts the calls of a plug-in behind the others, where it is there.
fn push_calls(
    alloc: Global,
    posts: &mut Vec<Post>,
    number: u64,
    request: &FlushRequest,
    plugin: Option<u64>,
) -> Result<(), Memory>
    ensures { OnOk result (posts.new.items ≡
        posts.old.items ++ flush_calls_to number request.now plugin) }
{
    let Some(reg) = plugin else {
        return Ok(());
    };
    if request.names.is_empty() {
        push_call(posts, reg, number, request.timeout, None)
    } else {
        push_named(
            alloc,
            posts,
            reg,
            number,
            request.timeout,
            request.names.as_slice(),
        )
    }
}

/// The calls of a flush, plug-in by plug-in and then name by name.
pub(crate) fn calls_of(
    alloc: Global,
    number: u64,
    request: &FlushRequest,
    plugins: &[Option<u64>],
) -> Result<Vec<Post>, Memory>
    ensures { IfOk result (λ posts. posts.items ≡
        flat_map (flush_calls_to number request.now) plugins.now) }
{
    let mut posts = Vec::new(alloc);
    for plugin in plugins {
        push_calls(alloc, &mut posts, number, request, *plugin)?;
    }
    Ok(posts)
}

/// How many pairs of a plug-in and a name there are for which nobody is there.
pub(crate) fn missed(request: &FlushRequest, plugins: &[Option<u64>]) -> u64
    ensures { result ≡ counted (length (filter (λ plugin. not (is_some plugin)) plugins.now)
        * length (names_meant request.now)) }
{
    absent(plugins).saturating_mul(name_count(request))
}

/// How many plug-ins aren't there.
fn absent(plugins: &[Option<u64>]) -> u64
    ensures { result ≡ length (filter (λ plugin. not (is_some plugin)) plugins.now) }
{
    plugins.iter().filter(|plugin| !plugin.is_some()).count() as u64
}

/// How many names a request means; all at once are one.
fn name_count(request: &FlushRequest) -> u64
    ensures { result ≡ length (names_meant request.now) }
{
    if request.names.is_empty() {
        1
    } else {
        request.names.len() as u64
    }
}
