//! `--lines`: the lines of the input are served.
ghost use Rattle.cd_core.specs.Seen.{seen};
ghost use Rattle.cd_daemon.specs.declared.Opening.{Opening};
ghost use Rattle.cd_history.specs.History.{History};
ghost use Rattle.cd_io.specs.Link.{LinkTells};
ghost use Rattle.cd_serve.specs.Promises.{PromisesLines};
ghost use Rattle.cd_serve.specs.Shelf.{CanBeLoaded, names_on, on_shelf, places};
ghost use Rattle.cd_serve.specs.Started.{loaded_of, opening_of};
ghost use Rattle.cd_serve.specs.Tells.{Pairs};
ghost use Rattle.cd_serve.specs.Working.Ended.{HasCome, HasEnded, around_seen};
ghost use Rattle.cd_serve.specs.Working.Loading.{Runs, with_blocks};
ghost use Rattle.cd_serve.specs.Working.Progress.{HasServed};
ghost use Rattle.cd_settings.specs.Bounds.{AreBounded};
ghost use Rattle.cd_transcript.specs.LineRuns.{Loaded, OnShelf};
ghost use Rattle.std.specs.Prelude.{List, None, [], false, ◌≡◌};

use crate::daemon::Daemon;
use crate::end::end_of;
use crate::loading::{hand_out_all, load_all};
use crate::outside::Around;
use crate::places::{ReadyOf, made_ready, shelved};
use crate::program::{INPUT_LIMIT, RanOf, uncalled};
use crate::{End, ShelvedOf, ShelvedProbeOf};
use cd_cache::HashKey;
use cd_core::Core;
use cd_dialogue::serve_all;
use cd_history::Why;
use cd_io::{Clock, Dice, Link};
use cd_opening::Opened;
use cd_registry::{Plug, Probe};
use cd_settings::{Block, Settings};
use cd_value::{Memory, Sequence, Text};
use std::alloc::Global;

/// What is handed to a run over lines: its clock and its dice, the key of the cache's hashes, and the shelf.
#[derive(Drop)]
pub struct Handed<C, D, P, Q> {
    pub clock: C,
    pub dice: D,
    pub key: HashKey,
    pub plugs: Vec<ShelvedOf<P>>,
    pub probes: Vec<ShelvedProbeOf<Q>>,
}

/// Stops the daemon and lets it work until it is idle, and gives the end of the run, whose input was served so. Where
/// memory was lacking, the calls that wait are made and nothing else.
fn end_run<C: Clock, D: Dice, P: Plug, Q: Probe>(
    alloc: Global,
    daemon: &mut Daemon<Around<C, D, P, Q>>,
    served: End,
) -> End
    ensures { (K : Opening) (begun : Pairs) (opened : History) (before after : LinkTells) →
        HasCome K begun opened
        (around_seen C.clock_pair D.dice_pair P.plug_tells Q.probe_tells daemon.old) before after served →
        HasEnded K begun opened
        (around_seen C.clock_pair D.dice_pair P.plug_tells Q.probe_tells daemon.new) before after result }
{
    if matches!(served, End::Memory) {
        daemon.drain();
        return End::Memory;
    }
    daemon.outside.core.stop(Why::ControlEnd);
    match daemon.work(alloc) {
        Ok(()) => served,
        Err(Memory) => {
            daemon.drain();
            End::Memory
        }
    }
}

/// Serves the input where all plug-ins were registered, and gives the end of the run.
fn serve_input<C: Clock, D: Dice, L: Link, P: Plug, Q: Probe>(
    alloc: Global,
    daemon: &mut Daemon<Around<C, D, P, Q>>,
    input: &mut L,
    is_whole: bool,
) -> End
    ensures ends { (K : Opening) (begun : Pairs) (opened : History) →
        HasServed K begun opened [] []
        (around_seen C.clock_pair D.dice_pair P.plug_tells Q.probe_tells daemon.old) →
        HasEnded K begun opened
        (around_seen C.clock_pair D.dice_pair P.plug_tells Q.probe_tells daemon.new)
        (L.link_tells input.old) (L.link_tells input.new) result }
    ensures memory { is_whole ≡ false → result ≡ End.Memory }
    ensures unheard { is_whole ≡ false → input.new ≡ input.old }
{
    if !is_whole {
        daemon.drain();
        return End::Memory;
    }
    let served = serve_all(alloc, input, daemon, INPUT_LIMIT);
    end_run(alloc, daemon, end_of(served))
}

/// Registers the plug-ins of a shelf that was made ready, serves the input, and puts all objects back.
fn serve_ready<C: Clock, D: Dice, L: Link, P: Plug, Q: Probe>(
    alloc: Global,
    mut daemon: Daemon<Around<C, D, P, Q>>,
    ready: ReadyOf<P>,
    blocks: &[Block],
    input: &mut L,
    probes: Vec<ShelvedProbeOf<Q>>,
) -> RanOf<P, Q>
    requires { (K : Opening) × (shelf : List OnShelf) × (plugs : List OnShelf)
        × Runs K shelf plugs (seen P.plug_tells Q.probe_tells daemon.outside.core) P.plug_tells ready }
    ensures serves { (K : Opening) (loads : List OnShelf → List Loaded) (shelf : List OnShelf)
        (plugs : List OnShelf) → loads shelf ≡ with_blocks blocks.now plugs → daemon.given ≡ [] →
        Runs K shelf plugs (seen P.plug_tells Q.probe_tells daemon.outside.core) P.plug_tells ready →
        PromisesLines K loads shelf (on_shelf P.plug_tells result.plugs.items)
        result.given
        (record { clock = C.clock_pair daemon.outside.clock; dice = D.dice_pair daemon.outside.dice })
        (L.link_tells input.old) (L.link_tells input.new)
        result.end }
    ensures back { (K : Opening) (shelf : List OnShelf) (plugs : List OnShelf) →
        Runs K shelf plugs (seen P.plug_tells Q.probe_tells daemon.outside.core) P.plug_tells ready →
        places (on_shelf P.plug_tells result.plugs.items) ≡ places shelf }
    ensures probes { result.probes.items ≡ probes.items }
{
    let ReadyOf {
        mut places,
        order,
        room,
    } = ready;
    // What the clock, the dice and the plug-ins give counts from here.
    daemon.given = Sequence::new(alloc);
    let core = &mut daemon.outside.core;
    let count = load_all(alloc, core, places.as_mut_slice(), order.as_slice(), blocks);
    let end = serve_input(alloc, &mut daemon, input, count == order.len());
    let Daemon {
        mut outside,
        given,
        ..
    } = daemon;
    hand_out_all(
        &mut outside.core,
        places.as_mut_slice(),
        &order.as_slice()[..count],
    );
    RanOf {
        end,
        given,
        plugs: shelved(places, room),
        probes,
    }
}

/// Serves the lines of the input with what is in force, and the plug-ins of the shelf that the file loads, or all where
/// none is named. The objects come back.
pub(crate) fn serve_lines<C: Clock, D: Dice, L: Link, P: Plug, Q: Probe>(
    alloc: Global,
    file: &Option<Text>,
    found: Opened,
    input: &mut L,
    handed: Handed<C, D, P, Q>,
) -> RanOf<P, Q>
    requires bounded { AreBounded found.settings }
    requires blocks { file.now ≡ None → found.settings.blocks ≡ [] }
    requires loadable { CanBeLoaded (names_on handed.plugs.items handed.probes.items) }
    ensures serves { PromisesLines (opening_of found) (loaded_of file.now found.settings)
        (on_shelf P.plug_tells handed.plugs.items) (on_shelf P.plug_tells result.plugs.items)
        result.given
        (record { clock = C.clock_pair handed.clock; dice = D.dice_pair handed.dice })
        (L.link_tells input.old) (L.link_tells input.new)
        result.end }
    ensures back { places (on_shelf P.plug_tells result.plugs.items)
        ≡ places (on_shelf P.plug_tells handed.plugs.items) }
    ensures probes { result.probes.items ≡ handed.probes.items }
{
    let Opened {
        types,
        settings,
        ..
    } = found;
    let Settings {
        globals,
        loaded,
        blocks,
        chains,
        pre,
        post,
        ..
    } = settings;
    let Handed {
        clock,
        dice,
        key,
        plugs,
        probes,
    } = handed;
    let Ok(core) = Core::keyed(alloc, globals, types, chains, pre, post, key) else {
        return uncalled(alloc, End::Memory, plugs, probes);
    };
    let ready = match made_ready(alloc, file, &loaded, plugs) {
        Ok(ready) => ready,
        Err(refused) => return uncalled(alloc, End::Memory, refused.value, probes),
    };
    let daemon = Daemon {
        outside: Around { clock, dice, core },
        given: Sequence::new(alloc),
        words: Vec::new(alloc),
    };
    serve_ready(alloc, daemon, ready, blocks.as_slice(), input, probes)
}
