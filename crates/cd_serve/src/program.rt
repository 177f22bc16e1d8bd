//! A run of the daemon on one thread, by the words of the command line.
ghost use Rattle.cd_command.specs.Command.{command};
ghost use Rattle.cd_command.specs.declared.command.Command.{Command};
ghost use Rattle.cd_io.specs.Causes.{Rose};
ghost use Rattle.cd_opening.specs.declared.fault.OpeningFault.{OpeningFault};
ghost use Rattle.cd_serve.specs.Promises.{IsTaken, Promises};
ghost use Rattle.cd_serve.specs.Shelf.{CanBeLoaded, names_on, on_shelf, places};
ghost use Rattle.cd_serve.specs.Started.{AreAccepted, AreRefused, HasTried, IsFree, NoneFailed, end_at};
ghost use Rattle.std.specs.Prelude.{None, Some, [], map, string_bytes, ◌≡◌, ◌⊎◌};

use crate::configured::say_items;
use crate::lines::{Handed, serve_lines};
use crate::started::start;
use crate::{End, Shelved, ShelvedOf, ShelvedProbe, ShelvedProbeOf};
use cd_cache::HashKey;
use cd_command::Mode;
use cd_history::Givens;
use cd_io::{Dice, Link, World};
use cd_registry::{Plug, Probe, TellsCalls};
use cd_value::Sequence;
use std::alloc::Global;
use std::marker::Send;

/// The most bytes of its input that a run takes.
pub const INPUT_LIMIT: usize = 67_108_864;

/// What a run gives back: how it ended, what the clock, the dice and the plug-ins gave, in order, and the objects, each
/// in its place.
#[derive(Drop)]
pub struct RanOf<P, Q> {
    pub end: End,
    pub given: Givens,
    pub plugs: Vec<ShelvedOf<P>>,
    pub probes: Vec<ShelvedProbeOf<Q>>,
}

/// What a run with boxed objects gives back.
pub type Ran = RanOf<Box<dyn Plug + Send>, Box<dyn Probe + Send>>;

/// What a run gives back in which no plug-in was called.
pub(crate) fn uncalled<P: Drop, Q: Drop>(
    alloc: Global,
    end: End,
    plugs: Vec<ShelvedOf<P>>,
    probes: Vec<ShelvedProbeOf<Q>>,
) -> RanOf<P, Q>
    ensures end { result.end ≡ end }
    ensures given { result.given ≡ [] }
    ensures plugs { result.plugs.items ≡ plugs.items }
    ensures probes { result.probes.items ≡ probes.items }
{
    RanOf {
        end,
        given: Sequence::new(alloc),
        plugs,
        probes,
    }
}

/// The key of the cache's hashes, drawn from dice of its own: what the daemon's dice give stays as it is.
fn drawn<D: Dice>(dice: &mut D) -> HashKey {
    HashKey::new(dice.word(), dice.word())
}

/// Runs the daemon on one thread, over plug-ins and readers of any type, as `run` does.
pub fn run_of<W: World, L: Link, P: Plug, Q: Probe>(
    alloc: Global,
    words: &[String],
    world: &mut W,
    input: &mut L,
    shelf: Vec<ShelvedOf<P>>,
    probes: Vec<ShelvedProbeOf<Q>>,
) -> RanOf<P, Q>
    requires loadable { CanBeLoaded (names_on shelf.items probes.items) }
    ensures promises { Promises
        (map string_bytes words.now) (W.world_tells world.old).files
        (on_shelf P.plug_tells shelf.items) (on_shelf P.plug_tells result.plugs.items)
        result.given
        (record { clock = W.world_clock_pair world.old; dice = W.world_dice_pair world.old })
        (L.link_tells input.old) (L.link_tells input.new)
        result.end }
    ensures tries { HasTried result.end (W.world_tells world.old) (W.world_tells world.new) }
    ensures usage { command (map string_bytes words.now) ≡ None
        → (result.end ≡ End.Usage) ⊎ (result.end ≡ End.Memory) }
    ensures unheard { command (map string_bytes words.now) ≡ None → input.new ≡ input.old }
    ensures faults { (of : Command) → (fault : OpeningFault)
        → command (map string_bytes words.now) ≡ Some of
        → AreRefused of.file (W.world_tells world.old).files fault
        → NoneFailed (W.world_tells world.old) (W.world_tells world.new)
        → (result.end ≡ end_at fault)
        ⊎ IsFree of.file (W.world_tells world.old).files result.end }
    ensures complete { (of : Command)
        → command (map string_bytes words.now) ≡ Some of
        → AreAccepted of.file (W.world_tells world.old).files
        → NoneFailed (W.world_tells world.old) (W.world_tells world.new)
        → (Rose (L.link_tells input.old).faults (L.link_tells input.new).faults → ⊥)
        → IsTaken of.mode (L.link_tells input.old) (L.link_tells input.new)
        → (result.end ≡ End.Done) ⊎ IsFree of.file (W.world_tells world.old).files result.end }
    ensures back { places (on_shelf P.plug_tells result.plugs.items)
        ≡ places (on_shelf P.plug_tells shelf.items) }
    ensures probes { result.probes.items ≡ probes.items }
{
    let (command, found) = match start(alloc, words, world) {
        Ok(started) => started,
        Err(end) => return uncalled(alloc, end, shelf, probes),
    };
    match command.mode {
        Mode::Test => {
            let end = say_items(alloc, &found.items, input);
            uncalled(alloc, end, shelf, probes)
        }
        Mode::Lines => {
            let handed = Handed {
                clock: world.clock(),
                dice: world.dice(),
                key: drawn(&mut world.dice()),
                plugs: shelf,
                probes,
            };
            serve_lines(alloc, &command.file, found, input, handed)
        }
    }
}

/// Runs the daemon on one thread by the words of the command line, as collectd(1) has them, the program's name first.
///
/// The file of `-C` is read, then the types files that it names, and its settings are made; without a file the types
/// are the four built-in ones, and the settings those that no option names. With `-t` the canonical text of the
/// configuration is said, and nothing is heard. With `--lines` the lines of the input are those of
/// collectd-unixsock(5): the plug-ins of the shelf are registered under their names, those that the file loads in the
/// order in which it does, or all where none is named. Each line is answered, its lists pass the filter chains of the
/// file and the cache and are written, and a plug-in with CONFIGURE gets its block of the configuration first. At the
/// end of the input the daemon stops, works until nothing waits, and all objects come back, each in its place. A quiet
/// counts as the end of the input. The names on both shelves together have to differ, none may be one of the daemon's
/// own, and there may be `LIVE_LIMIT` of them: `check_shelves` says so. Readers are handed back unread.
///
/// It ends with the first of these in order: `Usage` at words that are no command; `ConfFault`, `TypesFault`,
/// `SettingsFault`, `OpenFault` and `ReadFault` by the files; `LinkFault` where hearing or saying failed;
/// `InputTooLong` where more than `INPUT_LIMIT` bytes came; and else with `Done`. `Memory` may come at any time, and a
/// `SettingsFault` for a regular expression that is too big when it is compiled.
pub fn run<W: World, L: Link>(
    alloc: Global,
    words: &[String],
    world: &mut W,
    input: &mut L,
    shelf: Vec<Shelved>,
    probes: Vec<ShelvedProbe>,
) -> Ran
    requires loadable { CanBeLoaded (names_on shelf.items probes.items) }
    ensures promises { Promises
        (map string_bytes words.now) (W.world_tells world.old).files
        (on_shelf ⟦<Box<dyn Plug + Send> as TellsCalls>⟧.plug_tells shelf.items)
        (on_shelf ⟦<Box<dyn Plug + Send> as TellsCalls>⟧.plug_tells result.plugs.items)
        result.given
        (record { clock = W.world_clock_pair world.old; dice = W.world_dice_pair world.old })
        (L.link_tells input.old) (L.link_tells input.new)
        result.end }
    ensures tries { HasTried result.end (W.world_tells world.old) (W.world_tells world.new) }
    ensures usage { command (map string_bytes words.now) ≡ None
        → (result.end ≡ End.Usage) ⊎ (result.end ≡ End.Memory) }
    ensures unheard { command (map string_bytes words.now) ≡ None → input.new ≡ input.old }
    ensures faults { (of : Command) → (fault : OpeningFault)
        → command (map string_bytes words.now) ≡ Some of
        → AreRefused of.file (W.world_tells world.old).files fault
        → NoneFailed (W.world_tells world.old) (W.world_tells world.new)
        → (result.end ≡ end_at fault)
        ⊎ IsFree of.file (W.world_tells world.old).files result.end }
    ensures complete { (of : Command)
        → command (map string_bytes words.now) ≡ Some of
        → AreAccepted of.file (W.world_tells world.old).files
        → NoneFailed (W.world_tells world.old) (W.world_tells world.new)
        → (Rose (L.link_tells input.old).faults (L.link_tells input.new).faults → ⊥)
        → IsTaken of.mode (L.link_tells input.old) (L.link_tells input.new)
        → (result.end ≡ End.Done) ⊎ IsFree of.file (W.world_tells world.old).files result.end }
    ensures back { places (on_shelf ⟦<Box<dyn Plug + Send> as TellsCalls>⟧.plug_tells result.plugs.items)
        ≡ places (on_shelf ⟦<Box<dyn Plug + Send> as TellsCalls>⟧.plug_tells shelf.items) }
    ensures probes { result.probes.items ≡ probes.items }
{
    run_of(alloc, words, world, input, shelf, probes)
}
