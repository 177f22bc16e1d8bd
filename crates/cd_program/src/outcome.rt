//! What the program does over a world and a link.
ghost use Rattle.cd_command.specs.Command.{command};
ghost use Rattle.cd_command.specs.declared.command.Command.{Command};
ghost use Rattle.cd_io.specs.Causes.{Rose};
ghost use Rattle.cd_opening.specs.declared.fault.OpeningFault.{OpeningFault};
ghost use Rattle.cd_program.specs.Gathered.{PromisesGathered, PromisesLink, end_after};
ghost use Rattle.cd_program.specs.Program.{writer};
ghost use Rattle.cd_serve.specs.Ends.{message_of, status_of};
ghost use Rattle.cd_serve.specs.Promises.{IsTaken};
ghost use Rattle.cd_serve.specs.Shelf.{on_shelf, places};
ghost use Rattle.cd_serve.specs.Started.{AreAccepted, AreRefused, HasTried, IsFree, NoneFailed, end_at};
ghost use Rattle.std.specs.Io.KnownBytes.{Appends};
ghost use Rattle.std.specs.Prelude.{IfNone, IfOk, IfSome, None, OnOk, Some, [], codes, is_err, map, string_bytes, ◌∷◌, ◌≡◌, ◌⊎◌};

use cd_io::{Failed, Gathering, Link, World};
use cd_registry::{Kinds, Plug, TellsCalls};
use cd_serve::{End, Ran, RanOf, Shelved, run, status, text_of};
use cd_value::{Memory, Text};
use std::alloc::Global;
use std::io::{self, Write};
use std::marker::Send;

/// How the program ends: its exit status, and what it writes on standard error, which is none where memory was lacking
/// for it.
#[derive(Drop)]
pub struct Outcome {
    pub end: End,
    pub status: u8,
    pub message: Option<Text>,
}

impl Outcome {
    /// The outcome of an end.
    pub fn of(alloc: Global, end: End) -> Outcome
        ensures end { result.end ≡ end }
        ensures status { result.status ≡ status_of end }
        ensures message { IfSome result.message (λ text. text ≡ message_of end) }
    {
        let message = match text_of(alloc, &end) {
            Ok(text) => Some(text),
            Err(_) => None,
        };
        Outcome {
            status: status(&end),
            message,
            end,
        }
    }

    /// Writes the message, where there is one. The program hands in standard error.
    pub fn tell<W: Write>(&self, errors: &mut W) -> io::Result<()>
        ensures message { OnOk result (IfSome self.now.message
            (Appends (W.contents errors.old) (W.contents errors.new))) }
        ensures none { IfNone self.now.message
            (W.contents errors.new ≡ W.contents errors.old) }
    {
        match &self.message {
            Some(message) => errors.write_all(message.as_str().as_bytes()),
            None => Ok(()),
        }
    }
}

/// The end of a run after which the last replies were said, or couldn't be. A run that was refused has none.
fn end_after(end: End, finished: Result<(), Failed>) -> End
    ensures { result ≡ end_after (is_err finished) end }
{
    match (finished, end) {
        (Err(Failed), End::Done | End::InputTooLong | End::LinkFault | End::Memory) =>
            End::LinkFault,
        (_, end) => end,
    }
}

/// A shelf with one writer, `w`.
fn shelf_of(alloc: Global, object: Box<dyn Plug + Send>) -> Result<Vec<Shelved>, Memory>
    ensures shelf { IfOk result (λ plugs.
        on_shelf ⟦<Box<dyn Plug + Send> as TellsCalls>⟧.plug_tells plugs.items
        ≡ writer (⟦<Box<dyn Plug + Send> as TellsCalls>⟧.plug_tells object)) }
    ensures names { IfOk result (λ plugs.
        map (λ plug. plug.name) plugs.items ≡ codes "w" ∷ []) }
{
    let plug = Shelved {
        name: Text::of(alloc, "w")?,
        kinds: Kinds::WRITE,
        object,
    };
    let mut plugs = Vec::new(alloc);
    plugs.push(plug)?;
    Ok(plugs)
}

/// Runs the daemon by these words with one writer, `w`, called with value lists, over a link behind one that gathers
/// replies. The last replies are said at the end; where they can't be, the end is a fault of the link. The link comes
/// back, and the writer in its place, at any end. It answers no run where memory was lacking for the shelf; then
/// nothing was done.
pub fn run_gathered<W: World, L: Link>(
    alloc: Global,
    words: &[String],
    world: &mut W,
    link: L,
    object: Box<dyn Plug + Send>,
) -> (Option<Ran>, L)
    ensures promises { IfSome result.0 (λ ran. PromisesGathered
        (map string_bytes words.now) (W.world_tells world.old).files
        (writer (⟦<Box<dyn Plug + Send> as TellsCalls>⟧.plug_tells object))
        (on_shelf ⟦<Box<dyn Plug + Send> as TellsCalls>⟧.plug_tells ran.plugs.items)
        ran.given
        (record { clock = W.world_clock_pair world.old; dice = W.world_dice_pair world.old })
        (L.link_tells link) (L.link_tells result.1)
        ran.end) }
    ensures link { IfSome result.0 (λ ran. PromisesLink
        (map string_bytes words.now) (W.world_tells world.old).files
        (writer (⟦<Box<dyn Plug + Send> as TellsCalls>⟧.plug_tells object))
        (on_shelf ⟦<Box<dyn Plug + Send> as TellsCalls>⟧.plug_tells ran.plugs.items)
        ran.given
        (record { clock = W.world_clock_pair world.old; dice = W.world_dice_pair world.old })
        (L.link_tells link) (L.link_tells result.1)
        ran.end) }
    ensures tries { IfSome result.0 (λ ran.
        HasTried ran.end (W.world_tells world.old) (W.world_tells world.new)) }
    ensures usage { IfSome result.0 (λ ran. command (map string_bytes words.now) ≡ None
        → (ran.end ≡ End.Usage) ⊎ (ran.end ≡ End.Memory)) }
    ensures faults { IfSome result.0 (λ ran. (of : Command) → (fault : OpeningFault)
        → command (map string_bytes words.now) ≡ Some of
        → AreRefused of.file (W.world_tells world.old).files fault
        → NoneFailed (W.world_tells world.old) (W.world_tells world.new)
        → (Rose (L.link_tells link).faults (L.link_tells result.1).faults → ⊥)
        → (ran.end ≡ end_at fault)
        ⊎ IsFree of.file (W.world_tells world.old).files ran.end) }
    ensures complete { IfSome result.0 (λ ran. (of : Command)
        → command (map string_bytes words.now) ≡ Some of
        → AreAccepted of.file (W.world_tells world.old).files
        → NoneFailed (W.world_tells world.old) (W.world_tells world.new)
        → (Rose (L.link_tells link).faults (L.link_tells result.1).faults → ⊥)
        → IsTaken of.mode (L.link_tells link) (L.link_tells result.1)
        → (ran.end ≡ End.Done) ⊎ IsFree of.file (W.world_tells world.old).files ran.end) }
    ensures back { IfSome result.0 (λ ran.
        places (on_shelf ⟦<Box<dyn Plug + Send> as TellsCalls>⟧.plug_tells ran.plugs.items)
        ≡ places (writer (⟦<Box<dyn Plug + Send> as TellsCalls>⟧.plug_tells object))) }
    ensures probes { IfSome result.0 (λ ran. ran.probes.items ≡ []) }
    ensures none { IfNone result.0 (result.1 ≡ link) }
{
    let Ok(plugs) = shelf_of(alloc, object) else {
        return (None, link);
    };
    let mut gathering = Gathering::new(alloc, link);
    let ran = run(alloc, words, world, &mut gathering, plugs, Vec::new(alloc));
    let (link, finished) = gathering.finish();
    let RanOf {
        end,
        given,
        plugs,
        probes,
    } = ran;
    let ran = RanOf {
        end: end_after(end, finished),
        given,
        plugs,
        probes,
    };
    (Some(ran), link)
}
