//! What is in force when a run starts: its command, and what the files of the command come to.
ghost use Rattle.cd_command.specs.Command.{command};
ghost use Rattle.cd_opening.specs.Causes.{Tries};
ghost use Rattle.cd_serve.specs.Started.{FilesComeTo, HasTried, IsRefusedAt};
ghost use Rattle.std.specs.Prelude.{IfErr, IfOk, Ok, OnOk, Some, map, string_bytes, ◌≡◌};

use crate::End;
use crate::end::end_at;
use cd_command::{Command, CommandFault, read_command};
use cd_io::World;
use cd_opening::{Opened, OpeningFault, open_configuration, open_defaults};
use cd_value::Text;
use std::alloc::Global;

/// What the file of a command comes to, with the types files that it names, as collectd.conf(5) and types.db(5) have
/// them; without a file, what is in force without a configuration.
fn open_files<W: World>(
    alloc: Global,
    world: &mut W,
    file: &Option<Text>,
) -> Result<Opened, OpeningFault>
    ensures comes { FilesComeTo file.now (W.world_tells world.old).files result }
    ensures tries { Tries result (W.world_tells world.old) (W.world_tells world.new) }
    ensures clock { W.world_clock_pair world.new ≡ W.world_clock_pair world.old }
    ensures dice { W.world_dice_pair world.new ≡ W.world_dice_pair world.old }
{
    match file {
        Some(path) => open_configuration(alloc, world, path.as_str()),
        None => Ok(open_defaults(alloc)?),
    }
}

/// The command that the words are, with what its files come to; or the end of a run that isn't begun.
pub(crate) fn start<W: World>(
    alloc: Global,
    words: &[String],
    world: &mut W,
) -> Result<(Command, Opened), End>
    ensures command { IfOk result (λ r. command (map string_bytes words.now) ≡ Some r.0) }
    ensures comes { IfOk result (λ r.
        FilesComeTo r.0.file (W.world_tells world.old).files (Ok r.1)) }
    ensures tried { OnOk result
        (HasTried End.Done (W.world_tells world.old) (W.world_tells world.new)) }
    ensures refused { IfErr result (λ end. IsRefusedAt (map string_bytes words.now)
        (W.world_tells world.old).files end) }
    ensures failed { IfErr result (λ end.
        HasTried end (W.world_tells world.old) (W.world_tells world.new)) }
    ensures clock { W.world_clock_pair world.new ≡ W.world_clock_pair world.old }
    ensures dice { W.world_dice_pair world.new ≡ W.world_dice_pair world.old }
{
    match read_command(alloc, words) {
        Ok(command) => match open_files(alloc, world, &command.file) {
            Ok(found) => Ok((command, found)),
            Err(fault) => Err(end_at(fault)),
        },
        Err(CommandFault::Usage) => Err(End::Usage),
        Err(CommandFault::Memory) => Err(End::Memory),
    }
}
