//! The types files that a configuration names.
ghost use Rattle.cd_opening.specs.Causes.{Tries};
ghost use Rattle.cd_opening.specs.Types.{ReadsTypes, put};
ghost use Rattle.cd_types.specs.Types.{builtin};
ghost use Rattle.std.specs.Prelude.{IfOk, unwrap_or, ◌≡◌};

use crate::fault::OpeningFault;
use crate::file::read_sets;
use cd_io::World;
use cd_types::TypesDb;
use cd_value::{Memory, Text};
use std::alloc::Global;

/// Types with those of one file more.
fn put(alloc: Global, types: Option<TypesDb>, later: TypesDb) -> Result<Option<TypesDb>, Memory>
    ensures { IfOk result (λ both. both ≡ put types later) }
{
    match types {
        None => Ok(Some(later)),
        Some(mut types) => match types.merge(alloc, later) {
            Ok(()) => Ok(Some(types)),
            Err(refused) => Err(refused.why),
        },
    }
}

/// The types of files, or the built-in ones where there was none.
fn or_builtin(alloc: Global, types: Option<TypesDb>) -> Result<TypesDb, Memory>
    ensures { IfOk result (λ known. known ≡ unwrap_or types builtin) }
{
    match types {
        Some(types) => Ok(types),
        None => TypesDb::builtin(alloc),
    }
}

/// Reads the types files at paths in order, as types.db(5) has them. Of repeated types the later stands; where there is
/// no file the types are the built-in ones.
pub(crate) fn read_types<W: World>(
    alloc: Global,
    world: &mut W,
    paths: &[Text],
) -> Result<TypesDb, OpeningFault>
    ensures reads { ReadsTypes paths.now (W.world_tells world.old).files
        (W.world_tells world.new).files result }
    ensures tries { Tries result (W.world_tells world.old) (W.world_tells world.new) }
    ensures clock { W.world_clock_pair world.new ≡ W.world_clock_pair world.old }
    ensures dice { W.world_dice_pair world.new ≡ W.world_dice_pair world.old }
{
    let mut types = None;
    for path in paths {
        let later = read_sets(alloc, world, path.as_str())?;
        types = put(alloc, types, later)?;
    }
    Ok(or_builtin(alloc, types)?)
}
