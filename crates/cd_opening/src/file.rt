//! One file: opened, read, and taken back.
ghost use Rattle.cd_io.specs.World.{WorldTells};
ghost use Rattle.cd_opening.specs.Causes.{Tries};
ghost use Rattle.cd_opening.specs.File.{Begins, Leaves, ReadsItems, ReadsSets};
ghost use Rattle.std.specs.Prelude.{IfOk, ◌≡◌};

use crate::fault::{OpeningFault, of_conf, of_types};
use cd_conf::Items;
use cd_io::{OutFault, World};
use cd_types::TypesDb;
use cd_value::Text;
use std::alloc::Global;

/// Opens the file at a path.
fn source_at<W: World>(world: &mut W, path: Text) -> Result<(Text, W::Src), OpeningFault>
    ensures begins { Begins W.Src.source_tells path result (W.world_tells world.old).files }
    ensures files { Leaves path (W.world_tells world.old).files
        (W.world_tells world.new).files result }
    ensures tries { Tries result (W.world_tells world.old) (W.world_tells world.new) }
    ensures clock { W.world_clock_pair world.new ≡ W.world_clock_pair world.old }
    ensures dice { W.world_dice_pair world.new ≡ W.world_dice_pair world.old }
{
    match world.file(path.as_str()) {
        Ok(source) => Ok((path, source)),
        Err(OutFault::Failed) => Err(OpeningFault::Open(path)),
        Err(OutFault::Memory) => Err(OpeningFault::Memory),
    }
}

/// Reads the configuration file at a path.
pub(crate) fn read_items<W: World>(
    alloc: Global,
    world: &mut W,
    path: &str,
) -> Result<Items, OpeningFault>
    ensures reads { ReadsItems path.now (W.world_tells world.old).files result }
    ensures files { Leaves path.now (W.world_tells world.old).files
        (W.world_tells world.new).files result }
    ensures tries { Tries result (W.world_tells world.old) (W.world_tells world.new) }
    ensures clock { W.world_clock_pair world.new ≡ W.world_clock_pair world.old }
    ensures dice { W.world_dice_pair world.new ≡ W.world_dice_pair world.old }
{
    let path = Text::of(alloc, path)?;
    let (path, mut conf_file) = source_at(world, path)?;
    let read = cd_conf::read(alloc, &mut conf_file);
    world.shut(conf_file);
    match read {
        Ok(items) => Ok(items),
        Err(fault) => Err(of_conf(path, fault)),
    }
}

/// Reads the types file at a path.
pub(crate) fn read_sets<W: World>(
    alloc: Global,
    world: &mut W,
    path: &str,
) -> Result<TypesDb, OpeningFault>
    ensures reads { ReadsSets path.now (W.world_tells world.old).files result }
    ensures files { Leaves path.now (W.world_tells world.old).files
        (W.world_tells world.new).files result }
    ensures tries { Tries result (W.world_tells world.old) (W.world_tells world.new) }
    ensures clock { W.world_clock_pair world.new ≡ W.world_clock_pair world.old }
    ensures dice { W.world_dice_pair world.new ≡ W.world_dice_pair world.old }
{
    let path = Text::of(alloc, path)?;
    let (path, mut types_file) = source_at(world, path)?;
    let read = TypesDb::read(alloc, &mut types_file);
    world.shut(types_file);
    match read {
        Ok(types) => Ok(types),
        Err(fault) => Err(of_types(path, fault)),
    }
}
