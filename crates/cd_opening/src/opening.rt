//! A configuration with all that it names.
ghost use Rattle.cd_io.specs.World.{WorldTells};
ghost use Rattle.cd_opening.specs.Causes.{Tries};
ghost use Rattle.cd_opening.specs.Opened.{ComesTo, IsDefault, Leaves};
ghost use Rattle.std.specs.Prelude.{IfOk, ◌≡◌};

use crate::fault::{OpeningFault, of_settings};
use crate::file::read_items;
use crate::types::read_types;
use cd_conf::Items;
use cd_io::World;
use cd_settings::{Settings, types_paths};
use cd_types::TypesDb;
use cd_value::Memory;
use std::alloc::Global;

/// What is in force when the daemon starts.
#[derive(Drop)]
pub struct Opened {
    /// The items of the configuration file.
    pub items: Items,
    /// The types: those of the files that the options `TypesDB` name, or the built-in ones where
    /// none is named.
    pub types: TypesDb,
    /// What the items set.
    pub settings: Settings,
}

/// Reads the configuration file at a path, as collectd.conf(5) has it, then the types files that it names in order, and
/// makes the settings. The answer is all of that, or the first fault in this order: of the configuration's text, of
/// each types file's text, of the settings. A bad pattern of the settings may also come at the line of an option whose
/// text is a pattern, where all items before it are in order, since it may be too big when it is compiled. `Open` and
/// `Read` come exactly where a call on the world or on a file failed; the file is then the configuration file, or a
/// types file, and those before it are good. No file behind one that has a fault is opened.
pub fn open_configuration<W: World>(
    alloc: Global,
    world: &mut W,
    path: &str,
) -> Result<Opened, OpeningFault>
    ensures comes { ComesTo path.now (W.world_tells world.old).files result }
    ensures tries { Tries result (W.world_tells world.old) (W.world_tells world.new) }
    ensures files { Leaves path.now (W.world_tells world.old).files
        (W.world_tells world.new).files result }
    ensures clock { W.world_clock_pair world.new ≡ W.world_clock_pair world.old }
    ensures dice { W.world_dice_pair world.new ≡ W.world_dice_pair world.old }
{
    let items = read_items(alloc, world, path)?;
    let paths = types_paths(alloc, &items)?;
    let types = read_types(alloc, world, paths.as_slice())?;
    match Settings::from_items(alloc, &items, &types) {
        Ok(settings) => Ok(Opened {
            items,
            types,
            settings,
        }),
        Err(fault) => Err(of_settings(fault)),
    }
}

/// What is in force without a configuration: no item, the built-in types, and the settings of collectd.conf(5) where no
/// option is there.
pub fn open_defaults(alloc: Global) -> Result<Opened, Memory>
    ensures { IfOk result IsDefault }
{
    let items = Items::new(alloc);
    let types = TypesDb::builtin(alloc)?;
    match Settings::from_items(alloc, &items, &types) {
        Ok(settings) => Ok(Opened {
            items,
            types,
            settings,
        }),
        Err(_) => Err(Memory),
    }
}
