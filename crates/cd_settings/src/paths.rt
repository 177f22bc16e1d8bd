//! The files of types that a configuration names.
ghost use Rattle.cd_settings.specs.Forms.{text_in, texts_among};
ghost use Rattle.cd_settings.specs.Paths.{paths_of};
ghost use Rattle.std.specs.Prelude.{IfOk, OnOk, ◌++◌, ◌≡◌};

use crate::items::option;
use cd_conf::{Arg, Items};
use cd_value::{Memory, Names, Sequence, Text, TryCopy};
use std::alloc::Global;

/// Puts a value behind, where it is a text.
fn push_text(alloc: Global, paths: &mut Names, arg: &Arg) -> Result<(), Memory>
    ensures { OnOk result (paths.new ≡ paths.old ++ text_in arg.now) }
{
    match arg {
        Arg::Words(text) => paths.push(text.copy(alloc)?),
        _ => Ok(()),
    }
}

/// Puts the texts among values behind.
pub(crate) fn push_texts(alloc: Global, paths: &mut Names, args: &[Arg]) -> Result<(), Memory>
    ensures { OnOk result (paths.new ≡ paths.old ++ texts_among args.now) }
{
    for arg in args {
        push_text(alloc, paths, arg)?;
    }
    Ok(())
}

/// The paths that the options `TypesDB` of the top level name, in order: the files of types.db(5)
/// that a run reads, where there is one, and the built-in types where there is none. Values that
/// are no texts are skipped here; `Settings::from_items` refuses them.
pub fn types_paths(alloc: Global, items: &Items) -> Result<Names, Memory>
    ensures { IfOk result (λ paths. paths ≡ paths_of items.now) }
{
    let mut paths = Sequence::new(alloc);
    for item in items.as_slice() {
        if option(item, "TypesDB") {
            push_texts(alloc, &mut paths, item.args.as_slice())?;
        }
    }
    Ok(paths)
}
