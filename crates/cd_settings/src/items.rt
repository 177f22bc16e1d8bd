//! Which option or section an item is, and what its values set.
ghost use Rattle.cd_conf.specs.Parts.{children_of};
ghost use Rattle.cd_reading.specs.Gives.{Gives};
ghost use Rattle.cd_settings.specs.Faults.{at, settings_fault};
ghost use Rattle.cd_settings.specs.PluginOptions.{childless};
ghost use Rattle.cd_settings.specs.Tables.{has_key, is_option_named, is_section_named, given, need, need_only, needs};
ghost use Rattle.cd_settings.specs.declared.fault.SettingsKind.TheVariants.{UnknownOption};
ghost use Rattle.std.specs.Prelude.{Err, Ok, [], option_copied, ◌++◌, ◌∷◌, ◌≡◌};

use crate::fault::{SettingsFault, SettingsKind};
use cd_conf::Item;
use cd_value::{Names, Text};
use std::alloc::Global;

/// A fault at the line of an item.
pub fn at(kind: SettingsKind, item: &Item) -> SettingsFault
    ensures { result ≡ at kind item.now }
{
    SettingsFault {
        kind,
        line: item.line,
    }
}

/// Whether the key of an item is this one, without case.
pub fn either(item: &Item, name: &str) -> bool
    ensures { result ≡ has_key name.now item.now }
{
    item.key.as_str().eq_ignore_ascii_case(name)
}

/// Whether an item is the option of a name.
pub fn option(item: &Item, name: &str) -> bool
    ensures { result ≡ is_option_named name.now item.now }
{
    !item.section && either(item, name)
}

/// Whether an item is a section of a name.
pub fn section(item: &Item, name: &str) -> bool
    ensures { result ≡ is_section_named name.now item.now }
{
    item.section && either(item, name)
}

/// What the values of an item were read as.
pub fn needed<T: Drop>(value: Option<T>, item: &Item) -> Result<T, SettingsFault>
    ensures { result ≡ need item.now value }
{
    value.ok_or(at(SettingsKind::WrongArgs, item))
}

/// Sets what the values of an item were read as.
pub fn set<T: Drop>(place: &mut T, value: Option<T>, item: &Item) -> Result<(), SettingsFault>
    ensures { Gives (λ _. place.new) settings_fault result (need item.now value) }
{
    match value {
        Some(value) => {
            *place = value;
            Ok(())
        }
        None => Err(at(SettingsKind::WrongArgs, item)),
    }
}

/// Sets the text that the values of an item were read as.
pub fn set_text(
    alloc: Global,
    place: &mut Text,
    value: Option<&str>,
    item: &Item,
) -> Result<(), SettingsFault>
    ensures { let text = need item.now (option_copied value.entry) in
        Gives (λ _. place.new) settings_fault result text }
{
    match value {
        Some(value) => {
            *place = Text::of(alloc, value)?;
            Ok(())
        }
        None => Err(at(SettingsKind::WrongArgs, item)),
    }
}

/// What a section gives, where its options are enough.
pub fn needs<T: Drop>(enough: bool, item: &Item, value: T) -> Result<T, SettingsFault>
    ensures { result ≡ needs enough item.now value }
{
    if enough {
        Ok(value)
    } else {
        Err(at(SettingsKind::WrongArgs, item))
    }
}

/// Puts the text that the values of an item were read as behind others.
pub fn add_text(
    alloc: Global,
    names: &mut Names,
    value: Option<&str>,
    item: &Item,
) -> Result<(), SettingsFault>
    ensures { let changed = given item.now (option_copied value.entry)
        (λ x _. Ok (names.old ++ x ∷ [])) in
        Gives (λ _. names.new) settings_fault result changed }
{
    let name = needed(value, item)?;
    names.push(Text::of(alloc, name)?)?;
    Ok(())
}

/// Refuses an item in which another stands, at the line of that one.
pub fn childless(item: &Item) -> Result<(), SettingsFault>
    ensures { result ≡ childless (children_of item.now) }
{
    match item.children.as_slice().first() {
        Some(child) => unknown(child),
        None => Ok(()),
    }
}

/// Sets nothing, where the values of an item were read.
pub fn ignore<T: Drop>(value: Option<T>, item: &Item) -> Result<(), SettingsFault>
    ensures { Gives (λ _. tt) settings_fault result (need_only item.now value) }
{
    match value {
        Some(_) => Ok(()),
        None => Err(at(SettingsKind::WrongArgs, item)),
    }
}

/// The fault of an item that may not stand in its place.
pub fn unknown(item: &Item) -> Result<(), SettingsFault>
    ensures { result ≡ Err (at UnknownOption item.now) }
{
    Err(at(SettingsKind::UnknownOption, item))
}
