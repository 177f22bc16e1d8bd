//! The targets of filter chains.
ghost use Rattle.cd_conf.specs.Parts.{args_of};
ghost use Rattle.cd_reading.specs.Gives.{Gives};
ghost use Rattle.cd_settings.specs.BigPatterns.{item_fault, option_line, replace_lines, target_lines};
ghost use Rattle.cd_settings.specs.Faults.{settings_fault};
ghost use Rattle.cd_settings.specs.Forms as forms;
ghost use Rattle.cd_settings.specs.Tables.{given};
ghost use Rattle.cd_settings.specs.TargetOptions.{bare, jump_of, jump_once, notice_of, replace_from, replace_of, set_from, set_of, target_of, with_replacing, with_set, write_of};
ghost use Rattle.std.specs.Prelude.{Ok, Some, is_some, option_copied, ◌≡◌};

use crate::fault::{ItemFault, SettingsFault, SettingsKind};
use crate::forms::{filled, severity, text, two_texts};
use crate::items::{add_text, at, childless, needed, needs, option, set, set_text, unknown};
use crate::matches::compiled;
use crate::section::Section;
use cd_conf::Item;
use cd_pattern::Field;
use cd_target::{Replaces, Replacing, Sets, Target};
use cd_value::{Names, Sequence, Severity, Text};
use std::alloc::Global;

/// What the options of a target "write" set.
#[derive(Drop)]
pub struct WriteOptions {
    /// The names of plug-ins.
    pub names: Names,
}

/// What the options of a target "jump" set.
#[derive(Drop)]
pub struct JumpOptions {
    /// The name of the chain, where it is given.
    pub chain: Option<Text>,
    /// Whether it is given more than once.
    pub repeated: bool,
}

/// What the options of a target "set" set.
#[derive(Drop)]
pub struct SetOptions {
    /// Fields with their new texts, in order.
    pub sets: Sets,
}

/// What the options of a target "replace" set.
#[derive(Drop)]
pub struct ReplaceOptions {
    /// Fields with what is replaced in them, in order.
    pub replaces: Replaces,
}

/// What the options of a target "notification" set.
#[derive(Drop)]
pub struct NoticeOptions {
    /// The message, empty where none is given.
    pub message: Text,
    /// The severity.
    pub severity: Severity,
}

impl Section for WriteOptions {
    ghost use Rattle.cd_settings.specs.Tables.{by_table};
    ghost use Rattle.cd_settings.specs.TargetOptions.{write_options};

    type Fault = SettingsFault;

    ghost change = { by_table write_options };

    fn take(&mut self, alloc: Global, item: &Item) -> Result<(), SettingsFault> {
        by_table! { item, unknown(item);
            option "Plugin" => add_text(alloc, &mut self.names, text(item), item),
        }
    }
}

/// A target "write".
fn write_of(alloc: Global, item: &Item) -> Result<Target, SettingsFault>
    ensures { Gives (λ target. target) settings_fault result (write_of item.now) }
{
    let mut options = WriteOptions {
        names: Names::new(alloc),
    };
    options.take_all(alloc, item.children.as_slice())?;
    Ok(Target::Write(options.names))
}

impl JumpOptions {
    /// Takes the name of the chain.
    fn jump(&mut self, alloc: Global, name: Option<&str>, item: &Item) -> Result<(), SettingsFault>
        ensures { let changed = given item.now (option_copied name.entry)
            (λ x _. Ok (record { chain = Some x; repeated = is_some self.old.chain })) in
            Gives (λ _. self.new) settings_fault result changed }
    {
        let name = Text::of(alloc, needed(name, item)?)?;
        self.repeated = self.chain.is_some();
        self.chain = Some(name);
        Ok(())
    }

    /// The target, which needs one chain.
    fn finish(self, item: &Item) -> Result<Target, SettingsFault>
        ensures { result ≡ jump_once self.chain self.repeated item.now }
    {
        match self.chain {
            Some(chain) if !self.repeated => Ok(Target::Jump(chain)),
            _ => Err(at(SettingsKind::WrongArgs, item)),
        }
    }
}

impl Section for JumpOptions {
    ghost use Rattle.cd_settings.specs.Tables.{by_table};
    ghost use Rattle.cd_settings.specs.TargetOptions.{jump_options};

    type Fault = SettingsFault;

    ghost change = { by_table jump_options };

    fn take(&mut self, alloc: Global, item: &Item) -> Result<(), SettingsFault> {
        by_table! { item, unknown(item);
            option "Chain" => self.jump(alloc, text(item), item),
        }
    }
}

/// A target "jump".
fn jump_of(alloc: Global, item: &Item) -> Result<Target, SettingsFault>
    ensures { Gives (λ target. target) settings_fault result (jump_of item.now) }
{
    let mut options = JumpOptions {
        chain: None,
        repeated: false,
    };
    options.take_all(alloc, item.children.as_slice())?;
    options.finish(item)
}

impl SetOptions {
    /// Puts the new text of a field behind the others.
    fn add(
        &mut self,
        alloc: Global,
        field: Field,
        value: Option<&str>,
        item: &Item,
    ) -> Result<(), SettingsFault>
        ensures { let changed = given item.now (option_copied value.entry)
            (λ x _. Ok (with_set field self.old x)) in
            Gives (λ _. self.new) settings_fault result changed }
    {
        let value = Text::of(alloc, needed(value, item)?)?;
        self.sets.push((field, value))?;
        Ok(())
    }

    /// The target, which needs an option.
    fn finish(self, item: &Item) -> Result<Target, SettingsFault>
        ensures { result ≡ set_from self item.now }
    {
        let enough = !self.sets.is_empty();
        needs(enough, item, Target::Set(self.sets))
    }
}

impl Section for SetOptions {
    ghost use Rattle.cd_settings.specs.Tables.{by_table};
    ghost use Rattle.cd_settings.specs.TargetOptions.{set_options};

    type Fault = SettingsFault;

    ghost change = { by_table set_options };

    fn take(&mut self, alloc: Global, item: &Item) -> Result<(), SettingsFault> {
        by_table! { item, unknown(item);
            option "Host" => self.add(alloc, Field::Host, filled(item), item),
            option "Plugin" => self.add(alloc, Field::Plugin, filled(item), item),
            option "PluginInstance" => self.add(alloc, Field::PluginInstance, text(item), item),
            option "TypeInstance" => self.add(alloc, Field::TypeInstance, text(item), item),
        }
    }
}

/// A target "set".
fn set_of(alloc: Global, item: &Item) -> Result<Target, SettingsFault>
    ensures { Gives (λ target. target) settings_fault result (set_of item.now) }
{
    let mut options = SetOptions {
        sets: Sequence::new(alloc),
    };
    options.take_all(alloc, item.children.as_slice())?;
    options.finish(item)
}

impl ReplaceOptions {
    /// Puts what is replaced in a field behind the others.
    fn add(&mut self, alloc: Global, field: Field, item: &Item) -> Result<(), ItemFault>
        ensures { let changed = given item.now (forms.two_texts (args_of item.now))
            (with_replacing field self.old) in
            Gives (λ _. self.new) (item_fault (option_line item.now changed)) result changed }
    {
        let (pattern, with) = needed(two_texts(item), item)?;
        let pattern = compiled(alloc, pattern, item)?;
        let with = Text::of(alloc, with)?;
        self.replaces.push(Replacing {
            field,
            pattern,
            with,
        })?;
        Ok(())
    }

    /// The target, which needs an option.
    fn finish(self, item: &Item) -> Result<Target, SettingsFault>
        ensures { result ≡ replace_from self item.now }
    {
        let enough = !self.replaces.is_empty();
        needs(enough, item, Target::Replace(self.replaces))
    }
}

impl Section for ReplaceOptions {
    ghost use Rattle.cd_settings.specs.BigPatterns.{option_lines};
    ghost use Rattle.cd_settings.specs.Tables.{by_table};
    ghost use Rattle.cd_settings.specs.TargetOptions.{replace_options};

    type Fault = ItemFault;

    ghost change = { by_table replace_options };

    ghost lines = { option_lines replace_options };

    fn take(&mut self, alloc: Global, item: &Item) -> Result<(), ItemFault> {
        by_table! { item, Ok(unknown(item)?);
            option "Host" => self.add(alloc, Field::Host, item),
            option "Plugin" => self.add(alloc, Field::Plugin, item),
            option "PluginInstance" => self.add(alloc, Field::PluginInstance, item),
            option "TypeInstance" => self.add(alloc, Field::TypeInstance, item),
        }
    }
}

/// A target "replace".
fn replace_of(alloc: Global, item: &Item) -> Result<Target, ItemFault>
    ensures { let read = replace_of item.now in
        Gives (λ target. target) (item_fault (replace_lines item.now)) result read }
{
    let mut options = ReplaceOptions {
        replaces: Sequence::new(alloc),
    };
    options.take_all(alloc, item.children.as_slice())?;
    Ok(options.finish(item)?)
}

impl Section for NoticeOptions {
    ghost use Rattle.cd_settings.specs.Tables.{by_table};
    ghost use Rattle.cd_settings.specs.TargetOptions.{notice_options};

    type Fault = SettingsFault;

    ghost change = { by_table notice_options };

    fn take(&mut self, alloc: Global, item: &Item) -> Result<(), SettingsFault> {
        by_table! { item, unknown(item);
            option "Message" => set_text(alloc, &mut self.message, filled(item), item),
            option "Severity" => set(&mut self.severity, severity(item), item),
        }
    }
}

/// A target "notification", which needs a message.
fn notice_of(alloc: Global, item: &Item) -> Result<Target, SettingsFault>
    ensures { Gives (λ target. target) settings_fault result (notice_of item.now) }
{
    let mut options = NoticeOptions {
        message: Text::new(alloc),
        severity: Severity::Warning,
    };
    options.take_all(alloc, item.children.as_slice())?;
    let NoticeOptions { message, severity } = options;
    let enough = !message.is_empty();
    needs(enough, item, Target::Notification { message, severity })
}

/// A target in which nothing stands.
fn bare(target: Target, item: &Item) -> Result<Target, SettingsFault>
    ensures { result ≡ bare target item.now }
{
    childless(item)?;
    Ok(target)
}

/// A target of a kind.
pub fn target_of(alloc: Global, kind: &str, item: &Item) -> Result<Target, ItemFault>
    ensures { let read = target_of kind.now item.now in
        let free = target_lines kind.now item.now in
        Gives (λ target. target) (item_fault free) result read }
{
    if kind == "return" {
        Ok(bare(Target::Return, item)?)
    } else if kind == "stop" {
        Ok(bare(Target::Stop, item)?)
    } else if kind == "write" {
        Ok(write_of(alloc, item)?)
    } else if kind == "jump" {
        Ok(jump_of(alloc, item)?)
    } else if kind == "set" {
        Ok(set_of(alloc, item)?)
    } else if kind == "replace" {
        replace_of(alloc, item)
    } else if kind == "notification" {
        Ok(notice_of(alloc, item)?)
    } else {
        Err(ItemFault::Fault(at(SettingsKind::UnknownOption, item)))
    }
}
