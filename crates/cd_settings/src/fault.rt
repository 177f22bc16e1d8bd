//! Why items make no settings.
ghost use Rattle.cd_settings.specs.BigPatterns.{as_settings_fault};
ghost use Rattle.cd_settings.specs.Words.{chain_words, joined};
ghost use Rattle.cd_settings.specs.declared.fault.SettingsKind.TheVariants as kinds;
ghost use Rattle.std.specs.Fmt.{WritesOnOk};
ghost use Rattle.std.specs.Prelude.{◌≡◌};

use cd_chain::ChainFault;
use cd_value::{Memory, Text, TryCopy};
use std::alloc::{AllocError, AllocFailed, Global};
use std::fmt;

/// Why items make no settings.
#[derive(Drop, PartialEq, Eq)]
pub enum SettingsKind {
    /// An option that doesn't stand in its place, a section for an option, or an option for a
    /// section.
    UnknownOption,
    /// Values of another number or form than the option takes, or out of its range.
    WrongArgs,
    /// A text that is no regular expression, or one that is nested too deep or too big when it is compiled.
    BadPattern,
    /// The fault of the table of chains, which is never want of memory.
    Chain(ChainFault),
    /// The lower limit of the write queue is above the upper one.
    LimitsCrossed,
    /// A Listen behind `LISTENS_LIMIT` others.
    TooMany,
    /// Memory was lacking.
    Memory,
}

/// The first fault of items.
#[derive(Drop, PartialEq, Eq)]
pub struct SettingsFault {
    /// What is wrong.
    pub kind: SettingsKind,
    /// The line of the item that is wrong, from 1; 0 for want of memory.
    pub line: u32,
}

/// Writes names with commas between.
fn write_names<W: fmt::Write>(f: &mut fmt::Formatter<W>, names: &[Text]) -> fmt::Result
    ensures { WritesOnOk W.write_str_gives f.old result (joined names.now) f.new }
{
    let [first, more @ ..] = names else {
        return Ok(());
    };
    f.write_str(first.as_str())?;
    for name in more {
        f.write_str(", ")?;
        f.write_str(name.as_str())?;
    }
    Ok(())
}

/// Writes what is said of the fault of a table of chains.
fn write_chain_words<W: fmt::Write>(f: &mut fmt::Formatter<W>, why: &ChainFault) -> fmt::Result
    ensures { WritesOnOk W.write_str_gives f.old result (chain_words why.now) f.new }
{
    match why {
        ChainFault::Duplicate(_) => f.write_str("duplicate chain"),
        ChainFault::EmptyRule(_, _) => f.write_str("empty rule"),
        ChainFault::UnknownChain(_, _) => f.write_str("unknown chain"),
        ChainFault::JumpCycle(walk) => {
            f.write_str("jump cycle ")?;
            write_names(f, walk.as_slice())
        }
        ChainFault::TooHeavy(_) => f.write_str("chain too heavy"),
        ChainFault::Memory => f.write_str("out of memory"),
    }
}

impl fmt::Display for SettingsKind {
    ghost use Rattle.cd_settings.specs.Words.{settings_words};
    ghost use Rattle.std.specs.Prelude.{Some};

    ghost output = { λ kind. Some (settings_words kind) };

    fn fmt<W: fmt::Write>(&self, f: &mut fmt::Formatter<W>) -> fmt::Result {
        match self {
            SettingsKind::UnknownOption => f.write_str("unknown option"),
            SettingsKind::WrongArgs => f.write_str("wrong arguments"),
            SettingsKind::BadPattern => f.write_str("bad pattern"),
            SettingsKind::Chain(why) => write_chain_words(f, why),
            SettingsKind::LimitsCrossed => f.write_str("limits crossed"),
            SettingsKind::TooMany => f.write_str("too many"),
            SettingsKind::Memory => f.write_str("out of memory"),
        }
    }
}

impl TryCopy for SettingsKind {
    fn copy(&self, alloc: Global) -> Result<SettingsKind, Memory> {
        match self {
            SettingsKind::UnknownOption => Ok(SettingsKind::UnknownOption),
            SettingsKind::WrongArgs => Ok(SettingsKind::WrongArgs),
            SettingsKind::BadPattern => Ok(SettingsKind::BadPattern),
            SettingsKind::Chain(why) => Ok(SettingsKind::Chain(why.copy(alloc)?)),
            SettingsKind::LimitsCrossed => Ok(SettingsKind::LimitsCrossed),
            SettingsKind::TooMany => Ok(SettingsKind::TooMany),
            SettingsKind::Memory => Ok(SettingsKind::Memory),
        }
    }
}

impl TryCopy for SettingsFault {
    fn copy(&self, alloc: Global) -> Result<SettingsFault, Memory> {
        let kind = self.kind.copy(alloc)?;
        Ok(SettingsFault {
            kind,
            line: self.line,
        })
    }
}

impl From<AllocError> for SettingsFault {
    ghost from_gives = { λ _ e. e ≡ record { kind = kinds.Memory; line = 0 } };

    fn from(_: AllocError) -> Self {
        SettingsFault {
            kind: SettingsKind::Memory,
            line: 0,
        }
    }
}

impl<T: Drop> From<AllocFailed<T>> for SettingsFault {
    ghost from_gives = { λ _ e. e ≡ record { kind = kinds.Memory; line = 0 } };

    fn from(_: AllocFailed<T>) -> Self {
        SettingsFault {
            kind: SettingsKind::Memory,
            line: 0,
        }
    }
}

impl From<Memory> for SettingsFault {
    ghost from_gives = { λ _ e. e ≡ record { kind = kinds.Memory; line = 0 } };

    fn from(_: Memory) -> Self {
        SettingsFault {
            kind: SettingsKind::Memory,
            line: 0,
        }
    }
}

/// The fault of an item of a chain, as the sections tell it one to another.
#[derive(Drop)]
pub enum ItemFault {
    /// A fault that the item's text tells, or want of memory.
    Fault(SettingsFault),
    /// The pattern of the option at this line wasn't compiled: it is none, or too big.
    NotCompiled(u32),
}

impl From<SettingsFault> for ItemFault {
    ghost use Rattle.cd_settings.specs.declared.fault.ItemFault.TheVariants as faults;

    ghost from_gives = { λ fault e. e ≡ faults.Fault fault };

    fn from(fault: SettingsFault) -> Self {
        ItemFault::Fault(fault)
    }
}

impl From<Memory> for ItemFault {
    ghost use Rattle.cd_settings.specs.declared.fault.ItemFault.TheVariants as faults;

    ghost from_gives = { λ _ e. e ≡ faults.Fault (record { kind = kinds.Memory; line = 0 }) };

    fn from(_: Memory) -> Self {
        ItemFault::Fault(SettingsFault {
            kind: SettingsKind::Memory,
            line: 0,
        })
    }
}

/// The fault of items: a pattern that wasn't compiled is a bad one.
pub fn as_settings_fault(fault: ItemFault) -> SettingsFault
    ensures { result ≡ as_settings_fault fault }
{
    match fault {
        ItemFault::Fault(fault) => fault,
        ItemFault::NotCompiled(line) => SettingsFault {
            kind: SettingsKind::BadPattern,
            line,
        },
    }
}
