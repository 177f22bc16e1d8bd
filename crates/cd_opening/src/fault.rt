//! Why the files give no settings.
ghost use Rattle.cd_opening.specs.Faults.{of_conf, of_settings, of_types};
ghost use Rattle.std.specs.Prelude.{◌≡◌};

use cd_conf::{ConfFault, ConfKind};
use cd_settings::{SettingsFault, SettingsKind};
use cd_types::{TypesFault, TypesKind};
use cd_value::{Memory, Text};

/// Why the files give no settings.
#[derive(Drop)]
pub enum OpeningFault {
    /// The text of the configuration file has this first fault.
    Conf(ConfFault),
    /// The text of the types file at a path has this first fault.
    Types {
        /// The path, as the configuration names it.
        path: Text,
        /// The fault.
        fault: TypesFault,
    },
    /// The items of the configuration have this first fault, or a pattern at its line that may be too big.
    Settings(SettingsFault),
    /// The file at a path couldn't be opened: the world's count of faults rose.
    Open(Text),
    /// The file at a path couldn't be read: the world's count of reading faults rose.
    Read(Text),
    /// Memory was lacking.
    Memory,
}

impl From<Memory> for OpeningFault {
    ghost use Rattle.cd_opening.specs.declared.fault.OpeningFault.TheVariants as faults;

    ghost from_gives = { λ _ e. e ≡ faults.Memory };

    fn from(_: Memory) -> Self {
        OpeningFault::Memory
    }
}

/// What the fault of a configuration is here, which was read at a path.
pub(crate) fn of_conf(path: Text, fault: ConfFault) -> OpeningFault
    ensures { result ≡ of_conf path fault }
{
    match fault.kind {
        ConfKind::ReadFault => OpeningFault::Read(path),
        ConfKind::Memory => OpeningFault::Memory,
        _ => OpeningFault::Conf(fault),
    }
}

/// What the fault of a types file is here, which was read at a path.
pub(crate) fn of_types(path: Text, fault: TypesFault) -> OpeningFault
    ensures { result ≡ of_types path fault }
{
    match fault.kind {
        TypesKind::ReadFault => OpeningFault::Read(path),
        TypesKind::Memory => OpeningFault::Memory,
        _ => OpeningFault::Types { path, fault },
    }
}

/// What the fault of settings is here.
pub(crate) fn of_settings(fault: SettingsFault) -> OpeningFault
    ensures { result ≡ of_settings fault }
{
    match fault.kind {
        SettingsKind::Memory => OpeningFault::Memory,
        _ => OpeningFault::Settings(fault),
    }
}
