//! How a run ends.
ghost use Rattle.cd_serve.specs.Ends.{end_of, message_of, status_of};
ghost use Rattle.cd_serve.specs.Started.{end_at};
ghost use Rattle.std.specs.Prelude.{IfOk, ◌≡◌};

use cd_conf::ConfFault;
use cd_dialogue::{DialogueFault, InputEnd};
use cd_opening::OpeningFault;
use cd_settings::SettingsFault;
use cd_types::TypesFault;
use cd_value::{Memory, Text, TryCopy};
use std::alloc::Global;

/// How a run of the daemon ends.
#[derive(Drop, PartialEq, Eq)]
pub enum End {
    /// The work was done: all lines that were heard were served, or the configuration's canonical text was written.
    Done,
    /// The words of the command line are none of the program's.
    Usage,
    /// The text of the configuration file has this first fault.
    ConfFault(ConfFault),
    /// The text of the types file at a path has this first fault.
    TypesFault {
        /// The path, as the configuration names it.
        path: Text,
        /// The fault.
        fault: TypesFault,
    },
    /// The items of the configuration have this first fault.
    SettingsFault(SettingsFault),
    /// The file at a path couldn't be opened: the world's count of faults rose.
    OpenFault(Text),
    /// The file at a path couldn't be read: the world's count of reading faults rose.
    ReadFault(Text),
    /// The link failed: its count of faults rose.
    LinkFault,
    /// As many bytes were taken as may be, and more came.
    InputTooLong,
    /// Memory was lacking.
    Memory,
}

/// The exit status of the program.
pub fn status(end: &End) -> u8
    ensures { result ≡ status_of end.now }
{
    match end {
        End::Done => 0,
        End::Usage => 1,
        End::ConfFault(_) | End::TypesFault { .. } | End::SettingsFault(_) => 2,
        End::OpenFault(_) => 3,
        End::ReadFault(_) => 4,
        End::LinkFault => 5,
        End::InputTooLong => 7,
        End::Memory => 9,
    }
}

/// What the program writes on standard error at its end, with a newline: nothing where its work was done.
pub fn text_of(alloc: Global, end: &End) -> Result<Text, Memory>
    ensures { IfOk result (λ text. text ≡ message_of end.now) }
{
    match end {
        End::Done => Ok(Text::new(alloc)),
        End::Usage => Text::of(
            alloc,
            "collectd: usage: collectd [-f] [-C file] [-t, -T, --lines or --load N]\n",
        ),
        End::ConfFault(fault) => cd_opening::text_of(alloc, &OpeningFault::Conf(*fault)),
        End::TypesFault { path, fault } => {
            let path = path.copy(alloc)?;
            let fault = *fault;
            cd_opening::text_of(alloc, &OpeningFault::Types { path, fault })
        }
        End::SettingsFault(fault) => {
            cd_opening::text_of(alloc, &OpeningFault::Settings(fault.copy(alloc)?))
        }
        End::OpenFault(path) => cd_opening::text_of(alloc, &OpeningFault::Open(path.copy(alloc)?)),
        End::ReadFault(path) => cd_opening::text_of(alloc, &OpeningFault::Read(path.copy(alloc)?)),
        End::LinkFault => Text::of(alloc, "collectd: link failed\n"),
        End::InputTooLong => Text::of(alloc, "collectd: input too long\n"),
        End::Memory => Text::of(alloc, "collectd: out of memory\n"),
    }
}

/// The end of a run whose files have this first fault.
pub(crate) fn end_at(fault: OpeningFault) -> End
    ensures { result ≡ end_at fault }
{
    match fault {
        OpeningFault::Conf(fault) => End::ConfFault(fault),
        OpeningFault::Types { path, fault } => End::TypesFault { path, fault },
        OpeningFault::Settings(fault) => End::SettingsFault(fault),
        OpeningFault::Open(path) => End::OpenFault(path),
        OpeningFault::Read(path) => End::ReadFault(path),
        OpeningFault::Memory => End::Memory,
    }
}

/// The end of a run whose input was served so.
pub(crate) fn end_of(served: Result<InputEnd, DialogueFault>) -> End
    ensures { result ≡ end_of served }
{
    match served {
        Ok(InputEnd::Ended | InputEnd::Closed) => End::Done,
        Ok(InputEnd::TooLong) => End::InputTooLong,
        Err(DialogueFault::Link) => End::LinkFault,
        Err(DialogueFault::Memory) => End::Memory,
    }
}
