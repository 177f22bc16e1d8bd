//! Calls of plug-ins and their answers.
ghost use Rattle.std.specs.Prelude.{IfOk, ◌≡◌};

use cd_value::{Memory, Notification, Text, TryCopy, ValueList};
use std::alloc::Global;

/// A call of a plug-in, as its callbacks in collectd's plug-in interface.
#[derive(Drop)]
pub enum Call {
    /// Its block of the configuration, in canonical text.
    Configure(Text),
    /// A value list to write.
    Write(ValueList),
    /// A request to flush, by its number: the timeout in units of 2^-30 s, and a name or all.
    Flush {
        number: u64,
        timeout: Option<u64>,
        name: Option<Text>,
    },
    /// The last list of a name whose values stopped coming.
    Missing(ValueList),
    /// A notification.
    Notify(Notification),
}

/// What a plug-in answers to a call.
#[derive(Clone, Copy, Debug, PartialEq, Eq)]
pub enum Answer {
    Done,
    Failed,
    /// Memory was lacking.
    Memory,
}

/// A call that a plug-in got, with its answer.
#[derive(Drop)]
pub struct AnsweredCall {
    pub call: Call,
    pub answer: Answer,
}

impl TryCopy for Call {
    fn copy(&self, alloc: Global) -> Result<Call, Memory> {
        match self {
            Call::Configure(text) => Ok(Call::Configure(text.copy(alloc)?)),
            Call::Write(list) => Ok(Call::Write(list.copy(alloc)?)),
            Call::Flush {
                number,
                timeout,
                name,
            } => {
                let name = copy_if_any(name, alloc)?;
                Ok(Call::Flush {
                    number: *number,
                    timeout: *timeout,
                    name,
                })
            }
            Call::Missing(list) => Ok(Call::Missing(list.copy(alloc)?)),
            Call::Notify(note) => Ok(Call::Notify(note.copy(alloc)?)),
        }
    }
}

fn copy_if_any(name: &Option<Text>, alloc: Global) -> Result<Option<Text>, Memory>
    ensures { IfOk result (λ copy. copy ≡ name.now) }
{
    match name {
        Some(text) => Ok(Some(text.copy(alloc)?)),
        None => Ok(None),
    }
}
