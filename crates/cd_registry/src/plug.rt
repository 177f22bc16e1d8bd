//! Plug-ins that are called.
ghost use Rattle.std.specs.Prelude.{◌≡◌};

use crate::{Answer, AnsweredCall, Call};
use cd_value::Sequence;
use std::marker::Send;

/// What a plug-in tells: a mark that tells it from others and that no call changes, and the calls that it got with its
/// answers, oldest first, where it tells them. No value of this is made: it is for contracts.
#[derive(Drop)]
pub struct PlugTells {
    pub mark: u64,
    pub calls: Option<Sequence<AnsweredCall>>,
}

/// What tells the calls that it got. Whoever keeps such objects needs no more of them: the registry, and what stands on
/// it, never calls them.
pub trait TellsCalls: Drop {
    ghost use Rattle.cd_registry.specs.declared.plug.PlugTells.{PlugTells};

    ghost plug_tells: { Self → PlugTells };
}

/// A plug-in that the daemon calls.
pub trait Plug: TellsCalls + Send {
    ghost use Rattle.cd_registry.specs.Told.{told_after};

    /// Calls it. It tells this call with this answer behind the others, or answers that memory was lacking and tells
    /// no calls from then on.
    fn enter(&mut self, call: &Call) -> Answer
        ensures { Self.plug_tells self.new ≡ told_after call.now result (Self.plug_tells self.old) };
}

impl TellsCalls for Box<dyn Plug + Send> {
    ghost plug_tells = { λ b. (Plug-box b).TellsCalls.plug_tells b.value };
}

impl Plug for Box<dyn Plug + Send> {
    fn enter(&mut self, call: &Call) -> Answer {
        (**self).enter(call)
    }
}
