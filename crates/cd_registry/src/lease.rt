//! A plug-in out for a call.
ghost use Rattle.cd_registry.specs.Told.{told_after};
ghost use Rattle.std.specs.Prelude.{◌≡◌};

use crate::{Answer, Call, Plug};
use std::marker::Send;

/// A plug-in that is out for a call, with the number of its registration.
#[derive(Drop)]
pub struct LeaseOf<P> {
    pub reg: u64,
    pub object: P,
    pub call: Call,
}

/// A plug-in that was entered with a call, with its answer.
#[derive(Drop)]
pub struct EnteredOf<P> {
    pub reg: u64,
    pub object: P,
    pub call: Call,
    pub answer: Answer,
}

/// A lease of a plug-in in a box.
pub type Lease = LeaseOf<Box<dyn Plug + Send>>;

/// A plug-in in a box that was entered with a call.
pub type Entered = EnteredOf<Box<dyn Plug + Send>>;

impl<P: Plug> LeaseOf<P> {
    /// Enters the plug-in with the call, once.
    pub fn enter(self) -> EnteredOf<P>
        ensures reg { result.reg ≡ self.reg }
        ensures call { result.call ≡ self.call }
        ensures told { P.plug_tells result.object ≡
            told_after self.call result.answer (P.plug_tells self.object) }
    {
        let LeaseOf {
            reg,
            mut object,
            call,
        } = self;
        let answer = object.enter(&call);
        EnteredOf {
            reg,
            object,
            call,
            answer,
        }
    }
}
