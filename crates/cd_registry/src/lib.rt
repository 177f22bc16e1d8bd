//! What is registered with the daemon: plug-ins that are called and plug-ins that are read, their names and kinds of
//! callbacks, the calls that wait for them, and the leases by which they are called outside of the daemon's turn.
//!
//! It stands on `cd_value`, and takes no handle. Read `specs/Rows.antt` first, the registry as contracts see it, then
//! `specs/Told.antt`, what an object tells of its calls and readings, and `specs/Faults.antt`, what is refused. Its
//! invariant is that the flags of the registry are up for exactly the registrations that are ready. A change begins in
//! `Rows.antt`, and then in the method of `slot.rt` that does it to one registration.
#![tactic(auto)]

mod calls;
mod faults;
mod flags;
mod kinds;
mod lease;
mod member;
mod place;
mod plug;
mod probe;
mod registry;
mod slot;

pub use calls::{Answer, AnsweredCall, Call};
use cd_value::Sequence;
pub use faults::{AddFault, LIVE_LIMIT, NotRegistered, RetireFault};
pub use kinds::Kinds;
pub use lease::{Entered, EnteredOf, Lease, LeaseOf};
pub use member::{Member, MemberOf};
pub use place::Place;
pub use plug::{Plug, PlugTells, TellsCalls};
pub use probe::{Probe, ProbeTells, Reading, TellsReadings, TimedReading};
pub use registry::Registry;

/// The numbers of registrations, in order.
pub type Regs = Sequence<u64>;

#[cfg(test)]
mod tests;
