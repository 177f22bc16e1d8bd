//! The daemon's state on one thread, and a step of it for each event.
//!
//! - Stands on `cd_daemon`, which says what a one-thread daemon answers, and on the crates that keep the parts of the
//!   state: `cd_registry`, `cd_queue`, `cd_cache`, `cd_chain`, `cd_types` and `cd_globals`. It takes no handle.
//! - Read first `specs/Stands.antt`: when the core stands for a history; then `Seen.antt`, and `Legal.antt` of
//!   `cd_daemon`.
//! - Each step leads from a core that stands for a history to one that stands for it with the event of the step; want
//!   of memory changes nothing.
//! - A new kind of event begins in `Legal.antt` of `cd_daemon`, with its part of the state in `specs/Stands.antt`.
#![tactic(auto)]

mod accepting;
mod ahead;
mod asking;
mod effects;
mod faults;
mod flush;
mod flushing;
mod handling;
mod laws;
mod leases;
mod posting;
mod prepared;
mod queries;
mod registering;
mod state;

pub use faults::{AcceptFault, FlushEnd, FlushFault, Got, HandleFault, QueryFault, RegisterFault};
pub use flush::Flush;
pub use laws::{
    core_without_work_is_idle, every_list_of_steps_stands, looking_changes_nothing,
    plugin_stays_out_until_it_comes_home, plugin_stays_out_until_its_actor_brings_it_home,
    plugin_that_is_out_may_come_home,
};
pub use state::Core;

#[cfg(test)]
mod tests;
