//! Walks over jumps between numbered chains, as the target `jump` of collectd.conf(5) makes them:
//! whether a chain reaches itself, and by which walk. It stands on `cd_value`, for `Memory` alone, and takes no handle.
//!
//! Read first `specs/Walks.antt`: walks, the walk that is given, and what holds where there is none. It keeps nothing
//! between calls. Begin a change at `walks.rt`; `levels.rt` has from where so many jumps lead to a chain, `near.rt` how
//! many a chain needs to come back to itself.
#![tactic(auto)]

mod levels;
mod near;
mod walks;

pub use walks::cycle_of;

#[cfg(test)]
mod tests;
