//! Plug-ins: what the daemon calls.
//!
//! - Stands on `cd_registry` (the trait that each keeps) and `cd_value`, and takes no handle.
//! - Read first `src/telling.rt`, the plug-in that keeps what it got, with `specs/Answering.antt`.
//! - What a plug-in tells is the trait's: each call with its answer, in order, or nothing after memory was lacking.
//! - A new plug-in begins with a file of its own, which implements `Plug`. The registry's tests stand here too, since they
//!   need plug-ins.
#![tactic(auto)]

mod telling;

pub use telling::Telling;

#[cfg(test)]
mod registry_tests;
#[cfg(test)]
mod tests;
