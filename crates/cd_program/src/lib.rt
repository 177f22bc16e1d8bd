//! The program `collectd`, as in collectd(1): what it hands to the run, what it writes on standard error, and its
//! status.
//!
//! - Stands on `cd_serve`, `cd_plugins`, `cd_registry` and `cd_io`, and takes no handle.
//! - Read first `specs/Gathered.antt`, then `Program.antt`.
//! - Its shelf has one writer, `w`, which keeps what it gets, and no reader.
//! - Programs with stored runs are `collectd_main`, `collectd_line`, `collectd_usage` and `collectd_test`; each only
//!   calls `start`.
#![tactic(auto)]

mod machine;
mod outcome;

pub use machine::start;
pub use outcome::{Outcome, run_gathered};

#[cfg(test)]
mod tests;
