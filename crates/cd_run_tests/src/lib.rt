//! Tests of runs of the daemon over memory: lines worked by hand, files, plug-ins, filter chains, and links that fail.
//!
//! - Stands on `cd_serve`, `cd_plugins`, `cd_history`, `cd_registry`, `cd_value` and `cd_io`, and takes no handle.
//! - Read first `src/tests.rt`: `ROWS` has lines and what is written for them; then `src/files.rt`, with files,
//!   `src/plugins.rt`, with several plug-ins, and `src/chains.rt`, with filter chains. `src/runs.rt` has the run.
//! - It has nothing but tests, whose wanted values are worked by hand from the rules.
//! - A new command begins with a row of `ROWS`, a new option with one of `src/files.rt`, a new call of plug-ins with
//!   one of `src/plugins.rt`, and a new match or target with one of `SCENARIOS`.
#![tactic(auto)]

#[cfg(test)]
mod chains;
#[cfg(test)]
mod files;
#[cfg(test)]
mod plugins;
#[cfg(test)]
mod runs;
#[cfg(test)]
mod tests;
