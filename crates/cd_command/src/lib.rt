//! The words of the command line, as collectd(1) has them, read by one simple command of `clap`.
//!
//! - Stands on `cd_value` and the kit's `clap`, and takes no handle.
//! - Read first `specs/Application.antt`: the options; then `specs/Command.antt`: which words are a command.
//! - Words are refused exactly where `clap` refuses them or they name no way to work that is built.
//! - A new option begins in `src/options.rt` and `specs/Application.antt`, a new mode with `Mode`.
#![tactic(auto)]

mod call;
mod command;
mod options;

pub use call::Which;
pub use command::{Command, CommandFault, Mode, read_command, which};

#[cfg(test)]
mod tests;
