//! The settings that a configuration makes, as collectd.conf(5) has its options: typed values, or the first fault.
//!
//! - Stands on `cd_conf` for items, on `cd_chain`, `cd_match`, `cd_target` and `cd_pattern` for filter chains, and on
//!   `cd_globals`, `cd_text`, `cd_types`, `cd_value` and `cd_reading`; no handle.
//! - Read first `specs/GlobalOptions.antt`, `PluginOptions.antt`, `MatchOptions.antt`, `TargetOptions.antt`,
//!   `ChainOptions.antt`, `TopLevel.antt` (a row an option, as in the man page), then `Forms.antt` (what values may
//!   be), `Tables.antt` (what a row means), `ChainLines.antt` (the lines of the faults of chains), `BigPatterns.antt`
//!   (the one answer that is free), `Settings.antt` (the whole).
//! - No type keeps an invariant: that accepted settings are within the bounds of each option is a law (`laws.rt`).
//! - A new option is a row in a definition and a line in the code's table of the same order, in `globals.rt`,
//!   `plugins.rt`, `matches.rt`, `targets.rt` or `top_level.rt`.
#![tactic(auto)]

macro_rules! by_table {
    ($item:expr, $otherwise:expr; $($place:ident $name:literal => $change:expr,)*) => {
        $(if $place($item, $name) { return $change; })*
        $otherwise
    };
}

mod blocks;
mod chain_lines;
mod chains;
mod configuration;
mod fault;
mod forms;
mod globals;
mod items;
mod laws;
mod loaded;
mod matches;
mod paths;
mod plugins;
mod ports;
mod section;
mod settings;
mod targets;
mod top_level;

pub use blocks::{Block, Blocks};
pub use fault::{SettingsFault, SettingsKind};
pub use laws::accepted_settings_are_bounded;
pub use paths::types_paths;
pub use plugins::{LISTENS_LIMIT, Listen, Listens, PORT};
pub use settings::Settings;

#[cfg(test)]
mod chain_tests;
#[cfg(test)]
mod tests;
