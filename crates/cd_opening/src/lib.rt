//! What is in force when the daemon starts: the configuration file, the types files that it names, and the settings.
//!
//! - Stands on `cd_conf`, `cd_settings`, `cd_types`, `cd_globals`, `cd_io` and `cd_value`; it takes no handle.
//! - Read first `specs/Opened.antt`: what files come to, or their first fault; then `File.antt` and `Types.antt`.
//! - The configuration is read first, then each types file in order; the first fault in this order is answered.
//! - A change begins in `src/opening.rt`, with the order of work, or in `message.rt`, with a fault's text and status.
#![tactic(auto)]

mod fault;
mod file;
mod laws;
mod message;
mod opening;
mod types;

pub use fault::OpeningFault;
pub use laws::{no_item_makes_settings, texts_have_one_answer};
pub use message::{status, text_of};
pub use opening::{Opened, open_configuration, open_defaults};

#[cfg(test)]
mod tests;
