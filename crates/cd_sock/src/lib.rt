//! The lines of collectd's Unix socket, as in collectd-unixsock(5): cut from a stream of bytes, read
//! as commands, and answered. It stands on `cd_types` for the types of values, on `cd_text` for words
//! and numbers, on `cd_value` and `cd_reading`, and takes no handle.
//!
//! Read first `specs/Lines.antt` (the lines of a stream in any pieces), `specs/Meaning.antt` (what a
//! line asks for) and `specs/Replies.antt`. A `LineCutter` keeps bytes of one line, and no more than
//! tell whether it is too long. Begin a change at `command.rt`, which reads a line, or at `reply.rt`,
//! which prints its reply.
#![tactic(auto)]

mod arguments;
mod command;
mod fault;
mod flush;
mod lines;
mod lists;
mod reply;
mod values;

pub use command::{Command, is_blank_line};
pub use fault::LineFault;
pub use lines::{LINE_LIMIT, Line, LineCutter, cut_in_any_pieces};
pub use reply::{Reply, print_reply, print_rows};

#[cfg(test)]
mod tests;
