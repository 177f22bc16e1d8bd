//! The dialogue with a peer over a link: what it sends is cut into lines, a server serves each, and its reply is said.
//!
//! - Stands on `cd_io` (links), `cd_sock` (lines) and `cd_value`, and takes no handle.
//! - Read first `specs/Served.antt`, what a server did for lines in order; then `Dialogues.antt`, what a step does, and
//!   `Inputs.antt`, what the service of a whole input promises.
//! - The lines that end in what was heard were served in order and their replies said, up to one at which the server
//!   closed the dialogue, and the rest is held.
//! - A change begins in `dialogue.rt`; a new kind of service is an `impl Server` in a crate above.
#![tactic(auto)]

mod dialogue;
mod ends;
mod input;
mod pieces;
mod server;

pub use dialogue::{Dialogue, PIECE};
pub use ends::{DialogueFault, InputEnd, Step};
pub use input::serve_all;
pub use server::{Next, Response, Server};

#[cfg(test)]
mod tests;
