//! The top calls of the daemon. Today that is `run`, on one thread, over any number of plug-ins: a configuration is
//! tested, or lines are served.
//!
//! - Stands on `cd_core` (a step for each event), `cd_command` (the words), `cd_opening` (the files), `cd_dialogue` (the
//!   link), and `cd_transcript` and `cd_daemon` (what a run is); it takes no handle.
//! - Read first `specs/Promises.antt`: it is the theorem that `run` carries; then `Started.antt`, what is in force, and
//!   `Shelf.antt`, what may stand on a shelf. `specs/Working/` has the words of its proof.
//! - The daemon stands, after each line, for a history that the rules of a run make (`HasServed`).
//! - A new command begins in `src/daemon.rt` with `obey`, what it asks of the core in `src/outside.rt`, a new end in
//!   `src/end.rt`, a new mode in `src/program.rt`.
#![tactic(auto)]

mod checking;
mod configured;
mod daemon;
mod end;
mod lines;
mod loading;
mod outside;
mod places;
mod program;
mod shelf;
mod started;

pub use cd_command::{Which, which};
pub use checking::{ShelfFault, check_shelves};
pub use end::{End, status, text_of};
pub use program::{INPUT_LIMIT, Ran, RanOf, run, run_of};
pub use shelf::{Shelved, ShelvedOf, ShelvedProbe, ShelvedProbeOf};
