//! The turn in use: passes in threads of their own, over a state that counts its turns, and over one that holds an
//! object of any crate and has entries of another.
//!
//! It stands on `cd_turn` alone; its tests start threads. Read `specs/Counts.antt` (what a count stands for) and
//! `specs/Family.antt` first, then `src/worker.rt`, which is how a caller takes a turn, splits and joins. A new use
//! begins with a state and its `Story`, as in `src/count.rt`; `src/bell.rt` has one whose entries are of another
//! crate.
#![tactic(auto)]

mod bell;
mod count;
mod count_all;
mod kin;
mod worker;

pub use bell::{Bell, Rings, Tower, ring_once, ring_twice};
pub use count::{Count, Tick, Ticked};
pub use count_all::{count_of_family, count_of_four};
pub use kin::{Counter, split_two};
pub use worker::{Ran, Running, finish, run, start, turn_once};

#[cfg(test)]
mod tests;
