//! Whether the cache answers as its definitions say: random updates, removals and ticks on a cache and on a plain list
//! beside it, which have to agree after each. It stands on cd_cache, the plain list of cd_cache_plain, the values and
//! `rand_xoshiro`; its handle is standard output. Read first `plain.rt` of cd_cache_plain, the cache as a list that each
//! call walks over. It keeps no state. A change begins at `walk.rt`, which has what steps there are.
//!
//! It takes 10,000 steps from a seed, prints how many there were of each kind, and ends with status 0. At the first
//! step at which the two differ it prints that step's number and ends with status 1, for want of memory with status 2.
//! At last it prints what is lost of 1,000 names, and how many were looked at for it.
#![tactic(auto)]

mod draw;
mod losses;
mod walk;

use losses::{COUNT, lost_at};
use std::io;
use std::process::ExitCode;
use walk::{End, walk};

/// Where the steps are drawn from.
const SEED: u64 = 1;
/// How many steps are taken.
const STEPS: u64 = 10_000;

/// Prints what is lost at 23 s, when the lists of three numbers are missing.
fn tell_losses(rt: HostRuntime) -> io::Result<ExitCode> {
    match lost_at(rt.alloc(), 23) {
        Ok(found) => {
            println!(rt;
                "of {COUNT} names {} lost, {} looked at",
                found.lost, found.looks
            )?;
            Ok(ExitCode::SUCCESS)
        }
        Err(_) => {
            println!(rt; "no memory")?;
            Ok(ExitCode::from(2))
        }
    }
}

fn main(rt: HostRuntime) -> io::Result<ExitCode> {
    match walk(rt.alloc(), SEED, STEPS) {
        Ok(End::Agreed(tally)) => {
            println!(rt; "{} lists stored, {} old", tally.stored, tally.old)?;
            println!(rt; "{} names removed, {} lost", tally.removed, tally.lost)?;
            tell_losses(rt)
        }
        Ok(End::Differs(number)) => {
            println!(rt; "step {number} differs")?;
            Ok(ExitCode::FAILURE)
        }
        Err(_) => {
            println!(rt; "no memory")?;
            Ok(ExitCode::from(2))
        }
    }
}
