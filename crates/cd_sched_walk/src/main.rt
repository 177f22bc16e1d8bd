//! Whether the schedule of readers answers as its definitions say: random steps on a schedule and on a plain list
//! beside it, of the same contract, which have to agree at each. It stands on cd_sched, the values and `rand_xoshiro`;
//! its handle is standard output. Read first `plain.rt`, the schedule as a list. It keeps no state. A change begins at
//! `step.rt`, which has what steps there are.
//!
//! It takes 10,000 steps from a seed, then begins each reading that is left, prints how many steps there were of each
//! kind, and ends with status 0. At the first step at which the two differ it prints that step's number and ends with
//! status 1, for want of memory with status 2.
#![tactic(auto)]

mod draw;
mod plain;
mod step;
mod walk;

use std::io;
use std::process::ExitCode;
use walk::{End, walk};

/// Where the steps are drawn from.
const SEED: u64 = 1;
/// How many steps are taken.
const STEPS: u64 = 10_000;

fn main(rt: HostRuntime) -> io::Result<ExitCode> {
    match walk(rt.alloc(), SEED, STEPS) {
        Ok(End::Agreed(tally)) => {
            let (added, removed) = (tally.added, tally.removed);
            let (begun, returned) = (tally.begun, tally.returned);
            println!(rt; "{added} added, {removed} removed, {begun} begun, {returned} returned")?;
            Ok(ExitCode::SUCCESS)
        }
        Ok(End::Differs(number)) => {
            println!(rt; "step {number} differs")?;
            Ok(ExitCode::FAILURE)
        }
        Err(_) => {
            println!(rt; "no memory")?;
            Ok(ExitCode::from(2))
        }
    }
}
