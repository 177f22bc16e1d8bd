//! Whether the core answers as a plain daemon does: random steps on the daemon's core and on one that keeps only lists
//! beside it, whose answers have to be the same at each. It stands on cd_core, on the types of the crates below it, on the
//! plain cache of cd_cache_plain, and on `rand_xoshiro`; its handle is standard output. Read first `plain.rt`, the plain
//! daemon; then `registrations.rt` and `flushes.rt`, its lists. It keeps no state. A change begins at `step.rt`, which has
//! what is asked and answered.
//!
//! It takes 10,000 steps from a seed, of which the one before the last 500 stops the daemon, prints how often each answer
//! came, takes the same steps with a filter chain before and one behind the cache, and ends with status 0. At the first
//! step at which the two differ it prints that step's number and ends with status 1, for want of memory with status 2.
#![tactic(auto)]

mod asking;
mod draw;
mod flushes;
mod names;
mod opening;
mod plain;
mod real;
mod registrations;
mod same;
mod step;
mod tally;
mod walk;

use opening::Filters;
use std::io;
use std::process::ExitCode;
use walk::{End, walk};

/// Where the steps are drawn from.
const SEED: u64 = 1;
/// How many steps are taken.
const STEPS: u64 = 10_000;
/// The step that stops the daemon.
const STOP: u64 = 9_500;

/// Walks, prints what came up, and gives the status.
fn tell_walk(rt: HostRuntime, filters: Filters) -> io::Result<u8> {
    match walk(rt.alloc(), SEED, filters, STEPS, STOP) {
        Ok(End::Agreed(tally)) => {
            tally.print(rt)?;
            Ok(0)
        }
        Ok(End::Differs(number)) => {
            println!(rt; "step {number} differs")?;
            Ok(1)
        }
        Err(_) => {
            println!(rt; "no memory")?;
            Ok(2)
        }
    }
}

fn main(rt: HostRuntime) -> io::Result<ExitCode> {
    println!(rt; "without filter chains")?;
    let status = tell_walk(rt, Filters::Absent)?;
    if status != 0 {
        return Ok(ExitCode::from(status));
    }
    println!(rt; "with a chain before and one behind the cache")?;
    let status = tell_walk(rt, Filters::Present)?;
    Ok(ExitCode::from(status))
}
