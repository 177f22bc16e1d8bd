//! What a turn costs. With two words, THREADS and TURNS, it prints the time; with 0 threads one pass takes its turns on
//! the main thread. Without words it prints nothing.
#![tactic(auto)]

use cd_turn::Turn;
use cd_turn_tests::{Count, count_of_family, run};
use std::alloc::Global;
use std::sync::Wait;
use std::thread::Threads;
use std::time::Instant;
use std::{env, io};

/// Takes the turns, and says how many there were.
fn taken<R: Threads + Wait, W: Wait + Copy + Send + Drop + 'static>(
    rt: &R,
    theirs: W,
    alloc: Global,
    threads: u64,
    turns: u64,
) -> Option<u64> {
    if threads > 0 {
        return count_of_family(rt, theirs, alloc, threads, turns);
    }
    let Ok((turn, pass)) = Turn::new(alloc, Count { count: 0 }) else {
        return None;
    };
    run(rt, &turn, pass, turns);
    Some(turns)
}

fn main(rt: HostRuntime) -> io::Result<()> {
    let mut words = env::args(&rt)?;
    let (Some(_), Some(threads), Some(turns)) = (words.next(), words.next(), words.next()) else {
        return Ok(());
    };
    let (Ok(threads), Ok(turns)) = (threads.parse(), turns.parse()) else {
        return Ok(());
    };
    let start = Instant::now(&rt)?;
    let count = taken(&rt, rt, rt.alloc(), threads, turns).unwrap_or(0);
    let nanos = start.elapsed(&rt)?.as_nanos();
    let each = nanos / u128::from(count.max(1));
    println!(rt; "{count} turns in {nanos} ns, {each} ns each")
}
