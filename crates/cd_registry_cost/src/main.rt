//! What a take costs. With three words, REGISTRATIONS, CALLS and ROUNDS, it registers that many writers, lets that
//! many calls wait for the last of them, and prints the time of a take with its way home, and of finding the writers.
//! Without words it prints nothing.
#![tactic(auto)]

ghost use Rattle.std.specs.Prelude.{◌≡◌};

use cd_registry::{Answer, Call, Kinds, MemberOf, Plug, Probe, Registry, TellsCalls};
use cd_value::{Memory, Text};
use std::alloc::Global;
use std::marker::Send;
use std::rt::Clock;
use std::time::Instant;
use std::{env, io};

/// A plug-in that does nothing and tells no calls.
#[derive(Drop)]
struct Idle;

impl TellsCalls for Idle {
    ghost use Rattle.std.specs.Prelude.{None};

    ghost plug_tells = { λ idle. record { mark = 0; calls = None } };
}

impl Plug for Idle {
    fn enter(&mut self, _call: &Call) -> Answer {
        Answer::Done
    }
}

type Writers = Registry<Idle, Box<dyn Probe + Send>>;

/// How many calls are taken between two looks at the clock.
const TAKES: u64 = 10;

/// Registers a writer under a number.
fn register(alloc: Global, writers: &mut Writers, number: u64) -> Result<(), Memory> {
    let name = name_of(alloc, number)?;
    match writers.add(alloc, name, Kinds::WRITE, MemberOf::Plug(Idle)) {
        Ok(_) => Ok(()),
        Err(_) => Err(Memory),
    }
}

fn name_of(alloc: Global, number: u64) -> Result<Text, Memory> {
    Ok(Text::from_string(format!(in alloc; "w{number}")?))
}

/// Posts a call to the writer of a name.
fn post<P: Plug, Q: Probe>(registry: &mut Registry<P, Q>, name: &Text) -> Result<(), Memory> {
    let Some(reg) = registry.find(name, Kinds::WRITE) else {
        return Err(Memory);
    };
    let call = Call::Flush {
        number: 0,
        timeout: None,
        name: None,
    };
    match registry.post(reg, call) {
        Ok(()) => Ok(()),
        Err(refused) => Err(refused.why),
    }
}

/// Takes the next call, enters it, and brings the plug-in home.
fn take<P: Plug, Q: Probe>(registry: &mut Registry<P, Q>) {
    if let Some(reg) = registry.ready() {
        let lease = registry.take(reg, 1);
        registry.give(lease.enter());
    }
}

fn take_some(writers: &mut Writers) {
    for _ in 0..TAKES {
        take(writers);
    }
}

fn post_some(writers: &mut Writers, name: &Text, calls: u64) -> Result<(), Memory> {
    for _ in 0..calls {
        post(writers, name)?;
    }
    Ok(())
}

/// The time of the takes of the rounds, in nanoseconds.
fn time_takes(
    rt: &impl Clock,
    writers: &mut Writers,
    name: &Text,
    rounds: u64,
) -> io::Result<u128> {
    let mut nanos = 0u128;
    for _ in 0..rounds {
        if post_some(writers, name, TAKES).is_err() {
            break;
        }
        let start = Instant::now(rt)?;
        take_some(writers);
        nanos = nanos.saturating_add(start.elapsed(rt)?.as_nanos());
    }
    Ok(nanos)
}

/// The time of finding the writers in each of the rounds, in nanoseconds.
fn time_listening(
    rt: &impl Clock,
    alloc: Global,
    writers: &Writers,
    rounds: u64,
) -> io::Result<u128> {
    let start = Instant::now(rt)?;
    for _ in 0..rounds {
        if writers.listening(alloc, Kinds::WRITE).is_err() {
            break;
        }
    }
    Ok(start.elapsed(rt)?.as_nanos())
}

/// A registry of that many writers, with that many calls that wait for the last of them, and its name.
fn writers_of(alloc: Global, registrations: u64, calls: u64) -> Result<(Writers, Text), Memory> {
    let mut writers = Registry::new(alloc);
    for number in 0..registrations {
        register(alloc, &mut writers, number)?;
    }
    let name = name_of(alloc, registrations.saturating_sub(1))?;
    post_some(&mut writers, &name, calls)?;
    Ok((writers, name))
}

fn main(rt: HostRuntime) -> io::Result<()> {
    let mut words = env::args(&rt)?.skip(1);
    let (Some(registrations), Some(calls), Some(rounds)) = (
        words.next(),
        words.next(),
        words.next(),
    ) else {
        return Ok(());
    };
    let (Ok(registrations), Ok(calls), Ok(rounds)) = (
        registrations.parse(),
        calls.parse(),
        rounds.parse::<u64>(),
    ) else {
        return Ok(());
    };
    let Ok((mut writers, name)) = writers_of(rt.alloc(), registrations, calls) else {
        return println!(rt; "no memory, or more registrations than there may be");
    };
    let takes = u128::from(rounds.saturating_mul(TAKES).max(1));
    let taking = time_takes(&rt, &mut writers, &name, rounds)? / takes;
    let finding = time_listening(&rt, rt.alloc(), &writers, rounds)? / u128::from(rounds.max(1));
    println!(rt; "{taking} ns a take and its way home, {finding} ns to find the writers")
}
