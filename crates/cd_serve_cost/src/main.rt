//! What lines cost with many writers. With one word, WRITERS, it answers the lines of standard input as `collectd
//! --lines` does, with so many plug-ins `w0`, `w1` .. that are called with value lists and keep what they get; where a
//! run can't load that many, it says why, and its status is 1. Without words it does nothing. It stands on cd_serve, with
//! the plug-ins, the registry and the adapters of `cd_io`; its handles are the words, the clock, random words, standard
//! input and output. It has no spec files: read `specs/Promises.antt` of cd_serve. A change begins at `shelf_of`.
#![tactic(auto)]

use cd_io::{Gathering, RealWorld, Streams};
use cd_plugins::Telling;
use cd_registry::Kinds;
use cd_serve::{ShelvedOf, ShelvedProbe, check_shelves, run_of, status};
use cd_value::{Memory, Text};
use std::alloc::Global;
use std::env;
use std::process::ExitCode;

/// So many writers.
fn shelf_of(alloc: Global, writers: u64) -> Result<Vec<ShelvedOf<Telling>>, Memory> {
    let mut plugs = Vec::new(alloc);
    for number in 0..writers {
        plugs.push(ShelvedOf {
            name: Text::from_string(format!(in alloc; "w{number}")?),
            kinds: Kinds::WRITE,
            object: Telling::new(alloc, number, Vec::new(alloc)),
        })?;
    }
    Ok(plugs)
}

/// Serves standard input with these plug-ins, and gives the exit status.
fn serve(rt: &HostRuntime, plugs: Vec<ShelvedOf<Telling>>) -> anyhow::Result<ExitCode> {
    let alloc = rt.alloc();
    let probes: Vec<ShelvedProbe> = Vec::new(alloc);
    if let Err(fault) = check_shelves(plugs.as_slice(), probes.as_slice()) {
        println!(rt.stderr(); "{fault:?}")?;
        return Ok(ExitCode::FAILURE);
    }
    let mut words = Vec::new(alloc);
    for word in ["collectd", "--lines"] {
        words.push(String::from_str(alloc, word)?)?;
    }
    let mut world = RealWorld::new(*rt);
    let mut link = Gathering::new(alloc, Streams::new(*rt, rt.stdin(), rt.stdout()));
    let ran = run_of(
        alloc,
        words.as_slice(),
        &mut world,
        &mut link,
        plugs,
        probes,
    );
    let (_, finished) = link.finish();
    if finished.is_err() {
        return Ok(ExitCode::FAILURE);
    }
    Ok(ExitCode::from(status(&ran.end)))
}

fn main(rt: HostRuntime) -> anyhow::Result<ExitCode> {
    let Some(writers) = env::args(&rt)?.nth(1) else {
        return Ok(ExitCode::SUCCESS);
    };
    let plugs = shelf_of(rt.alloc(), writers.parse()?).map_err(|_| anyhow::anyhow!("no memory"))?;
    serve(&rt, plugs)
}
