//! A run over five lines in memory with filter chains before and behind the cache, for want of memory:
//! `bench/each-allocation` makes each of its allocations fail, one in each run. Its status is 0 where the run ended
//! well: all lines were answered, or it ended with want of memory, what was said is a beginning of the replies, and the
//! writer is back. It is 1 where it ended otherwise, and 2 where memory was lacking for what the run is given, or for
//! keeping what it said.
#![tactic(auto)]

use cd_io::{LinkPlan, MemFile, MemLink, MemWorld};
use cd_plugins::Telling;
use cd_registry::{Kinds, Probe};
use cd_serve::{End, RanOf, ShelvedOf, ShelvedProbe, check_shelves, run_of};
use cd_value::{Memory, SECOND, Text};
use std::alloc::Global;
use std::marker::Send;
use std::process::ExitCode;

/// The configuration. The chain before the cache replaces a field where a pattern is found in it; the one behind it
/// writes a list, makes a notification, and writes the list to a named writer as another target left it.
const CONFIGURATION: &str =
    "TypesDB \"types.db\"\nLoadPlugin w\n<Chain \"PreCache\">\n<Rule>\n<Match \"regex\">\nPlugin \"^q\"\n</Match>\n<Target \"replace\">\nPlugin \"q\" \"p\"\n</Target>\n</Rule>\n</Chain>\n<Chain \"PostCache\">\nTarget \"write\"\n<Target \"notification\">\nMessage \"%{host}\"\n</Target>\n<Target \"jump\">\nChain \"x\"\n</Target>\n</Chain>\n<Chain \"x\">\n<Target \"set\">\nHost \"x\"\n</Target>\n<Target \"write\">\nPlugin \"w\"\n</Target>\n</Chain>\n";

/// The types file.
const TYPES: &str = "derive value:DERIVE:0:U\ngauge value:GAUGE:U:U\n";

/// Five lines, one of them refused.
const LINES: &str =
    "PUTVAL h/q/derive interval=10 1000:5 1010:7\nGETVAL h/p/derive\nFOO\nPUTVAL h/p/gauge 1:1\nLISTVAL\n";

/// What is written for them.
const REPLIES: &str =
    "0 Success\n1 Value found\nvalue=0.200000\n-1 Unknown command\n0 Success\n2 Values found\n1010 h/p/derive\n1 h/p/gauge\n";

fn main(rt: HostRuntime) -> ExitCode {
    let Ok(well) = ends_well(rt.alloc()) else {
        return ExitCode::from(2);
    };
    if well {
        ExitCode::SUCCESS
    } else {
        ExitCode::FAILURE
    }
}

/// Whether the run over the lines ends well.
fn ends_well(alloc: Global) -> Result<bool, Memory> {
    let words = words(alloc)?;
    let plugs = shelf(alloc)?;
    let probes: Vec<ShelvedProbe> = Vec::new(alloc);
    if check_shelves(plugs.as_slice(), probes.as_slice()).is_err() {
        return Ok(false);
    }
    let mut world = MemWorld::new(alloc, (2_000_000_000 * SECOND, SECOND), (5, 3));
    for (path, text) in [("c", CONFIGURATION), ("types.db", TYPES)] {
        world.add_file(MemFile::of(alloc, path, text.as_bytes())?)?;
    }
    let lines = LINES.as_bytes().to_vec(alloc)?;
    let mut input = MemLink::new(alloc, lines, LinkPlan::new(alloc));
    let ran = run_of(
        alloc,
        words.as_slice(),
        &mut world,
        &mut input,
        plugs,
        probes,
    );
    let output = input.output().ok_or(Memory)?;
    Ok(is_well(&ran, output))
}

/// Whether all lines were answered, or memory was lacking and the answers are a beginning; the writer is back.
fn is_well(ran: &RanOf<Telling, Box<dyn Probe + Send>>, output: &[u8]) -> bool {
    let whole = REPLIES.as_bytes();
    let back = ran.plugs.len() == 1;
    match ran.end {
        End::Done => back && output == whole,
        End::Memory => back && whole.starts_with(output),
        _ => false,
    }
}

/// The words of the program.
fn words(alloc: Global) -> Result<Vec<String>, Memory> {
    let mut words = Vec::new(alloc);
    for word in ["collectd", "--lines", "-C", "c"] {
        words.push(String::from_str(alloc, word)?)?;
    }
    Ok(words)
}

/// A shelf with the writer `w`.
fn shelf(alloc: Global) -> Result<Vec<ShelvedOf<Telling>>, Memory> {
    let plug = ShelvedOf {
        name: Text::of(alloc, "w")?,
        kinds: Kinds::WRITE,
        object: Telling::new(alloc, 7, Vec::new(alloc)),
    };
    let mut plugs = Vec::new(alloc);
    plugs.push(plug)?;
    Ok(plugs)
}
