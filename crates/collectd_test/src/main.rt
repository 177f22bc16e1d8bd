//! The program `collectd` once more: given `-C FILE -t` it tests a configuration, as in collectd.conf(5), and writes
//! its canonical text. Its stored run is one over a configuration that names a types file and has a filter chain.
#![tactic(auto)]

use std::process::ExitCode;

fn main(rt: HostRuntime) -> ExitCode {
    cd_program::start(&rt)
}
