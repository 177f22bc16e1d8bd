//! The program `collectd` once more: given `--lines` it answers the lines of its standard input, those of
//! collectd-unixsock(5), on its standard output. Its stored run is one over one line, which is written.
#![tactic(auto)]

use std::process::ExitCode;

fn main(rt: HostRuntime) -> ExitCode {
    cd_program::start(&rt)
}
