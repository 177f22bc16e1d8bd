//! The program `collectd`, as in collectd(1). Given `--lines` it answers the lines of its standard input, those of
//! collectd-unixsock(5), on its standard output. Its stored run is one over no input.
#![tactic(auto)]

use std::process::ExitCode;

fn main(rt: HostRuntime) -> ExitCode {
    cd_program::start(&rt)
}
