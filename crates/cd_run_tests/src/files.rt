//! Runs over memory with a configuration file `c` and the types file `types.db`, worked by hand.
use crate::runs::{Ran, run_on, shelf_of};
use cd_io::LinkPlan;
use cd_registry::{Answer, Kinds};
use cd_serve::{status, text_of};
use std::alloc::Global;
use std::test::Fail;

/// The types file.
const TYPES: &str =
    "# sample\nderive value:DERIVE:0:U\ncounter    value:COUNTER:U:U\ngauge value:GAUGE:U:U\nif_octets  rx:DERIVE:0:U, tx:DERIVE:0:U\noctets     value:COUNTER:0:4294967295\n";

/// The configuration of lines, with the writer.
const LOADED: &str = "TypesDB \"types.db\"\nLoadPlugin w\n";

/// A configuration without blocks of `threshold` and chains.
const SAMPLE: &str =
    "# collectd.conf\nHostname \"web1\"\nFQDNLookup true\nTypesDB \"types.db\"\nInterval 10\nLoadPlugin syslog\nLoadPlugin load\nLoadPlugin csv\nLoadPlugin unixsock\nLoadPlugin threshold\n\n<Plugin csv>\n\tDataDir \"/var/lib/collectd/csv\"   # raw values\n</Plugin>\n<Plugin unixsock>\n\tSocketFile \"/var/run/collectd-unixsock\"\n\tSocketPerms \"0660\"\n</Plugin>\n";

/// Its canonical text.
const CANONICAL: &str =
    "Hostname \"web1\"\nFQDNLookup true\nTypesDB \"types.db\"\nInterval 10\nLoadPlugin \"syslog\"\nLoadPlugin \"load\"\nLoadPlugin \"csv\"\nLoadPlugin \"unixsock\"\nLoadPlugin \"threshold\"\n<Plugin \"csv\">\n  DataDir \"/var/lib/collectd/csv\"\n</Plugin>\n<Plugin \"unixsock\">\n  SocketFile \"/var/run/collectd-unixsock\"\n  SocketPerms \"0660\"\n</Plugin>\n";

/// A configuration with filter chains.
const CHAINS: &str =
    "# chains\n<chain PostCache>\n\t<Rule ignore>\n\t\t<Match regex>\n\t\t\tPlugin \"^mysql$\"\n\t\t\tInvert   off\n\t\t</Match>\n\t\tTarget   stop\n\t</Rule>\n<Target write>\nPlugin w\nplugin csv\n</Target>\n</Chain>\nPostCacheChain PostCache\n";

/// Its canonical text.
const CANONICAL_CHAINS: &str =
    "<chain \"PostCache\">\n  <Rule \"ignore\">\n    <Match \"regex\">\n      Plugin \"^mysql$\"\n      Invert false\n    </Match>\n    Target \"stop\"\n  </Rule>\n  <Target \"write\">\n    Plugin \"w\"\n    plugin \"csv\"\n  </Target>\n</chain>\nPostCacheChain \"PostCache\"\n";

/// What is written at wrong words.
const USAGE: &str = "collectd: usage: collectd [-f] [-C file] [-t, -T, --lines or --load N]\n";

/// A run by words that are cut at blanks, over the files `c` and `types.db`, with the writer `w`; and what it said.
fn ran(
    alloc: Global,
    line: &str,
    configuration: &str,
    types: &str,
    input: &str,
) -> Result<(Ran, Vec<u8>), Fail> {
    let files = [("c", configuration), ("types.db", types)];
    let shelf = shelf_of(alloc, &[("w", Kinds::WRITE, Answer::Done)])?;
    let bytes = input.as_bytes().to_vec(alloc)?;
    run_on(
        alloc,
        shelf,
        line,
        files.as_slice(),
        bytes,
        LinkPlan::new(alloc),
    )
}

/// How many calls the plug-in that came back has got.
fn calls_of(ran: &Ran) -> Option<usize> {
    let plug = ran.plugs.first()?;
    Some(plug.object.calls()?.len())
}

#[test]
fn lines_are_served_by_files(rt: HostRuntime) -> Result<(), Fail> {
    let alloc = rt.alloc();
    for (configuration, input, said, calls) in [
        (
            LOADED,
            "PUTVAL testhost/interface/if_octets-test0 interval=10 1179574444:123:456\n",
            "0 Success\n",
            1,
        ),
        (
            LOADED,
            "PUTVAL h/p/counter 100:4294967290 110:5\nGETVAL h/p/counter\n",
            "0 Success\n1 Value found\nvalue=1.100000\n",
            2,
        ),
        (
            LOADED,
            "PUTVAL h/p/octets 100:4294967296 110:0\nGETVAL h/p/octets\n",
            "0 Success\n1 Value found\nvalue=NaN\n",
            2,
        ),
        (
            LOADED,
            "PUTVAL h/p/if_octets 1:1\nPUTVAL h/p/absolute 1:1\n",
            "-1 Wrong number of values\n-1 Unknown type\n",
            0,
        ),
        (
            "LoadPlugin csv\n",
            "PUTVAL h/p/derive 1:1\nLISTVAL\n",
            "0 Success\n1 Value found\n1 h/p/derive\n",
            0,
        ),
    ] {
        let (ran, output) = ran(alloc, "collectd --lines -C c", configuration, TYPES, input)?;
        assert_eq!(rt; status(&ran.end), 0);
        assert_eq!(rt; output.as_slice(), said.as_bytes());
        assert_eq!(rt; calls_of(&ran), Some(calls));
    }
    Ok(())
}

#[test]
fn configurations_are_tested(rt: HostRuntime) -> Result<(), Fail> {
    let alloc = rt.alloc();
    for (configuration, types, number, message, said) in [
        (SAMPLE, TYPES, 0, "", CANONICAL),
        (CHAINS, "", 0, "", CANONICAL_CHAINS),
        (
            "Foo 1\n",
            "",
            2,
            "collectd: settings, line 1: unknown option\n",
            "",
        ),
        (
            "<Plugin x>\n",
            "",
            2,
            "collectd: configuration, line 1: unclosed section\n",
            "",
        ),
        (
            LOADED,
            "derive value:DERIVE:0:U\na v:FLOAT:0:U\n",
            2,
            "collectd: types.db, line 2: bad kind\n",
            "",
        ),
        (LOADED, "", 3, "collectd: cannot open types.db\n", ""),
        ("", TYPES, 3, "collectd: cannot open c\n", ""),
    ] {
        let (ran, output) = ran(alloc, "collectd -C c -t", configuration, types, "LISTVAL\n")?;
        assert_eq!(rt; status(&ran.end), number);
        assert_eq!(rt; text_of(alloc, &ran.end)?.as_str(), message);
        assert_eq!(rt; output.as_slice(), said.as_bytes());
        assert_eq!(rt; calls_of(&ran), Some(0));
    }
    Ok(())
}

#[test]
fn words_are_refused(rt: HostRuntime) -> Result<(), Fail> {
    let alloc = rt.alloc();
    for line in [
        "collectd -t --lines -C c",
        "collectd --load 0",
        "collectd --load 1000001",
        "collectd -t",
    ] {
        let (ran, output) = ran(alloc, line, LOADED, TYPES, "LISTVAL\n")?;
        assert_eq!(rt; status(&ran.end), 1);
        assert_eq!(rt; text_of(alloc, &ran.end)?.as_str(), USAGE);
        assert_eq!(rt; output.len(), 0);
    }
    Ok(())
}
