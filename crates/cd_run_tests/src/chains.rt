//! Runs over memory with filter chains, worked by hand: what is said, and what the writer got.
use crate::runs::{Ran, run_on, shelf_of, told};
use cd_io::LinkPlan;
use cd_registry::{Answer, Kinds};
use cd_serve::{status, text_of};
use std::alloc::Global;
use std::test::Fail;

/// The types file.
const TYPES: &str =
    "counter value:COUNTER:U:U\nderive value:DERIVE:0:U\ngauge value:GAUGE:U:U\nmysql_command value:DERIVE:0:U\npair rx:GAUGE:U:U, tx:GAUGE:U:U\n";

/// What each configuration begins with.
const LOADED: &str = "TypesDB \"types.db\"\nLoadPlugin w\n";

/// Configurations, lines, what is said for them, and what the plug-ins got: `v` and `w`, both writers, of which `w` gets
/// notifications too.
const SCENARIOS: [(&str, &str, &str, &str); 29] = [
    // A stop behind the cache: the list is cached, and no writer gets it.
    (
        "<Chain \"PostCache\">\n<Rule \"ignore_show\">\n<Match \"regex\">\nPlugin \"^mysql$\"\nTypeInstance \"^show_\"\n</Match>\nTarget \"stop\"\n</Rule>\nTarget \"write\"\n</Chain>\n",
        "PUTVAL h/mysql/mysql_command-show_x 1:7\nPUTVAL h/mysql/mysql_command-set 1:7\nLISTVAL\n",
        "0 Success\n0 Success\n2 Values found\n1 h/mysql/mysql_command-set\n1 h/mysql/mysql_command-show_x\n",
        "w: write h/mysql/mysql_command-set 1\n",
    ),
    // A return ends the chain that was jumped to alone; a stop ends all.
    (
        "<Chain \"PostCache\">\n<Target \"jump\">\nChain \"J\"\n</Target>\nTarget \"write\"\n</Chain>\n<Chain \"J\">\nTarget \"return\"\n</Chain>\n",
        "PUTVAL h/p/gauge 1:1\n",
        "0 Success\n",
        "w: write h/p/gauge 1\n",
    ),
    (
        "<Chain \"PostCache\">\n<Target \"jump\">\nChain \"J\"\n</Target>\nTarget \"write\"\n</Chain>\n<Chain \"J\">\nTarget \"stop\"\n</Chain>\n",
        "PUTVAL h/p/gauge 1:1\n",
        "0 Success\n",
        "",
    ),
    // A write has the list as it is then.
    (
        "<Chain \"PostCache\">\nTarget \"write\"\n<Target \"set\">\nHost \"x\"\n</Target>\nTarget \"write\"\n</Chain>\n",
        "PUTVAL h/p/derive 1:1\n",
        "0 Success\n",
        "w: write h/p/derive 1\nw: write x/p/derive 1\n",
    ),
    // A set before the cache changes the name under which a list is cached.
    (
        "<Chain \"PreCache\">\n<Rule>\n<Match \"regex\">\nPlugin \"^p$\"\n</Match>\n<Target \"set\">\nPlugin \"a-b\"\n</Target>\n</Rule>\n</Chain>\n",
        "PUTVAL h/p/gauge 1:1\nPUTVAL h/a-b/gauge 2:2\nLISTVAL\n",
        "0 Success\n0 Success\n1 Value found\n2 h/a-b/gauge\n",
        "w: write h/a-b/gauge 1\nw: write h/a-b/gauge 2\n",
    ),
    // A stop before the cache: nothing is cached, but what was written before it was.
    (
        "<Chain \"PreCache\">\nTarget \"write\"\nTarget \"stop\"\n</Chain>\n",
        "PUTVAL h/p/gauge 1:1\nLISTVAL\n",
        "0 Success\n0 Values found\n",
        "w: write h/p/gauge 1\n",
    ),
    // A named chain before the cache; behind it one that isn't there, so the list is written to all.
    (
        "PreCacheChain \"early\"\nPostCacheChain \"late\"\n<Chain \"early\">\n<Rule>\n<Match \"regex\">\nPlugin \"^q$\"\n</Match>\nTarget \"stop\"\n</Rule>\n</Chain>\n<Chain \"PostCache\">\nTarget \"stop\"\n</Chain>\n",
        "PUTVAL h/q/gauge 1:1\nPUTVAL h/p/gauge 1:1\nLISTVAL\n",
        "0 Success\n0 Success\n1 Value found\n1 h/p/gauge\n",
        "w: write h/p/gauge 1\n",
    ),
    // Both chains run: what the first writes comes first, and the second has the list as the first left it.
    (
        "<Chain \"PreCache\">\nTarget \"write\"\n<Target \"set\">\nHost \"y\"\n</Target>\n</Chain>\n<Chain \"PostCache\">\nTarget \"write\"\n</Chain>\n",
        "PUTVAL h/p/gauge 1:1\nLISTVAL\n",
        "0 Success\n1 Value found\n1 y/p/gauge\n",
        "w: write h/p/gauge 1\nw: write y/p/gauge 1\n",
    ),
    // A write to named writers: an unknown one is skipped.
    (
        "<Chain \"PostCache\">\n<Target \"write\">\nPlugin \"x\"\nPlugin \"w\"\n</Target>\n</Chain>\n",
        "PUTVAL h/p/gauge 1:1\n",
        "0 Success\n",
        "w: write h/p/gauge 1\n",
    ),
    // An unknown rate passes no range; the rates are 1 and 199.
    (
        "<Chain \"PostCache\">\n<Rule>\n<Match \"value\">\nMax 10\n</Match>\nTarget \"stop\"\n</Rule>\nTarget \"write\"\n</Chain>\n",
        "PUTVAL h/p/derive 100:0 110:10 120:2000\n",
        "0 Success\n",
        "w: write h/p/derive 100\nw: write h/p/derive 120\n",
    ),
    // The daemon's clock stands at 2,000,000,000 and goes on by a second with each question.
    (
        "<Chain \"PostCache\">\n<Rule>\n<Match \"timediff\">\nPast 3600\n</Match>\nTarget \"stop\"\n</Rule>\nTarget \"write\"\n</Chain>\n",
        "PUTVAL h/p/gauge 1999990000:1 1999999999:1\n",
        "0 Success\n",
        "w: write h/p/gauge 1999999999\n",
    ),
    (
        "<Chain \"PostCache\">\n<Rule>\nMatch \"empty_counter\"\nTarget \"stop\"\n</Rule>\nTarget \"write\"\n</Chain>\n",
        "PUTVAL h/p/counter 1:0 2:5\nPUTVAL h/p/gauge 3:0\n",
        "0 Success\n0 Success\n",
        "w: write h/p/counter 2\nw: write h/p/gauge 3\n",
    ),
    // Only the first match is replaced, and only where all patterns are found, here turned round.
    (
        "<Chain \"PostCache\">\n<Rule>\n<Match \"regex\">\nHost \"^h$\"\nPlugin \"^q\"\nInvert true\n</Match>\n<Target \"replace\">\nPlugin \"p\" \"x\"\n</Target>\n</Rule>\nTarget \"write\"\n</Chain>\n",
        "PUTVAL h/pp/gauge 1:1\nPUTVAL h/qp/gauge 1:1\n",
        "0 Success\n0 Success\n",
        "w: write h/xp/gauge 1\nw: write h/qp/gauge 1\n",
    ),
    // A list that is older than the cached one isn't cached, and goes through the chain behind the cache all the same.
    (
        "<Chain \"PostCache\">\n<Target \"set\">\nTypeInstance \"%{plugin}\"\n</Target>\nTarget \"write\"\n</Chain>\n",
        "PUTVAL h/p/gauge 2:2 1:1\nLISTVAL\n",
        "0 Success\n1 Value found\n2 h/p/gauge\n",
        "w: write h/p/gauge-p 2\nw: write h/p/gauge-p 1\n",
    ),
    // A rule whose second match doesn't hold does nothing.
    (
        "<Chain \"PostCache\">\n<Rule>\n<Match \"regex\">\nHost \"h\"\n</Match>\n<Match \"regex\">\nHost \"i\"\n</Match>\nTarget \"stop\"\n</Rule>\nTarget \"write\"\n</Chain>\n",
        "PUTVAL h/p/gauge 1:1\nPUTVAL hi/p/gauge 1:1\n",
        "0 Success\n0 Success\n",
        "w: write h/p/gauge 1\n",
    ),
    // Without a chain behind the cache all writers that are loaded get the list.
    (
        "LoadPlugin v\n",
        "PUTVAL h/p/gauge 1:1\n",
        "0 Success\n",
        "v: write h/p/gauge 1\nw: write h/p/gauge 1\n",
    ),
    // Two writers are loaded, and the chain names one of them, and one that isn't there, which is skipped.
    (
        "LoadPlugin v\n<Chain \"PostCache\">\n<Target \"write\">\nPlugin \"x\"\nPlugin \"v\"\n</Target>\n</Chain>\n",
        "PUTVAL h/p/gauge 1:1\n",
        "0 Success\n",
        "v: write h/p/gauge 1\n",
    ),
    // A name that is given twice gets the list once, and one that stands in another case isn't there.
    (
        "LoadPlugin v\n<Chain \"PostCache\">\n<Target \"write\">\nPlugin \"w\"\nPlugin \"V\"\nPlugin \"w\"\n</Target>\nTarget \"write\"\n</Chain>\n",
        "PUTVAL h/p/gauge 1:1\n",
        "0 Success\n",
        "v: write h/p/gauge 1\nw: write h/p/gauge 1\nw: write h/p/gauge 1\n",
    ),
    // What a chain that was jumped to sets stands behind the jump too.
    (
        "<Chain \"PostCache\">\n<Target \"jump\">\nChain \"J\"\n</Target>\nTarget \"write\"\n</Chain>\n<Chain \"J\">\n<Target \"set\">\nHost \"x\"\n</Target>\n</Chain>\n",
        "PUTVAL h/p/gauge 1:1\nLISTVAL\n",
        "0 Success\n1 Value found\n1 h/p/gauge\n",
        "w: write x/p/gauge 1\n",
    ),
    // A stop in a chain that was jumped to before the cache: nothing is stored.
    (
        "<Chain \"PreCache\">\n<Target \"jump\">\nChain \"J\"\n</Target>\nTarget \"write\"\n</Chain>\n<Chain \"J\">\n<Rule>\n<Match \"regex\">\nPlugin \"^q$\"\n</Match>\nTarget \"stop\"\n</Rule>\n</Chain>\n",
        "PUTVAL h/q/gauge 1:1\nGETVAL h/q/gauge\nPUTVAL h/p/gauge 1:1\nGETVAL h/p/gauge\n",
        "0 Success\n-1 No such value\n0 Success\n1 Value found\nvalue=1.000000\n",
        "w: write h/p/gauge 1\nw: write h/p/gauge 1\n",
    ),
    // The lists are handled at 2,000,000,001, .02 and .03: the first two are 3,600 s ahead, and the third isn't.
    (
        "<Chain \"PostCache\">\n<Rule>\n<Match \"timediff\">\nFuture 3600\n</Match>\nTarget \"stop\"\n</Rule>\nTarget \"write\"\n</Chain>\n",
        "PUTVAL h/p/gauge 2000003601:1 2000003602:1 2000003602.5:1\n",
        "0 Success\n",
        "w: write h/p/gauge 2000003602\n",
    ),
    // A notification makes no call, and the chain goes on.
    (
        "<Chain \"PostCache\">\n<Target \"notification\">\nMessage \"%{host}\"\nSeverity \"FAILURE\"\n</Target>\nTarget \"write\"\n</Chain>\n",
        "PUTVAL h/p/gauge 1:1\n",
        "0 Success\n",
        "w: write h/p/gauge 1\n",
    ),
    // Several replacements: each of the first that is found alone, in its field, and one by nothing.
    (
        "<Chain \"PostCache\">\n<Target \"replace\">\nHost \"[.]example[.]org$\" \"\"\nPlugin \"p\" \"q\"\n</Target>\nTarget \"write\"\n</Chain>\n",
        "PUTVAL web.example.org/pp/gauge 1:1\n",
        "0 Success\n",
        "w: write web/qp/gauge 1\n",
    ),
    // A rate of a source that is named: at least 5, the bound is in the range, and an unknown one is not.
    (
        "<Chain \"PostCache\">\n<Rule>\n<Match \"value\">\nMin 5\nDataSource \"rx\"\n</Match>\nTarget \"stop\"\n</Rule>\nTarget \"write\"\n</Chain>\n",
        "PUTVAL h/p/pair 1:5:0 2:4:9 3:U:9\n",
        "0 Success\n",
        "w: write h/p/pair 2\nw: write h/p/pair 3\n",
    ),
    // All have to pass where nothing else is said.
    (
        "<Chain \"PostCache\">\n<Rule>\n<Match \"value\">\nMin 5\nMax 8\n</Match>\nTarget \"stop\"\n</Rule>\nTarget \"write\"\n</Chain>\n",
        "PUTVAL h/p/pair 1:5:8 2:5:9 3:4:8 4:U:8\n",
        "0 Success\n",
        "w: write h/p/pair 2\nw: write h/p/pair 3\nw: write h/p/pair 4\n",
    ),
    // One is enough where that is said.
    (
        "<Chain \"PostCache\">\n<Rule>\n<Match \"value\">\nMin 5\nSatisfy \"Any\"\n</Match>\nTarget \"stop\"\n</Rule>\nTarget \"write\"\n</Chain>\n",
        "PUTVAL h/p/pair 1:5:0 2:4:4 3:U:5\n",
        "0 Success\n",
        "w: write h/p/pair 2\n",
    ),
    // Turned round, each rate is known and outside of the range.
    (
        "<Chain \"PostCache\">\n<Rule>\n<Match \"value\">\nMin 5\nInvert true\n</Match>\nTarget \"stop\"\n</Rule>\nTarget \"write\"\n</Chain>\n",
        "PUTVAL h/p/pair 1:4:4 2:4:5 3:U:4\n",
        "0 Success\n",
        "w: write h/p/pair 2\nw: write h/p/pair 3\n",
    ),
    // So of one of two, and a source that the type doesn't have passes nothing.
    (
        "<Chain \"PostCache\">\n<Rule>\n<Match \"value\">\nMin 5\nInvert true\nSatisfy \"Any\"\nDataSource \"tx\" \"rx\"\n</Match>\nTarget \"stop\"\n</Rule>\n<Rule>\n<Match \"value\">\nMin 0\nSatisfy \"Any\"\nDataSource \"rx\" \"value\"\n</Match>\nTarget \"stop\"\n</Rule>\nTarget \"write\"\n</Chain>\n",
        "PUTVAL h/p/pair 1:5:4 2:5:5\n",
        "0 Success\n",
        "w: write h/p/pair 2\n",
    ),
    // Before the cache the rates are those that were cached, so the first list has none.
    (
        "<Chain \"PreCache\">\n<Rule>\n<Match \"value\">\nMin 5\n</Match>\nTarget \"stop\"\n</Rule>\n</Chain>\n",
        "PUTVAL h/p/gauge 1:5 2:1 3:1\nGETVAL h/p/gauge\n",
        "0 Success\n1 Value found\nvalue=5.000000\n",
        "w: write h/p/gauge 1\n",
    ),
];

/// The shelf of each run.
const SHELF: [(&str, Kinds, Answer); 2] = [
    ("v", Kinds::WRITE, Answer::Done),
    ("w", Kinds(9), Answer::Done),
];

/// A run by these words over a configuration `c` and the types file; what it said comes behind it.
fn ran(
    alloc: Global,
    words: &str,
    configuration: &str,
    input: &str,
) -> Result<(Ran, Vec<u8>), Fail> {
    let shelf = shelf_of(alloc, SHELF.as_slice())?;
    let files = [("c", configuration), ("types.db", TYPES)];
    let bytes = input.as_bytes().to_vec(alloc)?;
    run_on(
        alloc,
        shelf,
        words,
        files.as_slice(),
        bytes,
        LinkPlan::new(alloc),
    )
}

#[test]
fn lists_go_through_chains(rt: HostRuntime) -> Result<(), Fail> {
    let alloc = rt.alloc();
    for (chains, input, said, got) in SCENARIOS {
        let mut configuration = String::from_str(alloc, LOADED)?;
        configuration.push_str(chains)?;
        let (ran, output) = ran(
            alloc,
            "collectd --lines -C c",
            configuration.as_str(),
            input,
        )?;
        assert_eq!(rt; status(&ran.end), 0);
        assert_eq!(rt; output.as_slice(), said.as_bytes());
        assert_eq!(rt; told(alloc, &ran)?.as_str(), got);
    }
    Ok(())
}

/// Chains that are refused, and why.
const REFUSED: [(&str, &str); 8] = [
    (
        "<Chain \"A\">\n<Target \"jump\">\nChain \"B\"\n</Target>\n</Chain>\n<Chain \"B\">\n<Target \"jump\">\nChain \"A\"\n</Target>\n</Chain>\n",
        "line 2: jump cycle A, B, A",
    ),
    (
        "<Chain \"A\">\n<Rule>\n<Match \"regex\">\nPlugin \"(\"\n</Match>\nTarget \"stop\"\n</Rule>\n</Chain>\n",
        "line 4: bad pattern",
    ),
    (
        "<Chain \"A\">\n</Chain>\n<Chain \"A\">\n</Chain>\n",
        "line 3: duplicate chain",
    ),
    (
        "<Chain \"A\">\n<Rule>\n</Rule>\n</Chain>\n",
        "line 2: empty rule",
    ),
    (
        "<Chain \"A\">\nTarget \"stop\"\n<Target \"jump\">\nChain \"B\"\n</Target>\n</Chain>\n",
        "line 3: unknown chain",
    ),
    (
        "<Chain \"A\">\nTarget \"drop\"\n</Chain>\n",
        "line 2: unknown option",
    ),
    (
        "<Chain \"A\">\n<Rule>\n<Match \"timediff\">\nPast 0\n</Match>\nTarget \"stop\"\n</Rule>\n</Chain>\n",
        "line 3: wrong arguments",
    ),
    (
        "<Chain \"A\">\nTarget \"set\"\n</Chain>\n",
        "line 2: wrong arguments",
    ),
];

#[test]
fn chains_are_refused(rt: HostRuntime) -> Result<(), Fail> {
    let alloc = rt.alloc();
    for (chains, why) in REFUSED {
        let (ran, _) = ran(alloc, "collectd -C c -t", chains, "")?;
        let mut message = String::from_str(alloc, "collectd: settings, ")?;
        message.push_str(why)?;
        message.push_str("\n")?;
        assert_eq!(rt; status(&ran.end), 2);
        assert_eq!(rt; text_of(alloc, &ran.end)?.as_str(), message.as_str());
    }
    Ok(())
}

/// So many times a text behind another.
fn push_times(text: &mut String, line: &str, times: usize) -> Result<(), Fail> {
    for _ in 0..times {
        text.push_str(line)?;
    }
    Ok(())
}

/// A chain of one rule with 64 writes, one that jumps there 64 times, and four above it that jump to the one before.
#[test]
fn heavy_chains_are_refused(rt: HostRuntime) -> Result<(), Fail> {
    let alloc = rt.alloc();
    let mut chains = String::from_str(alloc, "<Chain \"0\">\n<Rule>\n")?;
    push_times(&mut chains, "Target \"write\"\n", 64)?;
    chains.push_str("</Rule>\n</Chain>\n")?;
    for (name, below, times) in [
        ("1", "0", 64),
        ("2", "1", 1),
        ("3", "2", 1),
        ("4", "3", 1),
        ("5", "4", 1),
    ] {
        chains.push_str("<Chain \"")?;
        chains.push_str(name)?;
        chains.push_str("\">\n")?;
        let mut jump = String::from_str(alloc, "<Target \"jump\">\nChain \"")?;
        jump.push_str(below)?;
        jump.push_str("\"\n</Target>\n")?;
        push_times(&mut chains, jump.as_str(), times)?;
        chains.push_str("</Chain>\n")?;
    }
    let (ran, _) = ran(alloc, "collectd -C c -t", chains.as_str(), "")?;
    assert_eq!(rt; status(&ran.end), 2);
    assert_eq!(rt;
        text_of(alloc, &ran.end)?.as_str(),
        "collectd: settings, line 69: chain too heavy\n"
    );
    Ok(())
}
