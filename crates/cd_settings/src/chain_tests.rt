//! Filter chains, worked by hand from the manual page and the rules.
use crate::Settings;
use cd_conf::read_text;
use cd_types::TypesDb;
use cd_value::Memory;
use std::alloc::Global;
use std::test::Fail;

/// The number of a chain, or `-`.
fn number_text(alloc: Global, number: Option<u64>) -> Result<String, Memory> {
    match number {
        Some(number) => Ok(format!(in alloc; "{number}")?),
        None => Ok(format!(in alloc; "-")?),
    }
}

/// The number of chains of a text, and the chains before and behind the cache, or the first fault.
fn shown(alloc: Global, text: &str) -> Result<String, Memory> {
    let types = TypesDb::builtin(alloc)?;
    let items = match read_text(alloc, text.as_bytes()) {
        Ok(items) => items,
        Err(fault) => {
            return Ok(format!(in alloc; "{} in line {}", fault.kind, fault.line)?);
        }
    };
    match Settings::from_items(alloc, &items, &types) {
        Ok(settings) => {
            let before = number_text(alloc, settings.pre)?;
            let behind = number_text(alloc, settings.post)?;
            let count = settings.chains.len();
            Ok(format!(in alloc; "{count} {} {}", before.as_str(), behind.as_str())?)
        }
        Err(fault) => Ok(format!(in alloc; "{} in line {}", fault.kind, fault.line)?),
    }
}

/// Texts with the chains that they make, or their first fault. The lines count from 1.
const CHAINS: [(&str, &str); 49] = [
    // the chains before and behind the cache
    ("", "0 - -"),
    (
        "<Chain PostCache>\n</Chain>\n<Chain PreCache>\n</Chain>\n",
        "2 1 0",
    ),
    (
        "PostCacheChain b\nPostCacheChain a\n<Chain a>\n</Chain>\n",
        "1 - 0",
    ),
    ("<Chain precache>\n</Chain>\n", "1 - -"),
    // each form of a match and a target
    (
        "<Chain a>\n<Rule>\n<match regex>\nhost a\nHost b\nTYPE \"^c$\"\nInvert no\n</match>\n\
      Target stop\n</Rule>\nTarget write\n</Chain>\n",
        "1 - -",
    ),
    (
        "<Chain a>\n<Rule b>\nTarget return\n<Match timediff>\nFuture 0\nPast 0.000001\n</Match>\n\
      Match empty_counter\n</Rule>\n</Chain>\n",
        "1 - -",
    ),
    (
        "<Chain a>\n<Rule>\n<Match value>\nMin -5\nMax 0.5\nInvert true\nDataSource a b\nSatisfy aNY\n\
      </Match>\nTarget stop\n</Rule>\n</Chain>\n",
        "1 - -",
    ),
    (
        "<Chain a>\n<Target write>\nPlugin a\nPlugin b\n</Target>\n<Target jump>\nChain b\n</Target>\n\
      </Chain>\n<Chain b>\n</Chain>\n",
        "2 - -",
    ),
    (
        "<Chain a>\n<Target set>\nHost a\nPluginInstance \"\"\n</Target>\n<Target replace>\n\
      Plugin \"^a\" \"\"\n</Target>\n</Chain>\n",
        "1 - -",
    ),
    (
        "<Chain a>\n<Target notification>\nMessage \"%{host} late\"\nSeverity okay\n</Target>\n\
      </Chain>\n",
        "1 - -",
    ),
    // sections
    ("<Chain>\n</Chain>\n", "wrong arguments in line 1"),
    ("<Chain a>\nRule b\n</Chain>\n", "unknown option in line 2"),
    (
        "<Chain a>\n<Rule b c>\n</Rule>\n</Chain>\n",
        "wrong arguments in line 2",
    ),
    (
        "<Chain a>\nMatch empty_counter\n</Chain>\n",
        "unknown option in line 2",
    ),
    (
        "<Chain a>\nTarget Stop\n</Chain>\n",
        "unknown option in line 2",
    ),
    (
        "<Chain a>\nTarget none none\n</Chain>\n",
        "wrong arguments in line 2",
    ),
    (
        "<Chain a>\n<Rule>\nMatch \"\"\n</Rule>\n</Chain>\n",
        "unknown option in line 3",
    ),
    // matches
    (
        "<Chain a>\n<Rule>\n<Match regex>\nInvert true\n</Match>\n</Rule>\n</Chain>\n",
        "wrong arguments in line 3",
    ),
    (
        "<Chain a>\n<Rule>\n<Match regex>\nInvert 1\nHost \"(\"\n</Match>\n</Rule>\n</Chain>\n",
        "wrong arguments in line 4",
    ),
    (
        "<Chain a>\n<Rule>\n<Match regex>\nHost \"(\"\nInvert 1\n</Match>\n</Rule>\n</Chain>\n",
        "bad pattern in line 4",
    ),
    (
        "<Chain a>\n<Rule>\n<Match regex>\nHost a b\n</Match>\n</Rule>\n</Chain>\n",
        "wrong arguments in line 4",
    ),
    (
        "<Chain a>\n<Rule>\n<Match timediff>\nPast 0\nFuture 0\n</Match>\n</Rule>\n</Chain>\n",
        "wrong arguments in line 3",
    ),
    (
        "<Chain a>\n<Rule>\n<Match timediff>\nPast 1000000000.5\n</Match>\n</Rule>\n</Chain>\n",
        "wrong arguments in line 4",
    ),
    (
        "<Chain a>\n<Rule>\nMatch value\n</Rule>\n</Chain>\n",
        "wrong arguments in line 3",
    ),
    (
        "<Chain a>\n<Rule>\n<Match value>\nDataSource a 1\n</Match>\n</Rule>\n</Chain>\n",
        "wrong arguments in line 4",
    ),
    (
        "<Chain a>\n<Rule>\n<Match value>\nSatisfy one\n</Match>\n</Rule>\n</Chain>\n",
        "wrong arguments in line 4",
    ),
    (
        "<Chain a>\n<Rule>\n<Match empty_counter>\nInvert true\n</Match>\n</Rule>\n</Chain>\n",
        "unknown option in line 4",
    ),
    // targets
    (
        "<Chain a>\n<Target stop>\nA 1\n</Target>\n</Chain>\n",
        "unknown option in line 3",
    ),
    (
        "<Chain a>\n<Target write>\nPlugin 1\n</Target>\n</Chain>\n",
        "wrong arguments in line 3",
    ),
    (
        "<Chain a>\nTarget jump\n</Chain>\n",
        "wrong arguments in line 2",
    ),
    (
        "<Chain a>\n<Target jump>\nChain a\nChain b\n</Target>\n</Chain>\n",
        "wrong arguments in line 2",
    ),
    (
        "<Chain a>\nTarget set\n</Chain>\n",
        "wrong arguments in line 2",
    ),
    (
        "<Chain a>\n<Target set>\nHost \"\"\n</Target>\n</Chain>\n",
        "wrong arguments in line 3",
    ),
    (
        "<Chain a>\n<Target set>\nPlugin \"\"\n</Target>\n</Chain>\n",
        "wrong arguments in line 3",
    ),
    (
        "<Chain a>\n<Target set>\nType a\n</Target>\n</Chain>\n",
        "unknown option in line 3",
    ),
    (
        "<Chain a>\nTarget replace\n</Chain>\n",
        "wrong arguments in line 2",
    ),
    (
        "<Chain a>\n<Target replace>\nHost a\n</Target>\n</Chain>\n",
        "wrong arguments in line 3",
    ),
    (
        "<Chain a>\n<Target replace>\nHost \"(\" a\n</Target>\n</Chain>\n",
        "bad pattern in line 3",
    ),
    (
        "<Chain a>\n<Target notification>\nSeverity OKAY\n</Target>\n</Chain>\n",
        "wrong arguments in line 2",
    ),
    (
        "<Chain a>\n<Target notification>\nMessage \"\"\n</Target>\n</Chain>\n",
        "wrong arguments in line 3",
    ),
    (
        "<Chain a>\n<Target notification>\nSeverity ok\n</Target>\n</Chain>\n",
        "wrong arguments in line 3",
    ),
    // chains
    (
        "<Chain a>\n</Chain>\n<Chain b>\n</Chain>\n<Chain a>\n</Chain>\n",
        "duplicate chain in line 5",
    ),
    (
        "<Chain a>\n<Rule>\nTarget stop\n</Rule>\n<Rule>\n</Rule>\n</Chain>\n",
        "empty rule in line 5",
    ),
    (
        "<Chain a>\n<Target jump>\nChain b\n</Target>\n<Rule>\n<Target jump>\nChain c\n</Target>\n\
      </Rule>\n</Chain>\n",
        "unknown chain in line 6",
    ),
    (
        "\n\n<Chain \"A\">\n<Target \"jump\">\nChain \"B\"\n</Target>\n</Chain>\n<Chain \"B\">\n\
      <Target \"jump\">\nChain \"A\"\n</Target>\n</Chain>\n",
        "jump cycle A, B, A in line 4",
    ),
    (
        "<Chain b>\n</Chain>\n<Chain a>\nTarget write\n<target jump>\nchain b\n</target>\n\
      <Target jump>\nChain a\n</Target>\n</Chain>\n",
        "jump cycle a, a in line 8",
    ),
    // limits that cross come before the faults of chains, and those behind the faults of items
    (
        "<Chain a>\n</Chain>\n<Chain a>\n</Chain>\nFoo 1\n",
        "unknown option in line 5",
    ),
    (
        "<Chain a>\n</Chain>\n<Chain a>\n</Chain>\nWriteQueueLimitLow 2\nWriteQueueLimitHigh 1\n",
        "limits crossed in line 5",
    ),
    (
        "<Chain a>\n</Chain>\n<Chain a>\n</Chain>\nTimeout 0\n",
        "wrong arguments in line 5",
    ),
];

#[test]
fn reads_chains(rt: HostRuntime) -> Result<(), Fail> {
    for (text, want) in CHAINS {
        let got = shown(rt.alloc(), text)?;
        assert_eq!(rt; got.as_str(), want, "at {text}");
    }
    Ok(())
}
