//! Cases worked by hand from the manual page and the rules.
use crate::{Settings, types_paths};
use cd_conf::read_text;
use cd_types::TypesDb;
use cd_value::Memory;
use std::alloc::Global;
use std::test::Fail;

/// The options of the whole daemon, as a line.
fn push_globals(alloc: Global, out: &mut String, settings: &Settings) -> Result<(), Memory> {
    let globals = &settings.globals;
    let times = format!(in alloc;
        "{} {} {}",
        globals.interval, globals.timeout, globals.longest
    )?;
    let threads = format!(in alloc; "{} {}", globals.read_threads, globals.write_threads)?;
    let limits = format!(in alloc; "{} {}", globals.high, globals.low)?;
    let line = format!(in alloc;
        "{} {times} {threads} {limits}\n",
        globals.hostname.as_str()
    )?;
    out.push_str(line.as_str())?;
    Ok(())
}

/// What is loaded, the blocks, the socket and the Listens, a line each.
fn push_plugins(alloc: Global, out: &mut String, settings: &Settings) -> Result<(), Memory> {
    for name in settings.loaded.as_slice() {
        out.push_str(format!(in alloc; "load {}\n", name.as_str())?.as_str())?;
    }
    for block in settings.blocks.as_slice() {
        out.push_str(format!(in alloc; "block {}\n", block.name.as_str())?.as_str())?;
        out.push_str(block.text.as_str())?;
    }
    if let Some(path) = &settings.socket {
        out.push_str(format!(in alloc; "socket {}\n", path.as_str())?.as_str())?;
    }
    for listen in settings.listens.as_slice() {
        let text = format!(in alloc; "listen {} {}\n", listen.host.as_str(), listen.port)?;
        out.push_str(text.as_str())?;
    }
    Ok(())
}

/// The settings of a text, or their first fault.
fn shown(alloc: Global, text: &str) -> Result<String, Memory> {
    let types = TypesDb::builtin(alloc)?;
    let mut out = String::new(alloc);
    let items = match read_text(alloc, text.as_bytes()) {
        Ok(items) => items,
        Err(fault) => {
            return Ok(format!(in alloc; "{} in line {}", fault.kind, fault.line)?);
        }
    };
    match Settings::from_items(alloc, &items, &types) {
        Ok(settings) => {
            push_globals(alloc, &mut out, &settings)?;
            push_plugins(alloc, &mut out, &settings)?;
        }
        Err(fault) => {
            out.push_str(format!(in alloc; "{} in line {}", fault.kind, fault.line)?.as_str())?;
        }
    }
    Ok(out)
}

/// Texts, and the settings of each.
const OPTIONS: [(&str, &str); 9] = [
    ("", "localhost 10737418240 2 92771293593600 5 5 0 0\n"),
    (
        "hostname \"web1\"\nINTERVAL 0.5\n",
        "web1 536870912 2 92771293593600 5 5 0 0\n",
    ),
    (
        "Interval 5\nInterval 0.000001\nMaxReadInterval 1000000000\n",
        "localhost 1073 2 1073741824000000000 5 5 0 0\n",
    ),
    (
        "Timeout 1000\nReadThreads 1\nWriteThreads 64\nTimeout 1\n",
        "localhost 10737418240 1 92771293593600 1 64 0 0\n",
    ),
    (
        "WriteQueueLimitHigh 1000000\nWriteQueueLimitHigh 7\n",
        "localhost 10737418240 2 92771293593600 5 5 7 3\n",
    ),
    (
        "WriteQueueLimitLow 9\nWriteQueueLimitLow 7\nWriteQueueLimitHigh 7\n",
        "localhost 10737418240 2 92771293593600 5 5 7 7\n",
    ),
    (
        "WriteQueueLimitLow 1000000\n",
        "localhost 10737418240 2 92771293593600 5 5 0 1000000\n",
    ),
    (
        "BaseDir \"/\"\nPluginDir 1\nPIDFile yes\nFQDNLookup true\nAutoLoadPlugin false\n\
         CollectInternalStats off\nPreCacheChain \"a\"\nPostCacheChain b\nTypesDB a b\n",
        "localhost 10737418240 2 92771293593600 5 5 0 0\n",
    ),
    (
        "<Plugin network>\nListen 1\n</Plugin>\n<Plugin threshold>\n</Plugin>\n",
        "localhost 10737418240 2 92771293593600 5 5 0 0\n",
    ),
];

#[test]
fn reads_the_options_of_the_daemon(rt: HostRuntime) -> Result<(), Fail> {
    for (text, want) in OPTIONS {
        let got = shown(rt.alloc(), text)?;
        assert_eq!(rt; got.as_str(), want, "at {text}");
    }
    Ok(())
}

/// Texts, and the fault of each.
const FAULTS: [(&str, &str); 37] = [
    ("<Plugin network>\n= 1\n</Plugin>\n", "bad key in line 2"),
    ("\nFoo 1\nTimeout 0\n", "unknown option in line 2"),
    ("Timeout 0\nFoo 1\n", "wrong arguments in line 1"),
    (
        "<Hostname \"a\">\n</Hostname>\n",
        "unknown option in line 1",
    ),
    ("Plugin \"a\"\n", "unknown option in line 1"),
    (
        "<LoadPlugin \"a\">\n</LoadPlugin>\n",
        "unknown option in line 1",
    ),
    ("Chain \"a\"\n", "unknown option in line 1"),
    ("Include \"a\"\n", "unknown option in line 1"),
    ("Hostname \"\"\n", "wrong arguments in line 1"),
    ("Hostname \"a/b\"\n", "wrong arguments in line 1"),
    ("Hostname \"a\tb\"\n", "wrong arguments in line 1"),
    ("Hostname 1\n", "wrong arguments in line 1"),
    ("Hostname a b\n", "wrong arguments in line 1"),
    ("Interval 0\n", "wrong arguments in line 1"),
    ("Interval -1\n", "wrong arguments in line 1"),
    ("Interval \"1\"\n", "wrong arguments in line 1"),
    ("Interval 1000000000.000001\n", "wrong arguments in line 1"),
    ("MaxReadInterval 0\n", "wrong arguments in line 1"),
    ("Timeout 1001\n", "wrong arguments in line 1"),
    ("Timeout 1.5\n", "wrong arguments in line 1"),
    ("ReadThreads 65\n", "wrong arguments in line 1"),
    ("WriteThreads 0\n", "wrong arguments in line 1"),
    ("WriteQueueLimitHigh 1000001\n", "wrong arguments in line 1"),
    ("WriteQueueLimitLow -1\n", "wrong arguments in line 1"),
    ("TypesDB \"a\" 1\n", "wrong arguments in line 1"),
    ("PreCacheChain a b\n", "wrong arguments in line 1"),
    ("PostCacheChain 1\n", "wrong arguments in line 1"),
    ("LoadPlugin true\n", "wrong arguments in line 1"),
    ("BaseDir a b\n", "wrong arguments in line 1"),
    ("AutoLoadPlugin true\n", "wrong arguments in line 1"),
    (
        "CollectInternalStats \"false\"\n",
        "wrong arguments in line 1",
    ),
    ("<Plugin>\n</Plugin>\n", "wrong arguments in line 1"),
    (
        "WriteQueueLimitLow 8\nWriteQueueLimitLow 9\nWriteQueueLimitHigh 8\n",
        "limits crossed in line 2",
    ),
    (
        "WriteQueueLimitLow 9\nWriteQueueLimitHigh 8\nFoo 1\n",
        "unknown option in line 3",
    ),
    (
        "LoadPlugin threshold\n<Plugin threshold>\nFoo 1\n</Plugin>\n",
        "unknown option in line 2",
    ),
    (
        "LoadPlugin unixsock\n<Plugin unixsock>\nSocketPerms 1 a\nSocketFile 1\n</Plugin>\n",
        "wrong arguments in line 4",
    ),
    (
        "LoadPlugin unixsock\n<Plugin unixsock>\n<SocketGroup>\n</SocketGroup>\n</Plugin>\n",
        "unknown option in line 3",
    ),
];

#[test]
fn gives_the_first_fault_and_its_line(rt: HostRuntime) -> Result<(), Fail> {
    for (text, want) in FAULTS {
        let got = shown(rt.alloc(), text)?;
        assert_eq!(rt; got.as_str(), want, "at {text}");
    }
    Ok(())
}

/// A block of `network` with these items, behind its LoadPlugin.
fn network(alloc: Global, items: &str) -> Result<String, Memory> {
    let text = format!(in alloc; "LoadPlugin network\n<Plugin network>\n{items}</Plugin>\n")?;
    shown(alloc, text.as_str())
}

/// Items of `network`, and the Listens of each.
const LISTENS: [(&str, &str); 3] = [
    ("MaxPacketSize 1024\nMaxPacketSize 65535\n", ""),
    ("Listen \"::\"\n", "listen :: 25826\n"),
    (
        "<Listen a 1>\n</Listen>\nlisten b \"65535\"\n",
        "listen a 1\nlisten b 65535\n",
    ),
];

/// Items of `network`, and the fault of each.
const NETWORK_FAULTS: [(&str, &str); 16] = [
    ("MaxPacketSize 1023\n", "wrong arguments in line 3"),
    ("MaxPacketSize 65536\n", "wrong arguments in line 3"),
    ("Server a\n", "unknown option in line 3"),
    ("Listen 1\n", "wrong arguments in line 3"),
    ("Listen a 0\n", "wrong arguments in line 3"),
    ("Listen a 65536\n", "wrong arguments in line 3"),
    ("Listen a \"65536\"\n", "wrong arguments in line 3"),
    ("Listen a \"080\"\n", "wrong arguments in line 3"),
    ("Listen a \"+80\"\n", "wrong arguments in line 3"),
    ("Listen a \"\"\n", "wrong arguments in line 3"),
    ("Listen a 1 2\n", "wrong arguments in line 3"),
    ("<Listen>\nFoo 1\n</Listen>\n", "wrong arguments in line 3"),
    (
        "<Listen a>\nFoo 1\nBar 1\n</Listen>\n",
        "unknown option in line 4",
    ),
    (
        "Listen a\nListen a\nListen a\nListen a\nListen a\n",
        "too many in line 7",
    ),
    (
        "Listen a\nListen a\nListen a\nListen a\nListen 1\n",
        "wrong arguments in line 7",
    ),
    (
        "Listen a\nListen a\nListen a\nListen a\n<Listen a>\nFoo 1\n</Listen>\n",
        "too many in line 7",
    ),
];

#[test]
fn reads_listens(rt: HostRuntime) -> Result<(), Fail> {
    let defaults = "localhost 10737418240 2 92771293593600 5 5 0 0\nload network\n";
    for (items, want) in LISTENS {
        let got = network(rt.alloc(), items)?;
        let want = format!(in rt.alloc(); "{defaults}{want}")?;
        assert_eq!(rt; got.as_str(), want.as_str(), "at {items}");
    }
    for (items, want) in NETWORK_FAULTS {
        let got = network(rt.alloc(), items)?;
        assert_eq!(rt; got.as_str(), want, "at {items}");
    }
    Ok(())
}

/// The configuration of a small machine.
const SAMPLE: &str = "# collectd.conf
Hostname \"web1\"
FQDNLookup true
TypesDB \"types.db\"
Interval 10
LoadPlugin syslog
LoadPlugin load
LoadPlugin csv
LoadPlugin unixsock
LoadPlugin threshold

<Plugin csv>
\tDataDir \"/var/lib/collectd/csv\"   # raw values
</Plugin>
<Plugin unixsock>
\tSocketFile \"/var/run/collectd-unixsock\"
\tSocketPerms \"0660\"
</Plugin>
";

/// Its settings.
const SETTINGS: &str = "web1 10737418240 2 92771293593600 5 5 0 0
load syslog
load load
load csv
load unixsock
load threshold
block csv
DataDir \"/var/lib/collectd/csv\"
socket /var/run/collectd-unixsock
";

/// Blocks before and behind the LoadPlugin of their plug-in, and several of one.
const BLOCKS: &str = "<Plugin a>
A 1
</Plugin>
LoadPlugin a
LoadPlugin b
LoadPlugin a
<Plugin b>
</Plugin>
<Plugin a>
B 0x10
</Plugin>
<Plugin A>
C 1
</Plugin>
<Plugin unixsock>
SocketFile \"x\"
</Plugin>
<Plugin a>
<D e>
F yes
</D>
</Plugin>
LoadPlugin unixsock
";

/// Their settings.
const JOINED: &str = "localhost 10737418240 2 92771293593600 5 5 0 0
load a
load b
load unixsock
block b
block a
B 16
<D \"e\">
  F true
</D>
socket /var/run/collectd-unixsock
";

#[test]
fn hands_blocks_to_their_plugins(rt: HostRuntime) -> Result<(), Fail> {
    assert_eq!(rt; shown(rt.alloc(), SAMPLE)?.as_str(), SETTINGS);
    assert_eq!(rt; shown(rt.alloc(), BLOCKS)?.as_str(), JOINED);
    Ok(())
}

#[test]
fn finds_the_files_of_types(rt: HostRuntime) -> Result<(), Fail> {
    let text = "TypesDB \"a\"\n<TypesDB \"b\">\nTypesDB \"c\"\n</TypesDB>\ntypesdb 1 \"d\" yes e\n";
    let mut out = String::new(rt.alloc());
    if let Ok(items) = read_text(rt.alloc(), text.as_bytes()) {
        for path in types_paths(rt.alloc(), &items)?.as_slice() {
            out.push_str(path.as_str())?;
            out.push_str(",")?;
        }
    }
    assert_eq!(rt; out.as_str(), "a,d,e,");
    Ok(())
}
