//! Cases worked by hand from the rules.
use crate::{ConfFault, FILE_LIMIT, Items, print, read, read_text};
use cd_io::{MemSource, SourcePlan};
use cd_value::Memory;
use std::alloc::Global;
use std::test::Fail;

/// The canonical text of items, or a fault.
fn shown_result(alloc: Global, read: Result<Items, ConfFault>) -> Result<String, Memory> {
    match read {
        Ok(items) => Ok(print(alloc, &items)?.into_string()),
        Err(fault) => Ok(format!(in alloc; "{} in line {}", fault.kind, fault.line)?),
    }
}

/// The canonical text of a text's items, or its first fault.
fn shown(alloc: Global, text: &[u8]) -> Result<String, Memory> {
    shown_result(alloc, read_text(alloc, text))
}

#[test]
fn gives_the_first_fault_and_its_line(rt: HostRuntime) -> Result<(), Fail> {
    for (text, want) in [
        ("= 1\n", "bad key in line 1"),
        ("\n\n\"a\" 1\n", "bad key in line 3"),
        ("< Plugin x>\n", "bad key in line 1"),
        ("<>\n", "bad key in line 1"),
        ("</ Foo>\n", "bad key in line 1"),
        ("Foo 1\n \\ Bar 2\n", "bad key in line 2"),
        ("\\\n\\\n=\n", "bad key in line 3"),
        ("Foo 1\n= 1\nBar\n", "bad key in line 2"),
        ("Foo\n= 1\n", "bad value in line 1"),
        ("Foo # 1\n", "bad value in line 1"),
        ("A 1\nFoo \\\n\\\n", "bad value in line 2"),
        ("Foo 1 \\ 2\n", "bad value in line 1"),
        ("Foo 1 \\", "bad value in line 1"),
        ("Foo 1 \\\r\n 2\n", "bad value in line 1"),
        ("Foo \\\n 1 = \"\n", "bad value in line 2"),
        ("Foo >\n", "bad value in line 1"),
        ("<Foo 1\n</Foo>\n", "bad value in line 1"),
        ("<Foo \\\n 1\n</Foo>\n", "bad value in line 1"),
        ("<Foo> 1\n", "bad value in line 1"),
        ("<Foo> \\\n \"\n", "bad value in line 2"),
        ("<Foo>\n</Foo\n", "bad value in line 2"),
        ("<Foo>\n</Foo \"x\n", "bad value in line 2"),
        ("<Foo>\n</Foo> 1\n", "bad value in line 2"),
        ("Foo 1.0000000\n", "bad value in line 1"),
        ("Foo 1000000000000000.000001\n", "bad value in line 1"),
        ("Foo -0x38d7ea4c68001\n", "bad value in line 1"),
        ("Foo \"a\nb\"\n", "unterminated string in line 1"),
        ("\nFoo \"a", "unterminated string in line 2"),
        ("Foo \"a\\", "unterminated string in line 1"),
        ("Foo \"a\\\n  b\\\n c\n", "unterminated string in line 1"),
        ("Foo \\\n \"a", "unterminated string in line 2"),
        ("<A>\n<B>\n</B>\n", "unclosed section in line 1"),
        ("<A>\n<B>\n", "unclosed section in line 2"),
        ("</A>\n", "wrong end in line 1"),
        ("<A>\n</B 1>\n", "wrong end in line 2"),
        ("<A>\n</AB\n", "wrong end in line 2"),
    ] {
        let got = shown(rt.alloc(), text.as_bytes())?;
        assert_eq!(rt; got.as_str(), want, "at {text}");
    }
    Ok(())
}

#[test]
fn gives_the_line_of_a_byte_that_is_no_text(rt: HostRuntime) -> Result<(), Fail> {
    let got = shown(rt.alloc(), b"=\n# \xc3\xa9\n\xff\n")?;
    assert_eq!(rt; got.as_str(), "not UTF-8 in line 3");
    let got = shown(rt.alloc(), b"\x00\x9f\x17\n\x80")?;
    assert_eq!(rt; got.as_str(), "not UTF-8 in line 1");
    Ok(())
}

#[test]
fn reads_and_prints_lines(rt: HostRuntime) -> Result<(), Fail> {
    for (text, want) in [
        ("", ""),
        ("\r\n \\\n a 1\r\n", "a 1\n"),
        ("a 1", "a 1\n"),
        ("Foo.bar 1\n", "Foo \".bar\" 1\n"),
        ("a\"b\"c\n", "a \"b\" \"c\"\n"),
        (
            "a +1.50 -0 007 0x1F 0.000001 -12.5\n",
            "a 1.5 0 7 31 0.000001 -12.5\n",
        ),
        (
            "a 1. .5 08 0x 0X1 1e5 - +\n",
            "a \"1.\" \".5\" \"08\" \"0x\" \"0X1\" \"1e5\" \"-\" \"+\"\n",
        ),
        ("a 1000000000000000\n", "a 1000000000000000\n"),
        (
            "a TRUE yes On false no oFF tru\n",
            "a true true true false false false \"tru\"\n",
        ),
        ("a \"x\\\"y\\\\z\\n#\"\n", "a \"x\\\"y\\\\zn#\"\n"),
        ("a \"b\\\n \t c\\\nd\" e\n", "a \"bcd\" \"e\"\n"),
        ("a \"\u{e9}\" \"\"\n", "a \"\u{e9}\" \"\"\n"),
        ("a 1 # c \\\nb \\\n2# \"\n", "a 1\nb 2\n"),
        (
            "<A x>\nb 1\n<C>\n</c>\n</a> #\n",
            "<A \"x\">\n  b 1\n  <C>\n  </C>\n</A>\n",
        ),
    ] {
        let got = shown(rt.alloc(), text.as_bytes())?;
        assert_eq!(rt; got.as_str(), want, "at {text}");
    }
    Ok(())
}

#[test]
fn keeps_the_limits(rt: HostRuntime) -> Result<(), Fail> {
    let mut deep = String::new(rt.alloc());
    for _ in 0..16 {
        deep.push_str("<A>\n")?;
    }
    let got = shown(rt.alloc(), deep.as_bytes())?;
    assert_eq!(rt; got.as_str(), "unclosed section in line 16");
    deep.push_str("<A =\n")?;
    let got = shown(rt.alloc(), deep.as_bytes())?;
    assert_eq!(rt; got.as_str(), "too deep in line 17");
    let mut long = vec![in rt.alloc(); b'#'; FILE_LIMIT]?;
    assert_eq!(rt; shown(rt.alloc(), long.as_slice())?.as_str(), "");
    long.push(0xff)?;
    assert_eq!(rt;
        shown(rt.alloc(), long.as_slice())?.as_str(),
        "too long in line 0"
    );
    Ok(())
}

#[test]
fn reads_a_source(rt: HostRuntime) -> Result<(), Fail> {
    let alloc = rt.alloc();
    for (text, failing, want) in [
        ("a 1\n<B>\n</B>\n", 9, "a 1\n<B>\n</B>\n"),
        ("a 1\n<B>\n", 9, "unclosed section in line 2"),
        ("a 1\n=\n", 2, "read failed in line 0"),
    ] {
        let mut plan = SourcePlan::new(alloc);
        plan.piece_limit = 3;
        plan.failing_reads.push(failing)?;
        let mut source = MemSource::new(text.as_bytes().to_vec(alloc)?, plan);
        let got = shown_result(alloc, read(alloc, &mut source))?;
        assert_eq!(rt; got.as_str(), want, "at {text}");
    }
    Ok(())
}

/// The configuration of a small machine.
const SAMPLE: &str = "# collectd.conf
Hostname \"web1\"
FQDNLookup true
TypesDB \"types.db\"
Interval 10
LoadPlugin syslog
LoadPlugin load
LoadPlugin csv
LoadPlugin unixsock
LoadPlugin threshold

<Plugin csv>
\tDataDir \"/var/lib/collectd/csv\"   # raw values
</Plugin>
<Plugin unixsock>
\tSocketFile \"/var/run/collectd-unixsock\"
\tSocketPerms \"0660\"
</Plugin>
<Plugin threshold>
\t<Type \"load\">
\t\tDataSource \"shortterm\"
\t\tFailureMax 4
\t\tHits 3
\t\tHysteresis 3
\t</Type>
</Plugin>
<Chain \"PostCache\">
\t<Rule \"ignore_show\">
\t\t<Match \"regex\">
\t\t\tPlugin \"^mysql$\"
\t\t\tTypeInstance \\
\t\t\t\t\"^show_\"
\t\t</Match>
\t\tTarget \"stop\"
\t</Rule>
\tTarget \"write\"
</Chain>
";

/// Its canonical text.
const CANONICAL: &str = "Hostname \"web1\"
FQDNLookup true
TypesDB \"types.db\"
Interval 10
LoadPlugin \"syslog\"
LoadPlugin \"load\"
LoadPlugin \"csv\"
LoadPlugin \"unixsock\"
LoadPlugin \"threshold\"
<Plugin \"csv\">
  DataDir \"/var/lib/collectd/csv\"
</Plugin>
<Plugin \"unixsock\">
  SocketFile \"/var/run/collectd-unixsock\"
  SocketPerms \"0660\"
</Plugin>
<Plugin \"threshold\">
  <Type \"load\">
    DataSource \"shortterm\"
    FailureMax 4
    Hits 3
    Hysteresis 3
  </Type>
</Plugin>
<Chain \"PostCache\">
  <Rule \"ignore_show\">
    <Match \"regex\">
      Plugin \"^mysql$\"
      TypeInstance \"^show_\"
    </Match>
    Target \"stop\"
  </Rule>
  Target \"write\"
</Chain>
";

#[test]
fn prints_the_canonical_text(rt: HostRuntime) -> Result<(), Fail> {
    let once = shown(rt.alloc(), SAMPLE.as_bytes())?;
    assert_eq!(rt; once.as_str(), CANONICAL);
    Ok(())
}

/// Puts the key and the line of each item behind, an item before what stands in it.
fn push_lines(alloc: Global, out: &mut String, items: &Items) -> Result<(), Memory> {
    for item in items.as_slice() {
        let text = format!(in alloc; "{} {}\n", item.key.as_str(), item.line)?;
        out.push_str(text.as_str())?;
        push_lines(alloc, out, &item.children)?;
    }
    Ok(())
}

/// The keys and lines of the sample's items.
const LINES: &str = "Hostname 2
FQDNLookup 3
TypesDB 4
Interval 5
LoadPlugin 6
LoadPlugin 7
LoadPlugin 8
LoadPlugin 9
LoadPlugin 10
Plugin 12
DataDir 13
Plugin 15
SocketFile 16
SocketPerms 17
Plugin 19
Type 20
DataSource 21
FailureMax 22
Hits 23
Hysteresis 24
Chain 27
Rule 28
Match 29
Plugin 30
TypeInstance 31
Target 34
Target 36
";

#[test]
fn gives_the_line_of_each_item(rt: HostRuntime) -> Result<(), Fail> {
    let mut got = String::new(rt.alloc());
    if let Ok(items) = read_text(rt.alloc(), SAMPLE.as_bytes()) {
        push_lines(rt.alloc(), &mut got, &items)?;
    }
    assert_eq!(rt; got.as_str(), LINES);
    Ok(())
}
