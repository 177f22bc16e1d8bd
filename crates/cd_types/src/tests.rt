//! Cases worked by hand from the rules.
use crate::fit::fits_set;
use crate::{TypesDb, TypesFault};
use cd_io::{MemSource, SourcePlan};
use cd_value::{
    DataSet, DataSource, DsType, IdFault, Identifier, Memory, Sequence, Text, Value, ValueList,
};
use std::alloc::Global;
use std::test::Fail;

/// 10^30.
const MOST: i128 = 1_000_000_000_000_000_000_000_000_000_000;

/// A list of up to two values.
fn list(
    alloc: Global,
    name: &str,
    first: Option<Value>,
    second: Option<Value>,
) -> Result<ValueList, IdFault> {
    let id = Identifier::read(alloc, name)?;
    let mut values = Sequence::new(alloc);
    if let Some(value) = first {
        values.push(value)?;
    }
    if let Some(value) = second {
        values.push(value)?;
    }
    Ok(ValueList {
        id,
        time: 0,
        interval: 0,
        values,
    })
}

#[test]
fn knows_four_types(rt: HostRuntime) -> Result<(), Fail> {
    let alloc = rt.alloc();
    let types = TypesDb::builtin(alloc)?;
    for (name, kind, min) in [
        ("absolute", DsType::Absolute, Some(0)),
        ("counter", DsType::Counter, None),
        ("derive", DsType::Derive, Some(0)),
        ("gauge", DsType::Gauge, None),
    ] {
        let set = types.get(name).ok_or("unknown")?;
        assert_eq!(rt; set.name.as_str(), name);
        assert_eq!(rt; set.sources.len(), 1);
        for source in set.sources.as_slice() {
            assert_eq!(rt; source.name.as_str(), "value");
            assert_eq!(rt; (source.kind, source.min, source.max), (kind, min, None));
        }
    }
    for name in ["load", "gaug", "gauge2", "GAUGE", ""] {
        assert!(rt; types.get(name).is_none());
    }
    Ok(())
}

#[test]
fn fits_built_in_sets(rt: HostRuntime) -> Result<(), Fail> {
    use Value::{Absolute, Counter, Derive, Gauge};
    let alloc = rt.alloc();
    let types = TypesDb::builtin(alloc)?;
    for (name, value, want) in [
        ("h/p/gauge", Gauge(Some(MOST)), true),
        ("h/p/gauge", Gauge(Some(-MOST)), true),
        ("h/p/gauge", Gauge(Some(MOST + 1)), false),
        ("h/p/gauge", Gauge(Some(-MOST - 1)), false),
        ("h/p/gauge-x", Gauge(None), true),
        ("h/p/gauge", Derive(1), false),
        ("h/p/derive", Derive(i64::MIN), true),
        ("h/p/derive", Gauge(None), false),
        ("h/p/counter", Counter(u64::MAX), true),
        ("h/p/counter", Absolute(1), false),
        ("h/p/absolute", Absolute(0), true),
        ("h/p/absolute", Counter(1), false),
        ("h/p/load", Gauge(None), false),
    ] {
        let list = list(alloc, name, Some(value), None)?;
        assert_eq!(rt; types.fits(&list), want, "at {name}");
    }
    assert!(rt; !types.fits(&list(alloc, "h/p/gauge", None, None)?));
    Ok(())
}

/// A set of a derive and a gauge.
fn link(alloc: Global) -> Result<DataSet, Memory> {
    let mut sources = Sequence::new(alloc);
    for (name, kind) in [("rx", DsType::Derive), ("rate", DsType::Gauge)] {
        let name = Text::of(alloc, name)?;
        sources.push(DataSource {
            name,
            kind,
            min: None,
            max: None,
        })?;
    }
    let name = Text::of(alloc, "link")?;
    Ok(DataSet { name, sources })
}

#[test]
fn fits_sets_of_two(rt: HostRuntime) -> Result<(), Fail> {
    use Value::{Derive, Gauge};
    let alloc = rt.alloc();
    let set = link(alloc)?;
    for (name, first, second, want) in [
        ("h/p/link", Derive(1), Some(Gauge(None)), true),
        ("h/p/link", Gauge(None), Some(Derive(1)), false),
        ("h/p/link", Derive(1), Some(Gauge(Some(MOST + 1))), false),
        ("h/p/link", Derive(1), None, false),
        ("h/p/other", Derive(1), Some(Gauge(None)), false),
    ] {
        let list = list(alloc, name, Some(first), second)?;
        assert_eq!(rt; fits_set(&set, &list), want, "at {name}");
    }
    Ok(())
}

/// The printed sets, or a fault.
fn shown(alloc: Global, read: Result<TypesDb, TypesFault>) -> Result<String, Memory> {
    match read {
        Ok(db) => Ok(db.print(alloc)?.into_string()),
        Err(fault) => Ok(format!(in alloc; "{} in line {}", fault.kind, fault.line)?),
    }
}

/// A types.db(5).
const SAMPLE: &str = "# sample
absolute   value:ABSOLUTE:0:U
counter    value:COUNTER:U:U
derive     value:DERIVE:0:U
df         used:GAUGE:0:1125899906842623, free:GAUGE:0:1125899906842623
df_complex value:GAUGE:0:U
gauge      value:GAUGE:U:U
if_octets  rx:DERIVE:0:U, tx:DERIVE:0:U
load       shortterm:GAUGE:0:5000, midterm:GAUGE:0:5000, longterm:GAUGE:0:5000
memory     value:GAUGE:0:281474976710656
mysql_command value:DERIVE:0:U
octets     value:COUNTER:0:4294967295
uptime     value:GAUGE:0:4294967295
";

/// Its printed form.
const PRINTED: &str = "absolute value:ABSOLUTE:0:U
counter value:COUNTER:U:U
derive value:DERIVE:0:U
df used:GAUGE:0:1125899906842623, free:GAUGE:0:1125899906842623
df_complex value:GAUGE:0:U
gauge value:GAUGE:U:U
if_octets rx:DERIVE:0:U, tx:DERIVE:0:U
load shortterm:GAUGE:0:5000, midterm:GAUGE:0:5000, longterm:GAUGE:0:5000
memory value:GAUGE:0:281474976710656
mysql_command value:DERIVE:0:U
octets value:COUNTER:0:4294967295
uptime value:GAUGE:0:4294967295
";

#[test]
fn prints_what_was_read(rt: HostRuntime) -> Result<(), Fail> {
    let alloc = rt.alloc();
    for (text, want) in [
        (SAMPLE, PRINTED),
        (PRINTED, PRINTED),
        ("", ""),
        ("\n \t\r\n#\n \t# a b\n", ""),
        (
            "z v:gauge:U:U\na v:Derive:U:U",
            "a v:DERIVE:U:U\nz v:GAUGE:U:U\n",
        ),
        ("\ta\tv:GAUGE:U:U,\t \r\n", "a v:GAUGE:U:U\n"),
        ("a v:GAUGE:U:U w:GAUGE:U:U", "a v:GAUGE:U:U, w:GAUGE:U:U\n"),
        ("a v:GAUGE:U:U\r", "a v:GAUGE:U:U\n"),
        ("a v:GAUGE:0.0000009:0.0000001\n", "a v:GAUGE:0:0\n"),
        ("a v:GAUGE:U:U\na w:GAUGE:U:U\n", "a w:GAUGE:U:U\n"),
        ("a v:GAUGE:-0.5:1e3\n", "a v:GAUGE:-0.5:1000\n"),
        ("a v:GAUGE:-1.0000019:+.25\n", "a v:GAUGE:-1.000001:0.25\n"),
        (
            "a v:GAUGE:-1e-9:1e24\n",
            "a v:GAUGE:0:1000000000000000000000000\n",
        ),
    ] {
        let got = shown(alloc, TypesDb::read_text(alloc, text.as_bytes()))?;
        assert_eq!(rt; got.as_str(), want, "at {text}");
        let again = shown(alloc, TypesDb::read_text(alloc, got.as_bytes()))?;
        assert_eq!(rt; again.as_str(), want, "again at {text}");
    }
    Ok(())
}

#[test]
fn gives_the_first_fault_and_its_line(rt: HostRuntime) -> Result<(), Fail> {
    let alloc = rt.alloc();
    for (text, want) in [
        ("a-b v:GAUGE:U:U\n", "bad name in line 1"),
        ("a,v:GAUGE:U:U\n", "bad name in line 1"),
        ("a-b\n", "bad name in line 1"),
        ("\n# a\n\na\n", "bad source in line 4"),
        ("a ,\n", "bad source in line 1"),
        ("a v:GAUGE:U:U,,\n", "bad source in line 1"),
        ("a v:GAUGE:U:U , w:GAUGE:U:U\n", "bad source in line 1"),
        ("a v:FOO:U:U,w:GAUGE:U:U\n", "bad source in line 1"),
        ("a v:FOO:x\n", "bad source in line 1"),
        ("a v:GAUGE:U:U:\n", "bad source in line 1"),
        ("a :GAUGE:U:U\n", "bad source in line 1"),
        ("a v:GAUGE:U:U v:FOO:U:U\n", "bad source in line 1"),
        ("a v:GAUGE:U:U, free:GAU", "bad source in line 1"),
        ("b v:GAUGE:U:U\na v:FLOAT:0:U\n", "bad kind in line 2"),
        ("a v:FOO:x:U v-w:GAUGE:U:U\n", "bad kind in line 1"),
        ("a v:GAUGE:u:U\n", "bad bound in line 1"),
        ("a v:GAUGE:U:1e25\n", "bad bound in line 1"),
        ("a v:GAUGE:1:0.999999\n", "bad bound in line 1"),
        ("a v:GAUGE:U:U\r\r\n", "bad bound in line 1"),
        ("a v:GAUGE:U:U\n=\nb\n", "bad name in line 2"),
    ] {
        let got = shown(alloc, TypesDb::read_text(alloc, text.as_bytes()))?;
        assert_eq!(rt; got.as_str(), want, "at {text}");
    }
    let got = shown(
        alloc,
        TypesDb::read_text(alloc, b"a v:GAUGE:U:U\n=\n#\xff\n".as_slice()),
    )?;
    assert_eq!(rt; got.as_str(), "bad name in line 2");
    let got = shown(
        alloc,
        TypesDb::read_text(alloc, b"a v:GAUGE:U:U\n# \xc3\n=\n".as_slice()),
    )?;
    assert_eq!(rt; got.as_str(), "not UTF-8 in line 2");
    Ok(())
}

/// A line of so many entries, with a text behind.
fn wide(alloc: Global, entries: u32, behind: &str) -> Result<String, Memory> {
    let mut text = String::from_str(alloc, "a")?;
    for i in 0..entries {
        let entry = format!(in alloc; " s{i}:GAUGE:U:U")?;
        text.push_str(entry.as_str())?;
    }
    text.push_str(behind)?;
    Ok(text)
}

#[test]
fn takes_sixteen_sources(rt: HostRuntime) -> Result<(), Fail> {
    let alloc = rt.alloc();
    for (entries, behind, want) in [
        (17, "", "too many sources in line 1"),
        (16, " ,", "too many sources in line 1"),
        (15, " =", "bad source in line 1"),
        (16, " \u{e9}", "too many sources in line 1"),
    ] {
        let text = wide(alloc, entries, behind)?;
        let got = shown(alloc, TypesDb::read_text(alloc, text.as_bytes()))?;
        assert_eq!(rt; got.as_str(), want, "at {text}");
    }
    let text = wide(alloc, 16, "")?;
    assert!(rt; TypesDb::read_text(alloc, text.as_bytes()).is_ok());
    Ok(())
}

#[test]
fn says_not_utf8_before_too_many(rt: HostRuntime) -> Result<(), Fail> {
    let alloc = rt.alloc();
    let mut text = wide(alloc, 17, "")?.into_bytes();
    text.push(0xff)?;
    let got = shown(alloc, TypesDb::read_text(alloc, text.as_slice()))?;
    assert_eq!(rt; got.as_str(), "not UTF-8 in line 1");
    Ok(())
}

/// A line with a name and a source's name of so many letters.
fn named(alloc: Global, name: u32, source: u32) -> Result<String, Memory> {
    let mut text = String::new(alloc);
    for _ in 0..name {
        text.push('n')?;
    }
    text.push(' ')?;
    for _ in 0..source {
        text.push('s')?;
    }
    text.push_str(":GAUGE:U:U\n")?;
    Ok(text)
}

#[test]
fn takes_names_of_so_many_bytes(rt: HostRuntime) -> Result<(), Fail> {
    let alloc = rt.alloc();
    for (name, source, want) in [
        (128, 63, "bad name in line 1"),
        (127, 64, "bad source in line 1"),
    ] {
        let text = named(alloc, name, source)?;
        let got = shown(alloc, TypesDb::read_text(alloc, text.as_bytes()))?;
        assert_eq!(rt; got.as_str(), want, "at {text}");
    }
    let text = named(alloc, 127, 63)?;
    let got = shown(alloc, TypesDb::read_text(alloc, text.as_bytes()))?;
    assert_eq!(rt; got.as_str(), text.as_str());
    Ok(())
}

#[test]
fn reads_a_source(rt: HostRuntime) -> Result<(), Fail> {
    let alloc = rt.alloc();
    for (text, failing, want) in [
        ("a v:GAUGE:U:U\n", 99, "a v:GAUGE:U:U\n"),
        ("a v:GAUGE:U:U\n=\n", 99, "bad name in line 2"),
        ("=\na v:GAUGE:U:U\n", 2, "read failed in line 0"),
    ] {
        let mut plan = SourcePlan::new(alloc);
        plan.piece_limit = 3;
        plan.failing_reads.push(failing)?;
        let mut source = MemSource::new(text.as_bytes().to_vec(alloc)?, plan);
        let got = shown(alloc, TypesDb::read(alloc, &mut source))?;
        assert_eq!(rt; got.as_str(), want, "at {text}");
    }
    let mut long = vec![in alloc; b'#'; 1_048_576]?;
    let got = shown(alloc, TypesDb::read_text(alloc, long.as_slice()))?;
    assert_eq!(rt; got.as_str(), "");
    long.push(b'\n')?;
    let mut source = MemSource::new(long, SourcePlan::new(alloc));
    let got = shown(alloc, TypesDb::read(alloc, &mut source))?;
    assert_eq!(rt; got.as_str(), "too long in line 0");
    Ok(())
}

#[test]
fn merges_sets(rt: HostRuntime) -> Result<(), Fail> {
    let alloc = rt.alloc();
    for (old, later, want) in [
        ("b v:GAUGE:U:U", "", "b v:GAUGE:U:U\n"),
        ("", "b v:GAUGE:U:U", "b v:GAUGE:U:U\n"),
        (
            "b v:GAUGE:U:U",
            "a w:GAUGE:U:U\nb w:GAUGE:U:U",
            "a w:GAUGE:U:U\nb w:GAUGE:U:U\n",
        ),
    ] {
        let mut got = String::new(alloc);
        if let Ok(mut db) = TypesDb::read_text(alloc, old.as_bytes()) {
            if let Ok(more) = TypesDb::read_text(alloc, later.as_bytes()) {
                assert!(rt; db.merge(alloc, more).is_ok());
            }
            got = shown(alloc, Ok(db))?;
        }
        assert_eq!(rt; got.as_str(), want, "at {old} and {later}");
    }
    Ok(())
}

#[test]
fn reads_random_bytes(rt: HostRuntime) -> Result<(), Fail> {
    let alloc = rt.alloc();
    let mut state = 1u64;
    for _ in 0..200u32 {
        let mut text = Vec::new(alloc);
        for _ in 0..60u32 {
            state = state
                .wrapping_mul(6364136223846793005)
                .wrapping_add(1442695040888963407);
            text.push((state >> 56) as u8)?;
        }
        match TypesDb::read_text(alloc, text.as_slice()) {
            Ok(db) => assert_eq!(rt; db.print(alloc)?.as_str(), ""),
            Err(fault) => assert!(rt; fault.line >= 1 && fault.line <= 61),
        }
    }
    Ok(())
}
