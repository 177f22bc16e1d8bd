//! Cases worked by hand from the rules.
use crate::{
    DataSet, DataSource, DsType, FlushRequest, IdFault, Identifier, Memory, Names, Notification,
    Offered, Rate, SECOND, Sequence, Severity, Sources, Text, TryCopy, Value, ValueList, clean,
    longest_front, print_millionths,
};
use std::alloc::{AllocError, Global};
use std::test::Fail;

/// 127 bytes.
const LONGEST: &str =
    "aaaaaaaaaaaaaaaaaaaaaaaaaaaaaaaaaaaaaaaaaaaaaaaaaaaaaaaaaaaaaaaaaaaaaaaaaaaaaaaaaaaaaaaaaaaaaaaaaaaaaaaaaaaaaaaaaaaaaaaaaaaaaaa";

/// The fields of an identifier and its name, or the fault.
fn shown(alloc: Global, read: Result<Identifier, IdFault>) -> Result<String, AllocError> {
    let id = match read {
        Ok(id) => id,
        Err(fault) => return format!(in alloc; "{fault:?}"),
    };
    let Ok(name) = id.name(alloc) else {
        return Err(AllocError);
    };
    let (host, plugin, type_name) = (id.host.as_str(), id.plugin.as_str(), id.type_name.as_str());
    let (first, second) = (id.plugin_instance.as_str(), id.type_instance.as_str());
    format!(in alloc;
        "{host}|{plugin}|{first}|{type_name}|{second} {}",
        name.as_str()
    )
}

#[test]
fn reads_identifiers(rt: HostRuntime) -> Result<(), Fail> {
    let alloc = rt.alloc();
    for (text, want) in [
        ("h/p/derive", "h|p||derive| h/p/derive"),
        (
            "h-1/cpu-0/cpu-user-nice",
            "h-1|cpu|0|cpu|user-nice h-1/cpu-0/cpu-user-nice",
        ),
        ("é/a-b-c/t-x/y/z", "é|a|b-c|t|x/y/z é/a-b-c/t-x/y/z"),
        ("h/p-/t-", "h|p||t| h/p/t"),
        ("h/p--/t--", "h|p|-|t|- h/p--/t--"),
        ("h p/q \"r\"/T_1", "h p|q \"r\"||T_1| h p/q \"r\"/T_1"),
        ("h/p", "BadIdentifier"),
        ("/p/t", "BadIdentifier"),
        ("h//t", "BadIdentifier"),
        ("h/p/", "BadIdentifier"),
        ("h/-x/t", "BadIdentifier"),
        ("h/p/-x", "BadIdentifier"),
        ("h/p/t/u", "BadIdentifier"),
        ("h/p/t.u", "BadIdentifier"),
        ("h/p/é", "BadIdentifier"),
        ("h\n/p/t", "BadIdentifier"),
        ("h/p/t-\u{7f}", "BadIdentifier"),
    ] {
        let got = shown(alloc, Identifier::read(alloc, text))?;
        assert_eq!(rt; got.as_str(), want, "at {text}");
    }
    for (start, end, want) in [
        ("", "/p/t", None),
        ("h/p-", "/t", None),
        ("h/p/", "-i", None),
        ("h/p/t-", "", None),
        ("h", "/p/t", Some(IdFault::FieldTooLong)),
        ("h/p-", "x/t", Some(IdFault::FieldTooLong)),
        ("h/p/t-", "é", Some(IdFault::FieldTooLong)),
        ("h", "//t", Some(IdFault::BadIdentifier)),
    ] {
        let text = format!(in alloc; "{start}{LONGEST}{end}")?;
        let fault = match Identifier::read(alloc, text.as_str()) {
            Ok(_) => None,
            Err(fault) => Some(fault),
        };
        assert_eq!(rt; fault, want, "at {text}");
    }
    Ok(())
}

/// A rate as its fraction and its print.
fn fraction(alloc: Global, rate: Rate) -> Result<String, AllocError> {
    let Ok(print) = rate.print(alloc) else {
        return Err(AllocError);
    };
    let print = print.as_str();
    match rate {
        Rate::Known { num, den } => format!(in alloc; "{num}/{den} {print}"),
        Rate::Unknown => format!(in alloc; "{print}"),
    }
}

#[test]
fn takes_rates(rt: HostRuntime) -> Result<(), Fail> {
    use Value::{Absolute, Counter, Derive, Gauge};
    let alloc = rt.alloc();
    for (old, new, dt, range, want) in [
        (
            Some(Derive(5)),
            Derive(25),
            10 * SECOND,
            (None, None),
            "21474836480000000/10737418240 2.000000",
        ),
        (
            Some(Derive(25)),
            Derive(5),
            10 * SECOND,
            (None, None),
            "-21474836480000000/10737418240 -2.000000",
        ),
        (
            Some(Derive(25)),
            Derive(5),
            10 * SECOND,
            (Some(0), None),
            "NaN",
        ),
        (
            Some(Derive(0)),
            Derive(1),
            3 * SECOND,
            (None, None),
            "1073741824000000/3221225472 0.333333",
        ),
        (
            Some(Derive(0)),
            Derive(-1),
            3 * SECOND,
            (None, None),
            "-1073741824000000/3221225472 -0.333333",
        ),
        (
            Some(Derive(0)),
            Derive(-1),
            2_000_001 * SECOND,
            (None, None),
            "-1073741824000000/2147484721741824 0.000000",
        ),
        (
            Some(Derive(i64::MIN)),
            Derive(i64::MAX),
            SECOND,
            (None, None),
            "19807040628566084397312245760000000/1073741824 18446744073709551615.000000",
        ),
        (
            Some(Counter(4_294_967_295)),
            Counter(4),
            SECOND,
            (None, None),
            "5368709120000000/1073741824 5.000000",
        ),
        (
            Some(Counter(4_294_967_296)),
            Counter(4),
            SECOND,
            (None, None),
            "19807040623954398384253566976000000/1073741824 18446744069414584324.000000",
        ),
        (
            Some(Counter(u64::MAX)),
            Counter(0),
            SECOND,
            (None, None),
            "1073741824000000/1073741824 1.000000",
        ),
        (
            Some(Counter(7)),
            Counter(7),
            SECOND,
            (None, None),
            "0/1073741824 0.000000",
        ),
        (
            Some(Absolute(900)),
            Absolute(30),
            10 * SECOND,
            (None, None),
            "32212254720000000/10737418240 3.000000",
        ),
        (
            None,
            Gauge(Some(1_500_000)),
            0,
            (Some(1_500_000), Some(1_500_000)),
            "1500000/1 1.500000",
        ),
        (
            None,
            Gauge(Some(1_499_999)),
            0,
            (Some(1_500_000), None),
            "NaN",
        ),
        (
            None,
            Gauge(Some(1_500_001)),
            0,
            (None, Some(1_500_000)),
            "NaN",
        ),
        (None, Gauge(None), 0, (None, None), "NaN"),
        (None, Derive(1), SECOND, (None, None), "NaN"),
        (None, Counter(1), SECOND, (None, None), "NaN"),
        (None, Absolute(1), SECOND, (None, None), "NaN"),
        (Some(Derive(1)), Derive(2), 0, (None, None), "NaN"),
    ] {
        let source = DataSource {
            name: Text::new(alloc),
            kind: DsType::Gauge,
            min: range.0,
            max: range.1,
        };
        let got = fraction(alloc, Rate::of(old.as_ref(), &new, dt, &source))?;
        assert_eq!(rt; got.as_str(), want);
    }
    for (num, den, at_least, at_most, millionths) in [
        (1, 3, false, true, Some(0)),
        (3, 3, true, true, Some(1)),
        (4, 3, true, false, Some(1)),
        (-4, 3, false, true, Some(-1)),
        (1, 0, false, false, None),
    ] {
        let rate = Rate::Known { num, den };
        assert_eq!(rt; rate.at_least(1), at_least, "at {num}/{den}");
        assert_eq!(rt; rate.at_most(1), at_most, "at {num}/{den}");
        assert_eq!(rt; rate.millionths(), millionths, "at {num}/{den}");
    }
    let third = Rate::Known { num: -1, den: 3 };
    assert!(rt; third.at_least(i128::MIN) && third.at_most(i128::MAX));
    assert_eq!(rt;
        fraction(alloc, Rate::Known { num: 1, den: 0 })?.as_str(),
        "1/0 NaN"
    );
    Ok(())
}

#[test]
fn prints_and_cleans(rt: HostRuntime) -> Result<(), Fail> {
    let alloc = rt.alloc();
    for (value, want) in [
        (0, "0.000000"),
        (1, "0.000001"),
        (-1, "-0.000001"),
        (1_260_000, "1.260000"),
        (-12_000_005, "-12.000005"),
        (
            1_000_000_000_000_000_000_000_000_000_000,
            "1000000000000000000000000.000000",
        ),
        (i128::MAX, "170141183460469231731687303715884.105727"),
        (i128::MIN, "-170141183460469231731687303715884.105728"),
    ] {
        let text = print_millionths(alloc, value)?;
        assert_eq!(rt; text.as_str(), want);
    }
    for (text, slash, old, needed, want) in [
        ("a/b\n\u{7f}", true, "", false, "a_b__"),
        ("a/b", false, "", true, "a/b"),
        ("", true, "old", true, "old"),
        ("", true, "old", false, ""),
        ("\u{80}é", true, "", true, "\u{80}é"),
    ] {
        let field = clean(
            alloc,
            Text::of(alloc, text)?,
            slash,
            &Text::of(alloc, old)?,
            needed,
        )?;
        assert_eq!(rt; field.as_str(), want);
    }
    for (end, want) in [("", 127), ("b", 127), ("é", 127)] {
        let text = format!(in alloc; "{LONGEST}{end}")?;
        let field = clean(
            alloc,
            Text::from_string(text),
            true,
            &Text::new(alloc),
            true,
        )?;
        assert_eq!(rt; field.len(), want);
    }
    let text = format!(in alloc; "é{LONGEST}")?;
    let odd = format!(in alloc; "{}é", longest_front(LONGEST, 126))?;
    assert_eq!(rt; longest_front(text.as_str(), 1), "");
    assert_eq!(rt; longest_front(odd.as_str(), 127).len(), 126);
    Ok(())
}

#[test]
fn keeps_values(rt: HostRuntime) -> Result<(), Fail> {
    let alloc = rt.alloc();
    let dashed = Identifier {
        host: Text::of(alloc, "h")?,
        plugin: Text::of(alloc, "a-b")?,
        plugin_instance: Text::of(alloc, "c")?,
        type_name: Text::of(alloc, "gauge")?,
        type_instance: Text::new(alloc),
    };
    let name = dashed.name(alloc)?;
    let again = shown(alloc, Identifier::read(alloc, name.as_str()))?;
    assert_eq!(rt; again.as_str(), "h|a|b-c|gauge| h/a-b-c/gauge");
    let mut values = Sequence::new(alloc);
    values.push(Value::Gauge(None))?;
    values.push(Value::Derive(-1))?;
    let list = ValueList {
        id: dashed,
        time: 1,
        interval: 2,
        values,
    };
    let copy = list.copy(alloc)?;
    assert_eq!(rt; copy.id.name(alloc)?.as_str(), "h/a-b-c/gauge");
    assert_eq!(rt; (copy.time, copy.interval), (1, 2));
    assert_eq!(rt;
        copy.values.as_slice(),
        [Value::Gauge(None), Value::Derive(-1)].as_slice()
    );
    let note = Notification {
        severity: Severity::Warning,
        time: 3,
        host: Text::of(alloc, "h")?,
        plugin: Text::of(alloc, "p")?,
        plugin_instance: Text::new(alloc),
        type_name: Text::of(alloc, "t")?,
        type_instance: Text::new(alloc),
        message: Text::of(alloc, "late")?,
    };
    let copy = note.copy(alloc)?;
    assert_eq!(rt; copy.severity, Severity::Warning);
    assert_eq!(rt; copy.message.into_string().as_str(), "late");
    let mut text = Text::with_capacity(alloc, 3)?;
    assert!(rt; text.is_empty());
    text.push("h/p")?;
    assert!(rt; Text::of(alloc, "h/a")? < text && text < Text::of(alloc, "h/p-")?);
    assert!(rt; text == Text::of(alloc, "h/p")?);
    Ok(())
}

#[test]
fn copies_lists(rt: HostRuntime) -> Result<(), Fail> {
    let alloc = rt.alloc();
    let mut sources = Sources::new(alloc);
    sources.push(DataSource {
        name: Text::of(alloc, "rx")?,
        kind: DsType::Derive,
        min: Some(0),
        max: None,
    })?;
    let set = DataSet {
        name: Text::of(alloc, "if_octets")?,
        sources,
    };
    let set = set.copy(alloc)?;
    assert_eq!(rt; (set.name.as_str(), set.sources.len()), ("if_octets", 1));
    for source in set.sources.as_slice() {
        assert_eq!(rt; (source.name.as_str(), source.kind), ("rx", DsType::Derive));
        assert_eq!(rt; (source.min, source.max), (Some(0), None));
    }
    let mut names = Names::new(alloc);
    names.push(Text::of(alloc, "h/p/gauge")?)?;
    let request = FlushRequest {
        plugins: Names::new(alloc),
        names,
        timeout: Some(5),
    };
    let request = request.copy(alloc)?;
    assert_eq!(rt; (request.plugins.len(), request.names.len()), (0, 1));
    assert_eq!(rt; request.timeout, Some(5));
    let fates = Sequence::from_vec([Offered::Kept, Offered::Dropped].to_vec(alloc)?);
    assert_eq!(rt; (fates.len(), fates.is_empty()), (2, false));
    assert_eq!(rt;
        fates.copy(alloc)?.into_vec().as_slice(),
        [Offered::Kept, Offered::Dropped].as_slice()
    );
    Ok(())
}

/// The copy of one row.
fn copied_row(alloc: Global) -> Result<(u64, Text), Memory> {
    (7, Text::of(alloc, "h/p/t")?).copy(alloc)
}

#[test]
fn copies_rows_and_rates(rt: HostRuntime) -> Result<(), Fail> {
    let alloc = rt.alloc();
    let mut rows = Sequence::new(alloc);
    rows.push(copied_row(alloc)?)?;
    let rows = rows.copy(alloc)?;
    assert_eq!(rt; rows.len(), 1);
    for (time, name) in rows.as_slice() {
        assert_eq!(rt; (*time, name.as_str()), (7, "h/p/t"));
    }
    let mut rates = Sequence::new(alloc);
    rates.push(Rate::Known { num: 3, den: 2 })?;
    let rates = rates.copy(alloc)?;
    assert_eq!(rt; rates.len(), 1);
    for rate in rates.as_slice() {
        assert_eq!(rt; fraction(alloc, *rate)?.as_str(), "3/2 0.000001");
    }
    Ok(())
}
