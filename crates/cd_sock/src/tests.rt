//! Cases worked by hand from the rules.
use crate::{Command, Line, LineCutter, LineFault, Reply, is_blank_line, print_reply};
use cd_types::TypesDb;
use cd_value::{FlushRequest, Lists, Memory, Names, Rate, Rates, Rows, SECOND, Text};
use std::alloc::Global;
use std::test::Fail;

/// The time and interval in seconds, the name and the values of each list.
fn shown_lists(alloc: Global, lists: &Lists) -> Result<String, Memory> {
    let mut text = String::new(alloc);
    for list in lists.as_slice() {
        let (time, interval) = (list.time / SECOND, list.interval / SECOND);
        let name = list.id.name(alloc)?;
        write!(text, "{time} {interval} {}", name.as_str())?;
        for value in list.values.as_slice() {
            write!(text, " {value:?}")?;
        }
        text.push(';')?;
    }
    Ok(text)
}

/// Adds each name behind a word.
fn push_each(text: &mut String, word: &str, names: &Names) -> Result<(), Memory> {
    for name in names.as_slice() {
        write!(text, " {word} {}", name.as_str())?;
    }
    Ok(())
}

/// The timeout in seconds, the plug-ins and the names of a request.
fn shown_flush(alloc: Global, request: &FlushRequest) -> Result<String, Memory> {
    let timeout = request.timeout.map(|timeout| timeout / SECOND);
    let mut text = format!(in alloc; "flush {timeout:?}")?;
    push_each(&mut text, "plugin", &request.plugins)?;
    push_each(&mut text, "name", &request.names)?;
    Ok(text)
}

/// What a line is read as at 2,000,000,000 s, with an interval of 20 s.
fn shown(alloc: Global, types: &TypesDb, line: &[u8]) -> Result<String, Memory> {
    match Command::read(alloc, line, types, 2_000_000_000 * SECOND, 20 * SECOND) {
        Ok(Command::Blank) => Ok(String::from_str(alloc, "blank")?),
        Ok(Command::PutVal(lists)) => shown_lists(alloc, &lists),
        Ok(Command::GetVal(id)) => {
            let name = id.name(alloc)?;
            Ok(format!(in alloc; "get {}", name.as_str())?)
        }
        Ok(Command::ListVal) => Ok(String::from_str(alloc, "list")?),
        Ok(Command::Flush(request)) => shown_flush(alloc, &request),
        Err(fault) => Ok(format!(in alloc; "{fault:?}")?),
    }
}

#[test]
fn gives_the_first_fault(rt: HostRuntime) -> Result<(), Fail> {
    let alloc = rt.alloc();
    let types = TypesDb::builtin(alloc)?;
    for (line, want) in [
        ("FOO \"h", "UnterminatedQuote"),
        ("FOO", "UnknownCommand"),
        ("\"\"", "UnknownCommand"),
        ("FLUSHES", "UnknownCommand"),
        ("PUTNOTIF", "UnknownCommand"),
        ("PUTVAL", "MissingArgument"),
        ("PUTVAL h foo=1 interval=0", "MissingArgument"),
        ("GETVAL", "MissingArgument"),
        ("PUTVAL h foo=1 x:1", "BadIdentifier"),
        ("GETVAL h x", "BadIdentifier"),
        (
            "FLUSH timeout=x foo identifier=h/p/t identifier=h",
            "BadIdentifier",
        ),
        ("PUTVAL h/p/none foo=1 x:1", "UnknownType"),
        ("PUTVAL h/p/derive interval=0 foo=1 x:1", "BadOption"),
        ("PUTVAL h/p/derive =1 x:1", "BadOption"),
        ("GETVAL h/p/derive x", "BadOption"),
        ("LISTVAL x", "BadOption"),
        ("FLUSH timeout=x foo=1", "BadOption"),
        ("FLUSH plugin=csv timeout", "BadOption"),
        ("PUTVAL h/p/derive 1:1:1 2:x y:1", "BadTime"),
        ("PUTVAL h/p/derive interval=0 1:1:1", "BadTime"),
        ("PUTVAL h/p/derive interval=0 interval=5 1:1", "BadTime"),
        ("PUTVAL h/p/derive interval=N 1:1", "BadTime"),
        ("PUTVAL h/p/derive n:1", "BadTime"),
        ("PUTVAL h/p/derive 1:1 interval=5", "BadTime"),
        ("PUTVAL h/p/gauge 17179869184:1", "BadTime"),
        ("FLUSH timeout=N timeout=1", "BadTime"),
        ("FLUSH timeout=-2", "BadTime"),
        ("PUTVAL h/p/derive 1:x 2:1:1", "WrongNumberOfValues"),
        ("PUTVAL h/p/derive 1", "WrongNumberOfValues"),
        ("PUTVAL h/p/derive 1:1 2:x", "BadValue"),
        ("PUTVAL h/p/derive 1:", "BadValue"),
    ] {
        let got = shown(alloc, &types, line.as_bytes())?;
        assert_eq!(rt; got.as_str(), want, "at {line}");
    }
    Ok(())
}

#[test]
fn reads_commands(rt: HostRuntime) -> Result<(), Fail> {
    let alloc = rt.alloc();
    let types = TypesDb::builtin(alloc)?;
    for (line, want) in [
        ("", "blank"),
        (" \t \r", "blank"),
        ("\r", "blank"),
        ("\r\r", "UnknownCommand"),
        ("ListVal\r", "list"),
        (" listval\t", "list"),
        ("getval h/p-0/derive-x", "get h/p-0/derive-x"),
        ("GETVAL \"h x\"/p/\"derive\"", "get h x/p/derive"),
        ("FLUSH", "flush None"),
        (
            "FLUSH plugin=rrdtool identifier=localhost/df/df-root identifier=localhost/df/df-var",
            "flush None plugin rrdtool name localhost/df/df-root name localhost/df/df-var",
        ),
        (
            "FLUSH plugin=csv plugin=none identifier=h/df/df-root timeout=10",
            "flush Some(10) plugin csv plugin none name h/df/df-root",
        ),
        (
            "flush TIMEOUT=5 PlugIn=\"a b\" timeout=-1 IDENTIFIER=h/p-/t- plugin= plugin=\"a b\"\r",
            "flush None plugin a b plugin  plugin a b name h/p/t",
        ),
        ("FLUSH timeout=-1 timeout=7.5", "flush Some(7)"),
        (
            "PUTVAL h/p/derive interval=10 1000:5",
            "1000 10 h/p/derive Derive(5);",
        ),
        (
            "putval h/p/derive INTERVAL=5 interval=7 N:-5",
            "2000000000 7 h/p/derive Derive(-5);",
        ),
        (
            "PUTVAL \"h/p/counter-a b\" \"interval=5\" 1:1 \"2:2\"",
            "1 5 h/p/counter-a b Counter(1);2 5 h/p/counter-a b Counter(2);",
        ),
        (
            "PUTVAL h/p/gauge 17179869183.999999999:1",
            "17179869183 20 h/p/gauge Gauge(Some(1000000));",
        ),
    ] {
        let got = shown(alloc, &types, line.as_bytes())?;
        assert_eq!(rt; got.as_str(), want, "at {line}");
        assert_eq!(rt;
            is_blank_line(line.as_bytes()),
            want == "blank",
            "at {line}"
        );
    }
    Ok(())
}

#[test]
fn reads_values(rt: HostRuntime) -> Result<(), Fail> {
    let alloc = rt.alloc();
    let types = TypesDb::builtin(alloc)?;
    for (line, want) in [
        (
            "PUTVAL h/p/counter 1:18446744073709551615",
            "1 20 h/p/counter Counter(18446744073709551615);",
        ),
        ("PUTVAL h/p/counter 1:18446744073709551616", "BadValue"),
        ("PUTVAL h/p/counter 1:+1", "BadValue"),
        ("PUTVAL h/p/counter 1:-0", "BadValue"),
        ("PUTVAL h/p/counter 1:U", "BadValue"),
        (
            "PUTVAL h/p/absolute 1:007",
            "1 20 h/p/absolute Absolute(7);",
        ),
        ("PUTVAL h/p/absolute 1:1.0", "BadValue"),
        (
            "PUTVAL h/p/derive 1:+9223372036854775807",
            "1 20 h/p/derive Derive(9223372036854775807);",
        ),
        ("PUTVAL h/p/derive 1:9223372036854775808", "BadValue"),
        (
            "PUTVAL h/p/derive 1:-9223372036854775808",
            "1 20 h/p/derive Derive(-9223372036854775808);",
        ),
        ("PUTVAL h/p/derive 1:-9223372036854775809", "BadValue"),
        ("PUTVAL h/p/derive 1:-", "BadValue"),
        (
            "PUTVAL h/p/gauge 1:-1.26e+00",
            "1 20 h/p/gauge Gauge(Some(-1260000));",
        ),
        (
            "PUTVAL h/p/gauge 1:1e24",
            "1 20 h/p/gauge Gauge(Some(1000000000000000000000000000000));",
        ),
        ("PUTVAL h/p/gauge 1:1.1e24", "BadValue"),
        ("PUTVAL h/p/gauge 1:U", "1 20 h/p/gauge Gauge(None);"),
        ("PUTVAL h/p/gauge 1:u", "BadValue"),
        ("PUTVAL h/p/gauge 1:NaN", "1 20 h/p/gauge Gauge(None);"),
    ] {
        let got = shown(alloc, &types, line.as_bytes())?;
        assert_eq!(rt; got.as_str(), want, "at {line}");
    }
    Ok(())
}

/// A line of so many bytes: a start, blanks and an end.
fn padded(alloc: Global, start: &str, length: usize, end: &str) -> Result<String, Memory> {
    let mut line = String::from_str(alloc, start)?;
    for _ in start.len() + end.len()..length {
        line.push(' ')?;
    }
    line.push_str(end)?;
    Ok(line)
}

#[test]
fn counts_bytes_before_a_carriage_return(rt: HostRuntime) -> Result<(), Fail> {
    let alloc = rt.alloc();
    let types = TypesDb::builtin(alloc)?;
    for (start, length, end, want) in [
        ("LISTVAL", 4096, "", "list"),
        ("LISTVAL", 4097, "", "LineTooLong"),
        ("LISTVAL", 4096, "\r", "list"),
        ("LISTVAL", 4097, "\r", "LineTooLong"),
        ("", 4096, "\r", "blank"),
        ("", 4097, "", "LineTooLong"),
        ("\"", 4097, "", "LineTooLong"),
    ] {
        let line = padded(alloc, start, length, end)?;
        let got = shown(alloc, &types, line.as_bytes())?;
        assert_eq!(rt; got.as_str(), want, "at {length}");
        assert_eq!(rt;
            is_blank_line(line.as_bytes()),
            want == "blank",
            "at {length}"
        );
    }
    let got = shown(alloc, &types, b"GETVAL \"h\xff")?;
    assert_eq!(rt; got.as_str(), "NotUtf8");
    Ok(())
}

/// Adds a line and a bar.
fn push_line(text: &mut String, line: &Line) -> Result<(), Memory> {
    match line {
        Line::Whole(bytes) => match str::from_utf8(bytes.as_slice()) {
            Ok(line) => text.push_str(line)?,
            Err(_) => text.push_str("?")?,
        },
        Line::TooLong => text.push_str("too long")?,
    }
    text.push('|')?;
    Ok(())
}

/// Feeds a piece of a stream.
fn feed(cutter: &mut LineCutter, text: &mut String, piece: &[u8]) -> Result<(), Memory> {
    let mut left = piece;
    while !left.is_empty() {
        let (used, line) = cutter.take(left)?;
        if let Some(line) = line {
            push_line(text, &line)?;
        }
        left = &left[used..];
    }
    Ok(())
}

/// The lines of a stream that comes in two pieces.
fn cut(alloc: Global, first: &str, second: &str) -> Result<String, Memory> {
    let mut text = String::new(alloc);
    let mut cutter = LineCutter::new(alloc);
    feed(&mut cutter, &mut text, first.as_bytes())?;
    feed(&mut cutter, &mut text, second.as_bytes())?;
    if let Some(line) = cutter.finish() {
        push_line(&mut text, &line)?;
    }
    Ok(text)
}

#[test]
fn cuts_lines_in_any_pieces(rt: HostRuntime) -> Result<(), Fail> {
    let alloc = rt.alloc();
    for (first, second, want) in [
        ("", "", ""),
        ("", "\n", "|"),
        ("ab\r\nc\n", "", "ab\r|c|"),
        ("a", "b\r\nc\n", "ab\r|c|"),
        ("ab\r\n", "c", "ab\r|c|"),
        ("ab\r", "\n\ncd", "ab\r||cd|"),
    ] {
        let got = cut(alloc, first, second)?;
        assert_eq!(rt; got.as_str(), want, "at {first}");
    }
    for (length, is_long) in [(4096, false), (4097, true), (9000, true)] {
        let first = padded(alloc, "x", length, "\r")?;
        let got = cut(alloc, first.as_str(), "\nb")?;
        assert_eq!(rt; got.as_str() == "too long|b|", is_long, "{length} bytes");
    }
    Ok(())
}

#[test]
fn prints_replies(rt: HostRuntime) -> Result<(), Fail> {
    let alloc = rt.alloc();
    let mut rates = Rates::new(alloc);
    rates.push(Rate::Known {
        num: 11_000_000,
        den: 10,
    })?;
    rates.push(Rate::Unknown)?;
    let mut names = Names::new(alloc);
    names.push(Text::of(alloc, "value")?)?;
    assert_eq!(rt;
        print_reply(alloc, &Reply::Got(names, rates))?.as_str(),
        "1 Value found\nvalue=1.100000\n"
    );
    let mut names = Names::new(alloc);
    names.push(Text::of(alloc, "rx")?)?;
    names.push(Text::of(alloc, "tx")?)?;
    let mut rates = Rates::new(alloc);
    rates.push(Rate::Known { num: -9, den: 10 })?;
    assert_eq!(rt;
        print_reply(alloc, &Reply::Got(names, rates))?.as_str(),
        "2 Values found\nrx=0.000000\ntx=NaN\n"
    );
    let mut rows = Rows::new(alloc);
    assert_eq!(rt;
        print_reply(alloc, &Reply::Listed(Rows::new(alloc)))?.as_str(),
        "0 Values found\n"
    );
    rows.push((u64::MAX, Text::of(alloc, "h/p/derive")?))?;
    assert_eq!(rt;
        print_reply(alloc, &Reply::Listed(rows))?.as_str(),
        "1 Value found\n17179869183 h/p/derive\n"
    );
    assert_eq!(rt;
        print_reply(alloc, &Reply::Success)?.as_str(),
        "0 Success\n"
    );
    assert_eq!(rt;
        print_reply(alloc, &Reply::Flushed(3, u64::MAX))?.as_str(),
        "0 Done: 3 successful, 18446744073709551615 errors\n"
    );
    assert_eq!(rt;
        print_reply(alloc, &Reply::NoSuchValue)?.as_str(),
        "-1 No such value\n"
    );
    assert_eq!(rt;
        print_reply(alloc, &Reply::Stopping)?.as_str(),
        "-1 Stopping\n"
    );
    Ok(())
}

#[test]
fn prints_faults(rt: HostRuntime) -> Result<(), Fail> {
    let alloc = rt.alloc();
    for (fault, want) in [
        (LineFault::LineTooLong, "-1 Line too long\n"),
        (LineFault::NotUtf8, "-1 Not UTF-8\n"),
        (LineFault::UnterminatedQuote, "-1 Unterminated quote\n"),
        (LineFault::UnknownCommand, "-1 Unknown command\n"),
        (LineFault::MissingArgument, "-1 Missing argument\n"),
        (LineFault::BadIdentifier, "-1 Bad identifier\n"),
        (LineFault::UnknownType, "-1 Unknown type\n"),
        (LineFault::BadOption, "-1 Bad option\n"),
        (LineFault::BadTime, "-1 Bad time\n"),
        (
            LineFault::WrongNumberOfValues,
            "-1 Wrong number of values\n",
        ),
        (LineFault::BadValue, "-1 Bad value\n"),
    ] {
        assert_eq!(rt; print_reply(alloc, &Reply::Fault(fault))?.as_str(), want);
    }
    Ok(())
}
