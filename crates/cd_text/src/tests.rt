//! Cases worked by hand from the rules.
use crate::{NumFault, Word, quoted, read_millionths, read_time, to_time, words};
use cd_value::TryCopy;
use std::alloc::{AllocError, Global};
use std::test::Fail;

const BAD: Result<i128, NumFault> = Err(NumFault::BadNumber);

const OVER: Result<i128, NumFault> = Err(NumFault::OutOfRange);

const BAD_TIME: Result<u64, NumFault> = Err(NumFault::BadNumber);

const LATE: Result<u64, NumFault> = Err(NumFault::OutOfRange);
/// 10^24 in millionths.
const MOST: i128 = 1_000_000_000_000_000_000_000_000_000_000;

#[test]
fn reads_numbers(rt: HostRuntime) {
    for (text, want) in [
        ("1.26e+00", Ok(1_260_000)),
        ("-0.0000009", Ok(0)),
        ("-.0000019", Ok(-1)),
        ("+12e-3", Ok(12_000)),
        ("5.", Ok(5_000_000)),
        ("-7.5E1", Ok(-75_000_000)),
        ("1e24", Ok(MOST)),
        ("-1e24", Ok(-MOST)),
        ("1.1e24", OVER),
        ("1000000000000000000000000.00000000000", Ok(MOST)),
        ("1000000000000000000000000.00000000001", OVER),
        ("-1000000000000000000000001", OVER),
        (
            "123456789012345678901234567890123456e-12",
            Ok(123_456_789_012_345_678_901_234_567_890),
        ),
        ("000000000000000000000000000000000001", Ok(1_000_000)),
        ("0000000000000000000000000000000000001", OVER),
        ("0e9999", Ok(0)),
        ("1e-9999", Ok(0)),
        ("1e9999", OVER),
        ("1e10000", BAD),
        ("1e", BAD),
        ("1e+", BAD),
        ("1e1.5", BAD),
        ("e5", BAD),
        (".", BAD),
        ("", BAD),
        ("-", BAD),
        ("1.2.3", BAD),
        ("+-1", BAD),
        ("1 ", BAD),
        ("U", BAD),
    ] {
        assert_eq!(rt; read_millionths(text), want, "at {text}");
    }
}

#[test]
fn reads_times(rt: HostRuntime) {
    for (text, want) in [
        ("10", Ok(10_737_418_240)),
        ("0", Ok(0)),
        ("0.5", Ok(536_870_912)),
        ("0.000000001", Ok(1)),
        ("1.000000000", Ok(1_073_741_824)),
        (
            "00000000000000000000000000000000000000000001",
            Ok(1_073_741_824),
        ),
        ("17179869183.999999999", Ok(18_446_744_073_709_551_614)),
        ("17179869184", LATE),
        ("17179869184.000000000", LATE),
        ("99999999999999999999999999999999999999999", LATE),
        ("1.0000000000", BAD_TIME),
        ("1.", BAD_TIME),
        (".5", BAD_TIME),
        ("+1", BAD_TIME),
        ("-1", BAD_TIME),
        ("1e3", BAD_TIME),
        ("1.5.5", BAD_TIME),
        ("", BAD_TIME),
        ("N", BAD_TIME),
    ] {
        assert_eq!(rt; read_time(text), want, "at {text}");
    }
    for (millionths, want) in [
        (0, 0),
        (1, 1_073),
        (1_500_000, 1_610_612_736),
        (1_000_000_000_000_000, 1_073_741_824_000_000_000),
    ] {
        assert_eq!(rt; to_time(millionths), want);
    }
}

/// Each word as its place, a colon and its text.
fn shown(alloc: Global, words: &[Word]) -> Result<String, AllocError> {
    let mut all = String::new(alloc);
    for word in words {
        let one = format!(in alloc; "{}:{};", word.start, word.text.as_str())?;
        all.push_str(one.as_str())?;
    }
    Ok(all)
}

#[test]
fn cuts_words(rt: HostRuntime) -> Result<(), Fail> {
    for (line, want) in [
        (
            "PUTVAL h/p/derive interval=10 1000:5",
            "0:PUTVAL;7:h/p/derive;18:interval=10;30:1000:5;",
        ),
        ("", ""),
        (" \t ", ""),
        (" \tx", "2:x;"),
        ("\"\" x \"\"", "0:;3:x;5:;"),
        ("a\"b c\"d  e", "0:ab cd;9:e;"),
        ("\"a\\\"b\\\\c\" d", "0:a\"b\\c;10:d;"),
        ("a\\ b", "0:a\\;3:b;"),
        ("a\\\"b c\"", "0:a\\b c;"),
        ("\"é x\" ü", "0:é x;7:ü;"),
        ("GETVAL \"h", "Unterminated"),
        ("\"", "Unterminated"),
        ("\"a\\\"", "Unterminated"),
        ("\"a\\", "Unterminated"),
    ] {
        let cut = match words(rt.alloc(), line) {
            Ok(words) => shown(rt.alloc(), words.copy(rt.alloc())?.as_slice())?,
            Err(fault) => format!(in rt.alloc(); "{fault:?}")?,
        };
        assert_eq!(rt; cut.as_str(), want, "at {line}");
    }
    let text = quoted(rt.alloc(), "a\"b \\c")?;
    assert_eq!(rt; text.as_str(), "\"a\\\"b \\\\c\"");
    Ok(())
}
