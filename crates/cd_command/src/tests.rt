//! Words and the commands that they are.
use crate::{Command, CommandFault, Mode, Which, read_command, which};
use cd_value::Text;
use std::alloc::Global;
use std::test::Fail;

/// Words cut at blanks, behind the program's name.
fn words(alloc: Global, line: &str) -> Result<Vec<String>, Fail> {
    let mut words = Vec::new(alloc);
    words.push(String::from_str(alloc, "collectd")?)?;
    for word in line.split_whitespace() {
        words.push(String::from_str(alloc, word)?)?;
    }
    Ok(words)
}

#[test]
fn words_are_commands(rt: HostRuntime) -> Result<(), Fail> {
    let alloc = rt.alloc();
    for (line, mode, path) in [
        ("--lines", Mode::Lines, None),
        ("--lines -Cc -f", Mode::Lines, Some("c")),
        ("-C c -t", Mode::Test, Some("c")),
        ("-tC c", Mode::Test, Some("c")),
        ("-t -C=c --", Mode::Test, Some("c")),
    ] {
        let file = match path {
            Some(path) => Some(Text::of(alloc, path)?),
            None => None,
        };
        let read = read_command(alloc, words(alloc, line)?.as_slice());
        assert!(rt; read == Ok(Command { mode, file }));
    }
    Ok(())
}

#[test]
fn words_are_refused(rt: HostRuntime) -> Result<(), Fail> {
    let alloc = rt.alloc();
    for line in [
        "",
        "-t",
        "-T -C c",
        "-C c",
        "-t --lines -C c",
        "--load=5 -C c",
        "--load 0",
        "--load 1000001",
        "--load x --lines",
        "--lines --lines",
        "--lines word",
        "-- --lines",
        "--lines -C",
        "--help",
    ] {
        let read = read_command(alloc, words(alloc, line)?.as_slice());
        assert!(rt; read == Err(CommandFault::Usage));
    }
    Ok(())
}

#[test]
fn words_are_for_a_call(rt: HostRuntime) -> Result<(), Fail> {
    let alloc = rt.alloc();
    for (line, call) in [
        ("-C c", Which::Serve),
        ("-fCc", Which::Serve),
        ("-f", Which::Run),
        ("-C c --load 5", Which::Run),
        ("-C c -T", Which::Run),
        ("-C c word", Which::Run),
    ] {
        assert_eq!(rt; which(alloc, words(alloc, line)?.as_slice()), Ok(call));
    }
    Ok(())
}
