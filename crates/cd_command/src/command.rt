//! What the words of the command line ask for.
ghost use Rattle.cd_command.specs.Command.{command, command_by, is_daemon, is_there, named_by, named_in, which_of};
ghost use Rattle.clap.specs.Matches.{found_of};
ghost use Rattle.clap.specs.Walk.{first_of, rows_of};
ghost use Rattle.std.specs.Prelude.{Err, IfErr, IfOk, None, Ok, Some, codes, map, option_map, string_bytes, ◌≡◌};

use crate::call::Which;
use crate::options::program;
use cd_value::{Memory, Text};
use clap::ArgMatches;
use clap::error::ErrorKind;
use std::alloc::{AllocError, Global};

/// What the program is to do, where it ends by itself.
#[derive(Clone, Copy, Debug, PartialEq, Eq)]
pub enum Mode {
    /// `-t`: read the configuration, and write its settings.
    Test,
    /// `--lines`: serve the lines of standard input.
    Lines,
}

/// A command of the program.
#[derive(Drop, PartialEq, Eq)]
pub struct Command {
    /// What is to be done.
    pub mode: Mode,
    /// `-C`: the path of the configuration file.
    pub file: Option<Text>,
}

/// Why words gave no command.
#[derive(Clone, Copy, Debug, PartialEq, Eq)]
pub enum CommandFault {
    /// The words are none of the program's.
    Usage,
    /// Memory was lacking.
    Memory,
}

impl From<AllocError> for CommandFault {
    ghost use Rattle.cd_command.specs.declared.command.CommandFault.TheVariants as faults;

    ghost from_gives = { λ _ e. e ≡ faults.Memory };

    fn from(_: AllocError) -> Self {
        CommandFault::Memory
    }
}

impl From<Memory> for CommandFault {
    ghost use Rattle.cd_command.specs.declared.command.CommandFault.TheVariants as faults;

    ghost from_gives = { λ _ e. e ≡ faults.Memory };

    fn from(_: Memory) -> Self {
        CommandFault::Memory
    }
}

/// What the options of the words name.
#[derive(Drop)]
struct Named {
    file: Option<Text>,
    test: bool,
    readers: bool,
    lines: bool,
    load: bool,
}

/// The first value of an option.
fn value_of<'a>(matches: &ArgMatches<'a>, name: &str) -> Option<&'a str>
    ensures { option_map (λ text. text.now) result
        ≡ first_of name.now (rows_of (found_of matches.now)) }
{
    matches.get_str(name)
}

/// An option that has no value of its own is there.
fn is_there(matches: &ArgMatches, name: &str) -> bool
    ensures { result ≡ is_there name.now (rows_of (found_of matches.now)) }
{
    match value_of(matches, name) {
        Some(text) => text == "true",
        None => false,
    }
}

/// The path of the configuration file.
fn file_in(alloc: Global, matches: &ArgMatches) -> Result<Option<Text>, Memory>
    ensures { IfOk result (λ file.
        file ≡ first_of (codes "file") (rows_of (found_of matches.now))) }
{
    match value_of(matches, "file") {
        Some(path) => Ok(Some(Text::of(alloc, path)?)),
        None => Ok(None),
    }
}

/// What was found of the options.
fn named_by(alloc: Global, matches: &ArgMatches) -> Result<Named, Memory>
    ensures { IfOk result (λ named. named ≡ named_by (rows_of (found_of matches.now))) }
{
    Ok(Named {
        file: file_in(alloc, matches)?,
        test: is_there(matches, "test"),
        readers: is_there(matches, "readers"),
        lines: is_there(matches, "lines"),
        load: value_of(matches, "load").is_some(),
    })
}

/// What words name, unless `clap` refuses them.
fn named_in(alloc: Global, words: &[String]) -> Result<Named, CommandFault>
    ensures named { IfOk result (λ named. named_in (map string_bytes words.now) ≡ Some named) }
    ensures usage { result ≡ Err CommandFault.Usage
        → named_in (map string_bytes words.now) ≡ None }
{
    let program = program(alloc)?;
    match program.try_get_matches_from(words) {
        Ok(matches) => Ok(named_by(alloc, &matches)?),
        Err(error) if error.kind() == ErrorKind::OutOfMemory => Err(CommandFault::Memory),
        Err(_) => Err(CommandFault::Usage),
    }
}

/// The command of what is named.
fn command_by(named: Named) -> Option<Command>
    ensures { result ≡ command_by named }
{
    if named.readers || named.load || named.test == named.lines {
        return None;
    }
    if named.lines {
        return Some(Command {
            mode: Mode::Lines,
            file: named.file,
        });
    }
    let file = named.file?;
    Some(Command {
        mode: Mode::Test,
        file: Some(file),
    })
}

/// The command that words are, the program's name first, as collectd(1) has them. `Usage` comes exactly where they
/// are none, unless memory is lacking.
pub fn read_command(alloc: Global, words: &[String]) -> Result<Command, CommandFault>
    ensures command { IfOk result (λ read. command (map string_bytes words.now) ≡ Some read) }
    ensures usage { result ≡ Err CommandFault.Usage
        → command (map string_bytes words.now) ≡ None }
{
    let named = named_in(alloc, words)?;
    match command_by(named) {
        Some(command) => Ok(command),
        None => Err(CommandFault::Usage),
    }
}

/// No mode is named, and a file is.
fn is_daemon(named: &Named) -> bool
    ensures { result ≡ is_daemon named.now }
{
    !(named.test || named.readers || named.lines || named.load) && named.file.is_some()
}

/// Which of the top calls words are for: `Serve` exactly where they name a file and no mode.
pub fn which(alloc: Global, words: &[String]) -> Result<Which, Memory>
    ensures { IfOk result (λ which. which ≡ which_of (map string_bytes words.now)) }
{
    match named_in(alloc, words) {
        Ok(named) if is_daemon(&named) => Ok(Which::Serve),
        Ok(_) | Err(CommandFault::Usage) => Ok(Which::Run),
        Err(CommandFault::Memory) => Err(Memory),
    }
}
