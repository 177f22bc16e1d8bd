//! The options of the program as one application of `clap`.
ghost use Rattle.cd_command.specs.Application.{bare, collectd, file_rule, front_rule, lines_rule, load_rule, readers_rule, test_rule};
ghost use Rattle.clap.specs.Words.{app_of, rule_of};
ghost use Rattle.std.specs.Prelude.{IfOk, false, ◌≡◌};

use clap::{Arg, ArgAction, Command, value_parser};
use std::alloc::{AllocError, Global};

/// `-C file`: the configuration file.
fn file_option<'a>(alloc: Global) -> Arg<'a>
    ensures rule { rule_of result ≡ file_rule }
    ensures local { result.global ≡ false }
{
    Arg::new(alloc, "file").short('C')
}

/// `-t`: tests the configuration.
fn test_option<'a>(alloc: Global) -> Arg<'a>
    ensures rule { rule_of result ≡ test_rule }
    ensures local { result.global ≡ false }
{
    Arg::new(alloc, "test")
        .short('t')
        .action(ArgAction::SetTrue)
}

/// `-T`: tests the readers.
fn readers_option<'a>(alloc: Global) -> Arg<'a>
    ensures rule { rule_of result ≡ readers_rule }
    ensures local { result.global ≡ false }
{
    Arg::new(alloc, "readers")
        .short('T')
        .action(ArgAction::SetTrue)
}

/// `-f`: stays in the foreground, which the program does anyway.
fn front_option<'a>(alloc: Global) -> Arg<'a>
    ensures rule { rule_of result ≡ front_rule }
    ensures local { result.global ≡ false }
{
    Arg::new(alloc, "front")
        .short('f')
        .action(ArgAction::SetTrue)
}

/// `--lines`: serves the lines of standard input.
fn lines_option<'a>(alloc: Global) -> Arg<'a>
    ensures rule { rule_of result ≡ lines_rule }
    ensures local { result.global ≡ false }
{
    Arg::new(alloc, "lines")
        .long("lines")
        .action(ArgAction::SetTrue)
}

/// `--load N`: makes N value lists.
fn load_option<'a>(alloc: Global) -> Arg<'a>
    ensures rule { rule_of result ≡ load_rule }
    ensures local { result.global ≡ false }
{
    Arg::new(alloc, "load")
        .long("load")
        .value_parser(value_parser!(u32))
}

/// The program with no option, not for help or the version either.
fn bare_program<'a>(alloc: Global) -> Command<'a>
    ensures app { app_of result ≡ bare }
{
    Command::new(alloc, "collectd")
        .disable_help_flag(true)
        .disable_version_flag(true)
}

/// The program with its options.
pub(crate) fn program<'a>(alloc: Global) -> Result<Command<'a>, AllocError>
    ensures app { IfOk result (λ program. app_of program ≡ collectd) }
{
    let program = bare_program(alloc)
        .arg(file_option(alloc))?
        .arg(test_option(alloc))?
        .arg(readers_option(alloc))?
        .arg(front_option(alloc))?
        .arg(lines_option(alloc))?
        .arg(load_option(alloc))?;
    Ok(program)
}
