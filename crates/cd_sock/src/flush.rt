//! The options of FLUSH.
ghost use Rattle.cd_reading.specs.Gives.{Gives};
ghost use Rattle.cd_sock.specs.Arguments.{arguments_of};
ghost use Rattle.cd_sock.specs.Faults.{line_fault};
ghost use Rattle.cd_sock.specs.Meaning.{is_flush_option, last_timeout, name_in, names_in, timeout_in};
ghost use Rattle.std.specs.List.{list_all};
ghost use Rattle.std.specs.Prelude.{IfOk, codes, ◌≡◌};

use crate::LineFault;
use crate::arguments::argument_of;
use cd_text::{LineWord, read_time};
use cd_value::{Identifier, Memory, Names, Text};
use std::alloc::Global;

/// The plug-ins that options name, in order.
pub fn read_plugins(alloc: Global, options: &[LineWord]) -> Result<Names, Memory>
    ensures { IfOk result (λ plugins. plugins ≡ arguments_of (codes "plugin") options.now) }
{
    let mut plugins = Names::new(alloc);
    for word in options {
        let Some(plugin) = argument_of(word, "plugin") else {
            continue;
        };
        plugins.push(Text::of(alloc, plugin)?)?;
    }
    Ok(plugins)
}

/// The name of the identifier that a text is.
fn name_in(alloc: Global, text: &str) -> Result<Text, LineFault>
    ensures { Gives (λ name. name) line_fault result (name_in text.now) }
{
    let id = Identifier::read(alloc, text)?;
    Ok(id.name(alloc)?)
}

/// The names of the identifiers of options, in order.
pub fn read_names(alloc: Global, options: &[LineWord]) -> Result<Names, LineFault>
    ensures { Gives (λ names. names) line_fault result (names_in options.now) }
{
    let mut names = Names::new(alloc);
    for word in options {
        let Some(text) = argument_of(word, "identifier") else {
            continue;
        };
        names.push(name_in(alloc, text)?)?;
    }
    Ok(names)
}

fn is_flush_option(word: &LineWord) -> bool
    ensures { result ≡ is_flush_option word.now }
{
    argument_of(word, "timeout").is_some()
        || argument_of(word, "plugin").is_some()
        || argument_of(word, "identifier").is_some()
}

/// Whether each word is an option that FLUSH has.
pub fn are_flush_options(words: &[LineWord]) -> bool
    ensures { result ≡ list_all is_flush_option words.now }
{
    words.iter().all(|word| is_flush_option(word))
}

/// The timeout of a text, in 2^-30 s, and none for `-1`.
fn timeout_in(text: &str) -> Result<Option<u64>, LineFault>
    ensures { result ≡ timeout_in text.now }
{
    if text == "-1" {
        return Ok(None);
    }
    match read_time(text) {
        Ok(time) => Ok(Some(time)),
        Err(_) => Err(LineFault::BadTime),
    }
}

/// The last timeout of options, in 2^-30 s, and none where they have none.
pub fn read_timeout(options: &[LineWord]) -> Result<Option<u64>, LineFault>
    ensures { result ≡ last_timeout options.now }
{
    let mut timeout = None;
    for word in options {
        let Some(text) = argument_of(word, "timeout") else {
            continue;
        };
        timeout = timeout_in(text)?;
    }
    Ok(timeout)
}
