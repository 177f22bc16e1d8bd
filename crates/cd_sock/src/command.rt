//! The commands of clients.
ghost use Rattle.cd_reading.specs.Gives.{Gives, Refuses};
ghost use Rattle.cd_sock.specs.Faults.{line_fault};
ghost use Rattle.cd_sock.specs.Lines.{cut};
ghost use Rattle.cd_sock.specs.Meaning.{GivesAt, IsSameButTimes, ListsFit, at_moment, flush, get_val, is_blank_byte};
ghost use Rattle.cd_sock.specs.Meaning.{is_blank_line, list_val, meaning, put_known, put_parts, put_val};
ghost use Rattle.cd_sock.specs.Meaning.{request_of_text, request_of_words, without_return};
ghost use Rattle.cd_value.specs.declared.data.DataSet.{DataSet};
ghost use Rattle.std.specs.List.{list_all};
ghost use Rattle.std.specs.Prelude.{IfErr, IfOk, IsOkAnd, IsTrue, List, ℕ, ◌↔◌, ◌≡◌};

use crate::arguments::{is_keyword, read_interval, split_options};
use crate::flush::{are_flush_options, read_names, read_plugins, read_timeout};
use crate::lists::read_lists;
use crate::{LINE_LIMIT, LineFault};
use cd_text::{LineWord, line_words};
use cd_types::TypesDb;
use cd_value::{DataSource, FlushRequest, Identifier, Lists};
use std::alloc::Global;
use std::str;

/// A command of collectd-unixsock(5).
#[derive(Drop)]
pub enum Command {
    /// A line of blanks, which gets no reply.
    Blank,
    /// The value lists of PUTVAL, one for each value word.
    PutVal(Lists),
    /// GETVAL asks for the rates of an identifier.
    GetVal(Identifier),
    /// LISTVAL asks for the names of all cached values.
    ListVal,
    /// FLUSH asks plug-ins to write out what they hold. It has no timeout where its last one is `-1`.
    Flush(FlushRequest),
}

/// The line without a carriage return at its end.
fn without_return(line: &[u8]) -> &[u8]
    ensures { result.now ≡ without_return line.now }
{
    if !line.is_empty() && line[line.len() - 1] == b'\r' {
        &line[..line.len() - 1]
    } else {
        line
    }
}

fn are_blank(text: &[u8]) -> bool
    ensures { result ≡ list_all is_blank_byte text.now }
{
    text.iter().all(|byte| *byte == b' ' || *byte == b'\t')
}

/// Whether a line without its newline is blank: it has at most `LINE_LIMIT` bytes, all of them
/// spaces and tabs but for a carriage return at the end.
pub fn is_blank_line(line: &[u8]) -> bool
    ensures value { result ≡ is_blank_line line.now }
    ensures blank { (types : List DataSet) (now interval : ℕ) →
        IsTrue result ↔ (meaning types now interval line.now ≡ Ok Command.Blank) }
{
    line.len() <= LINE_LIMIT && are_blank(without_return(line))
}

/// PUTVAL with an identifier of a known type.
#[tactic(auto, unfolding(crate::specs::Meaning::put_known))]
fn put_known(
    alloc: Global,
    id: Identifier,
    sources: &[DataSource],
    options: &[LineWord],
    values: &[LineWord],
    now: u64,
    interval: u64,
) -> Result<Command, LineFault>
    ensures { GivesAt now interval result
        (put_known id sources.now options.now values.now) }
{
    let interval = read_interval(options, interval)?;
    let lists = read_lists(alloc, sources, values, id, now, interval)?;
    Ok(Command::PutVal(lists))
}

/// PUTVAL with its arguments told apart.
#[tactic(auto, unfolding(crate::specs::Meaning::put_parts))]
fn put_parts(
    alloc: Global,
    types: &TypesDb,
    name: &str,
    options: &[LineWord],
    values: &[LineWord],
    now: u64,
    interval: u64,
) -> Result<Command, LineFault>
    ensures { GivesAt now interval result
        (put_parts types.now name.now options.now values.now) }
{
    if values.is_empty() {
        return Err(LineFault::MissingArgument);
    }
    let id = Identifier::read(alloc, name)?;
    let Some(set) = types.get(id.type_name.as_str()) else {
        return Err(LineFault::UnknownType);
    };
    put_known(
        alloc,
        id,
        set.sources.as_slice(),
        options,
        values,
        now,
        interval,
    )
}

#[tactic(auto, unfolding(crate::specs::Meaning::put_val))]
fn put_val(
    alloc: Global,
    types: &TypesDb,
    arguments: &[LineWord],
    now: u64,
    interval: u64,
) -> Result<Command, LineFault>
    ensures { GivesAt now interval result (put_val types.now arguments.now) }
{
    let Some((name, more)) = arguments.split_first() else {
        return Err(LineFault::MissingArgument);
    };
    let (options, values) = split_options(more);
    put_parts(alloc, types, name.text(), options, values, now, interval)
}

#[tactic(auto, unfolding(crate::specs::Meaning::get_val))]
fn get_val(
    alloc: Global,
    arguments: &[LineWord],
    now: u64,
    interval: u64,
) -> Result<Command, LineFault>
    ensures { GivesAt now interval result (get_val arguments.now) }
{
    let Some((name, more)) = arguments.split_first() else {
        return Err(LineFault::MissingArgument);
    };
    let id = Identifier::read(alloc, name.text())?;
    if !more.is_empty() {
        return Err(LineFault::BadOption);
    }
    Ok(Command::GetVal(id))
}

#[tactic(auto, unfolding(crate::specs::Meaning::list_val))]
fn list_val(arguments: &[LineWord]) -> Result<Command, LineFault>
    ensures { (now interval : ℕ) → result ≡ at_moment now interval (list_val arguments.now) }
{
    if arguments.is_empty() {
        Ok(Command::ListVal)
    } else {
        Err(LineFault::BadOption)
    }
}

/// FLUSH with any number of options.
#[tactic(auto, unfolding(crate::specs::Meaning::flush))]
fn flush(alloc: Global, options: &[LineWord]) -> Result<Command, LineFault>
    ensures { (now interval : ℕ) → GivesAt now interval result (flush options.now) }
{
    let names = read_names(alloc, options)?;
    if !are_flush_options(options) {
        return Err(LineFault::BadOption);
    }
    let timeout = read_timeout(options)?;
    let plugins = read_plugins(alloc, options)?;
    Ok(Command::Flush(FlushRequest {
        plugins,
        names,
        timeout,
    }))
}

/// The command that the first word names.
#[tactic(auto, unfolding(crate::specs::Meaning::request_of_words))]
fn read_words(
    alloc: Global,
    types: &TypesDb,
    words: &[LineWord],
    now: u64,
    interval: u64,
) -> Result<Command, LineFault>
    ensures { GivesAt now interval result (request_of_words types.now words.now) }
{
    let Some((name, arguments)) = words.split_first() else {
        return Err(LineFault::UnknownCommand);
    };
    let name = name.text();
    if is_keyword(name, "PUTVAL") {
        put_val(alloc, types, arguments, now, interval)
    } else if is_keyword(name, "GETVAL") {
        get_val(alloc, arguments, now, interval)
    } else if is_keyword(name, "LISTVAL") {
        list_val(arguments)
    } else if is_keyword(name, "FLUSH") {
        flush(alloc, arguments)
    } else {
        Err(LineFault::UnknownCommand)
    }
}

/// The command of a line without its carriage return.
#[tactic(auto, unfolding(crate::specs::Meaning::request_of_text))]
fn read_text(
    alloc: Global,
    types: &TypesDb,
    text: &[u8],
    now: u64,
    interval: u64,
) -> Result<Command, LineFault>
    ensures { GivesAt now interval result (request_of_text types.now text.now) }
{
    if are_blank(text) {
        return Ok(Command::Blank);
    }
    let Ok(text) = str::from_utf8(text) else {
        return Err(LineFault::NotUtf8);
    };
    let words = line_words(alloc, text)?;
    read_words(alloc, types, words.as_slice(), now, interval)
}

impl Command {
    /// The command of a line without its newline, at a moment and with the global interval, both in
    /// 2^-30 s, as in collectd-unixsock(5).
    ///
    /// Of several faults the first in the order of `LineFault` is given. Whether a line is refused,
    /// and why, depends on neither the moment nor the global interval.
    #[tactic(auto, unfolding(crate::specs::Meaning::request_of))]
    pub fn read(
        alloc: Global,
        line: &[u8],
        types: &TypesDb,
        now: u64,
        interval: u64,
    ) -> Result<Command, LineFault>
        ensures meaning { Gives (λ command. command) line_fault result
            (meaning types.now now interval line.now) }
        ensures same_fault { IfErr result (λ e. (later other : ℕ) →
            Refuses (line_fault e) (meaning types.now later other line.now)) }
        ensures same_command { IfOk result (λ command. (later other : ℕ) →
            IsOkAnd (meaning types.now later other line.now) (IsSameButTimes command)) }
        ensures too_long { cut line.now ≡ None → result ≡ Err LineFault.LineTooLong }
        ensures fits { IfOk result (λ command. ListsFit types.now command) }
    {
        if line.len() > LINE_LIMIT {
            return Err(LineFault::LineTooLong);
        }
        read_text(alloc, types, without_return(line), now, interval)
    }
}
