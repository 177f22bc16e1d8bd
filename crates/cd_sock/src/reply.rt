//! Replies to lines.
ghost use Rattle.cd_sock.specs.Framing.{HasPlainNames, IsFramed};
ghost use Rattle.cd_sock.specs.Replies.{fault_text, flushed_line, rate_line, rate_lines, rate_or_nan, reply_text};
ghost use Rattle.cd_sock.specs.Replies.{row_line, values_found, with_newline};
ghost use Rattle.cd_value.specs.Rows.{as_rows};
ghost use Rattle.std.specs.Prelude.{IfOk, OnOk, length, option_copied, string_bytes, ◌++◌, ◌<◌, ◌^◌, ◌≡◌};

use crate::LineFault;
use cd_value::{Memory, Names, Rate, Rates, Rows, SECOND, Text};
use itoa::Buffer;
use std::alloc::{AllocError, Global};

/// Room for the line of a row, in bytes, where its length isn't known yet.
const ROW_ROOM: usize = 48;

/// The reply to a line, as in collectd-unixsock(5).
#[derive(Drop)]
pub enum Reply {
    /// The lists were accepted.
    Success,
    /// The names of the data sources and their rates.
    Got(Names, Rates),
    /// The times, in 2^-30 s, and names of all cached lists.
    Listed(Rows),
    /// The line was refused.
    Fault(LineFault),
    /// So many of the flushes that FLUSH asked for succeeded, and so many failed.
    Flushed(u64, u64),
    /// Nothing is cached under the name.
    NoSuchValue,
    /// The daemon is stopping, and takes no more lists.
    Stopping,
}

/// The first line of a reply, which says how many values follow.
fn print_count(alloc: Global, count: usize) -> Result<String, AllocError>
    ensures text { IfOk result (λ text. string_bytes text ≡ values_found count) }
    ensures few { count < 2 ^ 64 }
{
    if count == 1 {
        format!(in alloc; "{count} Value found\n")
    } else {
        format!(in alloc; "{count} Values found\n")
    }
}

/// Adds the rate of a source, `NaN` where it has none.
fn push_rate(alloc: Global, text: &mut String, rate: Option<&Rate>) -> Result<(), Memory>
    ensures { OnOk result (string_bytes text.new
        ≡ string_bytes text.old ++ rate_or_nan (option_copied rate.entry)) }
{
    match rate {
        Some(rate) => text.push_str(rate.print(alloc)?.as_str())?,
        None => text.push_str("NaN")?,
    }
    Ok(())
}

/// Adds the line of a source.
fn push_source(
    alloc: Global,
    text: &mut String,
    name: &str,
    rate: Option<&Rate>,
) -> Result<(), Memory>
    ensures { OnOk result (string_bytes text.new
        ≡ string_bytes text.old ++ rate_line name.now (option_copied rate.entry)) }
{
    text.push_str(name)?;
    text.push('=')?;
    push_rate(alloc, text, rate)?;
    text.push('\n')?;
    Ok(())
}

/// Adds the line of a cached list.
fn push_row(text: &mut String, time: u64, name: &str) -> Result<(), AllocError>
    ensures { OnOk result (string_bytes text.new
        ≡ string_bytes text.old ++ row_line (time, name.now)) }
{
    let mut digits = Buffer::new();
    text.push_str(digits.format(time / SECOND))?;
    text.push(' ')?;
    text.push_str(name)?;
    text.push('\n')
}

/// The reply with the rates of sources.
fn print_rates(alloc: Global, names: &[Text], rates: &[Rate]) -> Result<Text, Memory>
    ensures text { IfOk result (λ text. text
        ≡ values_found (length names.now) ++ rate_lines names.now rates.now) }
    ensures few { length names.now < 2 ^ 64 }
{
    let mut text = print_count(alloc, names.len())?;
    for (i, name) in names.iter().enumerate() {
        push_source(alloc, &mut text, name.as_str(), rates.get(i))?;
    }
    Ok(Text::from_string(text))
}

/// What `print_reply` gives for `Listed`, of rows with their times, in 2^-30 s, and their names by
/// reference: LISTVAL of collectd-unixsock(5).
pub fn print_rows(alloc: Global, rows: &[(u64, &Text)]) -> Result<Text, Memory>
    ensures text { IfOk result (λ text. text ≡ reply_text (Reply.Listed (as_rows rows.now))) }
    ensures framed { IfOk result (λ text.
        HasPlainNames (Reply.Listed (as_rows rows.now)) → IsFramed text) }
{
    let mut text = print_count(alloc, rows.len())?;
    text.reserve(rows.len().saturating_mul(ROW_ROOM))?;
    for row in rows {
        push_row(&mut text, row.0, row.1.as_str())?;
    }
    Ok(Text::from_string(text))
}

/// What `print_rows` gives, of rows that have their names.
fn print_listed(alloc: Global, rows: &[(u64, Text)]) -> Result<Text, Memory>
    ensures text { IfOk result (λ text. text ≡ reply_text (Reply.Listed rows.now)) }
    ensures framed { IfOk result (λ text. HasPlainNames (Reply.Listed rows.now) → IsFramed text) }
{
    let mut listed = Vec::with_capacity(alloc, rows.len())?;
    for row in rows {
        listed.push((row.0, &row.1))?;
    }
    print_rows(alloc, listed.as_slice())
}

/// The reply with the numbers of flushes.
fn print_flushed(alloc: Global, successful: u64, errors: u64) -> Result<Text, Memory>
    ensures { IfOk result (λ text. text ≡ flushed_line successful errors) }
{
    let text = format!(in alloc; "0 Done: {successful} successful, {errors} errors\n")?;
    Ok(Text::from_string(text))
}

/// The text of a fault with its newline.
fn fault_line(fault: LineFault) -> &'static str
    ensures { result.now ≡ with_newline (fault_text fault) }
{
    match fault {
        LineFault::LineTooLong => "-1 Line too long\n",
        LineFault::NotUtf8 => "-1 Not UTF-8\n",
        LineFault::UnterminatedQuote => "-1 Unterminated quote\n",
        LineFault::UnknownCommand => "-1 Unknown command\n",
        LineFault::MissingArgument => "-1 Missing argument\n",
        LineFault::BadIdentifier => "-1 Bad identifier\n",
        LineFault::UnknownType => "-1 Unknown type\n",
        LineFault::BadOption => "-1 Bad option\n",
        LineFault::BadTime => "-1 Bad time\n",
        LineFault::WrongNumberOfValues => "-1 Wrong number of values\n",
        LineFault::BadValue => "-1 Bad value\n",
        LineFault::Memory => "-1 Out of memory\n",
    }
}

/// The text of a reply, each of its lines with a newline, as in collectd-unixsock(5): a status and
/// a message, and then one line for each name of `Got`, and for each row of `Listed` with its time
/// in whole seconds. A name without a rate has the value `NaN`, and a rate without a name isn't
/// printed.
pub fn print_reply(alloc: Global, reply: &Reply) -> Result<Text, Memory>
    ensures text { IfOk result (λ text. text ≡ reply_text reply.now) }
    ensures framed { IfOk result (λ text. HasPlainNames reply.now → IsFramed text) }
{
    match reply {
        Reply::Success => Text::of(alloc, "0 Success\n"),
        Reply::Got(names, rates) => print_rates(alloc, names.as_slice(), rates.as_slice()),
        Reply::Listed(rows) => print_listed(alloc, rows.as_slice()),
        Reply::Fault(fault) => Text::of(alloc, fault_line(*fault)),
        Reply::Flushed(successful, errors) => print_flushed(alloc, *successful, *errors),
        Reply::NoSuchValue => Text::of(alloc, "-1 No such value\n"),
        Reply::Stopping => Text::of(alloc, "-1 Stopping\n"),
    }
}
