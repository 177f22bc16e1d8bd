//! The exit status and the text of a fault.
ghost use Rattle.cd_opening.specs.Messages.{conf_words, message_at, message_of, status_of, types_words};
ghost use Rattle.std.specs.Prelude.{IfOk, ◌≡◌};

use crate::fault::OpeningFault;
use cd_conf::ConfKind;
use cd_types::TypesKind;
use cd_value::{Memory, Text};
use std::alloc::Global;

/// The exit status of the program whose configuration has this fault.
pub fn status(fault: &OpeningFault) -> u8
    ensures { result ≡ status_of fault.now }
{
    match fault {
        OpeningFault::Conf(_) | OpeningFault::Types { .. } | OpeningFault::Settings(_) => 2,
        OpeningFault::Open(_) => 3,
        OpeningFault::Read(_) => 4,
        OpeningFault::Memory => 9,
    }
}

/// What is wrong with a configuration's text.
fn conf_words(kind: ConfKind) -> &'static str
    ensures { result.now ≡ conf_words kind }
{
    match kind {
        ConfKind::BadKey => "bad key",
        ConfKind::BadValue => "bad value",
        ConfKind::Unterminated => "unterminated string",
        ConfKind::UnclosedSection => "unclosed section",
        ConfKind::WrongEnd => "wrong end",
        ConfKind::TooDeep => "too deep",
        ConfKind::TooLong => "too long",
        ConfKind::NotText => "not UTF-8",
        ConfKind::ReadFault => "cannot read",
        ConfKind::Memory => "out of memory",
    }
}

/// What is wrong with a types file's text.
fn types_words(kind: TypesKind) -> &'static str
    ensures { result.now ≡ types_words kind }
{
    match kind {
        TypesKind::BadName => "bad name",
        TypesKind::BadSource => "bad source",
        TypesKind::BadKind => "bad kind",
        TypesKind::BadBound => "bad bound",
        TypesKind::TooMany => "too many sources",
        TypesKind::NotText => "not UTF-8",
        TypesKind::TooLong => "too long",
        TypesKind::ReadFault => "cannot read",
        TypesKind::Memory => "out of memory",
    }
}

/// The text of a fault at a line of a file.
fn text_at(alloc: Global, file: &str, line: u32, words: &str) -> Result<Text, Memory>
    ensures { IfOk result (λ text. text ≡ message_at file.now line words.now) }
{
    let text = format!(in alloc; "collectd: {file}, line {line}: {words}\n")?;
    Ok(Text::from_string(text))
}

/// What the program writes on standard error at a fault, with a newline.
pub fn text_of(alloc: Global, fault: &OpeningFault) -> Result<Text, Memory>
    ensures { IfOk result (λ text. text ≡ message_of fault.now) }
{
    match fault {
        OpeningFault::Conf(fault) => {
            text_at(alloc, "configuration", fault.line, conf_words(fault.kind))
        }
        OpeningFault::Types { path, fault } => {
            text_at(alloc, path.as_str(), fault.line, types_words(fault.kind))
        }
        OpeningFault::Settings(fault) => {
            let words = fault.kind.to_string(alloc)?;
            text_at(alloc, "settings", fault.line, words.as_str())
        }
        OpeningFault::Open(path) => {
            let text = format!(in alloc; "collectd: cannot open {}\n", path.as_str())?;
            Ok(Text::from_string(text))
        }
        OpeningFault::Read(path) => {
            let text = format!(in alloc; "collectd: cannot read {}\n", path.as_str())?;
            Ok(Text::from_string(text))
        }
        OpeningFault::Memory => Text::of(alloc, "collectd: out of memory\n"),
    }
}
