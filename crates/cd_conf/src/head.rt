//! What begins a line.
ghost use Rattle.cd_conf.specs.Seen.{seen_head};
ghost use Rattle.cd_conf.specs.Statements.{head_at, head_from, section_head};
ghost use Rattle.std.specs.Option.{option_map};
ghost use Rattle.std.specs.Prelude.{IfOk, IfSome, length, ◌≡◌, ◌≤◌};
ghost use Rattle.std.specs.Str.{IsUtf8, chars};

use crate::chars::split_first;
use crate::runs::{Kind, split_run};
use cd_value::{Memory, Text};
use std::alloc::Global;

/// What a line is.
#[derive(Clone, Copy, PartialEq, Eq, Debug)]
pub enum LineKind {
    OptionLine,
    SectionStart,
    SectionEnd,
}

/// What begins a line.
#[derive(Drop)]
pub struct Head {
    pub kind: LineKind,
    pub key: Text,
}

/// A head of a kind whose key stands at the front of a text, and what follows it.
fn head_from<'a>(
    alloc: Global,
    kind: LineKind,
    text: &'a str,
) -> Result<Option<(Head, &'a str)>, Memory>
    ensures value { IfOk result (λ found.
        option_map seen_head found ≡ head_from kind (chars text.now)) }
    ensures text { IfOk result (λ found. IfSome found (λ cut. IsUtf8 cut.1.now)) }
    ensures shorter { IfOk result (λ found.
        IfSome found (λ cut. length cut.1.now ≤ length text.now)) }
{
    let (key, rest) = split_run(Kind::Key, text);
    if key.is_empty() {
        Ok(None)
    } else {
        let key = Text::of(alloc, key)?;
        Ok(Some((Head { kind, key }, rest)))
    }
}

/// The head of a section's start or end, behind its `<`.
fn section_head<'a>(alloc: Global, text: &'a str) -> Result<Option<(Head, &'a str)>, Memory>
    ensures value { IfOk result (λ found.
        option_map seen_head found ≡ section_head (chars text.now)) }
    ensures text { IfOk result (λ found. IfSome found (λ cut. IsUtf8 cut.1.now)) }
    ensures shorter { IfOk result (λ found.
        IfSome found (λ cut. length cut.1.now ≤ length text.now)) }
{
    match split_first(text) {
        None => Ok(None),
        Some(('/', rest)) => head_from(alloc, LineKind::SectionEnd, rest),
        Some(_) => head_from(alloc, LineKind::SectionStart, text),
    }
}

/// What begins a line, and what follows it; `None` where it is no key, no `<` and a key, and no
/// `</` and a key.
pub fn head_at<'a>(alloc: Global, text: &'a str) -> Result<Option<(Head, &'a str)>, Memory>
    ensures value { IfOk result (λ found. option_map seen_head found ≡ head_at (chars text.now)) }
    ensures text { IfOk result (λ found. IfSome found (λ cut. IsUtf8 cut.1.now)) }
    ensures shorter { IfOk result (λ found.
        IfSome found (λ cut. length cut.1.now ≤ length text.now)) }
{
    match split_first(text) {
        None => Ok(None),
        Some(('<', rest)) => section_head(alloc, rest),
        Some(_) => head_from(alloc, LineKind::OptionLine, text),
    }
}
