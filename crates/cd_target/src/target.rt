//! The targets.
ghost use Rattle.cd_pattern.specs.Patterns.{IsPlaceIn, is_pattern};
ghost use Rattle.cd_target.specs.Targets.{replaced_once};
ghost use Rattle.std.specs.Prelude.{IfErr, IfOk, IsTrue, drop, take, ◌++◌, ◌≡◌};

use crate::{Replaces, Sets};
use cd_pattern::{Field, Pattern, PatternFault};
use cd_value::{Memory, Names, Refused, Severity, Text};
use std::alloc::Global;

/// What a rule of a filter chain does with a value list, as in collectd.conf(5), "Available targets".
#[derive(Drop)]
pub enum Target {
    /// Ends the chain. The chain that jumped here goes on.
    Return,
    /// Ends the handling of the list.
    Stop,
    /// Goes through the chain of that name, and then on.
    Jump(Text),
    /// Gives the list as it is then to these write plugins, or to all where there is no name.
    Write(Names),
    /// Gives fields new texts, in which placeholders stand for the fields.
    Set(Sets),
    /// Replaces what patterns find in fields.
    Replace(Replaces),
    /// Makes a notification, in whose message placeholders stand for the fields.
    Notification { message: Text, severity: Severity },
}

/// An option of the target "replace": in that field the first match of the pattern gives way to the replacement, which
/// stands as it is.
#[derive(Drop)]
pub struct Replacing {
    pub field: Field,
    pub pattern: Pattern,
    pub with: Text,
}

impl Replacing {
    /// Compiles the pattern, which comes back where it is refused; then the replacement is dropped.
    pub fn new(
        alloc: Global,
        field: Field,
        pattern: Text,
        with: Text,
    ) -> Result<Replacing, Refused<Text, PatternFault>>
        ensures ok { IfOk result (λ option.
            option ≡ record { field = field; pattern = pattern; with = with }) }
        ensures pattern { IfOk result (λ _. IsTrue (is_pattern pattern)) }
        ensures back { IfErr result (λ refused. refused.value ≡ pattern) }
    {
        match Pattern::new(alloc, pattern) {
            Ok(pattern) => Ok(Replacing {
                field,
                pattern,
                with,
            }),
            Err(refused) => Err(refused),
        }
    }

    /// The text with the first match replaced, and as it stands where there is none.
    pub(crate) fn apply(&self, alloc: Global, text: Text) -> Result<Text, Memory>
        ensures { IfOk result (λ new. new ≡ replaced_once text self.now) }
    {
        match self.pattern.first(alloc, text.as_str())? {
            Some((begin, end)) => exchanged(alloc, text.as_str(), begin, end, self.with.as_str()),
            None => Ok(text),
        }
    }
}

/// A text with what stands between two places exchanged.
fn exchanged(
    alloc: Global,
    text: &str,
    begin: usize,
    end: usize,
    with: &str,
) -> Result<Text, Memory>
    requires { IsPlaceIn text.now (begin, end) }
    ensures { IfOk result (λ new. new ≡ take begin text.now ++ with.now ++ drop end text.now) }
{
    let mut new = Text::of(alloc, &text[..begin])?;
    new.push(with)?;
    new.push(&text[end..])?;
    Ok(new)
}
