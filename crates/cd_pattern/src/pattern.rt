//! Patterns that are looked for in texts.
ghost use Rattle.cd_pattern.specs.Patterns.{IsPlaceIn, first_found, is_found_in, is_pattern};
ghost use Rattle.std.specs.Prelude.{IfErr, IfOk, IfSome, IsTrue, ◌≡◌};

use crate::seen::{Seen, note, recall};
use cd_value::{Memory, Refused, Text};
use regex::{Error, Regex};
use std::alloc::Global;
use std::marker::Model;

/// Why a text isn't compiled.
#[derive(Clone, Copy, Debug, PartialEq, Eq)]
pub enum PatternFault {
    /// The text is no pattern of `regex`, is nested too deep, or is too big when it is compiled.
    BadPattern,
    /// Memory was lacking.
    Memory,
}

/// A compiled regular expression, as the option of a match or a target gives it in collectd.conf(5). It is seen as its
/// text, which always is a pattern. It notes answers, since the same names come again and again and a search is dear.
#[derive(Drop)]
pub struct Pattern {
    compiled: Regex,
    /// The last answers, each in the slot of its text.
    slots: Vec<Option<Seen>>,
}

impl Model for Pattern {
    ghost use Rattle.cd_pattern.specs.Compiled.{IsCompiled};
    ghost use Rattle.cd_pattern.specs.Seen.{AreRight};
    ghost use Rattle.regex.specs.Strings.{regex_source};
    ghost use Rattle.std.specs.Prelude.{List, ℕ};

    ghost Value = { List ℕ };

    ghost view = { λ pattern. regex_source pattern.compiled };

    ghost invariant = { λ pattern.
        IsCompiled pattern.compiled × AreRight (regex_source pattern.compiled) pattern.slots.items };
}

impl Pattern {
    /// Compiles a text, which comes back where it is refused. A text that is no pattern is never taken; which patterns
    /// are too big when they are compiled is `regex`'s own word, and no clause says it.
    pub fn new(alloc: Global, text: Text) -> Result<Pattern, Refused<Text, PatternFault>>
        ensures ok { IfOk result (λ pattern. pattern ≡ text) }
        ensures pattern { IfOk result (λ _. IsTrue (is_pattern text)) }
        ensures back { IfErr result (λ refused. refused.value ≡ text) }
    {
        match Pattern::of(alloc, text.as_str()) {
            Ok(pattern) => Ok(pattern),
            Err(why) => Err(Refused { value: text, why }),
        }
    }

    /// Compiles a text that stays with the caller, as `new` does.
    pub fn of(alloc: Global, text: &str) -> Result<Pattern, PatternFault>
        ensures ok { IfOk result (λ pattern. pattern ≡ text.now) }
        ensures pattern { IfOk result (λ _. IsTrue (is_pattern text.now)) }
    {
        match Regex::new(alloc, text) {
            Ok(compiled) => Ok(Pattern {
                compiled,
                slots: Vec::new(alloc),
            }),
            Err(Error::OutOfMemory) => Err(PatternFault::Memory),
            Err(Error::Syntax(_)) => Err(PatternFault::BadPattern),
            Err(Error::CompiledTooBig) => Err(PatternFault::BadPattern),
            Err(Error::Internal) => Err(PatternFault::BadPattern),
        }
    }

    /// The text of the pattern.
    pub fn as_str(&self) -> &str
        ensures text { result.now ≡ self.now }
        ensures pattern { IsTrue (is_pattern self.now) }
    {
        self.compiled.as_str()
    }

    /// Whether the pattern is found anywhere in a text. An answer that is known already takes no memory; one that
    /// can't be noted for want of memory is given all the same.
    pub fn is_found(&mut self, alloc: Global, text: &str) -> Result<bool, Memory>
        ensures found { IfOk result (λ found. found ≡ is_found_in self.old text.now) }
        ensures same { self.new ≡ self.old }
    {
        if let Some(found) = recall(self.slots.as_slice(), text) {
            return Ok(found);
        }
        let found = self.search(alloc, text)?;
        note(&mut self.slots, alloc, text, found).ok();
        Ok(found)
    }

    /// Whether the pattern is found in a text, by a search.
    fn search(&self, alloc: Global, text: &str) -> Result<bool, Memory>
        ensures { IfOk result (λ found. found ≡ is_found_in self.now text.now) }
    {
        let mut matcher = self.compiled.matcher(alloc)?;
        Ok(matcher.is_match(text))
    }

    /// The places, in bytes, where the first match of the pattern in a text begins and ends. The text may be cut there.
    pub fn first(&self, alloc: Global, text: &str) -> Result<Option<(usize, usize)>, Memory>
        ensures first { IfOk result (λ place. place ≡ first_found self.now text.now) }
        ensures cuts { IfOk result (λ place. IfSome place (IsPlaceIn text.now)) }
    {
        let mut matcher = self.compiled.matcher(alloc)?;
        match matcher.find(text) {
            Some(found) => Ok(Some((found.start(), found.end()))),
            None => Ok(None),
        }
    }
}
