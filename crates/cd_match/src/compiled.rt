//! The match "regex".
ghost use Rattle.cd_match.specs.Matches.{are_found, is_sought, regex_holds};
ghost use Rattle.cd_match.specs.Refusals.{IsCauseAt, IsFirstBad, are_patterns};
ghost use Rattle.cd_pattern.specs.Patterns.{is_pattern};
ghost use Rattle.std.specs.Prelude.{IfErr, IfOk, IsTrue, ◌≡◌};

use crate::Patterns;
use crate::value::inverted;
use cd_pattern::{Field, Pattern, PatternFault};
use cd_value::{Identifier, Memory, Refused, Sequence, Text};
use std::alloc::{AllocError, AllocFailed, Global};
use std::marker::Model;

/// Why patterns aren't taken.
#[derive(Clone, Copy, Debug, PartialEq, Eq)]
pub enum BadPattern {
    /// The number of the first text that is no pattern, is nested too deep, or is too big when it is compiled.
    At(u64),
    /// Memory was lacking.
    Memory,
}

impl From<AllocError> for BadPattern {
    ghost use Rattle.cd_match.specs.declared.compiled.BadPattern.TheVariants as faults;
    ghost use Rattle.std.specs.Prelude.{◌≡◌};

    ghost from_gives = { λ _ e. e ≡ faults.Memory };

    fn from(_: AllocError) -> Self {
        BadPattern::Memory
    }
}

impl<T: Drop> From<AllocFailed<T>> for BadPattern {
    ghost use Rattle.cd_match.specs.declared.compiled.BadPattern.TheVariants as faults;
    ghost use Rattle.std.specs.Prelude.{◌≡◌};

    ghost from_gives = { λ _ e. e ≡ faults.Memory };

    fn from(_: AllocFailed<T>) -> Self {
        BadPattern::Memory
    }
}

/// Fields, each with a compiled pattern for it.
pub type CompiledPatterns = Sequence<(Field, Pattern)>;

/// The match "regex" of collectd.conf(5): patterns that are looked for in fields, and whether the match is inverted.
#[derive(Drop)]
pub struct RegexMatch {
    patterns: Vec<(Field, Pattern)>,
    invert: bool,
}

impl Model for RegexMatch {
    ghost use Rattle.cd_match.specs.Sought.{Sought};

    ghost Value = { Sought };

    ghost view = { λ test. record { patterns = test.patterns.items; invert = test.invert } };
}

impl RegexMatch {
    /// The match of patterns that are compiled already.
    pub fn of_compiled(patterns: CompiledPatterns, invert: bool) -> RegexMatch
        ensures { result ≡ record { patterns = patterns; invert = invert } }
    {
        RegexMatch {
            patterns: patterns.into_vec(),
            invert,
        }
    }

    /// Compiles the patterns. They come back where the first bad one is told, or where memory was lacking.
    pub fn new(
        alloc: Global,
        patterns: Patterns,
        invert: bool,
    ) -> Result<RegexMatch, Refused<Patterns, BadPattern>>
        ensures ok { IfOk result (λ test. test ≡ record { patterns = patterns; invert = invert }) }
        ensures patterns { IfOk result (λ _. IsTrue (are_patterns patterns)) }
        ensures back { IfErr result (λ refused. refused.value ≡ patterns) }
        ensures cause { IfErr result (λ refused. IsFirstBad patterns refused.why) }
    {
        match compiled(alloc, patterns.as_slice()) {
            Ok(compiled) => Ok(RegexMatch {
                patterns: compiled,
                invert,
            }),
            Err(why) => Err(Refused {
                value: patterns,
                why,
            }),
        }
    }

    /// Whether each pattern is found in its field; the contrary where the match is inverted.
    pub(crate) fn holds(&mut self, alloc: Global, id: &Identifier) -> Result<bool, Memory>
        ensures holds { IfOk result (λ found. found ≡ regex_holds self.old id.now) }
        ensures same { self.new ≡ self.old }
    {
        let found = all_found(alloc, self.patterns.as_mut_slice(), id)?;
        Ok(inverted(self.invert, found))
    }
}

fn compiled(alloc: Global, patterns: &[(Field, Text)]) -> Result<Vec<(Field, Pattern)>, BadPattern>
    ensures ok { IfOk result (λ compiled. compiled.items ≡ patterns.now) }
    ensures patterns { IfOk result (λ _. IsTrue (are_patterns patterns.now)) }
    ensures cause { IfErr result (IsFirstBad patterns.now) }
{
    let mut compiled = Vec::with_capacity(alloc, patterns.len())?;
    for (field, text) in patterns {
        let pattern = compiled_at(alloc, compiled.len(), text)?;
        compiled.push((*field, pattern))?;
    }
    Ok(compiled)
}

/// Compiles the pattern of a number.
fn compiled_at(alloc: Global, number: usize, text: &Text) -> Result<Pattern, BadPattern>
    ensures ok { IfOk result (λ pattern. pattern ≡ text.now) }
    ensures pattern { IfOk result (λ _. IsTrue (is_pattern text.now)) }
    ensures cause { IfErr result (IsCauseAt number) }
{
    match Pattern::of(alloc, text.as_str()) {
        Ok(pattern) => Ok(pattern),
        Err(PatternFault::BadPattern) => Err(BadPattern::At(number as u64)),
        Err(PatternFault::Memory) => Err(BadPattern::Memory),
    }
}

fn all_found(
    alloc: Global,
    patterns: &mut [(Field, Pattern)],
    id: &Identifier,
) -> Result<bool, Memory>
    ensures found { IfOk result (λ found. found ≡ are_found id.now patterns.old) }
    ensures same { patterns.new ≡ patterns.old }
{
    for pair in patterns.iter_mut() {
        if !is_sought(alloc, pair, id)? {
            return Ok(false);
        }
    }
    Ok(true)
}

/// Whether a pattern is found in its field.
fn is_sought(alloc: Global, pair: &mut (Field, Pattern), id: &Identifier) -> Result<bool, Memory>
    ensures found { IfOk result (λ found. found ≡ is_sought id.now pair.old) }
    ensures same { pair.new ≡ pair.old }
{
    let field = pair.0;
    pair.1.is_found(alloc, field.of(id).as_str())
}
