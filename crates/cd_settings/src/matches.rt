//! The matches of filter chains.
ghost use Rattle.cd_conf.specs.Parts.{args_of};
ghost use Rattle.cd_reading.specs.Gives.{Gives};
ghost use Rattle.cd_settings.specs.BigPatterns.{begins_with_pattern, item_fault, match_lines, option_line, regex_lines};
ghost use Rattle.cd_settings.specs.Faults.{settings_fault};
ghost use Rattle.cd_pattern.specs.Patterns.{is_pattern};
ghost use Rattle.cd_settings.specs.Forms as forms;
ghost use Rattle.cd_settings.specs.Forms.{text_list};
ghost use Rattle.cd_settings.specs.MatchOptions.{empty_counter_of, match_of, pattern_of, regex_from, regex_of, timediff_of, value_of, with_pattern};
ghost use Rattle.cd_settings.specs.Tables.{given, need};
ghost use Rattle.std.specs.Prelude.{◌≡◌};

use crate::fault::{ItemFault, SettingsFault, SettingsKind};
use crate::forms::{delay, flag, satisfy, some_number, text, texts};
use crate::items::{at, childless, needed, needs, option, set, unknown};
use crate::paths::push_texts;
use crate::section::Section;
use cd_conf::Item;
use cd_match::{CompiledPatterns, Match, RegexMatch, ValueMatch};
use cd_pattern::{Field, Pattern, PatternFault};
use cd_value::{Memory, Names, Sequence};
use std::alloc::Global;

/// What the options of a match "regex" set.
#[derive(Drop)]
pub struct RegexOptions {
    /// The patterns in order.
    pub patterns: CompiledPatterns,
    /// Whether the match is inverted.
    pub invert: bool,
}

/// What the options of a match "timediff" set, in 2^-30 s.
#[derive(Drop)]
pub struct TimeDiffOptions {
    /// How far ahead of the clock.
    pub future: u64,
    /// How far behind it.
    pub past: u64,
}

/// Compiles the pattern of an option, which begins with it.
pub fn compiled(alloc: Global, pattern: &str, item: &Item) -> Result<Pattern, ItemFault>
    requires { begins_with_pattern (args_of item.now) ≡ is_pattern pattern.now }
    ensures { let read = pattern_of item.now pattern.now in
        Gives (λ pattern. pattern) (item_fault (option_line item.now read)) result read }
{
    match Pattern::of(alloc, pattern) {
        Ok(pattern) => Ok(pattern),
        Err(PatternFault::BadPattern) => Err(ItemFault::NotCompiled(item.line)),
        Err(PatternFault::Memory) => Err(ItemFault::from(Memory)),
    }
}

impl RegexOptions {
    /// Puts the pattern for a field behind the others.
    fn add(&mut self, alloc: Global, field: Field, item: &Item) -> Result<(), ItemFault>
        ensures { let changed = given item.now (forms.text (args_of item.now))
            (with_pattern field self.old) in
            Gives (λ _. self.new) (item_fault (option_line item.now changed)) result changed }
    {
        let pattern = needed(text(item), item)?;
        let pattern = compiled(alloc, pattern, item)?;
        self.patterns.push((field, pattern))?;
        Ok(())
    }

    /// The match, which needs a pattern.
    fn finish(self, item: &Item) -> Result<Match, SettingsFault>
        ensures { result ≡ regex_from self item.now }
    {
        let RegexOptions { patterns, invert } = self;
        let enough = !patterns.is_empty();
        let test = RegexMatch::of_compiled(patterns, invert);
        needs(enough, item, Match::Regex(test))
    }
}

impl Section for RegexOptions {
    ghost use Rattle.cd_settings.specs.BigPatterns.{option_lines};
    ghost use Rattle.cd_settings.specs.MatchOptions.{regex_options};
    ghost use Rattle.cd_settings.specs.Tables.{by_table};

    type Fault = ItemFault;

    ghost change = { by_table regex_options };

    ghost lines = { option_lines regex_options };

    fn take(&mut self, alloc: Global, item: &Item) -> Result<(), ItemFault> {
        by_table! { item, Ok(unknown(item)?);
            option "Host" => self.add(alloc, Field::Host, item),
            option "Plugin" => self.add(alloc, Field::Plugin, item),
            option "PluginInstance" => self.add(alloc, Field::PluginInstance, item),
            option "Type" => self.add(alloc, Field::TypeName, item),
            option "TypeInstance" => self.add(alloc, Field::TypeInstance, item),
            option "Invert" => Ok(set(&mut self.invert, flag(item), item)?),
        }
    }
}

/// A match "regex".
fn regex_of(alloc: Global, item: &Item) -> Result<Match, ItemFault>
    ensures { Gives (λ test. test) (item_fault (regex_lines item.now)) result (regex_of item.now) }
{
    let mut options = RegexOptions {
        patterns: Sequence::new(alloc),
        invert: false,
    };
    options.take_all(alloc, item.children.as_slice())?;
    Ok(options.finish(item)?)
}

impl Section for TimeDiffOptions {
    ghost use Rattle.cd_settings.specs.MatchOptions.{timediff_options};
    ghost use Rattle.cd_settings.specs.Tables.{by_table};

    type Fault = SettingsFault;

    ghost change = { by_table timediff_options };

    fn take(&mut self, _alloc: Global, item: &Item) -> Result<(), SettingsFault> {
        by_table! { item, unknown(item);
            option "Future" => set(&mut self.future, delay(item), item),
            option "Past" => set(&mut self.past, delay(item), item),
        }
    }
}

/// A match "timediff", which needs a number that isn't 0.
fn timediff_of(alloc: Global, item: &Item) -> Result<Match, SettingsFault>
    ensures { Gives (λ test. test) settings_fault result (timediff_of item.now) }
{
    let mut options = TimeDiffOptions { future: 0, past: 0 };
    options.take_all(alloc, item.children.as_slice())?;
    let TimeDiffOptions { future, past } = options;
    needs(
        !(future == 0 && past == 0),
        item,
        Match::TimeDiff { future, past },
    )
}

/// Sets the texts that the values of an option are.
fn set_texts(alloc: Global, place: &mut Names, item: &Item) -> Result<(), SettingsFault>
    ensures { let names = need item.now (text_list (args_of item.now)) in
        Gives (λ _. place.new) settings_fault result names }
{
    needed(texts(item), item)?;
    let mut names = Names::new(alloc);
    push_texts(alloc, &mut names, item.args.as_slice())?;
    *place = names;
    Ok(())
}

impl Section for ValueMatch {
    ghost use Rattle.cd_settings.specs.MatchOptions.{value_options};
    ghost use Rattle.cd_settings.specs.Tables.{by_table};

    type Fault = SettingsFault;

    ghost change = { by_table value_options };

    fn take(&mut self, alloc: Global, item: &Item) -> Result<(), SettingsFault> {
        by_table! { item, unknown(item);
            option "Min" => set(&mut self.min, some_number(item), item),
            option "Max" => set(&mut self.max, some_number(item), item),
            option "Invert" => set(&mut self.invert, flag(item), item),
            option "DataSource" => set_texts(alloc, &mut self.sources, item),
            option "Satisfy" => set(&mut self.any, satisfy(item), item),
        }
    }
}

/// A match "value", which needs a bound.
fn value_of(alloc: Global, item: &Item) -> Result<Match, SettingsFault>
    ensures { Gives (λ test. test) settings_fault result (value_of item.now) }
{
    let mut options = ValueMatch {
        min: None,
        max: None,
        invert: false,
        sources: Names::new(alloc),
        any: false,
    };
    options.take_all(alloc, item.children.as_slice())?;
    let enough = options.min.is_some() || options.max.is_some();
    needs(enough, item, Match::Value(options))
}

/// A match "empty_counter".
fn empty_counter_of(item: &Item) -> Result<Match, SettingsFault>
    ensures { result ≡ empty_counter_of item.now }
{
    childless(item)?;
    Ok(Match::EmptyCounter)
}

/// A match of a kind.
pub fn match_of(alloc: Global, kind: &str, item: &Item) -> Result<Match, ItemFault>
    ensures { let read = match_of kind.now item.now in
        let free = match_lines kind.now item.now in
        Gives (λ test. test) (item_fault free) result read }
{
    if kind == "regex" {
        regex_of(alloc, item)
    } else if kind == "timediff" {
        Ok(timediff_of(alloc, item)?)
    } else if kind == "value" {
        Ok(value_of(alloc, item)?)
    } else if kind == "empty_counter" {
        Ok(empty_counter_of(item)?)
    } else {
        Err(ItemFault::Fault(at(SettingsKind::UnknownOption, item)))
    }
}
