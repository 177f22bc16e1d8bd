//! The matches "value" and "empty_counter".
ghost use Rattle.cd_match.specs.Matches.{are_empty, chosen_pass, enough, has_sources, inverted, is_counter, is_empty, number_of, passes, passes_at, passes_named, value_holds};
ghost use Rattle.std.specs.List.{list_all, list_any, range_with_len};
ghost use Rattle.std.specs.Option.{option_copied};
ghost use Rattle.std.specs.Prelude.{◌≡◌};

use crate::ValueMatch;
use cd_value::{DataSource, DsType, Rate, Rates, Text, Value};

/// A verdict, turned round where a match is inverted.
pub(crate) fn inverted(invert: bool, verdict: bool) -> bool
    ensures { result ≡ inverted invert verdict }
{
    if invert { !verdict } else { verdict }
}

impl ValueMatch {
    /// Whether the chosen sources have rates within the range: all of them, or one where one is enough.
    pub(crate) fn holds(&self, sources: &[DataSource], rates: Option<&Rates>) -> bool
        ensures { result ≡ value_holds self.now sources.now (option_copied rates.entry) }
    {
        match rates {
            Some(rates) => self.chosen_pass(sources, rates.as_slice()),
            None => false,
        }
    }

    fn chosen_pass(&self, sources: &[DataSource], rates: &[Rate]) -> bool
        ensures { result ≡ chosen_pass self.now self.now.sources sources.now rates.now }
    {
        if self.sources.is_empty() {
            self.enough_numbers(sources.len(), rates)
        } else {
            has_sources(sources, self.sources.as_slice()) && self.enough_names(sources, rates)
        }
    }

    /// Whether enough of the sources of the first numbers pass.
    fn enough_numbers(&self, count: usize, rates: &[Rate]) -> bool
        ensures { result
            ≡ enough self.now.any (passes_at self.now rates.now) (range_with_len 0 count) }
    {
        if self.any {
            self.any_number(count, rates)
        } else {
            self.all_numbers(count, rates)
        }
    }

    fn any_number(&self, count: usize, rates: &[Rate]) -> bool
        ensures { result ≡ list_any (passes_at self.now rates.now) (range_with_len 0 count) }
    {
        (0..count).any(|number| self.passes_at(rates, number))
    }

    fn all_numbers(&self, count: usize, rates: &[Rate]) -> bool
        ensures { result ≡ list_all (passes_at self.now rates.now) (range_with_len 0 count) }
    {
        (0..count).all(|number| self.passes_at(rates, number))
    }

    /// Whether enough of the sources that are named pass.
    fn enough_names(&self, sources: &[DataSource], rates: &[Rate]) -> bool
        ensures { result ≡ enough self.now.any
            (passes_named self.now sources.now rates.now) self.now.sources }
    {
        if self.any {
            self.any_name(sources, rates)
        } else {
            self.all_names(sources, rates)
        }
    }

    fn any_name(&self, sources: &[DataSource], rates: &[Rate]) -> bool
        ensures { result ≡ list_any (passes_named self.now sources.now rates.now) self.now.sources }
    {
        let names = self.sources.as_slice();
        names
            .iter()
            .any(|name| self.passes_named(sources, rates, name))
    }

    fn all_names(&self, sources: &[DataSource], rates: &[Rate]) -> bool
        ensures { result ≡ list_all (passes_named self.now sources.now rates.now) self.now.sources }
    {
        let names = self.sources.as_slice();
        names
            .iter()
            .all(|name| self.passes_named(sources, rates, name))
    }

    fn passes_named(&self, sources: &[DataSource], rates: &[Rate], name: &Text) -> bool
        ensures { result ≡ passes_named self.now sources.now rates.now name.now }
    {
        match number_of(sources, name) {
            Some(number) => self.passes_at(rates, number),
            None => false,
        }
    }

    /// Whether the source of a number passes. Where it has no rate, it doesn't.
    fn passes_at(&self, rates: &[Rate], number: usize) -> bool
        ensures { result ≡ passes_at self.now rates.now number }
    {
        match rates.get(number) {
            Some(rate) => self.passes(rate),
            None => false,
        }
    }

    /// Whether a rate is known and within the range, or outside of it where the match is inverted.
    fn passes(&self, rate: &Rate) -> bool
        ensures { result ≡ passes self.now rate.now }
    {
        let is_within = rate.reaches_min(self.min) && rate.keeps_max(self.max);
        rate.is_known() && inverted(self.invert, is_within)
    }
}

/// The number of the first source of a name.
fn number_of(sources: &[DataSource], name: &Text) -> Option<usize>
    ensures { result ≡ number_of sources.now name.now }
{
    sources.iter().position(|source| source.name == *name)
}

/// Whether each name is that of a source.
fn has_sources(sources: &[DataSource], names: &[Text]) -> bool
    ensures { result ≡ has_sources sources.now names.now }
{
    names.iter().all(|name| number_of(sources, name).is_some())
}

fn is_counter(source: &DataSource) -> bool
    ensures { result ≡ is_counter source.now }
{
    matches!(source.kind, DsType::Counter)
}

/// Whether a value is no counter, or one that is 0.
fn is_empty(value: &Value) -> bool
    ensures { result ≡ is_empty value.now }
{
    match value {
        Value::Counter(count) => *count == 0,
        _ => true,
    }
}

fn has_counter(sources: &[DataSource]) -> bool
    ensures { result ≡ list_any is_counter sources.now }
{
    sources.iter().any(|source| is_counter(source))
}

fn counters_are_empty(values: &[Value]) -> bool
    ensures { result ≡ list_all is_empty values.now }
{
    values.iter().all(|value| is_empty(value))
}

/// Whether there is a counter among the sources, and each counter is 0.
pub(crate) fn are_empty(sources: &[DataSource], values: &[Value]) -> bool
    ensures { result ≡ are_empty sources.now values.now }
{
    has_counter(sources) && counters_are_empty(values)
}
