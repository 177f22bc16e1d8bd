//! Whether matches hold of a value list.
ghost use Rattle.cd_match.specs.Matches.{is_apart, is_reached, match_holds};
ghost use Rattle.std.specs.List.{list_all};
ghost use Rattle.std.specs.Option.{option_copied};
ghost use Rattle.std.specs.Prelude.{IfOk, ◌≡◌};

use crate::Match;
use crate::value::are_empty;
use cd_value::{DataSet, Memory, Rates, ValueList};
use std::alloc::Global;

impl Match {
    /// Whether the match holds of a list that fits the data set, with the rates under its name, at a moment in 2^-30 s.
    /// The match stays as it was.
    pub fn holds(
        &mut self,
        alloc: Global,
        list: &ValueList,
        set: &DataSet,
        rates: Option<&Rates>,
        now: u64,
    ) -> Result<bool, Memory>
        ensures holds { IfOk result (λ found.
            found ≡ match_holds self.old set.now (option_copied rates.entry) now list.now) }
        ensures same { self.new ≡ self.old }
    {
        match self {
            Match::Regex(test) => test.holds(alloc, &list.id),
            Match::TimeDiff { future, past } => Ok(is_apart(*future, *past, list.time, now)),
            Match::Value(test) => Ok(test.holds(set.sources.as_slice(), rates)),
            Match::EmptyCounter => Ok(are_empty(set.sources.as_slice(), list.values.as_slice())),
        }
    }
}

/// Whether all matches of a rule hold of a list, as it is with each.
pub fn all_hold(
    alloc: Global,
    matches: &mut [Match],
    list: &ValueList,
    set: &DataSet,
    rates: Option<&Rates>,
    now: u64,
) -> Result<bool, Memory>
    ensures holds { IfOk result (λ found. found ≡ list_all
        (λ test. match_holds test set.now (option_copied rates.entry) now list.now) matches.old) }
    ensures same { matches.new ≡ matches.old }
{
    for test in matches.iter_mut() {
        if !test.holds(alloc, list, set, rates, now)? {
            return Ok(false);
        }
    }
    Ok(true)
}

/// Whether a time is at least `future` ahead of a moment, or at least `past` behind it, all in 2^-30 s.
fn is_apart(future: u64, past: u64, time: u64, now: u64) -> bool
    ensures { result ≡ is_apart future past time now }
{
    is_reached(future, now, time) || is_reached(past, time, now)
}

/// Whether a distance, if it isn't 0, lies between two moments.
fn is_reached(distance: u64, from: u64, to: u64) -> bool
    ensures { result ≡ is_reached distance from to }
{
    distance != 0 && u128::from(from) + u128::from(distance) <= u128::from(to)
}
