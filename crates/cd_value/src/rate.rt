//! Rates of values against the values before them.
ghost use Rattle.cd_value.specs.Rates as rates;
ghost use Rattle.cd_value.specs.Rates.{IsCutOf, IsOfCount, LeadsTo, is_gauge, is_known, rate_of, rate_of_change};
ghost use Rattle.std.specs.Option.{option_copied};
ghost use Rattle.std.specs.Prelude.{IfSome, IsNone, IsTrue, false, int_le, is_some, negsuc, pos, ◌*ℤ◌, ◌^◌, ◌≡◌, ◌≤ℤ◌, ◌≤◌};

use crate::{DataSource, MILLIONTHS, Rate, SECOND, Value, WRAP_OF_32_BITS};

/// What a change of one adds to the numerator of a rate, which is in millionths per second over a
/// denominator in 2^-30 s.
const CHANGE_OF_ONE: i128 = MILLIONTHS as i128 * SECOND as i128;

impl Rate {
    /// The rate of a value of a source against the value before it, which came `dt` (in 2^-30 s)
    /// earlier, as in types.db(5) and collectd.conf(5): a gauge is its own rate; of a counter and of
    /// a derive it is the change, and of an absolute the value, by the time. Only a gauge has a rate
    /// without an earlier value. A counter that stands lower than before has wrapped, at 2^32 where
    /// it stood below that, and at 2^64 otherwise. A rate below the source's least or above its
    /// greatest is unknown.
    pub fn of(old: Option<&Value>, new: &Value, dt: u64, source: &DataSource) -> Rate
        ensures value { result ≡ rate_of source.now (option_copied old.entry) new.now dt }
        ensures range { IsTrue (is_known result) → IsTrue (rates.is_within source.now result) }
        ensures first { IsNone old.entry → is_gauge new.now ≡ false → result ≡ Rate.Unknown }
        ensures wrap { IsOfCount (option_copied old.entry) new.now dt result }
        ensures never_by_zero { is_known result ≡ false → result ≡ Rate.Unknown }
    {
        let rate = change(old, new, dt);
        if rate.reaches_min(source.min) && rate.keeps_max(source.max) {
            rate
        } else {
            Rate::Unknown
        }
    }

    /// Whether the rate is known and at most `bound` millionths, by its exact fraction.
    pub fn at_most(&self, bound: i128) -> bool
        ensures value { result ≡ rates.at_most self.now bound }
        ensures else_above { IsTrue (is_known self.now) → result ≡ false →
            IsTrue (rates.at_least self.now bound) }
        ensures unknown { is_known self.now ≡ false → result ≡ false }
    {
        match self {
            Rate::Known { num, den } => *den != 0 && is_at_most(*num, *den, bound),
            Rate::Unknown => false,
        }
    }

    /// Whether the rate is known and at least `bound` millionths, by its exact fraction.
    pub fn at_least(&self, bound: i128) -> bool
        ensures value { result ≡ rates.at_least self.now bound }
        ensures else_below { IsTrue (is_known self.now) → result ≡ false →
            IsTrue (rates.at_most self.now bound) }
        ensures unknown { is_known self.now ≡ false → result ≡ false }
    {
        match self {
            Rate::Known { num, den } => *den != 0 && is_at_least(*num, *den, bound),
            Rate::Unknown => false,
        }
    }

    /// The whole millionths, cut toward zero, or none where the rate is unknown.
    pub fn millionths(&self) -> Option<i128>
        ensures value { result ≡ rates.millionths self.now }
        ensures known { is_some result ≡ is_known self.now }
        ensures toward_zero { IfSome result (IsCutOf self.now) }
    {
        match self {
            Rate::Known { num, den } => {
                if *den == 0 {
                    None
                } else {
                    Some(*num / i128::from(*den))
                }
            }
            Rate::Unknown => None,
        }
    }

    /// Whether the rate is known: a fraction over 0 is none.
    pub fn is_known(&self) -> bool
        ensures { result ≡ is_known self.now }
    {
        match self {
            Rate::Known { num: _, den } => *den != 0,
            Rate::Unknown => false,
        }
    }

    /// Whether the rate is at least a bound in millionths, where there is one.
    pub fn reaches_min(&self, min: Option<i128>) -> bool
        ensures { result ≡ rates.reaches_min self.now min }
    {
        match min {
            Some(min) => self.at_least(min),
            None => true,
        }
    }

    /// Whether the rate is at most a bound in millionths, where there is one.
    pub fn keeps_max(&self, max: Option<i128>) -> bool
        ensures { result ≡ rates.keeps_max self.now max }
    {
        match max {
            Some(max) => self.at_most(max),
            None => true,
        }
    }
}

/// Whether a fraction is at least a bound: a product that passes 128 bits is beyond every numerator
/// on its side.
fn is_at_least(num: i128, den: u64, bound: i128) -> bool
    requires { 1 ≤ den }
    ensures { result ≡ int_le (bound *ℤ pos den) num }
{
    match bound.checked_mul(i128::from(den)) {
        Some(product) => product <= num,
        None => bound < 0,
    }
}

fn is_at_most(num: i128, den: u64, bound: i128) -> bool
    requires { 1 ≤ den }
    ensures { result ≡ int_le num (bound *ℤ pos den) }
{
    match bound.checked_mul(i128::from(den)) {
        Some(product) => num <= product,
        None => bound > 0,
    }
}

/// The rate before its range is looked at.
fn change(old: Option<&Value>, new: &Value, dt: u64) -> Rate
    ensures value { result ≡ rate_of_change (option_copied old.entry) new.now dt }
    ensures wrap { IsOfCount (option_copied old.entry) new.now dt result }
{
    match new {
        Value::Gauge(None) => Rate::Unknown,
        Value::Gauge(Some(gauge)) => Rate::Known {
            num: *gauge,
            den: 1,
        },
        Value::Derive(to) => match old {
            Some(Value::Derive(from)) => per_second(i128::from(*to) - i128::from(*from), dt),
            _ => Rate::Unknown,
        },
        Value::Counter(to) => match old {
            Some(Value::Counter(from)) => per_second(i128::from(counter_change(*from, *to)), dt),
            _ => Rate::Unknown,
        },
        Value::Absolute(count) => match old {
            Some(_) => per_second(i128::from(*count), dt),
            None => Rate::Unknown,
        },
    }
}

/// How far a counter has come.
fn counter_change(old: u64, new: u64) -> u64
    ensures value { result ≡ rates.counter_change old new }
    ensures leads { LeadsTo old result new }
{
    if old <= new {
        new - old
    } else if old < WRAP_OF_32_BITS {
        WRAP_OF_32_BITS - old + new
    } else {
        u64::MAX - old + new + 1
    }
}

fn per_second(change: i128, dt: u64) -> Rate
    requires low { negsuc (2 ^ 64) ≤ℤ change }
    requires high { change ≤ℤ pos (2 ^ 64) }
    ensures { result ≡ rates.per_second change dt }
{
    if dt == 0 {
        return Rate::Unknown;
    }
    Rate::Known {
        num: change * CHANGE_OF_ONE,
        den: dt,
    }
}
