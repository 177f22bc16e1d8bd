//! The kinds of matches.
use crate::RegexMatch;
use cd_value::Names;

/// A match of a rule, as in collectd.conf(5), "Built-in matches" and "Available matches". The times are in units of
/// 2^-30 s.
#[derive(Drop)]
pub enum Match {
    /// Each pattern is found in its field.
    Regex(RegexMatch),
    /// The list is at least `future` ahead of the daemon's clock, or at least `past` behind it; 0 asks nothing.
    TimeDiff { future: u64, past: u64 },
    /// The rates are within a range.
    Value(ValueMatch),
    /// There is a counter, and each counter is 0.
    EmptyCounter,
}

/// The options of a match "value". The bounds are in millionths; one that isn't given always holds. Where no source is
/// named, all sources of the data set are meant.
#[derive(Drop)]
pub struct ValueMatch {
    pub min: Option<i128>,
    pub max: Option<i128>,
    pub invert: bool,
    pub sources: Names,
    /// Whether one source is enough ("Satisfy").
    pub any: bool,
}
