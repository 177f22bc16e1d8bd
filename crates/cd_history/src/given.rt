//! What a run took from the outside.
use cd_registry::{Answer, Reading};
use cd_value::Sequence;

/// What the clock, the dice, a plug-in or a reader gave to a run.
#[derive(Drop)]
pub enum Given {
    /// A moment, in units of 2^-30 s.
    Now(u64),
    /// A word of the dice.
    Word(u64),
    /// What a plug-in answered to a call.
    Answered(Answer),
    /// What a reader gave, in a box, so that the other kinds take no room for it.
    Read(Box<Reading>),
}

/// What was given, in order.
pub type Givens = Sequence<Given>;
