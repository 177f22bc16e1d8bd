//! What comes by chance.
use crate::step::Step;
use rand_core::{Rng, SeedableRng};
use rand_xoshiro::Xoshiro256PlusPlus;

/// How many registration numbers there are.
const NUMBERS: u64 = 200;
/// The longest of the configured intervals. Moments rise by one a step, and a reading begins every fourth step: so some
/// readings are late, and often several are due at the same moment.
const INTERVAL: u64 = 400;

/// Where steps are drawn from.
#[derive(Drop)]
pub struct Draw {
    words: Xoshiro256PlusPlus,
}

impl Draw {
    /// Steps that a seed decides.
    pub fn new(seed: u64) -> Draw {
        Draw {
            words: Xoshiro256PlusPlus::seed_from_u64(seed),
        }
    }

    /// A number below a count that isn't 0.
    pub fn below(&mut self, count: u64) -> u64 {
        self.words.next_u64().checked_rem(count).unwrap_or(0)
    }

    /// A number below a count, and once in sixty-four the greatest that there is.
    fn below_or_last(&mut self, count: u64) -> u64 {
        if self.below(64) == 0 {
            return u64::MAX;
        }
        self.below(count)
    }

    /// Of sixteen steps two add a reader, one removes one, five begin a reading, and eight end one.
    pub fn step(&mut self) -> Step {
        let reg = self.below(NUMBERS);
        match self.below(16) {
            0 | 1 => Step::Add(reg, self.below_or_last(INTERVAL)),
            2 => Step::Remove(reg),
            3..=7 => Step::Begin,
            8..=11 => Step::Return(reg, true),
            _ => Step::Return(reg, false),
        }
    }
}
