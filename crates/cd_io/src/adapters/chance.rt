//! The real dice.
ghost use Rattle.std.specs.Prelude.{None};

use crate::Dice;

/// Dice whose words are made from a counter by mixing its bits (SplitMix64). Nothing is claimed of the words.
#[derive(Drop)]
pub struct RealDice {
    counter: u64,
}

impl RealDice {
    /// The dice that begin from a seed.
    pub fn new(seed: u64) -> Self {
        RealDice { counter: seed }
    }
}

impl Dice for RealDice {
    ghost dice_pair = { λ d. None };

    fn word(&mut self) -> u64 {
        self.counter = self.counter.wrapping_add(0x9e37_79b9_7f4a_7c15);
        let mut word = self.counter;
        word = (word ^ (word >> 30)).wrapping_mul(0xbf58_476d_1ce4_e5b9);
        word = (word ^ (word >> 27)).wrapping_mul(0x94d0_49bb_1331_11eb);
        word ^ (word >> 31)
    }

    fn fork(&mut self) -> Self {
        RealDice {
            counter: self.counter,
        }
    }
}
