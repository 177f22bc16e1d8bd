//! Dice in memory.
ghost use Rattle.std.specs.Prelude.{Some, ◌≡◌};

use crate::Dice;

/// Dice that go a step at each word, modulo 2^64.
#[derive(Drop)]
pub struct MemDice {
    next: u64,
    step: u64,
}

impl MemDice {
    /// Dice whose next word and step are these.
    pub fn new(next: u64, step: u64) -> Self
        ensures { ⟦<MemDice as Dice>⟧.dice_pair result ≡ Some (next, step) }
    {
        MemDice { next, step }
    }
}

impl Dice for MemDice {
    ghost dice_pair = { λ d. Some (d.next, d.step) };

    fn word(&mut self) -> u64 {
        let word = self.next;
        self.next = word.wrapping_add(self.step);
        word
    }

    fn fork(&mut self) -> Self {
        MemDice::new(self.next, self.step)
    }
}
