//! A state that counts its entries.
ghost use Rattle.std.specs.Prelude.{◌%◌, ◌+◌, ◌^◌, ◌≡◌};

use cd_turn::{Story, Tells};

/// How many turns there were, wrapping.
#[derive(Drop)]
pub struct Count {
    pub count: u64,
}

/// The entry of one turn.
pub struct Tick {
    pub by: u64,
}

impl Story<Tick> for Count {
    ghost use Rattle.cd_turn_tests.specs.Counts.{Counts};
    ghost use Rattle.cd_turn_tests.specs.Ticks.{tick_by};

    type Fixed = ();

    ghost actor = { tick_by };

    ghost fixed = { λ c. tt };

    ghost stands = { Counts };
}

/// A turn tells nothing but who took it.
pub struct Ticked;

impl Tells<(), Tick> for Ticked {
    ghost use Rattle.cd_turn_tests.specs.Ticks.{tick};

    ghost entry = { λ actor x. tick actor };
}

impl Count {
    /// One turn more.
    pub fn tick(&mut self)
        ensures { self.new.count ≡ (self.old.count + 1) % 2 ^ 64 }
    {
        self.count = self.count.wrapping_add(1);
    }
}
