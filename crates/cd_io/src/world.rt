//! What hands out the objects of the outside.
ghost use Rattle.cd_io.specs.Causes.{Counts};
ghost use Rattle.cd_io.specs.World.{Opens, Shuts, WorldTells};
ghost use Rattle.std.specs.Prelude.{Option, true, ℕ, ◌≡◌};

use crate::{Clock, Dice, Source};

/// Why the outside didn't hand out an object.
#[derive(Clone, Copy, Debug, PartialEq, Eq)]
pub enum OutFault {
    /// The call failed: the world's count of faults rose in it, or stands at `u64::MAX`.
    Failed,
    /// Memory was lacking.
    Memory,
}

impl OutFault {
    /// Counts a fault, and makes its answer.
    pub(crate) fn counted(faults: &mut u64) -> Self
        ensures counts { Counts true faults.old faults.new }
        ensures failed { result ≡ OutFault.Failed }
    {
        *faults = faults.saturating_add(1);
        OutFault::Failed
    }
}

/// What hands out the objects of the outside.
pub trait World: Drop {
    /// What its files are read from.
    type Src: Source;

    /// The clocks that it makes.
    type Clk: Clock;

    /// The dice that it makes.
    type Die: Dice;

    /// The files that it has, where it tells them, its count of faults, and its count of reading faults.
    ghost world_tells: { Self → WorldTells };

    /// The pair with which each clock that it makes begins, where it tells it.
    ghost world_clock_pair: { Self → Option (ℕ × ℕ) };

    /// The pair with which all dice that it makes begin, where it tells it.
    ghost world_dice_pair: { Self → Option (ℕ × ℕ) };

    /// Opens the file of a path for reading.
    fn file(&mut self, path: &str) -> Result<Self::Src, OutFault>
        ensures opens { Opens Self.Src.source_tells path.now result
            (world_tells self.old) (world_tells self.new) }
        ensures clock_pair { world_clock_pair self.new ≡ world_clock_pair self.old }
        ensures dice_pair { world_dice_pair self.new ≡ world_dice_pair self.old };

    /// Takes back what a file was read from, and closes the file. Where a call on it failed, the count of reading
    /// faults rises.
    fn shut(&mut self, source: Self::Src)
        ensures shuts { Shuts (Self.Src.source_tells source)
            (world_tells self.old) (world_tells self.new) }
        ensures clock_pair { world_clock_pair self.new ≡ world_clock_pair self.old }
        ensures dice_pair { world_dice_pair self.new ≡ world_dice_pair self.old };

    /// Makes a clock.
    fn clock(&mut self) -> Self::Clk
        ensures begins { Self.Clk.clock_pair result ≡ world_clock_pair self.old }
        ensures tells { world_tells self.new ≡ world_tells self.old }
        ensures clock_pair { world_clock_pair self.new ≡ world_clock_pair self.old }
        ensures dice_pair { world_dice_pair self.new ≡ world_dice_pair self.old };

    /// Makes dice.
    fn dice(&mut self) -> Self::Die
        ensures begins { Self.Die.dice_pair result ≡ world_dice_pair self.old }
        ensures tells { world_tells self.new ≡ world_tells self.old }
        ensures clock_pair { world_clock_pair self.new ≡ world_clock_pair self.old }
        ensures dice_pair { world_dice_pair self.new ≡ world_dice_pair self.old };
}
