//! The real world.
ghost use Rattle.std.specs.Prelude.{None, ◌≡◌};

use crate::{Clock, OutFault, ReaderSource, RealClock, RealDice, World};
use std::io::ErrorKind;
use std::marker::Send;
use std::rt::Files;
use std::{fs, time};

/// The world of a runtime. Its dice begin from its clock.
#[derive(Drop)]
pub struct RealWorld<R> {
    rt: R,
    faults: u64,
    reading_faults: u64,
}

impl<R: Files + time::Clock + Copy + Send + Drop> RealWorld<R> {
    /// The world of a runtime.
    pub fn new(rt: R) -> Self
        ensures { ⟦<RealWorld<R> as World>⟧.world_tells result
            ≡ record { files = None; faults = 0; reading_faults = 0 } }
    {
        RealWorld {
            rt,
            faults: 0,
            reading_faults: 0,
        }
    }
}

impl<R: Files + time::Clock + Copy + Send + Drop> World for RealWorld<R> {
    type Src = ReaderSource<R::File>;

    type Clk = RealClock<R>;

    type Die = RealDice;

    ghost world_tells = { λ w. record { files = None; faults = w.faults; reading_faults = w.reading_faults } };

    ghost world_clock_pair = { λ w. None };

    ghost world_dice_pair = { λ w. None };

    fn file(&mut self, path: &str) -> Result<ReaderSource<R::File>, OutFault> {
        match fs::open(&self.rt, path) {
            Ok(file) => Ok(ReaderSource::new(file)),
            Err(error) if error.kind() == ErrorKind::OutOfMemory => Err(OutFault::Memory),
            Err(_) => Err(OutFault::counted(&mut self.faults)),
        }
    }

    fn shut(&mut self, source: ReaderSource<R::File>) {
        if source.faults() > 0 {
            self.reading_faults = self.reading_faults.saturating_add(1);
        }
    }

    fn clock(&mut self) -> RealClock<R> {
        RealClock::new(self.rt)
    }

    fn dice(&mut self) -> RealDice {
        RealDice::new(RealClock::new(self.rt).now())
    }
}
