//! A world in memory.
ghost use Rattle.cd_io.specs.MemFile.{after_answer, plan_at, plan_of, shown};
ghost use Rattle.cd_io.specs.MemSource.{BeginsBy, told_first};
ghost use Rattle.cd_io.specs.World.{Opens, is_opening_fault, opening};
ghost use Rattle.std.specs.List.{position};
ghost use Rattle.std.specs.Option.{option_map};
ghost use Rattle.std.specs.Prelude.{IfOk, IfSome, IsSome, OnErr, OnOk, Some, [], length, map, true, ◌++◌, ◌<◌, ◌∷◌, ◌≡◌};
ghost use Rattle.std.specs.Str.{bytes_eq};

use crate::{MemClock, MemDice, MemFile, MemSource, OutFault, Source, World};
use std::alloc::{AllocError, Global};

/// A world that makes clocks and dice in memory, and has files there. The calls of `file` are numbered from 0.
#[derive(Drop)]
pub struct MemWorld {
    alloc: Global,
    clock_pair: (u64, u64),
    dice_pair: (u64, u64),
    files: Vec<MemFile>,
    failing_files: Vec<u64>,
    calls: u64,
    faults: u64,
    reading_faults: u64,
}

impl MemWorld {
    ghost use Rattle.cd_io.specs.MemWorld.{calls_of, failing_of, files_of, plans_of, tells_of};

    /// A world without files, whose clocks and dice begin with these pairs, each of what comes next and the step.
    pub fn new(alloc: Global, clock_pair: (u64, u64), dice_pair: (u64, u64)) -> Self
        ensures tells { ⟦<MemWorld as World>⟧.world_tells result
            ≡ record { files = Some []; faults = 0; reading_faults = 0 } }
        ensures clock { ⟦<MemWorld as World>⟧.world_clock_pair result ≡ Some clock_pair }
        ensures dice { ⟦<MemWorld as World>⟧.world_dice_pair result ≡ Some dice_pair }
        ensures failing { failing_of result ≡ [] }
        ensures plans { plans_of result ≡ [] }
        ensures calls { calls_of result ≡ 0 }
    {
        MemWorld {
            alloc,
            clock_pair,
            dice_pair,
            files: Vec::new(alloc),
            failing_files: Vec::new(alloc),
            calls: 0,
            faults: 0,
            reading_faults: 0,
        }
    }

    /// Adds a file behind the others; of two with one path the first stands.
    pub fn add_file(&mut self, file: MemFile) -> Result<(), AllocError>
        ensures ok { OnOk result (files_of self.new ≡ files_of self.old ++ shown file ∷ []) }
        ensures err { OnErr result (files_of self.new ≡ files_of self.old) }
        ensures plan { OnOk result (plans_of self.new ≡ plans_of self.old ++ plan_of file ∷ []) }
        ensures plans { OnErr result (plans_of self.new ≡ plans_of self.old) }
        ensures faults { (tells_of self.new).faults ≡ (tells_of self.old).faults }
        ensures reading_faults { (tells_of self.new).reading_faults
            ≡ (tells_of self.old).reading_faults }
        ensures clock { ⟦<MemWorld as World>⟧.world_clock_pair self.new
            ≡ ⟦<MemWorld as World>⟧.world_clock_pair self.old }
        ensures dice { ⟦<MemWorld as World>⟧.world_dice_pair self.new
            ≡ ⟦<MemWorld as World>⟧.world_dice_pair self.old }
        ensures failing { failing_of self.new ≡ failing_of self.old }
        ensures calls { calls_of self.new ≡ calls_of self.old }
    {
        self.files.push(file)?;
        Ok(())
    }

    /// Lets the call of `file` with this number fail.
    pub fn fail_file(&mut self, number: u64) -> Result<(), AllocError>
        ensures ok { OnOk result (failing_of self.new ≡ failing_of self.old ++ number ∷ []) }
        ensures err { OnErr result (failing_of self.new ≡ failing_of self.old) }
        ensures tells { tells_of self.new ≡ tells_of self.old }
        ensures plans { plans_of self.new ≡ plans_of self.old }
        ensures clock { ⟦<MemWorld as World>⟧.world_clock_pair self.new
            ≡ ⟦<MemWorld as World>⟧.world_clock_pair self.old }
        ensures dice { ⟦<MemWorld as World>⟧.world_dice_pair self.new
            ≡ ⟦<MemWorld as World>⟧.world_dice_pair self.old }
        ensures calls { calls_of self.new ≡ calls_of self.old }
    {
        self.failing_files.push(number)?;
        Ok(())
    }
}

// The clauses of the trait, and that just the calls of the plan fail, and those of a path without a text.
impl World for MemWorld {
    ghost use Rattle.cd_io.specs.MemLink.{next_number};
    ghost use Rattle.cd_io.specs.MemWorld.{calls_of, failing_of, fails, plan_for, plans_of, tells_of};

    type Src = MemSource;

    type Clk = MemClock;

    type Die = MemDice;

    ghost world_tells = { tells_of };

    ghost world_clock_pair = { λ w. Some w.clock_pair };

    ghost world_dice_pair = { λ w. Some w.dice_pair };

    fn file(&mut self, path: &str) -> Result<MemSource, OutFault>
        ensures opens { Opens ⟦<MemSource as Source>⟧.source_tells path.now result
            (tells_of self.old) (tells_of self.new) }
        ensures clock_pair { self.new.clock_pair ≡ self.old.clock_pair }
        ensures dice_pair { self.new.dice_pair ≡ self.old.dice_pair }

        // The plan and the files decide whether the call fails.
        ensures fails { is_opening_fault result ≡ fails self.old path.now }

        // The source goes by the plan of the path's file.
        ensures begins { IfOk result (λ source.
            IfSome (plan_for self.old path.now) (λ plan. BeginsBy plan source)) }
        ensures plans { plans_of self.new ≡ plans_of self.old }
        ensures failing { failing_of self.new ≡ failing_of self.old }
        ensures calls_next { calls_of self.new ≡ next_number (calls_of self.old) }
    {
        let number = self.calls;
        self.calls = number.saturating_add(1);
        if self.failing_files.contains(&number) {
            return Err(OutFault::counted(&mut self.faults));
        }
        match open_in(self.alloc, &mut self.files, path) {
            Ok(Some(source)) => Ok(source),
            Ok(None) => Err(OutFault::counted(&mut self.faults)),
            Err(_) => Err(OutFault::Memory),
        }
    }

    fn shut(&mut self, source: MemSource) {
        if source.faults() > 0 {
            self.reading_faults = self.reading_faults.saturating_add(1);
        }
    }

    fn clock(&mut self) -> MemClock {
        MemClock::new(self.clock_pair.0, self.clock_pair.1)
    }

    fn dice(&mut self) -> MemDice {
        MemDice::new(self.dice_pair.0, self.dice_pair.1)
    }
}

/// Opens the next text of a path, where there is one.
fn open_in(
    alloc: Global,
    files: &mut Vec<MemFile>,
    path: &str,
) -> Result<Option<MemSource>, AllocError>
    ensures found { IfOk result (λ found. option_map ⟦<MemSource as Source>⟧.source_tells found
        ≡ option_map told_first (opening path.now (map shown files.old.items))) }
    ensures begins { IfOk result (λ found. IfSome found (λ source.
        IfSome (plan_at path.now files.old.items) (λ plan. BeginsBy plan source))) }
    ensures lacking { OnErr result (IsSome (opening path.now (map shown files.old.items))) }
    ensures plans { map plan_of files.new.items ≡ map plan_of files.old.items }
    ensures files { map shown files.new.items
        ≡ after_answer result path.now (map shown files.old.items) }
{
    let Some(place) = place_of(files, path) else {
        return Ok(None);
    };
    let Some(source) = files[place].source(alloc)? else {
        return Ok(None);
    };
    files[place].advance();
    Ok(Some(source))
}

/// The place of the first file that lies at a path.
fn place_of(files: &[MemFile], path: &str) -> Option<usize>
    ensures place { result ≡ position (λ file. bytes_eq (shown file).path path.now) files.now }
    ensures within { IfSome result (λ place. place < length files.now) }
{
    files.iter().position(|file| file.lies_at(path))
}
