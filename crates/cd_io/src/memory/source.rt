//! A source in memory.
ghost use Rattle.cd_io.specs.Source.{Reads, read_count};
ghost use Rattle.std.specs.Prelude.{IfOk, [], is_err, length, ℕ, ◌-◌, ◌^◌, ◌≡◌, ◌≤◌};

use crate::{Failed, Source};
use std::alloc::{AllocError, Global};

/// Which calls on a source in memory fail, and how much one call gives. The calls are numbered from 0.
#[derive(Drop)]
pub struct SourcePlan {
    /// The calls that fail.
    pub failing_reads: Vec<u64>,
    /// How many bytes one call gives at most; 0 counts as 1.
    pub piece_limit: usize,
}

impl SourcePlan {
    ghost use Rattle.cd_io.specs.MemSource.{plan_tells};

    /// No call fails, and each gives what the buffer holds.
    pub fn new(alloc: Global) -> Self
        ensures failing_reads { result.failing_reads.items ≡ [] }
        ensures piece_limit { result.piece_limit ≡ 2 ^ 64 - 1 }
    {
        SourcePlan {
            failing_reads: Vec::new(alloc),
            piece_limit: usize::MAX,
        }
    }

    /// The same plan again.
    pub(crate) fn copy(&self, alloc: Global) -> Result<Self, AllocError>
        ensures { IfOk result (λ plan. plan_tells plan ≡ plan_tells self.now) }
    {
        Ok(SourcePlan {
            failing_reads: self.failing_reads.to_vec(alloc)?,
            piece_limit: self.piece_limit,
        })
    }
}

/// A source that gives some bytes, and then the end.
#[derive(Drop)]
pub struct MemSource {
    bytes: Vec<u8>,
    taken: usize,
    plan: SourcePlan,
    reads: u64,
    faults: u64,
    ghost within: { taken ≤ length bytes.items },
}

impl MemSource {
    ghost use Rattle.cd_io.specs.MemSource.{plan_of, reads_of, told_first};

    /// A source of some bytes.
    pub fn new(bytes: Vec<u8>, plan: SourcePlan) -> Self
        ensures tells { ⟦<MemSource as Source>⟧.source_tells result ≡ told_first bytes.items }
        ensures plan { plan_of result ≡ plan }
        ensures reads { reads_of result ≡ 0 }
    {
        MemSource {
            bytes,
            taken: 0,
            plan,
            reads: 0,
            faults: 0,
        }
    }

    /// How many calls have failed.
    pub(crate) fn faults(&self) -> u64
        ensures { result ≡ (⟦<MemSource as Source>⟧.source_tells self.now).faults }
    {
        self.faults
    }
}

// The clauses of the trait, and that just the calls of the plan fail.
impl Source for MemSource {
    ghost use Rattle.cd_io.specs.MemLink.{next_number};
    ghost use Rattle.cd_io.specs.MemSource.{fails, plan_of, planned_count, reads_of, tells_of};

    ghost source_tells = { tells_of };

    fn read(&mut self, buf: &mut [u8]) -> Result<usize, Failed>
        ensures bound { read_count result ≤ length buf.new }
        ensures reads { Reads result buf.new (tells_of self.old) (tells_of self.new) }

        // The plan decides how the call goes.
        ensures fails { is_err result ≡ fails (plan_of self.old) (reads_of self.old) }
        ensures count { read_count result ≡ planned_count self.old (length buf.old) }
        ensures plan { plan_of self.new ≡ plan_of self.old }
        ensures reads_next { reads_of self.new ≡ next_number (reads_of self.old) }
    {
        let number = self.reads;
        self.reads = number.saturating_add(1);
        if self.plan.failing_reads.contains(&number) {
            return Err(Failed::counted(&mut self.faults));
        }
        let rest = &self.bytes[self.taken..];
        let most = buf.len().min(self.plan.piece_limit.max(1));
        let count = rest.len().min(most);
        buf[..count].copy_from_slice(&rest[..count]);
        self.taken += count;
        Ok(count)
    }
}
