//! Want of memory, values that are handed back, and copies.
ghost use Rattle.std.specs.Prelude.{IfOk, ◌≡◌};

use std::alloc::{AllocError, AllocFailed, Global};

/// Memory was lacking.
#[derive(Clone, Copy, Debug, PartialEq, Eq)]
pub struct Memory;

impl From<AllocError> for Memory {
    ghost from_gives = { λ _ e. e ≡ record {} };

    fn from(_: AllocError) -> Self {
        Memory
    }
}

impl<T: Drop> From<AllocFailed<T>> for Memory {
    ghost from_gives = { λ _ e. e ≡ record {} };

    fn from(_: AllocFailed<T>) -> Self {
        Memory
    }
}

/// A value that was handed in, and why it was refused.
#[derive(Drop)]
pub struct Refused<T, E> {
    pub value: T,
    pub why: E,
}

/// A value of which memory may be lacking for a copy.
pub trait TryCopy {
    /// An equal value.
    fn copy(&self, alloc: Global) -> Result<Self, Memory>
        ensures { IfOk result (λ copy. copy ≡ self.now) };
}

impl TryCopy for u64 {
    fn copy(&self, _alloc: Global) -> Result<u64, Memory> {
        Ok(*self)
    }
}

impl<A: TryCopy + Drop, B: TryCopy> TryCopy for (A, B) {
    fn copy(&self, alloc: Global) -> Result<(A, B), Memory> {
        let first = self.0.copy(alloc)?;
        let second = self.1.copy(alloc)?;
        Ok((first, second))
    }
}
