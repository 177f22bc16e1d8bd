//! The next reads of readers at rest, the first of which is at hand.
ghost use Rattle.cd_sched.specs.NextReads.{IsLeast, bit, is_same};
ghost use Rattle.std.specs.List.{count_by};
ghost use Rattle.std.specs.Prelude.{Bool, IsOk, List, OnErr, OnOk, [], length, true, ℕ, ◌+◌, ◌<◌, ◌∷◌, ◌≡◌, ◌≤◌};

use cd_value::Memory;
use std::alloc::Global;
use std::cmp::Reverse;
use std::collections::BinaryHeap;
use std::marker::Model;

/// The next read of a reader: when it is due, in 2^-30 s, and the reader's registration number.
pub(crate) type NextRead = (u64, u64);

/// Next reads, each once: the first is the greatest of the heap.
#[derive(Drop)]
pub(crate) struct NextReads {
    heap: BinaryHeap<Reverse<NextRead>>,
}

impl Model for NextReads {
    ghost use Rattle.cd_sched.specs.NextReads.{NextReadList, heap_order, read_in};
    ghost use Rattle.std.specs.BinaryHeap.{IsHeap, heap_capacity, heap_items};
    ghost use Rattle.std.specs.Prelude.{map};

    ghost Value = { NextReadList };

    ghost view = { λ reads. record {
      reads = map read_in (heap_items reads.heap);
      room = heap_capacity reads.heap;
    } };

    ghost invariant = { λ reads. IsHeap heap_order (heap_items reads.heap) };
}

impl NextReads {
    pub(crate) fn new(alloc: Global) -> NextReads
        ensures { result.reads ≡ [] }
    {
        NextReads {
            heap: BinaryHeap::new(alloc),
        }
    }

    /// The first of them.
    pub(crate) fn first(&self) -> Option<NextRead>
        ensures { IsLeast self.now.reads result }
    {
        match self.heap.peek() {
            Some(first) => Some(first.0),
            None => None,
        }
    }

    /// Puts a next read in, for which there is room.
    pub(crate) fn put(&mut self, read: NextRead)
        requires { length self.old.reads < self.old.room }
        ensures reads { (p : ℕ × ℕ → Bool) →
            count_by p self.new.reads ≡ bit (p read) + count_by p self.old.reads }
        ensures room { self.old.room ≤ self.new.room }
    {
        let _ = self.heap.push(Reverse(read));
    }

    /// Takes one out that is there once: at little cost where it is the first.
    pub(crate) fn take_out(&mut self, read: NextRead)
        requires { count_by (is_same read) self.old.reads ≡ 1 }
        ensures reads { (p : ℕ × ℕ → Bool) →
            bit (p read) + count_by p self.new.reads ≡ count_by p self.old.reads }
        ensures room { self.new.room ≡ self.old.room }
    {
        if self.is_first(read) {
            let _ = self.heap.pop();
            return;
        }
        self.heap.retain(|other| !is_same(read, other.0));
    }

    /// Makes room for so many, with those that are there.
    pub(crate) fn make_room(&mut self, reads: usize) -> Result<(), Memory>
        requires { length self.old.reads ≤ reads }
        ensures ok { OnOk result (reads ≤ self.new.room) }
        ensures reads { self.new.reads ≡ self.old.reads }
        ensures already { reads ≤ self.old.room → IsOk result }
        ensures room { self.old.room ≤ self.new.room }
    {
        self.heap.reserve(reads.saturating_sub(self.heap.len()))?;
        Ok(())
    }

    /// Whether one is at hand, as the first is.
    fn is_first(&self, read: NextRead) -> bool
        ensures { result ≡ true → (rest : List (ℕ × ℕ)) × (self.now.reads ≡ read ∷ rest) }
    {
        match self.heap.peek() {
            Some(first) => is_same(read, first.0),
            None => false,
        }
    }
}

fn is_same(a: NextRead, b: NextRead) -> bool
    ensures { result ≡ is_same a b }
{
    a.0 == b.0 && a.1 == b.1
}
