//! The schedule and its calls.
ghost use Rattle.cd_sched.specs.Due.{IsDue, due_of};
ghost use Rattle.cd_sched.specs.Place.{place_of};
ghost use Rattle.cd_sched.specs.Schedule.{KeepsOthers, begun, changed, new_reader, reader_after, reader_at, with_reader, without};
ghost use Rattle.std.specs.Option.{option_map};
ghost use Rattle.std.specs.Prelude.{IsOk, IsSome, IsSomeAnd, None, OnErr, OnOk, Some, [], false, is_some, true, ◌+◌, ◌<◌, ◌≡◌, ◌≤◌};

use crate::next_reads::NextReads;
use crate::{Due, Reader};
use cd_value::Memory;
use std::alloc::Global;
use std::marker::Model;

/// Which reader is read next, as in collectd.conf(5), Interval and MaxReadInterval: readers by their registration
/// numbers, each with its interval and when its next reading is due. Contracts see for how many more readers there is
/// room beside the readers; "as before" doesn't speak of it.
#[derive(Drop)]
pub struct Schedule {
    longest: u64,
    /// In the order of their numbers.
    readers: Vec<(u64, Reader)>,
    /// The reads of those at rest. There is room for one of each.
    next_reads: NextReads,
}

impl Model for Schedule {
    ghost use Rattle.cd_sched.specs.Place.{IsAscending};
    ghost use Rattle.cd_sched.specs.Schedule.{ReaderMap};
    ghost use Rattle.cd_sched.specs.NextReads.{AreNextReadsOf};
    ghost use Rattle.std.specs.Prelude.{min, ◌-◌, ◌≤◌};
    ghost use Rattle.std.specs.Vec.{vec_capacity, vec_len};

    ghost Value = { ReaderMap };

    ghost view = { λ schedule. record {
      longest = schedule.longest;
      readers = schedule.readers.items;
      spare = min (vec_capacity schedule.readers) schedule.next_reads.room - vec_len schedule.readers;
    } };

    ghost invariant = { λ schedule.
        IsAscending schedule.readers.items
        × AreNextReadsOf schedule.readers.items schedule.next_reads.reads
        × (vec_len schedule.readers ≤ schedule.next_reads.room) };
}

impl Schedule {
    /// A schedule without readers. No interval grows beyond the longest, in 2^-30 s, which is MaxReadInterval of
    /// collectd.conf(5).
    pub fn new(alloc: Global, longest: u64) -> Schedule
        ensures longest { result.longest ≡ longest }
        ensures readers { result.readers ≡ [] }
    {
        Schedule {
            longest,
            readers: Vec::new(alloc),
            next_reads: NextReads::new(alloc),
        }
    }

    /// Adds a reader with its interval, in 2^-30 s. Its first reading is due now.
    pub fn add(&mut self, reg: u64, interval: u64, now: u64) -> Result<(), Memory>
        requires { reader_at reg self.old.readers ≡ None }
        ensures readers { OnOk result
            (self.new.readers ≡ with_reader reg (new_reader interval now) self.old.readers) }
        ensures err { OnErr result (self.new.readers ≡ self.old.readers) }
        ensures longest { self.new.longest ≡ self.old.longest }

        // Where there is room it takes no memory, and room for one reader at most.
        ensures room { 0 < self.old.spare → IsOk result }
        ensures spare { self.old.spare ≤ self.new.spare + 1 }

        // What this is of the readers as a map from numbers.
        ensures there { OnOk result
            (reader_at reg self.new.readers ≡ Some (new_reader interval now)) }
        ensures others { KeepsOthers reg self.old.readers self.new.readers }
    {
        self.reserve()?;
        let place = self.place(reg);
        self.readers
            .insert(place, (reg, Reader::new(interval, now)))?;
        self.next_reads.put((now, reg));
        Ok(())
    }

    /// Makes room for a reader.
    pub fn reserve(&mut self) -> Result<(), Memory>
        ensures ok { OnOk result (0 < self.new.spare) }
        ensures readers { self.new.readers ≡ self.old.readers }
        ensures longest { self.new.longest ≡ self.old.longest }
        ensures room { 0 < self.old.spare → IsOk result }
        ensures spare { self.old.spare ≤ self.new.spare }
    {
        self.readers.reserve(1)?;
        self.next_reads.make_room(self.readers.len() + 1)?;
        Ok(())
    }

    /// Which reading is due at a moment in 2^-30 s: the first of the readers at rest, of those that are due at the same
    /// moment the one of the lowest number.
    pub fn due(&self, now: u64) -> Due
        ensures due { result ≡ due_of now self.now.readers }

        // What this says of the readers.
        ensures first { IsDue now self.now.readers result }
    {
        match self.next_reads.first() {
            None => Due::NoneReady,
            Some((due, reg)) => {
                if due <= now {
                    Due::Ready(reg)
                } else {
                    Due::NotYet(due)
                }
            }
        }
    }

    /// Begins a reading: until it returned it is due nowhere.
    pub fn begin(&mut self, reg: u64)
        requires { IsSomeAnd (reader_at reg self.old.readers)
            (λ reader. reader.under_way ≡ false) }
        ensures readers { self.new.readers ≡ changed reg begun self.old.readers }
        ensures longest { self.new.longest ≡ self.old.longest }
        ensures spare { self.old.spare ≤ self.new.spare }

        // What this is of the readers as a map from numbers.
        ensures there { reader_at reg self.new.readers
            ≡ option_map begun (reader_at reg self.old.readers) }
        ensures others { KeepsOthers reg self.old.readers self.new.readers }
    {
        let place = self.place(reg);
        let (_, reader) = self.readers[place];
        self.readers[place] = (reg, reader.begun());
        self.next_reads.take_out((reader.due, reg));
    }

    /// Ends a reading, which succeeded or failed: the next one is due an interval after this one was, and not before
    /// now. After a failure the interval is twice as long, up to the longest.
    pub fn returned(&mut self, reg: u64, ok: bool, now: u64)
        requires { IsSomeAnd (reader_at reg self.old.readers)
            (λ reader. reader.under_way ≡ true) }
        ensures readers { self.new.readers
            ≡ changed reg (reader_after self.old.longest ok now) self.old.readers }
        ensures longest { self.new.longest ≡ self.old.longest }
        ensures spare { self.old.spare ≤ self.new.spare }

        // What this is of the readers as a map from numbers.
        ensures there { reader_at reg self.new.readers
            ≡ option_map (reader_after self.old.longest ok now) (reader_at reg self.old.readers) }
        ensures others { KeepsOthers reg self.old.readers self.new.readers }
    {
        let place = self.place(reg);
        let (_, reader) = self.readers[place];
        let later = reader.after(self.longest, ok, now);
        self.readers[place] = (reg, later);
        self.next_reads.put((later.due, reg));
    }

    /// Forgets a reader.
    pub fn remove(&mut self, reg: u64)
        requires { IsSome (reader_at reg self.old.readers) }
        ensures readers { self.new.readers ≡ without reg self.old.readers }
        ensures longest { self.new.longest ≡ self.old.longest }
        ensures spare { self.old.spare ≤ self.new.spare }

        // What this is of the readers as a map from numbers.
        ensures gone { reader_at reg self.new.readers ≡ None }
        ensures others { KeepsOthers reg self.old.readers self.new.readers }
    {
        let place = self.place(reg);
        let (_, gone) = self.readers.remove(place);
        if gone.under_way {
            return;
        }
        self.next_reads.take_out((gone.due, reg));
    }

    /// Whether a reader has this number.
    pub fn has(&self, reg: u64) -> bool
        ensures { result ≡ is_some (reader_at reg self.now.readers) }
    {
        match self.readers.get(self.place(reg)) {
            Some(reader) => reader.0 == reg,
            None => false,
        }
    }

    /// How many readers have a lower number.
    fn place(&self, reg: u64) -> usize
        ensures { result ≡ place_of reg self.now.readers }
    {
        self.readers
            .as_slice()
            .partition_point(|reader| reader.0 < reg)
    }
}
