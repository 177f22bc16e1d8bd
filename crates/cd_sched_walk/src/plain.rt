//! The schedule as a plain list, as its definitions have it, under the contract of `cd_sched::Schedule`, word for word.
ghost use Rattle.cd_sched.specs.Due.{IsDue, due_of, first_of, is_before, sooner, next_reads_of};
ghost use Rattle.cd_sched.specs.Place.{place_of};
ghost use Rattle.cd_sched.specs.Schedule.{KeepsOthers, begun, changed, interval_after, new_reader, reader_after, reader_at, with_reader, without};
ghost use Rattle.std.specs.Option.{option_map};
ghost use Rattle.std.specs.Prelude.{IsOk, IsSome, IsSomeAnd, None, OnErr, OnOk, Some, [], false, is_some, true, ◌+◌, ◌<◌, ◌≡◌, ◌≤◌};

use cd_sched::{Due, Reader};
use cd_value::Memory;
use std::alloc::Global;
use std::marker::Model;

/// Readers in the order of their numbers.
#[derive(Drop)]
pub struct Plain {
    longest: u64,
    readers: Vec<(u64, Reader)>,
}

impl Model for Plain {
    ghost use Rattle.cd_sched.specs.Place.{IsAscending};
    ghost use Rattle.cd_sched.specs.Schedule.{ReaderMap};
    ghost use Rattle.std.specs.Prelude.{◌-◌};
    ghost use Rattle.std.specs.Vec.{vec_capacity, vec_len};

    ghost Value = { ReaderMap };

    ghost view = { λ list. record {
      longest = list.longest;
      readers = list.readers.items;
      spare = vec_capacity list.readers - vec_len list.readers;
    } };

    ghost invariant = { λ list. IsAscending list.readers.items };
}

impl Plain {
    /// A schedule without readers. No interval grows beyond the longest, in 2^-30 s, which is MaxReadInterval of
    /// collectd.conf(5).
    pub fn new(alloc: Global, longest: u64) -> Plain
        ensures longest { result.longest ≡ longest }
        ensures readers { result.readers ≡ [] }
    {
        Plain {
            longest,
            readers: Vec::new(alloc),
        }
    }

    /// Adds a reader with its interval, in 2^-30 s. Its first reading is due now.
    pub fn add(&mut self, reg: u64, interval: u64, now: u64) -> Result<(), Memory>
        requires { reader_at reg self.old.readers ≡ None }
        ensures readers { OnOk result
            (self.new.readers ≡ with_reader reg (new_reader interval now) self.old.readers) }
        ensures err { OnErr result (self.new.readers ≡ self.old.readers) }
        ensures longest { self.new.longest ≡ self.old.longest }

        // Where there is room it takes no memory, and room for one reader at most.
        ensures room { 0 < self.old.spare → IsOk result }
        ensures spare { self.old.spare ≤ self.new.spare + 1 }

        // What this is of the readers as a map from numbers.
        ensures there { OnOk result
            (reader_at reg self.new.readers ≡ Some (new_reader interval now)) }
        ensures others { KeepsOthers reg self.old.readers self.new.readers }
    {
        let place = self.place(reg);
        self.readers
            .insert(place, (reg, first_reader(interval, now)))?;
        Ok(())
    }

    /// Makes room for a reader.
    pub fn reserve(&mut self) -> Result<(), Memory>
        ensures ok { OnOk result (0 < self.new.spare) }
        ensures readers { self.new.readers ≡ self.old.readers }
        ensures longest { self.new.longest ≡ self.old.longest }
        ensures room { 0 < self.old.spare → IsOk result }
        ensures spare { self.old.spare ≤ self.new.spare }
    {
        self.readers.reserve(1)?;
        Ok(())
    }

    /// Which reading is due at a moment in 2^-30 s: the first of the readers at rest, of those that are due at the same
    /// moment the one of the lowest number.
    pub fn due(&self, now: u64) -> Due
        ensures due { result ≡ due_of now self.now.readers }

        // What this says of the readers.
        ensures first { IsDue now self.now.readers result }
    {
        match first_read(self.readers.as_slice()) {
            None => Due::NoneReady,
            Some((due, reg)) => {
                if due <= now {
                    Due::Ready(reg)
                } else {
                    Due::NotYet(due)
                }
            }
        }
    }

    /// Begins a reading: until it returned it is due nowhere.
    pub fn begin(&mut self, reg: u64)
        requires { IsSomeAnd (reader_at reg self.old.readers)
            (λ reader. reader.under_way ≡ false) }
        ensures readers { self.new.readers ≡ changed reg begun self.old.readers }
        ensures longest { self.new.longest ≡ self.old.longest }
        ensures spare { self.old.spare ≤ self.new.spare }

        // What this is of the readers as a map from numbers.
        ensures there { reader_at reg self.new.readers
            ≡ option_map begun (reader_at reg self.old.readers) }
        ensures others { KeepsOthers reg self.old.readers self.new.readers }
    {
        let place = self.place(reg);
        let (_, reader) = self.readers[place];
        self.readers[place] = (reg, reader_begun(reader));
    }

    /// Ends a reading, which succeeded or failed: the next one is due an interval after this one was, and not before
    /// now. After a failure the interval is twice as long, up to the longest.
    pub fn returned(&mut self, reg: u64, ok: bool, now: u64)
        requires { IsSomeAnd (reader_at reg self.old.readers)
            (λ reader. reader.under_way ≡ true) }
        ensures readers { self.new.readers
            ≡ changed reg (reader_after self.old.longest ok now) self.old.readers }
        ensures longest { self.new.longest ≡ self.old.longest }
        ensures spare { self.old.spare ≤ self.new.spare }

        // What this is of the readers as a map from numbers.
        ensures there { reader_at reg self.new.readers
            ≡ option_map (reader_after self.old.longest ok now) (reader_at reg self.old.readers) }
        ensures others { KeepsOthers reg self.old.readers self.new.readers }
    {
        let place = self.place(reg);
        let (_, reader) = self.readers[place];
        self.readers[place] = (reg, reader_returned(reader, self.longest, ok, now));
    }

    /// Forgets a reader.
    pub fn remove(&mut self, reg: u64)
        requires { IsSome (reader_at reg self.old.readers) }
        ensures readers { self.new.readers ≡ without reg self.old.readers }
        ensures longest { self.new.longest ≡ self.old.longest }
        ensures spare { self.old.spare ≤ self.new.spare }

        // What this is of the readers as a map from numbers.
        ensures gone { reader_at reg self.new.readers ≡ None }
        ensures others { KeepsOthers reg self.old.readers self.new.readers }
    {
        let place = self.place(reg);
        let _ = self.readers.remove(place);
    }

    /// Whether a reader has this number.
    pub fn has(&self, reg: u64) -> bool
        ensures { result ≡ is_some (reader_at reg self.now.readers) }
    {
        self.reader(reg).is_some()
    }

    /// The reader of a number.
    pub fn reader(&self, reg: u64) -> Option<Reader>
        ensures { result ≡ reader_at reg self.now.readers }
    {
        match self.readers.get(self.place(reg)) {
            Some((number, reader)) => { if *number == reg { Some(*reader) } else { None } }
            None => None,
        }
    }

    /// How many readers have a lower number.
    fn place(&self, reg: u64) -> usize
        ensures { result ≡ place_of reg self.now.readers }
    {
        self.readers
            .as_slice()
            .partition_point(|reader| reader.0 < reg)
    }
}

/// The first of the reads of readers at rest.
fn first_read(readers: &[(u64, Reader)]) -> Option<(u64, u64)>
    ensures { result ≡ first_of (next_reads_of readers.now) }
{
    let ((reg, reader), rest) = readers.split_first()?;
    let first = first_read(rest);
    if reader.under_way {
        return first;
    }
    Some(sooner((reader.due, *reg), first))
}

/// The first of a read and of those before it.
fn sooner(read: (u64, u64), first: Option<(u64, u64)>) -> (u64, u64)
    ensures { Some result ≡ sooner read first }
{
    match first {
        Some(first) if is_before(first, read) => first,
        _ => read,
    }
}

/// Whether a read comes before another.
fn is_before(a: (u64, u64), b: (u64, u64)) -> bool
    ensures { result ≡ is_before a b }
{
    a.0 < b.0 || a.0 == b.0 && a.1 < b.1
}

/// A reader whose first reading is due now.
fn first_reader(interval: u64, now: u64) -> Reader
    ensures { result ≡ new_reader interval now }
{
    Reader {
        interval,
        due: now,
        in_force: interval,
        under_way: false,
    }
}

/// A reader whose reading begins.
fn reader_begun(reader: Reader) -> Reader
    ensures { result ≡ begun reader }
{
    Reader {
        interval: reader.interval,
        due: reader.due,
        in_force: reader.in_force,
        under_way: true,
    }
}

/// A reader whose reading ended.
fn reader_returned(reader: Reader, longest: u64, ok: bool, now: u64) -> Reader
    ensures { result ≡ reader_after longest ok now reader }
{
    let in_force = next_interval(reader, longest, ok);
    let next = reader.due.saturating_add(in_force);
    Reader {
        interval: reader.interval,
        due: if next < now { now } else { next },
        in_force,
        under_way: false,
    }
}

/// The interval in force after a reading.
fn next_interval(reader: Reader, longest: u64, ok: bool) -> u64
    ensures { result ≡ interval_after longest ok reader }
{
    if ok {
        return reader.interval;
    }
    let twice = u128::from(reader.in_force) * 2;
    if twice <= u128::from(longest) {
        reader.interval.max(reader.in_force * 2)
    } else {
        reader.interval.max(longest)
    }
}
