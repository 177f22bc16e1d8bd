//! What came up in a walk.
use crate::step::Reply;
use cd_core::{FlushEnd, HandleFault, RegisterFault};
use cd_history::{Handled, How};
use cd_registry::{Answer, RetireFault};
use cd_value::{Fates, Offered};
use std::io;

/// How often each answer came.
#[derive(Clone, Copy, Default)]
pub struct Tally {
    plugins: Plugins,
    calls: Calls,
    lists: Lists,
    flushes: Flushes,
    /// How many things were left to others, who alone may ask for them.
    left: u64,
}

#[derive(Clone, Copy, Default)]
struct Plugins {
    registered: u64,
    reserved: u64,
    name_taken: u64,
    stopping: u64,
    closed: u64,
    none_closed: u64,
    retired: u64,
    answered: u64,
    none_retired: u64,
    is_out: u64,
    pending: u64,
}

#[derive(Clone, Copy, Default)]
struct Calls {
    taken: u64,
    none_ready: u64,
    done: u64,
    failed: u64,
    none_out: u64,
    /// How many plug-ins are out, and the most that were at once.
    out: u64,
    most_out: u64,
}

#[derive(Clone, Copy, Default)]
struct Lists {
    kept: u64,
    dropped: u64,
    stopping: u64,
    stored: u64,
    old: u64,
    stopped_before: u64,
    skipped: u64,
    none_waits: u64,
    got: u64,
    none_cached: u64,
    listed: u64,
    rows: u64,
}

#[derive(Clone, Copy, Default)]
struct Flushes {
    begun: u64,
    stopping: u64,
    ended: u64,
    successful: u64,
    errors: u64,
    not_yet: u64,
    no_such_flush: u64,
}

/// Raises a count.
fn add(count: &mut u64, more: u64) {
    *count = count.saturating_add(more);
}

impl Tally {
    /// An event was left to another actor.
    pub fn leave(&mut self) {
        add(&mut self.left, 1);
    }

    /// An answer came.
    pub fn count(&mut self, reply: &Reply) {
        match reply {
            Reply::Registered(Ok(_)) => add(&mut self.plugins.registered, 1),
            Reply::Registered(Err(why)) => self.plugins.count_unregistered(*why),
            Reply::Closed(Ok(_)) => add(&mut self.plugins.closed, 1),
            Reply::Closed(Err(_)) => add(&mut self.plugins.none_closed, 1),
            Reply::Retired(Ok(calls)) => self.plugins.count_retired(calls.len() as u64),
            Reply::Retired(Err(why)) => self.plugins.count_unretired(*why),
            Reply::Taken(_, _) => self.calls.count_taken(),
            Reply::NoneReady => add(&mut self.calls.none_ready, 1),
            Reply::CameHome(_, answer) => self.calls.count_home(*answer),
            Reply::NoneOut => add(&mut self.calls.none_out, 1),
            Reply::Accepted(Ok(fates)) => self.lists.count_fates(fates),
            Reply::Accepted(Err(_)) => add(&mut self.lists.stopping, 1),
            Reply::Handled(Ok(handled)) => self.lists.count_handled(*handled),
            Reply::Handled(Err(HandleFault::Empty)) => add(&mut self.lists.none_waits, 1),
            Reply::Got(Ok(_)) => add(&mut self.lists.got, 1),
            Reply::Got(Err(_)) => add(&mut self.lists.none_cached, 1),
            Reply::Listed(rows) => self.lists.count_rows(rows.len() as u64),
            Reply::FlushBegun(Ok(_)) => add(&mut self.flushes.begun, 1),
            Reply::FlushBegun(Err(_)) => add(&mut self.flushes.stopping, 1),
            Reply::FlushEnded(ended) => self.flushes.count_ended(*ended),
            _ => {}
        }
    }

    /// Prints the counts.
    pub fn print(&self, rt: HostRuntime) -> io::Result<()> {
        self.plugins.print(rt)?;
        self.calls.print(rt)?;
        self.lists.print(rt)?;
        self.flushes.print(rt)?;
        println!(rt; "left to others: {}", self.left)
    }
}

impl Plugins {
    fn count_unregistered(&mut self, why: RegisterFault) {
        match why {
            RegisterFault::Reserved => add(&mut self.reserved, 1),
            RegisterFault::NameTaken(_) => add(&mut self.name_taken, 1),
            RegisterFault::Stopping => add(&mut self.stopping, 1),
            _ => {}
        }
    }

    fn count_retired(&mut self, calls: u64) {
        add(&mut self.retired, 1);
        add(&mut self.answered, calls);
    }

    fn count_unretired(&mut self, why: RetireFault) {
        match why {
            RetireFault::NotRegistered => add(&mut self.none_retired, 1),
            RetireFault::Out(_) => add(&mut self.is_out, 1),
            RetireFault::Pending(_) => add(&mut self.pending, 1),
        }
    }

    fn print(&self, rt: HostRuntime) -> io::Result<()> {
        println!(rt;
            "registered: {}; refused: reserved {}, taken {}, stopping {}",
            self.registered, self.reserved, self.name_taken, self.stopping
        )?;
        println!(rt;
            "closed: {}; refused: not registered {}",
            self.closed, self.none_closed
        )?;
        println!(rt;
            "retired: {} with {} calls; refused: not registered {}, out {}, pending {}",
            self.retired, self.answered, self.none_retired, self.is_out, self.pending
        )
    }
}

impl Calls {
    fn count_taken(&mut self) {
        add(&mut self.taken, 1);
        add(&mut self.out, 1);
        self.most_out = self.most_out.max(self.out);
    }

    fn count_home(&mut self, answer: Answer) {
        self.out = self.out.saturating_sub(1);
        match answer {
            Answer::Done => add(&mut self.done, 1),
            _ => add(&mut self.failed, 1),
        }
    }

    fn print(&self, rt: HostRuntime) -> io::Result<()> {
        println!(rt;
            "taken: {}, at most {} out at once; none ready {}",
            self.taken, self.most_out, self.none_ready
        )?;
        println!(rt;
            "came home: done {}, failed {}; none out {}",
            self.done, self.failed, self.none_out
        )
    }
}

impl Lists {
    fn count_fates(&mut self, fates: &Fates) {
        for fate in fates.as_slice() {
            match fate {
                Offered::Kept => add(&mut self.kept, 1),
                Offered::Dropped => add(&mut self.dropped, 1),
            }
        }
    }

    fn count_handled(&mut self, handled: Handled) {
        add(&mut self.skipped, handled.skipped);
        match handled.how {
            How::Stored => add(&mut self.stored, 1),
            How::Old => add(&mut self.old, 1),
            How::StoppedBefore => add(&mut self.stopped_before, 1),
        }
    }

    fn count_rows(&mut self, rows: u64) {
        add(&mut self.listed, 1);
        add(&mut self.rows, rows);
    }

    fn print(&self, rt: HostRuntime) -> io::Result<()> {
        println!(rt;
            "offered: kept {}, dropped {}; refused: stopping {}",
            self.kept, self.dropped, self.stopping
        )?;
        println!(rt;
            "handled: stored {}, old {}, stopped before the cache {}; none waits {}",
            self.stored, self.old, self.stopped_before, self.none_waits
        )?;
        println!(rt; "writers skipped: {}", self.skipped)?;
        println!(rt;
            "got: {}; not cached {}; listed: {} with {} rows",
            self.got, self.none_cached, self.listed, self.rows
        )
    }
}

impl Flushes {
    fn count_ended(&mut self, ended: Result<(u64, u64), FlushEnd>) {
        match ended {
            Ok((successful, errors)) => {
                add(&mut self.ended, 1);
                add(&mut self.successful, successful);
                add(&mut self.errors, errors);
            }
            Err(FlushEnd::NotYet(_)) => add(&mut self.not_yet, 1),
            Err(FlushEnd::NoSuchFlush) => add(&mut self.no_such_flush, 1),
        }
    }

    fn print(&self, rt: HostRuntime) -> io::Result<()> {
        println!(rt;
            "flushes begun: {}; refused: stopping {}",
            self.begun, self.stopping
        )?;
        println!(rt;
            "flushes ended: {} with {} calls done and {} errors; not yet {}, no such flush {}",
            self.ended, self.successful, self.errors, self.not_yet, self.no_such_flush
        )
    }
}
