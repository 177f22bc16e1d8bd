//! The entries of the history.
use cd_registry::{Answer, Call, Kinds, PlugTells, ProbeTells, Reading, RetireFault};
use cd_value::{Fates, FlushRequest, Lists, Names, Notification, Rates, Rows, Sequence, Text};

/// What is registered under a name: a plug-in that is called, with its kinds and its block of the configuration, or one
/// that is read, with its interval and the moment of its registration in units of 2^-30 s. With it stands what the
/// object told then.
#[derive(Drop)]
pub enum Joining {
    Plug {
        kinds: Kinds,
        config: Text,
        told: PlugTells,
    },
    Probe {
        interval: u64,
        now: u64,
        told: ProbeTells,
    },
}

/// Why a registration was refused.
#[derive(Clone, Copy, Debug, PartialEq, Eq)]
pub enum RegisterFault {
    /// A stop came before.
    Stopping,
    /// The name is one of the daemon's own.
    Reserved,
    /// The live registration of this number has the name.
    NameTaken(u64),
    /// As many registrations are live as there may be.
    TableFull,
}

/// The answer to what comes after a stop.
#[derive(Clone, Copy, Debug, PartialEq, Eq)]
pub struct Stopping;

/// What became of a value list in the cache.
#[derive(Clone, Copy, Debug, PartialEq, Eq)]
pub enum How {
    Stored,
    /// The cached list of its name is as new or newer.
    Old,
    /// The pre-cache chain stopped it.
    StoppedBefore,
}

/// What became of a value list: how it was stored, and how many writers that were named were skipped.
#[derive(Clone, Copy, Debug, PartialEq, Eq)]
pub struct Handled {
    pub how: How,
    pub skipped: u64,
}

/// What a query found.
#[derive(Drop)]
pub enum Found {
    /// The names of the data sources and their rates.
    Got { names: Names, rates: Rates },
    /// The times and names of all cached lists.
    Listed(Rows),
    NoSuchValue,
}

/// How a flush ended.
#[derive(Clone, Copy, Debug, PartialEq, Eq)]
pub enum FlushEnd {
    Counts { successful: u64, errors: u64 },
    /// This many of its calls have no answer.
    NotYet(u64),
    NoSuchFlush,
}

/// Which reader is due.
#[derive(Clone, Copy, Debug, PartialEq, Eq)]
pub enum ReadDue {
    /// The reader of this registration.
    Lent(u64),
    /// None before this moment, in units of 2^-30 s.
    NotYet(u64),
    NoneReady,
    Stopping,
}

/// Why the daemon stops.
#[derive(Clone, Copy, Debug, PartialEq, Eq)]
pub enum Why {
    /// It was asked to.
    Asked,
    /// The control input ended.
    ControlEnd,
    /// The control link failed.
    ControlFault,
    /// Memory was lacking.
    Memory,
}

/// An event of the daemon: the actor that made it, what was asked and what was answered. Moments are in units of
/// 2^-30 s; registrations and flushes go by their numbers.
#[derive(Drop)]
pub enum Entry {
    Register {
        actor: u64,
        name: Text,
        joining: Joining,
        reply: Result<u64, RegisterFault>,
    },
    /// None: no live registration has the name.
    Close {
        actor: u64,
        name: Text,
        reply: Option<u64>,
    },
    Retire {
        actor: u64,
        reg: u64,
        reply: Result<(), RetireFault>,
    },
    Accept {
        actor: u64,
        lists: Lists,
        words: Sequence<u64>,
        now: u64,
        reply: Result<Fates, Stopping>,
    },
    Handle {
        actor: u64,
        now: u64,
        reply: Handled,
    },
    Notify {
        actor: u64,
        note: Notification,
        reply: Result<(), Stopping>,
    },
    Tick {
        actor: u64,
        now: u64,
        reply: Result<u64, Stopping>,
    },
    /// Of a name, or of all.
    Query {
        actor: u64,
        name: Option<Text>,
        reply: Found,
    },
    FlushOpen {
        actor: u64,
        request: FlushRequest,
        reply: Result<u64, Stopping>,
    },
    FlushClose {
        actor: u64,
        number: u64,
        reply: FlushEnd,
    },
    Take {
        actor: u64,
        reg: u64,
        call: Call,
    },
    Done {
        actor: u64,
        reg: u64,
        answer: Answer,
    },
    ReadDue {
        actor: u64,
        now: u64,
        reply: ReadDue,
    },
    ReadBack {
        actor: u64,
        reg: u64,
        now: u64,
        reading: Reading,
        ok: bool,
    },
    Stop {
        actor: u64,
        why: Why,
    },
    Look {
        actor: u64,
        idle: bool,
    },
}
