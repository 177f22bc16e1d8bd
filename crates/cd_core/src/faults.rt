//! What the core answers and refuses.
use cd_value::{Names, Rates};

/// Why a registration was refused.
#[derive(Clone, Copy, Debug, PartialEq, Eq)]
pub enum RegisterFault {
    /// A stop came before.
    Stopping,
    /// The name is one of the daemon's own: threshold, unixsock, network.
    Reserved,
    /// The live registration of this number has the name.
    NameTaken(u64),
    /// `LIVE_LIMIT` registrations are live.
    TableFull,
    /// Memory was lacking.
    Memory,
}

/// Why value lists weren't offered to the write queue.
#[derive(Clone, Copy, Debug, PartialEq, Eq)]
pub enum AcceptFault {
    /// A stop came before.
    Stopping,
    /// Memory was lacking.
    Memory,
}

/// Why no list was handled.
#[derive(Clone, Copy, Debug, PartialEq, Eq)]
pub enum HandleFault {
    /// None waits in the write queue.
    Empty,
    /// Memory was lacking. The list waits on.
    Memory,
}

/// The names of the data sources of a cached value list, and their rates, as GETVAL of collectd-unixsock(5) tells them.
#[derive(Drop)]
pub struct Got {
    pub names: Names,
    pub rates: Rates,
}

/// Why no rates were told.
#[derive(Clone, Copy, Debug, PartialEq, Eq)]
pub enum QueryFault {
    /// The name isn't cached.
    NoSuchValue,
    /// Memory was lacking.
    Memory,
}

/// Why no flush was begun.
#[derive(Clone, Copy, Debug, PartialEq, Eq)]
pub enum FlushFault {
    /// A stop came before.
    Stopping,
    /// Memory was lacking, or as many flushes were begun as are counted.
    Memory,
}

/// Why the counts of a flush weren't told.
#[derive(Clone, Copy, Debug, PartialEq, Eq)]
pub enum FlushEnd {
    /// This many of its calls have no answer.
    NotYet(u64),
    /// No flush of the number is under way.
    NoSuchFlush,
}
