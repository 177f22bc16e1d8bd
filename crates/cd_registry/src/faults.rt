//! Why the registry refuses.

/// The most registrations that may be live at once.
pub const LIVE_LIMIT: u64 = 256;

/// Why a registration wasn't added.
#[derive(Clone, Copy, Debug, PartialEq, Eq)]
pub enum AddFault {
    /// The name is one of the daemon's own writers and listeners: threshold, unixsock, network.
    Reserved,
    /// The live registration of this number has the name.
    NameTaken(u64),
    /// `LIVE_LIMIT` registrations are live.
    TableFull,
    /// Memory was lacking.
    Memory,
}

/// Why the object of a registration wasn't handed out.
#[derive(Clone, Copy, Debug, PartialEq, Eq)]
pub enum RetireFault {
    /// It isn't closed, or its object was handed out before.
    NotRegistered,
    /// The object is with this actor.
    Out(u64),
    /// This many calls wait for it.
    Pending(u64),
}

/// No live registration has the name.
#[derive(Clone, Copy, Debug, PartialEq, Eq)]
pub struct NotRegistered;
