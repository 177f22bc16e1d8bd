//! The history of the daemon: one entry for each event, with its request and its reply. Entries are for contracts, and
//! none is made.
//!
//! - Stands on `cd_registry` and `cd_value`, and takes no handle.
//! - Read first `specs/History.antt`, then `Registrations.antt` and `Leases.antt`; `Order.antt` joins the history,
//!   whose newest entry stands first, with lists whose oldest does.
//! - The crates above name an entry by `Event` and a list of them by `History` alone.
//! - A new kind of event begins in `src/entry.rt`; what it may do is said by `cd_daemon`.
#![tactic(auto)]

mod entry;
mod given;

pub use entry::{
    Entry, FlushEnd, Found, Handled, How, Joining, ReadDue, RegisterFault, Stopping, Why,
};
pub use given::{Given, Givens};
