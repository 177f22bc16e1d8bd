//! What the daemon asks of the outside: links, datagrams, files, clocks, dice, and the world that hands these out.
//!
//! - Stands on std alone, and takes no handle.
//! - Read first `specs/Link.antt`, then `Source.antt`, `World.antt`, `Packets.antt`; `Causes.antt` says when a call
//!   may fail.
//! - What was told goes on as the calls say, or isn't told any more; a count rises just in a call that answers so.
//! - A change begins with the trait, in `traits.rt`, `packets.rt`, `source.rt` or `world.rt`.
#![tactic(auto)]

mod adapters;
mod gathering;
mod memory;
mod packets;
mod saying;
mod source;
mod traits;
mod world;

pub use adapters::{ReaderSource, RealClock, RealDice, RealWorld, Streams};
pub use gathering::{GATHER_LIMIT, Gathering};
pub use memory::{
    LinkPlan, MemClock, MemDice, MemFile, MemLink, MemPackets, MemSource, MemWorld, PacketsPlan,
    SourcePlan,
};
pub use packets::{DATAGRAM_LIMIT, Packets};
pub use saying::say_all;
pub use source::{ReadAllFault, Source, read_all};
pub use traits::{Clock, Dice, Failed, Heard, Link};
pub use world::{OutFault, World};

#[cfg(test)]
mod tests;
