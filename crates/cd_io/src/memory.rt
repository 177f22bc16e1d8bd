//! The outside in memory, for tests: it tells all that it holds.
mod chance;
mod file;
mod link;
mod packets;
mod source;
mod time;
mod world;

pub use chance::MemDice;
pub use file::MemFile;
pub use link::{LinkPlan, MemLink};
pub use packets::{MemPackets, PacketsPlan};
pub use source::{MemSource, SourcePlan};
pub use time::MemClock;
pub use world::MemWorld;
