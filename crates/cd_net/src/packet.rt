//! Parts of a packet, and how it ends.
use cd_value::{Memory, Sequence, TryCopy};
use std::alloc::Global;

/// A part: its kind, the place of its first byte in the packet, and its length with the four bytes
/// of its head.
#[derive(Clone, Copy, Debug, PartialEq, Eq)]
pub struct Part {
    pub kind: u16,
    pub place: u64,
    pub length: u16,
}

/// How a packet ends. What came before stands.
#[derive(Clone, Copy, Debug, PartialEq, Eq)]
pub enum PacketEnd {
    /// After its last byte.
    Whole,
    /// At a place where no part with a good length begins.
    BadLength(u64),
    /// At the place of an encrypted part.
    Encrypted(u64),
}

/// Parts, in order.
pub type PartList = Sequence<Part>;

/// The parts before the end of a packet, and its end.
#[derive(Drop)]
pub struct Parts {
    pub list: PartList,
    pub end: PacketEnd,
}

impl TryCopy for Part {
    fn copy(&self, _alloc: Global) -> Result<Part, Memory> {
        Ok(*self)
    }
}
