//! What a packet says.
use crate::PacketEnd;
use cd_value::{Memory, Notification, Sequence, TryCopy, ValueList};
use std::alloc::Global;

/// A value list or a notification.
#[derive(Drop)]
pub enum Item {
    List(ValueList),
    Note(Notification),
}

/// Why a values part or a message part gives no item, in the order in which the refusals are given.
#[derive(Clone, Copy, Debug, PartialEq, Eq)]
pub enum ItemRefusal {
    /// A text in force, or the message, doesn't end with its only zero byte, or isn't UTF-8.
    NotText,
    /// A field is longer than `FIELD_LIMIT` of cd_value, or a time or an interval is 2^34 seconds or
    /// more. Of values: the host, the plugin or the type is empty, or the type has a character other
    /// than a letter, a digit or `_`.
    BadField,
    /// A value is a gauge, which is sent as a floating-point number.
    Gauge,
    /// The type isn't known.
    UnknownType,
    /// There are more or fewer values than the type has data sources.
    WrongCount,
    /// A value isn't of its data source's kind.
    WrongKind,
    /// The severity of a notification is none of FAILURE, WARNING and OKAY.
    BadSeverity,
    /// The time is 0, or there is none.
    NoTime,
}

/// Items, in order.
pub type DecodedItems = Sequence<Item>;

/// The place of each part that is refused, and why it is, in order.
pub type Refusals = Sequence<(u64, ItemRefusal)>;

/// The items of a packet, what was refused, and the packet's end.
#[derive(Drop)]
pub struct Decoded {
    pub items: DecodedItems,
    pub refused: Refusals,
    pub end: PacketEnd,
}

impl TryCopy for Item {
    fn copy(&self, alloc: Global) -> Result<Item, Memory> {
        Ok(match self {
            Item::List(list) => Item::List(list.copy(alloc)?),
            Item::Note(note) => Item::Note(note.copy(alloc)?),
        })
    }
}

impl TryCopy for ItemRefusal {
    fn copy(&self, _alloc: Global) -> Result<ItemRefusal, Memory> {
        Ok(*self)
    }
}
