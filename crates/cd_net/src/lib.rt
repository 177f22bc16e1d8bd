//! Packets of collectd's binary protocol, which the plugin network of collectd.conf(5) receives, as items.
//! It stands on the values, the types and `byteorder`, and takes no handle. Read first `specs/Packet.antt`
//! (where a packet ends), then `InForce.antt` (an item's fields), `Refusals.antt` and `Items.antt`. They look
//! back; one pass carries the fields forward, joined by the invariant in `proofs/decode/items/Invariants.antt`.
//! A change begins at `numbers.rt`, with the protocol's numbers, and `carried.rt`, with a line a kind of field.
#![tactic(auto)]

mod carried;
mod cut;
mod decode;
mod field;
mod item;
mod laws;
mod list;
mod note;
mod numbers;
mod packet;
mod payload;

pub use cut::parts;
pub use decode::items;
pub use item::{Decoded, DecodedItems, Item, ItemRefusal, Refusals};
pub use laws::{each_packet_is_cut_in_one_way, each_packet_says_one_thing};
pub use numbers::{
    ABSOLUTE_CODE, COUNTER_CODE, DERIVE_CODE, ENCRYPTION, FAILURE_CODE, GAUGE_CODE, HOST, INTERVAL,
    INTERVAL_HIGH_RESOLUTION, MESSAGE, OKAY_CODE, PLUGIN, PLUGIN_INSTANCE, SECONDS_LIMIT, SEVERITY,
    TIME, TIME_HIGH_RESOLUTION, TYPE, TYPE_INSTANCE, VALUES, WARNING_CODE,
};
pub use packet::{PacketEnd, Part, PartList, Parts};

#[cfg(test)]
mod tests;
