//! What decoding a packet costs. With a word, TIMES, it decodes a full packet so often and prints the time.
//! Without words it prints nothing. It stands on cd_net, the types, the values and `anyhow`; its handles are the
//! words, the clock and standard output. It has no spec files: read `specs/Items.antt` of cd_net. It keeps no
//! state. A change begins at `FRONT` and `LIST`, the bytes of the packet.
#![tactic(auto)]

use cd_net::items;
use cd_types::TypesDb;
use cd_value::SECOND;
use std::alloc::{AllocError, Global};
use std::time::Instant;
use std::{env, io};

/// The most bytes that collectd puts into a packet by default.
const PACKET_LIMIT: usize = 1452;

/// Host, interval, plugin and type, as they stand once at the front.
const FRONT: &[u8] =
    b"\0\x00\0\x15web1.example.com\0\0\x09\0\x0c\0\0\0\x02\x80\0\0\0\0\x02\0\x0einterface\0\0\x04\0\x0bderive\0";

/// Time, plugin instance, type instance and one value, as they stand for each list.
const LIST: &[u8] = b"\0\x08\0\x0c\x15\x3a\xcb\x4c\x51\x7d\x65\x2a\0\x03\0\x09eth0\0\
    \0\x05\0\x0frx_packets\0\0\x06\0\x0f\0\x01\x02\0\0\0\0\x12\x34\x56\x78";

/// A packet with as many lists as there is room for.
fn full_packet(alloc: Global) -> Result<Vec<u8>, AllocError> {
    let mut packet = FRONT.to_vec(alloc)?;
    for _ in 0..PACKET_LIMIT / LIST.len() {
        if PACKET_LIMIT - packet.len().min(PACKET_LIMIT) >= LIST.len() {
            packet.extend_from_slice(LIST)?;
        }
    }
    Ok(packet)
}

/// Decodes the packet so often, and says how many lists came.
fn decoded(alloc: Global, packet: &[u8], types: &TypesDb, times: u64) -> u64 {
    let mut lists = 0u64;
    for _ in 0..times {
        if let Ok(decoded) = items(alloc, packet, types, 10 * SECOND) {
            lists = lists.wrapping_add(decoded.items.len() as u64);
        }
    }
    lists
}

fn main(rt: HostRuntime) -> anyhow::Result<()> {
    let alloc = rt.alloc();
    let mut words = env::args(&rt)?;
    let (Some(_), Some(times)) = (words.next(), words.next()) else {
        return Ok(());
    };
    let times = times.parse::<u64>()?;
    let packet = full_packet(alloc)?;
    let types = TypesDb::builtin(alloc).map_err(|_| anyhow::anyhow!("no memory"))?;
    let start = Instant::now(&rt)?;
    let lists = decoded(alloc, packet.as_slice(), &types, times);
    let nanos = start.elapsed(&rt)?.as_nanos();
    let bytes = packet.len();
    let each = nanos / u128::from(times.max(1));
    let in_each = lists / times.max(1);
    println!(rt;
        "{times} packets of {bytes} bytes and {in_each} lists in {nanos} ns, {each} ns each"
    )?;
    Ok(())
}
