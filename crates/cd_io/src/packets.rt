//! Datagrams from peers.
ghost use Rattle.cd_io.specs.Link.{heard_count};
ghost use Rattle.cd_io.specs.Packets.{Nexts, PacketsTell};
ghost use Rattle.std.specs.Prelude.{length, ◌≤◌};

use crate::{Failed, Heard};
use std::marker::Send;

/// The most bytes that a datagram has.
pub const DATAGRAM_LIMIT: usize = 65_535;

/// A source of datagrams from peers.
pub trait Packets: Send + Drop {
    /// What it tells: the datagrams given and left, where it tells them, and the counts of faults and of quiets.
    ghost packets_tell: { Self → PacketsTell };

    /// Takes the next datagram whole into the front of the buffer; `Got(0)` is one without bytes. What the buffer has
    /// behind it is left open.
    fn next(&mut self, buf: &mut [u8]) -> Result<Heard, Failed>
        requires { DATAGRAM_LIMIT ≤ length buf.old }
        ensures bound { heard_count result ≤ DATAGRAM_LIMIT }
        ensures nexts { Nexts result buf.new (packets_tell self.old) (packets_tell self.new) };
}
