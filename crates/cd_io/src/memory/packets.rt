//! A source of datagrams in memory.
ghost use Rattle.cd_io.specs.Datagrams.{as_datagram};
ghost use Rattle.cd_io.specs.Link.{heard_count, is_quiet};
ghost use Rattle.cd_io.specs.Packets.{Nexts};
ghost use Rattle.std.specs.Prelude.{[], is_err, length, map, take, ◌≡◌, ◌≤◌};

use crate::{DATAGRAM_LIMIT, Failed, Heard, Packets};
use std::alloc::Global;

/// Which calls on a source of datagrams in memory don't go through. The calls are numbered from 0.
#[derive(Drop)]
pub struct PacketsPlan {
    /// The calls that fail.
    pub failing_calls: Vec<u64>,
    /// The calls that bring nothing, where they don't fail.
    pub quiet_calls: Vec<u64>,
}

impl PacketsPlan {
    /// All calls go through.
    pub fn new(alloc: Global) -> Self
        ensures failing_calls { result.failing_calls.items ≡ [] }
        ensures quiet_calls { result.quiet_calls.items ≡ [] }
    {
        PacketsPlan {
            failing_calls: Vec::new(alloc),
            quiet_calls: Vec::new(alloc),
        }
    }
}

/// A source that gives some datagrams, one in each call, and then the end. Of one with more than `DATAGRAM_LIMIT` bytes
/// it gives and tells so many.
#[derive(Drop)]
pub struct MemPackets {
    datagrams: Vec<Vec<u8>>,
    taken: usize,
    plan: PacketsPlan,
    calls: u64,
    faults: u64,
    quiets: u64,
    ghost within: { taken ≤ length datagrams.items },
}

impl MemPackets {
    ghost use Rattle.cd_io.specs.MemPackets.{calls_of, plan_of, told_first};

    /// A source of some datagrams.
    pub fn new(datagrams: Vec<Vec<u8>>, plan: PacketsPlan) -> Self
        ensures tells { ⟦<MemPackets as Packets>⟧.packets_tell result
            ≡ told_first (map (λ v. v.items) datagrams.items) }
        ensures plan { plan_of result ≡ plan }
        ensures calls { calls_of result ≡ 0 }
    {
        MemPackets {
            datagrams,
            taken: 0,
            plan,
            calls: 0,
            faults: 0,
            quiets: 0,
        }
    }
}

// The clauses of the trait, and that just the calls of the plan fail or are quiet.
impl Packets for MemPackets {
    ghost use Rattle.cd_io.specs.MemLink.{next_number};
    ghost use Rattle.cd_io.specs.MemPackets.{calls_of, fails, is_planned_quiet, plan_of, tells_of};

    ghost packets_tell = { tells_of };

    fn next(&mut self, buf: &mut [u8]) -> Result<Heard, Failed>
        requires { DATAGRAM_LIMIT ≤ length buf.old }
        ensures bound { heard_count result ≤ DATAGRAM_LIMIT }
        ensures nexts { Nexts result buf.new (tells_of self.old) (tells_of self.new) }

        // The plan decides how the call goes.
        ensures fails { is_err result ≡ fails (plan_of self.old) (calls_of self.old) }
        ensures is_quiet { is_quiet result
            ≡ is_planned_quiet (plan_of self.old) (calls_of self.old) }
        ensures plan { plan_of self.new ≡ plan_of self.old }
        ensures calls_next { calls_of self.new ≡ next_number (calls_of self.old) }
    {
        let number = self.calls;
        self.calls = number.saturating_add(1);
        if self.plan.failing_calls.contains(&number) {
            return Err(Failed::counted(&mut self.faults));
        }
        if self.plan.quiet_calls.contains(&number) {
            self.quiets = self.quiets.saturating_add(1);
            return Ok(Heard::Quiet);
        }
        let Some(datagram) = self.datagrams.get(self.taken) else {
            return Ok(Heard::End);
        };
        let count = copy_datagram(buf, datagram);
        self.taken += 1;
        Ok(Heard::Got(count))
    }
}

/// Copies as many bytes as a datagram may have into the front of the buffer, and answers how many.
fn copy_datagram(buf: &mut [u8], bytes: &[u8]) -> usize
    requires { DATAGRAM_LIMIT ≤ length buf.old }
    ensures bound { result ≤ DATAGRAM_LIMIT }
    ensures front { take result buf.new ≡ as_datagram bytes.now }
{
    let count = bytes.len().min(DATAGRAM_LIMIT);
    buf[..count].copy_from_slice(&bytes[..count]);
    count
}
