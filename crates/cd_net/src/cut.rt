//! A packet cut into its parts.
ghost use Rattle.cd_net.specs.Packet.{AreParts, IsOfKind, IsWhole, end_at, has_bad_length, has_length_of_kind, is_number, part_at, payload};
ghost use Rattle.cd_net.specs.declared.packet.PacketEnd.{PacketEnd};
ghost use Rattle.cd_net.specs.declared.packet.Part.{Part};
ghost use Rattle.std.specs.Prelude.{IfErr, IfOk, List, None, OnOk, Some, false, length, ◌+◌, ◌≡◌, ◌≤◌};

use crate::numbers::{
    ENCRYPTION, INTERVAL, INTERVAL_HIGH_RESOLUTION, SEVERITY, TIME, TIME_HIGH_RESOLUTION, VALUES,
};
use crate::payload::u16_at;
use crate::{PacketEnd, Part, Parts};
use cd_value::{Memory, Sequence};
use std::alloc::Global;

/// Whether a part of this kind is a number.
fn is_number(kind: u16) -> bool
    ensures { result ≡ is_number kind }
{
    kind == TIME
        || kind == TIME_HIGH_RESOLUTION
        || kind == INTERVAL
        || kind == INTERVAL_HIGH_RESOLUTION
        || kind == SEVERITY
}

/// Whether the length of a part is the one that its kind asks for.
fn has_length_of_kind(bytes: &[u8], part: &Part) -> bool
    requires head { 4 ≤ part.now.length }
    requires within { part.now.place + part.now.length ≤ length bytes.now }
    ensures { result ≡ has_length_of_kind bytes.now part.now }
{
    if is_number(part.kind) {
        part.length == 12
    } else if part.kind == VALUES {
        part.length >= 6
            && part.length as usize == 6 + 9 * u16_at(bytes, part.place as usize + 4) as usize
    } else {
        true
    }
}

/// Whether the length of a part is bad.
fn has_bad_length(bytes: &[u8], part: &Part) -> bool
    requires { part.now.place ≤ length bytes.now }
    ensures bad { result ≡ has_bad_length bytes.now part.now }
    ensures good { result ≡ false → IsWhole bytes.now part.now }
{
    part.length < 4
        || bytes.len() - (part.place as usize) < part.length as usize
        || !has_length_of_kind(bytes, part)
}

/// The part at a place, or how the packet ends there.
#[tactic(auto, unfolding(crate::specs::Packet::end_at))]
pub(crate) fn part_at(bytes: &[u8], place: usize) -> Result<Part, PacketEnd>
    requires { place ≤ length bytes.now }
    ensures goes_on { OnOk result (end_at bytes.now place ≡ None) }
    ensures part { IfOk result (λ part. part ≡ part_at bytes.now place) }
    ensures whole { IfOk result (λ part. IsWhole bytes.now part) }
    ensures end { IfErr result (λ end. end_at bytes.now place ≡ Some end) }
{
    if place == bytes.len() {
        return Err(PacketEnd::Whole);
    }
    if bytes.len() - place < 4 {
        return Err(PacketEnd::BadLength(place as u64));
    }
    let part = Part {
        kind: u16_at(bytes, place),
        place: place as u64,
        length: u16_at(bytes, place + 2),
    };
    if has_bad_length(bytes, &part) {
        return Err(PacketEnd::BadLength(place as u64));
    }
    if part.kind == ENCRYPTION {
        return Err(PacketEnd::Encrypted(place as u64));
    }
    Ok(part)
}

/// What stands behind the head of a part.
pub(crate) fn payload_of<'a>(bytes: &'a [u8], part: &Part) -> &'a [u8]
    requires { IsWhole bytes.now part.now }
    ensures value { result.now ≡ payload bytes.now part.now }
    ensures kind { IsOfKind part.now.kind result.now }
{
    let place = part.place as usize;
    &bytes[place + 4..place + part.length as usize]
}

/// The parts of a datagram of collectd's binary protocol, up to where the packet ends.
pub fn parts(alloc: Global, bytes: &[u8]) -> Result<Parts, Memory>
    ensures cut { IfOk result (λ parts. AreParts bytes.now 0 parts.list parts.end) }
    ensures only { IfOk result (λ parts. (others : List Part) (end : PacketEnd) →
        AreParts bytes.now 0 others end → (others ≡ parts.list) × (end ≡ parts.end)) }
{
    let mut list = Sequence::new(alloc);
    let mut place = 0;
    loop {
        match part_at(bytes, place) {
            Ok(part) => {
                list.push(part)?;
                place += part.length as usize;
            }
            Err(end) => return Ok(Parts { list, end }),
        }
    }
}
