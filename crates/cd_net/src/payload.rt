//! What a payload says, read by `byteorder` and std.
ghost use Rattle.cd_net.specs.Packet.{u16_at};
ghost use Rattle.cd_net.specs.Payload.{codes_of, is_zero, numbers_of, payload_number, payload_text, units_of_seconds, value_count};
ghost use Rattle.std.specs.List.{before_first, position};
ghost use Rattle.std.specs.Option.{option_copied};
ghost use Rattle.std.specs.Prelude.{length, ◌*◌, ◌+◌, ◌≡◌, ◌≤◌};

use crate::numbers::SECONDS_LIMIT;
use byteorder::{ByteOrder, NetworkEndian};
use cd_value::SECOND;
use std::str;

/// The number in the two bytes at a place.
pub(crate) fn u16_at(bytes: &[u8], place: usize) -> u16
    requires { place + 2 ≤ length bytes.now }
    ensures { result ≡ u16_at bytes.now place }
{
    NetworkEndian::read_u16(&bytes[place..])
}

/// The number of a payload of eight bytes.
pub(crate) fn number(payload: &[u8]) -> u64
    requires { 8 ≤ length payload.now }
    ensures { result ≡ payload_number payload.now }
{
    NetworkEndian::read_u64(payload)
}

/// A number of seconds in 2^-30 s, where it is below 2^34.
pub(crate) fn units_of_seconds(seconds: u64) -> Option<u64>
    ensures { result ≡ units_of_seconds seconds }
{
    if seconds < SECONDS_LIMIT {
        Some(seconds * SECOND)
    } else {
        None
    }
}

/// The place of the first zero byte.
fn first_zero(payload: &[u8]) -> Option<usize>
    ensures { result ≡ position is_zero payload.now }
{
    payload.iter().position(|byte| *byte == 0)
}

/// What stands before the first zero byte, or all where there is none.
fn before_zero(payload: &[u8]) -> &[u8]
    ensures { result.now ≡ before_first is_zero payload.now }
{
    match first_zero(payload) {
        Some(end) => &payload[..end],
        None => payload,
    }
}

/// The text of a payload.
pub(crate) fn text(payload: &[u8]) -> Option<&str>
    ensures { option_copied result ≡ payload_text payload.now }
{
    let text = before_zero(payload);
    if text.len() + 1 != payload.len() {
        return None;
    }
    let Ok(text) = str::from_utf8(text) else {
        return None;
    };
    Some(text)
}

/// The codes of a values part, and the bytes of its numbers, eight for each code.
pub(crate) fn codes_and_numbers(payload: &[u8]) -> (&[u8], &[u8])
    requires { 2 + 9 * value_count payload.now ≤ length payload.now }
    ensures codes { result.0.now ≡ codes_of payload.now }
    ensures numbers { result.1.now ≡ numbers_of payload.now }
{
    let count = NetworkEndian::read_u16(payload) as usize;
    (&payload[2..2 + count], &payload[2 + count..])
}
