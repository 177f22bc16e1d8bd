//! Times as text.
ghost use Rattle.cd_text.specs.Digits.{are_digits};
ghost use Rattle.cd_text.specs.Time.{further, is_fraction, is_time, parts, parts_of, time_of, units, units_of_millionths};
ghost use Rattle.std.specs.Prelude.{IsTrue, length, min, pos, ◌*◌, ◌++◌, ◌+◌, ◌/◌, ◌<◌, ◌^◌, ◌≡◌, ◌≤ℤ◌, ◌≤◌};
ghost use Rattle.std.specs.Str.Parse.{digits_value, digits_value_after};

use crate::digits::{all_digits, place_of_dot, with_digits};
use crate::fault::NumFault;
use crate::numbers::{DURATION_LIMIT, FRACTION_LIMIT, SECONDS_END};
use cd_value::{MILLIONTHS, SECOND};

/// The parts of a time's text.
#[derive(Clone, Copy)]
struct Seconds<'a> {
    whole: &'a [u8],
    fraction: Option<&'a [u8]>,
}

/// Cuts a text into its parts.
#[tactic(auto, using(crate::proofs::Places::places))]
fn split(text: &[u8]) -> Seconds<'_>
    ensures { parts result ≡ parts_of text.now }
{
    match place_of_dot(text) {
        Some(i) => Seconds {
            whole: &text[..i],
            fraction: Some(&text[i + 1..]),
        },
        None => Seconds {
            whole: text,
            fraction: None,
        },
    }
}

/// Whether the fraction is none, or one to nine digits.
fn has_good_fraction(seconds: &Seconds) -> bool
    ensures { result ≡ is_fraction (parts seconds.now).fraction }
{
    match seconds.fraction {
        Some(digits) => all_digits(digits) && !digits.is_empty() && digits.len() <= FRACTION_LIMIT,
        None => true,
    }
}

/// Whether the parts are those of a time.
fn is_good(seconds: &Seconds) -> bool
    ensures { result ≡ is_time (parts seconds.now) }
{
    all_digits(seconds.whole) && !seconds.whole.is_empty() && has_good_fraction(seconds)
}

/// The digits behind the dot.
fn further_digits<'a>(seconds: &Seconds<'a>) -> &'a [u8]
    requires { IsTrue (is_fraction (parts seconds.now).fraction) }
    ensures value { result.now ≡ further (parts seconds.now) }
    ensures digits { IsTrue (are_digits result.now) }
    ensures short { length result.now ≤ FRACTION_LIMIT }
{
    match seconds.fraction {
        Some(digits) => digits,
        None => &[],
    }
}

/// The number that digits write, or `SECONDS_END` where it is that much or more.
fn capped_value(digits: &[u8]) -> u64
    requires { IsTrue (are_digits digits.now) }
    ensures { result ≡ min (digits_value 10 digits.now) SECONDS_END }
{
    let mut value = 0;
    for digit in digits {
        value = (value * 10 + (*digit - b'0') as u64).min(SECONDS_END);
    }
    value
}

/// Whole seconds and the digits behind their dot, in 2^-30 s.
fn in_units(whole: u64, further: &[u8]) -> u64
    requires in_range { whole < SECONDS_END }
    requires digits { IsTrue (are_digits further.now) }
    requires short { length further.now ≤ FRACTION_LIMIT }
    ensures value { let numerator = digits_value_after 10 whole further.now in
        result ≡ numerator * SECOND / 10 ^ length further.now }
    ensures in_range { let numerator = digits_value_after 10 whole further.now in
        numerator < SECONDS_END * 10 ^ length further.now }
{
    let numerator = with_digits(whole as u128, further);
    (numerator * SECOND as u128 / 10u128.pow(further.len() as u32)) as u64
}

/// Seconds, in 2^-30 s.
fn valued(seconds: &Seconds) -> Result<u64, NumFault>
    requires { IsTrue (is_time (parts seconds.now)) }
    ensures { let p = parts seconds.now in
        result ≡ units (digits_value 10 (p.whole ++ further p)) (10 ^ length (further p)) }
{
    let whole = capped_value(seconds.whole);
    if whole == SECONDS_END {
        return Err(NumFault::OutOfRange);
    }
    Ok(in_units(whole, further_digits(seconds)))
}

/// The time that the bytes write in seconds, in 2^-30 s, cut to the unit below.
///
/// A time is one or more digits and, where a dot follows, one to `FRACTION_LIMIT` digits more, as
/// collectd-unixsock(5) has them in its commands. It is out of range from `SECONDS_END` on.
#[tactic(auto, unfolding(crate::specs::Time::time_of))]
pub fn read_time_bytes(text: &[u8]) -> Result<u64, NumFault>
    ensures { result ≡ time_of text.now }
{
    let seconds = split(text);
    if !is_good(&seconds) {
        return Err(NumFault::BadNumber);
    }
    valued(&seconds)
}

/// The time that a text writes in seconds, in 2^-30 s: `read_time_bytes` of its bytes.
pub fn read_time(text: &str) -> Result<u64, NumFault>
    ensures { result ≡ time_of text.now }
{
    read_time_bytes(text.as_bytes())
}

/// Millionths of a second as a time in 2^-30 s, cut to the unit below.
pub fn to_time(millionths: i128) -> u64
    requires low { pos 0 ≤ℤ millionths }
    requires high { millionths ≤ℤ DURATION_LIMIT }
    ensures { result ≡ units_of_millionths millionths }
{
    (millionths as u128 * SECOND as u128 / MILLIONTHS) as u64
}
