//! Decimal numbers as text.
ghost use Rattle.cd_text.specs.Digits.{after_place, are_digits, is_dot};
ghost use Rattle.cd_text.specs.Number.{is_e, is_exponent, is_number, lowered_by, number_of, parts, parts_of, raised_by, value, with_sign};
ghost use Rattle.std.specs.List.{after_first, before_first, position};
ghost use Rattle.std.specs.Option.{option_copied};
ghost use Rattle.std.specs.Prelude.{IfSome, IsTrue, length, ◌++◌, ◌+◌, ◌<◌, ◌^◌, ◌≡◌, ◌≤◌};
ghost use Rattle.std.specs.Str.Parse.{digits_value};

use crate::digits::{after_sign, all_digits, begins_with_minus, place_of_dot, with_digits};
use crate::fault::NumFault;
use crate::numbers::{DIGITS_LIMIT, EXPONENT_LIMIT};
use crate::scale::scaled;
use cd_value::NUMBER_LIMIT;

/// The parts of a number's text.
#[derive(Clone, Copy)]
struct Decimal<'a> {
    is_negative: bool,
    whole: &'a [u8],
    fraction: &'a [u8],
    exponent: Option<&'a [u8]>,
}

/// The place of the first `e`.
fn place_of_e(text: &[u8]) -> Option<usize>
    ensures { result ≡ position is_e text.now }
{
    text.iter().position(|b| *b == b'e' || *b == b'E')
}

/// The text before the first dot, and after it.
#[tactic(auto, using(crate::proofs::Places::places))]
fn cut_at_dot(text: &[u8]) -> (&[u8], &[u8])
    ensures before { result.0.now ≡ before_first is_dot text.now }
    ensures after { result.1.now ≡ after_first is_dot text.now }
{
    match place_of_dot(text) {
        Some(i) => (&text[..i], &text[i + 1..]),
        None => (text, &text[text.len()..]),
    }
}

/// The text before the first `e`, and after it where there is one.
#[tactic(auto, using(crate::proofs::Places::places))]
fn cut_at_e(text: &[u8]) -> (&[u8], Option<&[u8]>)
    ensures before { result.0.now ≡ before_first is_e text.now }
    ensures after { option_copied result.1 ≡ after_place text.now (position is_e text.now) }
{
    match place_of_e(text) {
        Some(i) => (&text[..i], Some(&text[i + 1..])),
        None => (text, None),
    }
}

/// Cuts a text into its parts.
fn split(text: &[u8]) -> Decimal<'_>
    ensures { parts result ≡ parts_of text.now }
{
    let (mantissa, exponent) = cut_at_e(after_sign(text));
    let (whole, fraction) = cut_at_dot(mantissa);
    Decimal {
        is_negative: begins_with_minus(text),
        whole,
        fraction,
        exponent,
    }
}

/// Whether the exponent is none, or an optional sign and some digits, but not too many.
fn has_good_exponent(number: &Decimal) -> bool
    ensures { result ≡ is_exponent (parts number.now).exponent }
{
    match number.exponent {
        Some(text) => {
            let digits = after_sign(text);
            all_digits(digits) && !digits.is_empty() && digits.len() <= EXPONENT_LIMIT
        }
        None => true,
    }
}

/// Whether the parts are those of a number.
fn is_good(number: &Decimal) -> bool
    ensures { result ≡ is_number (parts number.now) }
{
    all_digits(number.whole)
        && all_digits(number.fraction)
        && number.whole.len() + number.fraction.len() > 0
        && has_good_exponent(number)
}

/// The powers of ten that an exponent multiplies and divides by.
fn powers_of(exponent: Option<&[u8]>) -> (u32, u32)
    requires { IsTrue (is_exponent (option_copied exponent)) }
    ensures up { result.0 ≡ raised_by (option_copied exponent.entry) }
    ensures down { result.1 ≡ lowered_by (option_copied exponent.entry) }
    ensures small { result.0 + result.1 < 10000 }
{
    match exponent {
        Some(text) => {
            let size = with_digits(0, after_sign(text)) as u32;
            if begins_with_minus(text) {
                (0, size)
            } else {
                (size, 0)
            }
        }
        None => (0, 0),
    }
}

/// The number that two runs of digits write together.
fn value_of(whole: &[u8], fraction: &[u8]) -> u128
    requires digits { IsTrue (are_digits (whole.now ++ fraction.now)) }
    requires short { length whole.now + length fraction.now ≤ DIGITS_LIMIT }
    ensures value { result ≡ digits_value 10 (whole.now ++ fraction.now) }
    ensures small { result < 10 ^ DIGITS_LIMIT }
{
    with_digits(with_digits(0, whole), fraction)
}

/// The magnitude with the sign, where it is in range.
fn signed(is_negative: bool, magnitude: Option<u128>) -> Result<i128, NumFault>
    requires { IfSome magnitude (λ n. n ≤ NUMBER_LIMIT) }
    ensures { result ≡ with_sign is_negative magnitude }
{
    match magnitude {
        Some(n) if is_negative => Ok(-(n as i128)),
        Some(n) => Ok(n as i128),
        None => Err(NumFault::OutOfRange),
    }
}

/// The number in millionths.
fn valued(number: &Decimal) -> Result<i128, NumFault>
    requires { IsTrue (is_number (parts number.now)) }
    ensures { result ≡ value (parts number.now) }
{
    if number.whole.len() + number.fraction.len() > DIGITS_LIMIT {
        return Err(NumFault::OutOfRange);
    }
    let (up, down) = powers_of(number.exponent);
    let digits = value_of(number.whole, number.fraction);
    signed(
        number.is_negative,
        scaled(digits, up, number.fraction.len() as u32 + down),
    )
}

/// The number that the bytes write, in millionths, cut toward zero.
///
/// A number is an optional sign, digits with at most one dot among, before or after them (at least
/// one digit, at most `DIGITS_LIMIT`), and an optional exponent: `e` or `E`, an optional sign, and
/// one to `EXPONENT_LIMIT` digits. Gauges of collectd-unixsock(5) and bounds of types.db(5) are such
/// numbers. One above `NUMBER_LIMIT` in magnitude is out of range.
#[tactic(auto, unfolding(crate::specs::Number::number_of))]
pub fn read_millionths_bytes(text: &[u8]) -> Result<i128, NumFault>
    ensures { result ≡ number_of text.now }
{
    let number = split(text);
    if !is_good(&number) {
        return Err(NumFault::BadNumber);
    }
    valued(&number)
}

/// The number that a text writes, in millionths, cut toward zero: `read_millionths_bytes` of its
/// bytes.
pub fn read_millionths(text: &str) -> Result<i128, NumFault>
    ensures { result ≡ number_of text.now }
{
    read_millionths_bytes(text.as_bytes())
}
