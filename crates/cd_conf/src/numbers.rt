//! Words that are numbers or flags.
ghost use Rattle.cd_conf.specs.Digits.{digits_in};
ghost use Rattle.cd_conf.specs.Faults.{conf_fault};
ghost use Rattle.cd_conf.specs.Numbers.{all_digits, are_digits, at_most, decimal_digits, digits_of, fraction, is_decimal, is_false_word, is_fraction, is_hexadecimal, is_octal, is_true_word, is_whole, is_word, magnitude, millionths, millionths_limit, number_arg, plain_arg, with_sign, word_arg};
ghost use Rattle.cd_reading.specs.Gives.{Gives};
ghost use Rattle.cd_text.specs.Digits.{after_place, is_dot};
ghost use Rattle.std.specs.Char.{digit_value};
ghost use Rattle.std.specs.List.{before_first, position};
ghost use Rattle.std.specs.Option.{ForSome, option_copied, option_map};
ghost use Rattle.std.specs.Prelude.{IfSome, length, ◌*◌, ◌+◌, ◌^◌, ◌≡◌, ◌≤◌};
ghost use Rattle.std.specs.Str.Parse.{digits_value_after, starts_with_minus, without_leading_sign};

use crate::fault::{ConfFault, ConfKind};
use crate::form::Form;
use crate::item::Arg;
use crate::limits::{DECIMALS_LIMIT, NUMBER_LIMIT};
use cd_value::{MILLIONTHS, Text};
use std::alloc::Global;

/// Whether each byte is a digit of a base.
fn all_digits(base: u32, text: &[u8]) -> bool
    requires least { 2 ≤ base }
    requires greatest { base ≤ 36 }
    ensures { result ≡ all_digits base text.now }
{
    text.iter().all(|b| (*b as char).is_digit(base))
}

/// Whether there is a byte, and each is a digit of a base.
fn are_digits(base: u32, text: &[u8]) -> bool
    requires least { 2 ≤ base }
    requires greatest { base ≤ 36 }
    ensures { result ≡ are_digits base text.now }
{
    !text.is_empty() && all_digits(base, text)
}

/// Whether decimal digits begin with 0 only where it stands alone.
fn is_whole(text: &[u8]) -> bool
    ensures { result ≡ is_whole text.now }
{
    are_digits(10, text) && (text.len() == 1 || text[0] > b'0')
}

/// Whether nothing stands behind a dot, or digits.
fn is_fraction(fraction: Option<&[u8]>) -> bool
    ensures { result ≡ is_fraction (option_copied fraction.entry) }
{
    match fraction {
        Some(digits) => are_digits(10, digits),
        None => true,
    }
}

/// Whether the text is `0x` and hexadecimal digits.
fn is_hexadecimal(text: &[u8]) -> bool
    ensures { result ≡ is_hexadecimal text.now }
{
    text.len() > 2 && text[0] == b'0' && text[1] == b'x' && are_digits(16, &text[2..])
}

/// Whether the text is `0` and octal digits.
fn is_octal(text: &[u8]) -> bool
    ensures { result ≡ is_octal text.now }
{
    text.len() > 1 && text[0] == b'0' && are_digits(8, &text[1..])
}

/// The place of the first dot.
fn place_of_dot(text: &[u8]) -> Option<usize>
    ensures { result ≡ position is_dot text.now }
{
    text.iter().position(|b| *b == b'.')
}

/// The text before the first dot, and after it where there is one.
#[tactic(auto, using(cd_text::proofs::Places::places))]
fn cut_at_dot(text: &[u8]) -> (&[u8], Option<&[u8]>)
    ensures before { result.0.now ≡ before_first is_dot text.now }
    ensures after { option_copied result.1 ≡ fraction text.now }
{
    match place_of_dot(text) {
        Some(i) => (&text[..i], Some(&text[i + 1..])),
        None => (text, None),
    }
}

/// The digits of a decimal number.
fn decimal_form(text: &[u8]) -> Option<Form<'_>>
    ensures { option_map digits_in result ≡ decimal_digits text.now }
{
    let (whole, fraction) = cut_at_dot(text);
    if is_whole(whole) && is_fraction(fraction) {
        Some(Form {
            base: 10,
            whole,
            decimals: fraction.unwrap_or(&text[..0]),
        })
    } else {
        None
    }
}

/// The digits of a number without its sign; `None` for any other word.
fn form_of(text: &[u8]) -> Option<Form<'_>>
    ensures { option_map digits_in result ≡ digits_of text.now }
{
    if is_hexadecimal(text) {
        Some(Form {
            base: 16,
            whole: &text[2..],
            decimals: &text[..0],
        })
    } else if is_octal(text) {
        Some(Form {
            base: 8,
            whole: &text[1..],
            decimals: &text[..0],
        })
    } else {
        decimal_form(text)
    }
}

/// The value of a digit or a letter, and 36 for any other byte.
fn digit_of(digit: u8) -> u32
    ensures value { result ≡ digit_value digit }
    ensures small { result ≤ 36 }
{
    match (digit as char).to_digit(36) {
        Some(value) => value,
        None => 36,
    }
}

/// The number that a digit more makes; `None` above the limit.
fn with_digit(front: u128, base: u32, digit: u8) -> Option<u128>
    requires front { front ≤ millionths_limit }
    requires base { base ≤ 36 }
    ensures { result ≡ at_most millionths_limit (front * base + digit_value digit) }
{
    let number = front * base as u128 + digit_of(digit) as u128;
    if number <= NUMBER_LIMIT as u128 * MILLIONTHS {
        Some(number)
    } else {
        None
    }
}

/// The number that digits make behind those of `front`; `None` above the limit.
fn with_digits(front: u128, base: u32, digits: &[u8]) -> Option<u128>
    requires front { front ≤ millionths_limit }
    requires least { 1 ≤ base }
    requires greatest { base ≤ 36 }
    ensures { result ≡ at_most millionths_limit (digits_value_after base front digits.now) }
{
    let mut number = front;
    for digit in digits {
        match with_digit(number, base, *digit) {
            Some(more) => number = more,
            None => return None,
        }
    }
    Some(number)
}

/// A number times a power of ten; `None` above the limit.
fn raised(number: u128, power: usize) -> Option<u128>
    requires number { number ≤ millionths_limit }
    requires power { power ≤ DECIMALS_LIMIT }
    ensures { result ≡ at_most millionths_limit (number * 10 ^ power) }
{
    let raised = number * 10u128.pow(power as u32);
    if raised <= NUMBER_LIMIT as u128 * MILLIONTHS {
        Some(raised)
    } else {
        None
    }
}

/// The digits as one number in millionths; `None` above the limit.
fn value_of(form: Form) -> Option<u128>
    requires { length form.decimals.now ≤ DECIMALS_LIMIT }
    ensures { result ≡ at_most millionths_limit (millionths (digits_in form.entry)) }
{
    match with_digits(0, form.base, form.whole) {
        None => None,
        Some(whole) => match with_digits(whole, 10, form.decimals) {
            None => None,
            Some(number) => raised(number, DECIMALS_LIMIT - form.decimals.len()),
        },
    }
}

/// The magnitude of a number in millionths; `None` for too many decimals and above the limit.
#[tactic(auto, unfolding(crate::specs::Numbers::magnitude))]
fn magnitude(form: Form) -> Option<u128>
    ensures value { result ≡ magnitude (digits_in form.entry) }
    ensures small { IfSome result (λ n. n ≤ millionths_limit) }
{
    if form.decimals.len() <= DECIMALS_LIMIT {
        value_of(form)
    } else {
        None
    }
}

/// The text after its sign.
fn after_sign(text: &[u8]) -> &[u8]
    ensures { result.now ≡ without_leading_sign text.now }
{
    if !text.is_empty() && (text[0] == b'-' || text[0] == b'+') {
        &text[1..]
    } else {
        text
    }
}

/// Whether the text begins with a minus.
fn begins_with_minus(text: &[u8]) -> bool
    ensures { result ≡ starts_with_minus text.now }
{
    !text.is_empty() && text[0] == b'-'
}

/// A magnitude with a sign.
fn with_sign(is_negative: bool, magnitude: u128) -> i128
    requires { magnitude ≤ millionths_limit }
    ensures { result ≡ with_sign is_negative magnitude }
{
    if is_negative {
        -(magnitude as i128)
    } else {
        magnitude as i128
    }
}

/// The value that a number of a line is.
fn number_arg(line: u32, is_negative: bool, magnitude: Option<u128>) -> Result<Arg, ConfFault>
    requires { ForSome magnitude (λ n. n ≤ millionths_limit) }
    ensures { Gives (λ arg. arg) conf_fault result (number_arg line is_negative magnitude) }
{
    match magnitude {
        Some(magnitude) => Ok(Arg::Number(with_sign(is_negative, magnitude))),
        None => Err(ConfFault {
            kind: ConfKind::BadValue,
            line,
        }),
    }
}

/// The value of a word that is no flag.
fn plain_arg(alloc: Global, line: u32, word: &str) -> Result<Arg, ConfFault>
    ensures { Gives (λ arg. arg) conf_fault result
        (plain_arg line word.now (digits_of (without_leading_sign word.now))) }
{
    let bytes = word.as_bytes();
    match form_of(after_sign(bytes)) {
        Some(form) => number_arg(line, begins_with_minus(bytes), magnitude(form)),
        None => Ok(Arg::Words(Text::of(alloc, word)?)),
    }
}

/// Whether a word is a name, whatever the case of its letters.
fn is_word(word: &str, name: &str) -> bool
    ensures { result ≡ is_word word.now name.now }
{
    word.eq_ignore_ascii_case(name)
}

fn is_true_word(word: &str) -> bool
    ensures { result ≡ is_true_word word.now }
{
    is_word(word, "true") || is_word(word, "yes") || is_word(word, "on")
}

fn is_false_word(word: &str) -> bool
    ensures { result ≡ is_false_word word.now }
{
    is_word(word, "false") || is_word(word, "no") || is_word(word, "off")
}

/// The value of a word without quotes in a line: a flag, a number or a text.
#[tactic(auto, unfolding(crate::specs::Numbers::word_arg))]
pub fn word_arg(alloc: Global, line: u32, word: &str) -> Result<Arg, ConfFault>
    ensures { Gives (λ arg. arg) conf_fault result (word_arg line word.now) }
{
    if is_true_word(word) {
        Ok(Arg::Flag(true))
    } else if is_false_word(word) {
        Ok(Arg::Flag(false))
    } else {
        plain_arg(alloc, line, word)
    }
}
