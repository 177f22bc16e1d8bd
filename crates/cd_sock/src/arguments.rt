//! The words of a command.
ghost use Rattle.cd_sock.specs.Arguments.{argument, argument_of, from_first_plain, has_key, interval_of};
ghost use Rattle.cd_sock.specs.Arguments.{is_equals, is_keyword, is_plain, leading_options};
ghost use Rattle.cd_sock.specs.Meaning.{has_interval, interval_in, is_interval};
ghost use Rattle.std.specs.List.{after_first, before_first, list_all, position};
ghost use Rattle.std.specs.Prelude.{option_copied, ◌≡◌};

use crate::LineFault;
use cd_text::{LineWord, read_time};

/// Whether the text is the name, whatever the case of its letters.
pub fn is_keyword(text: &str, name: &str) -> bool
    ensures { result ≡ is_keyword name.now text.now }
{
    text.eq_ignore_ascii_case(name)
}

/// Whether a word has a key.
fn has_key(word: &LineWord) -> bool
    ensures { result ≡ has_key word.now }
{
    word.text().bytes().any(|byte| byte == b'=')
}

/// The place of the first word without a key.
fn place_of_plain(words: &[LineWord]) -> Option<usize>
    ensures { result ≡ position is_plain words.now }
{
    words.iter().position(|word| !has_key(word))
}

/// The words with a key before the first other one, and all from there on.
pub fn split_options<'a>(words: &'a [LineWord<'a>]) -> (&'a [LineWord<'a>], &'a [LineWord<'a>])
    ensures options { result.0.now ≡ leading_options words.now }
    ensures others { result.1.now ≡ from_first_plain words.now }
{
    match place_of_plain(words) {
        Some(place) => words.split_at(place),
        None => words.split_at(words.len()),
    }
}

/// The place of the first `=`.
fn place_of_equals(text: &[u8]) -> Option<usize>
    ensures { result ≡ position is_equals text.now }
{
    text.iter().position(|byte| *byte == b'=')
}

/// A text before its first `=`, and what stands after it.
fn at_equals(text: &str) -> (&str, &str)
    ensures before { result.0.now ≡ before_first is_equals text.now }
    ensures after { result.1.now ≡ after_first is_equals text.now }
{
    match place_of_equals(text.as_bytes()) {
        Some(place) => (&text[..place], &text[place + 1..]),
        None => (text, ""),
    }
}

/// The argument of a word that is an option of a name.
pub fn argument_of<'a>(word: &'a LineWord, name: &str) -> Option<&'a str>
    ensures { option_copied result ≡ argument_of name.now word.now }
{
    let (key, argument) = at_equals(word.text());
    if has_key(word) && is_keyword(key, name) {
        Some(argument)
    } else {
        None
    }
}

/// Whether a word is an interval.
fn is_interval(option: &LineWord) -> bool
    ensures { result ≡ is_interval option.now }
{
    is_keyword(at_equals(option.text()).0, "interval")
}

/// The interval that an option gives, in 2^-30 s.
fn interval_of(option: &LineWord) -> Option<u64>
    ensures { result ≡ interval_of (argument option.now) }
{
    match read_time(at_equals(option.text()).1) {
        Ok(time) if time > 0 => Some(time),
        _ => None,
    }
}

fn all_intervals(options: &[LineWord]) -> bool
    ensures { result ≡ list_all is_interval options.now }
{
    options.iter().all(|option| is_interval(option))
}

fn all_give_intervals(options: &[LineWord]) -> bool
    ensures { result ≡ list_all has_interval options.now }
{
    options.iter().all(|option| interval_of(option).is_some())
}

/// The interval of the last option, and the global one where there is none.
pub fn read_interval(options: &[LineWord], global: u64) -> Result<u64, LineFault>
    ensures { result ≡ interval_in options.now global }
{
    if !all_intervals(options) {
        return Err(LineFault::BadOption);
    }
    let Some((last, earlier)) = options.split_last() else {
        return Ok(global);
    };
    if !all_give_intervals(earlier) {
        return Err(LineFault::BadTime);
    }
    interval_of(last).ok_or(LineFault::BadTime)
}
