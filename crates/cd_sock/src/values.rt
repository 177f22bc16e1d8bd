//! The value words of PUTVAL.
ghost use Rattle.cd_sock.specs.Meaning.{list_of};
ghost use Rattle.cd_sock.specs.Values.{change_of, count_of, has_count, has_time, is_colon, is_unknown, is_whole};
ghost use Rattle.cd_sock.specs.Values.{level_of, texts_in, time_at, value_of, values_in};
ghost use Rattle.std.specs.List.{before_first, position, slice_split};
ghost use Rattle.std.specs.Prelude.{IfOk, None, Some, count_by, if◌then◌else◌, option_copied, slice_index, ◌==◌, ◌∷◌};
ghost use Rattle.std.specs.Prelude.{◌≡◌};

use crate::arguments::is_keyword;
use cd_text::{LineWord, read_millionths, read_time};
use cd_value::{DataSource, DsType, Identifier, Memory, Sequence, Value, ValueList, Values};
use std::alloc::Global;

fn begins_with_plus(text: &str) -> bool
    ensures { result ≡ (slice_index text.now 0 == 43) }
{
    let bytes = text.as_bytes();
    !bytes.is_empty() && bytes[0] == b'+'
}

/// The number that digits write, below 2^64.
fn read_count(text: &str) -> Option<u64>
    ensures { result ≡ count_of text.now }
{
    if begins_with_plus(text) {
        return None;
    }
    text.parse::<u64>().ok()
}

/// The number that an optional sign and digits write, of 64 bits.
fn read_change(text: &str) -> Option<i64>
    ensures { result ≡ change_of text.now }
{
    text.parse::<i64>().ok()
}

fn is_unknown(text: &str) -> bool
    ensures { result ≡ is_unknown text.now }
{
    text == "U" || is_keyword(text, "nan")
}

/// A level in millionths, or an unknown one.
fn read_level(text: &str) -> Option<Option<i128>>
    ensures { result ≡ level_of text.now }
{
    if is_unknown(text) {
        return Some(None);
    }
    match read_millionths(text) {
        Ok(level) => Some(Some(level)),
        Err(_) => None,
    }
}

/// The value of a kind that a text is.
fn read_value(kind: DsType, text: &str) -> Option<Value>
    ensures { result ≡ value_of kind text.now }
{
    match kind {
        DsType::Counter => read_count(text).map(Value::Counter),
        DsType::Gauge => read_level(text).map(Value::Gauge),
        DsType::Derive => read_change(text).map(Value::Derive),
        DsType::Absolute => read_count(text).map(Value::Absolute),
    }
}

/// The place of the first colon.
fn place_of_colon(text: &[u8]) -> Option<usize>
    ensures { result ≡ position is_colon text.now }
{
    text.iter().position(|byte| *byte == b':')
}

/// A text before its first colon, and what stands after it where there is one.
fn at_colon(text: &str) -> (&str, Option<&str>)
    ensures front { result.0.now ≡ before_first is_colon text.now }
    ensures texts { slice_split is_colon text.now
        ≡ result.0.now ∷ texts_in (option_copied result.1) }
{
    match place_of_colon(text.as_bytes()) {
        Some(place) => (&text[..place], Some(&text[place + 1..])),
        None => (text, None),
    }
}

/// The time of a text, in 2^-30 s, where `N` is the moment.
fn read_moment(text: &str, now: u64) -> Option<u64>
    ensures { result ≡ time_at now text.now }
{
    if text == "N" {
        return Some(now);
    }
    read_time(text).ok()
}

/// The values of the texts between the colons of the rest of a word, one for each source; none
/// where their number differs or one isn't of its source's kind.
fn read_values(
    alloc: Global,
    sources: &[DataSource],
    rest: Option<&str>,
) -> Result<Option<Values>, Memory>
    ensures { IfOk result (λ values. values
        ≡ values_in sources.now (texts_in (option_copied rest.entry))) }
{
    let mut values = Vec::with_capacity(alloc, sources.len())?;
    let mut left = rest;
    for source in sources {
        let Some(texts) = left else {
            return Ok(None);
        };
        let (text, more) = at_colon(texts);
        let Some(value) = read_value(source.kind, text) else {
            return Ok(None);
        };
        values.push(value)?;
        left = more;
    }
    if left.is_some() {
        return Ok(None);
    }
    Ok(Some(Sequence::from_vec(values)))
}

/// The list of a value word; none where the word has a fault.
pub fn read_list(
    alloc: Global,
    sources: &[DataSource],
    word: &LineWord,
    id: Identifier,
    now: u64,
    interval: u64,
) -> Result<Option<ValueList>, Memory>
    ensures { IfOk result (λ list. list ≡ (if is_whole sources.now word.now
        then Some (list_of sources.now id now interval word.now) else None)) }
{
    let (time, rest) = at_colon(word.text());
    let Some(time) = read_moment(time, now) else {
        return Ok(None);
    };
    let Some(values) = read_values(alloc, sources, rest)? else {
        return Ok(None);
    };
    Ok(Some(ValueList {
        id,
        time,
        interval,
        values,
    }))
}

/// Whether the time of a value word is one.
pub fn has_time(word: &LineWord) -> bool
    ensures { result ≡ has_time word.now }
{
    read_moment(at_colon(word.text()).0, 0).is_some()
}

fn number_of_colons(text: &str) -> usize
    ensures { result ≡ count_by is_colon text.now }
{
    text.bytes().filter(|byte| *byte == b':').count()
}

/// Whether a value word has a value for each source.
pub fn has_count(sources: &[DataSource], word: &LineWord) -> bool
    ensures { result ≡ has_count sources.now word.now }
{
    number_of_colons(word.text()) == sources.len()
}
