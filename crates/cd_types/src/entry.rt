//! An entry of a line.
ghost use Rattle.cd_reading.specs.Gives.{Gives};
ghost use Rattle.cd_types.specs.Entry.{are_in_order, bound_of, is_colon, is_comma, is_in_name, is_name, is_taken, kind_named, name_of, parts_of, source_behind, source_of, without_comma};
ghost use Rattle.cd_types.specs.Faults.{kind_fault};
ghost use Rattle.std.specs.List.{before_first, list_all, list_any, position, slice_split};
ghost use Rattle.std.specs.Prelude.{IfOk, IsTrue, Ok, map, ◌≡◌};
ghost use Rattle.std.specs.Str.{str_eq_ignore_ascii_case};

use crate::fault::TypesKind;
use crate::limits::{SOURCE_NAME_LIMIT, SOURCES_LIMIT};
use cd_text::read_millionths_bytes;
use cd_value::{DataSource, DsType, Text};
use std::alloc::{AllocError, Global};

/// Whether each byte is a letter, a digit or `_`.
fn all_in_name(text: &[u8]) -> bool
    ensures { result ≡ list_all is_in_name text.now }
{
    text.iter().all(|b| b.is_ascii_alphanumeric() || *b == b'_')
}

/// Whether there are letters, digits and `_`, at most so many.
pub fn is_name(text: &[u8], most: usize) -> bool
    ensures { result ≡ is_name most text.now }
{
    !text.is_empty() && text.len() <= most && all_in_name(text)
}

/// The text of a name.
pub fn name_text(alloc: Global, name: &[u8], most: usize) -> Result<Text, TypesKind>
    requires { IsTrue (is_name most name.now) }
    ensures { Gives (λ text. text) kind_fault result (Ok name.now) }
{
    match str::from_utf8(name) {
        Ok(text) => Ok(Text::of(alloc, text)?),
        Err(_) => unreachable!(),
    }
}

/// The entry without the comma behind it.
fn without_comma(entry: &[u8]) -> &[u8]
    ensures { result.now ≡ without_comma entry.now }
{
    if !entry.is_empty() && entry[entry.len() - 1] == b',' {
        &entry[..entry.len() - 1]
    } else {
        entry
    }
}

/// Whether a comma stands in the text.
fn has_comma(text: &[u8]) -> bool
    ensures { result ≡ list_any is_comma text.now }
{
    text.iter().any(|b| *b == b',')
}

/// The parts of a text between colons.
fn colon_parts(alloc: Global, text: &[u8]) -> Result<Vec<&[u8]>, AllocError>
    ensures { IfOk result (λ v. map (λ part. part.now) v.items ≡ slice_split is_colon text.now) }
{
    text.split(|b| *b == b':').collect(alloc)
}

/// The place of the first colon.
fn place_of_colon(text: &[u8]) -> Option<usize>
    ensures { result ≡ position is_colon text.now }
{
    text.iter().position(|b| *b == b':')
}

/// The text before the first colon.
#[tactic(auto, using(cd_text::proofs::Places::places))]
fn before_colon(text: &[u8]) -> &[u8]
    ensures { result.now ≡ before_first is_colon text.now }
{
    match place_of_colon(text) {
        Some(i) => &text[..i],
        None => text,
    }
}

/// The part of an entry that names the source.
fn name_of(entry: &[u8]) -> &[u8]
    ensures { result.now ≡ name_of entry.now }
{
    before_colon(without_comma(entry))
}

/// Whether one of the entries has the name.
fn is_taken(earlier: &[&[u8]], name: &[u8]) -> bool
    ensures { result ≡ is_taken (map (λ entry. entry.now) earlier.now) name.now }
{
    for entry in earlier {
        if name_of(entry) == name {
            return true;
        }
    }
    false
}

fn is_word(text: &[u8], word: &[u8]) -> bool
    ensures { result ≡ str_eq_ignore_ascii_case text.now word.now }
{
    text.eq_ignore_ascii_case(word)
}

/// The kind of that name, whatever the case of the letters.
fn kind_named(text: &[u8]) -> Option<DsType>
    ensures { result ≡ kind_named text.now }
{
    if is_word(text, b"ABSOLUTE".as_slice()) {
        Some(DsType::Absolute)
    } else if is_word(text, b"COUNTER".as_slice()) {
        Some(DsType::Counter)
    } else if is_word(text, b"DERIVE".as_slice()) {
        Some(DsType::Derive)
    } else if is_word(text, b"GAUGE".as_slice()) {
        Some(DsType::Gauge)
    } else {
        None
    }
}

/// The bound that a text writes, `U` for none; `None` for any other text.
fn bound_of(text: &[u8]) -> Option<Option<i128>>
    ensures { result ≡ bound_of text.now }
{
    if text == b"U".as_slice() {
        return Some(None);
    }
    match read_millionths_bytes(text) {
        Ok(bound) => Some(Some(bound)),
        Err(_) => None,
    }
}

/// Whether the minimum isn't above the maximum.
fn are_in_order(min: Option<i128>, max: Option<i128>) -> bool
    ensures { result ≡ are_in_order min max }
{
    match (min, max) {
        (Some(least), Some(greatest)) => least <= greatest,
        _ => true,
    }
}

/// The source of the parts of an entry.
fn source_of(alloc: Global, taken: bool, parts: &[&[u8]]) -> Result<DataSource, TypesKind>
    ensures { Gives (λ source. source) kind_fault result
        (source_of taken (map (λ part. part.now) parts.now)) }
{
    let [name, kind, min, max] = parts else {
        return Err(TypesKind::BadSource);
    };
    if !is_name(name, SOURCE_NAME_LIMIT) || taken {
        return Err(TypesKind::BadSource);
    }
    let kind = kind_named(kind).ok_or(TypesKind::BadKind)?;
    let min = bound_of(min).ok_or(TypesKind::BadBound)?;
    let max = bound_of(max).ok_or(TypesKind::BadBound)?;
    if !are_in_order(min, max) {
        return Err(TypesKind::BadBound);
    }
    let name = name_text(alloc, name, SOURCE_NAME_LIMIT)?;
    Ok(DataSource {
        name,
        kind,
        min,
        max,
    })
}

/// The source of an entry behind the earlier ones of its line.
#[tactic(auto, unfolding(crate::specs::Entry::source_behind))]
pub fn source_behind(
    alloc: Global,
    earlier: &[&[u8]],
    entry: &[u8],
) -> Result<DataSource, TypesKind>
    ensures { Gives (λ source. source) kind_fault result
        (source_behind (map (λ entry. entry.now) earlier.now) entry.now) }
{
    if earlier.len() >= SOURCES_LIMIT {
        return Err(TypesKind::TooMany);
    }
    if has_comma(without_comma(entry)) {
        return Err(TypesKind::BadSource);
    }
    let taken = is_taken(earlier, name_of(entry));
    let parts = colon_parts(alloc, without_comma(entry))?;
    source_of(alloc, taken, &parts)
}
