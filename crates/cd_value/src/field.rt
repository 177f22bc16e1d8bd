//! Texts made fit to be fields of an identifier.
ghost use Rattle.cd_value.specs.Clean.{clean_byte, clean_field, field_or_old, is_clean, longest_front};
ghost use Rattle.cd_value.specs.Identifier.{has_control, has_slash, is_control, is_empty, is_field};
ghost use Rattle.std.specs.Prelude.{IfOk, IsTrue, false, length, map, take, ℕ, ◌<◌, ◌≡◌, ◌≤◌};
ghost use Rattle.std.specs.Str.{IsCharBoundary};

use crate::{FIELD_LIMIT, Memory, Text, TryCopy};
use std::alloc::Global;

/// Whether a text has a control character, which no field of an identifier has.
pub fn has_control(text: &str) -> bool
    ensures { result ≡ has_control text.now }
{
    text.bytes().any(is_control)
}

/// Whether a text has a `/`, which parts the fields of a printed identifier.
pub fn has_slash(text: &str) -> bool
    ensures { result ≡ has_slash text.now }
{
    text.bytes().any(|byte| byte == b'/')
}

/// A text made fit to be a field of an identifier: control characters, and `/` where `slash` is
/// true, become `_`, and of the result the longest front of at most `FIELD_LIMIT` bytes is kept that
/// ends at a character. Where that is empty and `needed` is true, the field is a copy of the old one.
pub fn clean(
    alloc: Global,
    text: Text,
    slash: bool,
    old: &Text,
    needed: bool,
) -> Result<Text, Memory>
    ensures value { let cleaned = clean_field slash text in
        IfOk result (λ field. field ≡ field_or_old needed old.now cleaned) }
    ensures field { IsTrue (is_field old.now) → IfOk result (λ field. IsTrue (is_field field)) }
    ensures without_slash { IsTrue slash → has_slash old.now ≡ false →
        IfOk result (λ field. has_slash field ≡ false) }
    ensures needed { IsTrue needed → is_empty old.now ≡ false →
        IfOk result (λ field. is_empty field ≡ false) }
    ensures kept { IsTrue (is_clean slash needed text) → IfOk result (λ field. field ≡ text) }
{
    let field = clean_text(text, slash);
    if needed && field.is_empty() {
        old.copy(alloc)
    } else {
        Ok(field)
    }
}

/// The longest front of a text that has at most `limit` bytes and ends at a character.
pub fn longest_front(text: &str, limit: usize) -> &str
    ensures value { result.now ≡ longest_front limit text.now }
    ensures short { length result.now ≤ limit }
    ensures front { result.now ≡ take (length result.now) text.now }
    ensures longest { (place : ℕ) → place ≤ limit → IsCharBoundary text.now place →
        place ≤ length result.now }
{
    &text[..front_len(text, limit)]
}

fn front_len(text: &str, limit: usize) -> usize
    ensures short { result ≤ limit }
    ensures boundary { IsCharBoundary text.now result }
    ensures longest { (place : ℕ) → place ≤ limit → IsCharBoundary text.now place → place ≤ result }
    ensures front { take result text.now ≡ longest_front limit text.now }
{
    text.floor_char_boundary(limit)
}

fn clean_text(text: Text, slash: bool) -> Text
    ensures value { result ≡ clean_field slash text }
    ensures field { IsTrue (is_field result) }
    ensures without_slash { IsTrue slash → has_slash result ≡ false }
    ensures kept { IsTrue (is_clean slash false text) → result ≡ text }
{
    let bytes = clean_bytes(text.into_string().into_bytes(), slash);
    let mut string = String::from_utf8(bytes).unwrap();
    string.truncate(front_len(string.as_str(), FIELD_LIMIT));
    Text::from_string(string)
}

fn clean_bytes(mut bytes: Vec<u8>, slash: bool) -> Vec<u8>
    ensures { result.items ≡ map (clean_byte slash) bytes.items }
{
    for byte in bytes.iter_mut() {
        *byte = clean_byte(*byte, slash);
    }
    bytes
}

/// Whether a byte is a control character of ASCII.
fn is_control(byte: u8) -> bool
    ensures { result ≡ is_control byte }
{
    byte < 32 || byte == 127
}

fn clean_byte(byte: u8, slash: bool) -> u8
    ensures { result ≡ clean_byte slash byte }
{
    if is_control(byte) || (slash && byte == b'/') {
        b'_'
    } else {
        byte
    }
}
