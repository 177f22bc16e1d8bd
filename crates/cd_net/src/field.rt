//! A text of a packet that is to be a field.
ghost use Rattle.cd_net.specs.Clean.{cleaned, is_replaced};
ghost use Rattle.cd_value.specs.Clean.{clean_byte};
ghost use Rattle.std.specs.List.{list_all};
ghost use Rattle.std.specs.Prelude.{Bool, IfOk, IsTrue, not, true, ◌≡◌};

use cd_value::{Memory, Text};
use std::alloc::Global;

/// A text, and whether it may stand in each field as it is. It is looked through once, when it comes.
#[derive(Clone, Copy)]
pub(crate) struct Field<'a> {
    pub text: &'a str,
    pub is_clean: bool,
    ghost stays: { IsTrue is_clean → (slash : Bool) → cleaned slash text.now ≡ text.now },
}

impl<'a> Field<'a> {
    pub fn new(text: &'a str) -> Self
        ensures text { result.text.now ≡ text.now }
        ensures clean { result.is_clean ≡ list_all (λ byte. not (is_replaced true byte)) text.now }
    {
        let is_clean = is_clean(text.as_bytes());
        Field { text, is_clean }
    }

    /// A copy of the text in which control characters, and `/` where `slash` is true, are `_`.
    pub fn clean_copy(self, alloc: Global, slash: bool) -> Result<Text, Memory>
        ensures { IfOk result (λ copy. copy ≡ cleaned slash self.entry.text.now) }
    {
        if self.is_clean {
            Text::of(alloc, self.text)
        } else {
            replaced_copy(alloc, self.text, slash)
        }
    }
}

/// Whether there is neither a control character nor a slash.
fn is_clean(bytes: &[u8]) -> bool
    ensures { result ≡ list_all (λ byte. not (is_replaced true byte)) bytes.now }
{
    bytes.iter().all(|byte| !is_replaced(*byte, true))
}

/// A copy of a text of which some bytes are to be replaced.
fn replaced_copy(alloc: Global, text: &str, slash: bool) -> Result<Text, Memory>
    ensures { IfOk result (λ copy. copy ≡ cleaned slash text.now) }
{
    let bytes = clean_bytes(alloc, text, slash)?;
    Ok(Text::from_string(String::from_utf8(bytes).unwrap()))
}

fn clean_bytes(alloc: Global, text: &str, slash: bool) -> Result<Vec<u8>, Memory>
    ensures { IfOk result (λ bytes. bytes.items ≡ cleaned slash text.now) }
{
    let bytes = text
        .bytes()
        .map(|byte| clean_byte(byte, slash))
        .collect(alloc)?;
    Ok(bytes)
}

fn is_replaced(byte: u8, slash: bool) -> bool
    ensures { result ≡ is_replaced slash byte }
{
    byte < 32 || byte == 127 || (slash && byte == b'/')
}

fn clean_byte(byte: u8, slash: bool) -> u8
    ensures { result ≡ clean_byte slash byte }
{
    if is_replaced(byte, slash) { b'_' } else { byte }
}
