//! Texts written in quotes.
ghost use Rattle.cd_text.specs.Quoting.{escaped, first_word, quoted_of, words_of};
ghost use Rattle.std.specs.Prelude.{IfOk, Ok, OnOk, [], encode_utf8_all, string_bytes, ◌++◌, ◌∷◌, ◌≡◌};

use cd_value::{Memory, Text};
use std::alloc::{AllocError, Global};

/// Adds a character as it is written in quotes.
fn push_escaped(text: &mut String, c: char) -> Result<(), AllocError>
    ensures { let added = encode_utf8_all (escaped c) in
        OnOk result (string_bytes text.new ≡ string_bytes text.old ++ added) }
{
    if c == '"' || c == '\\' {
        text.push('\\')?;
    }
    text.push(c)
}

/// A text in quotes, with a backslash before each `"` and `\`, which `words` reads as one word.
pub fn quoted(alloc: Global, content: &str) -> Result<Text, Memory>
    ensures text { IfOk result (λ text. text ≡ quoted_of content.now) }
    ensures one_word { IfOk result (λ text. words_of text ≡ Ok (first_word content.now ∷ [])) }
{
    let mut text = String::new(alloc);
    text.push('"')?;
    for c in content.chars() {
        push_escaped(&mut text, c)?;
    }
    text.push('"')?;
    Ok(Text::from_string(text))
}
