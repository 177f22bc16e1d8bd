//! Keys, and words without quotes.
ghost use Rattle.cd_conf.specs.Characters.{after_run, front_run, is_in_key, is_in_word, may_stand};
ghost use Rattle.std.specs.Prelude.{IfNone, IfOk, IfSome, [], length, true, ◌<◌, ◌∷◌, ◌≡◌, ◌≤◌};
ghost use Rattle.std.specs.Str.{IsUtf8, chars};

use crate::chars::split_first;

/// What a run of characters is.
#[derive(Clone, Copy)]
pub enum Kind {
    /// A key.
    Key,
    /// A word without quotes.
    Word,
}

/// Whether a character may stand in a key: a letter, a digit or `_`.
fn is_in_key(c: char) -> bool
    ensures { result ≡ is_in_key c }
{
    c.is_ascii_alphanumeric() || c == '_'
}

/// Whether a character may stand in a word without quotes: one of a key, or `.`, `/`, `:`, `-`, `+`.
pub fn is_in_word(c: char) -> bool
    ensures { result ≡ is_in_word c }
{
    is_in_key(c) || c == '.' || c == '/' || c == ':' || c == '-' || c == '+'
}

/// Whether a character may stand in a key or a word.
fn may_stand(kind: Kind, c: char) -> bool
    ensures { result ≡ may_stand kind c }
{
    match kind {
        Kind::Key => is_in_key(c),
        Kind::Word => is_in_word(c),
    }
}

/// The first character, where it may stand, and what follows it.
fn split_member(kind: Kind, text: &str) -> Option<(char, &str)>
    ensures none { IfNone result (after_run kind (chars text.now) ≡ chars text.now) }
    ensures empty { IfNone result (front_run kind (chars text.now) ≡ []) }
    ensures member { IfSome result (λ cut. may_stand kind cut.0 ≡ true) }
    ensures first { IfSome result (λ cut. chars text.now ≡ cut.0 ∷ chars cut.1.now) }
    ensures text { IfSome result (λ cut. IsUtf8 cut.1.now) }
    ensures shorter { IfSome result (λ cut. length cut.1.now < length text.now) }
{
    match split_first(text) {
        None => None,
        Some((c, rest)) => if may_stand(kind, c) {
            Some((c, rest))
        } else {
            None
        }
    }
}

/// What follows the key or word at the front of a text.
fn behind_run(kind: Kind, text: &str) -> &str
    ensures rest { chars result.now ≡ after_run kind (chars text.now) }
    ensures text { IsUtf8 result.now }
    ensures shorter { length result.now ≤ length text.now }
{
    let mut rest = text;
    while let Some((_, more)) = split_member(kind, rest) {
        rest = more;
    }
    rest
}

/// The key or word at the front of a text, which may be empty, and what follows it.
pub fn split_run(kind: Kind, text: &str) -> (&str, &str)
    ensures run { result.0.now ≡ front_run kind (chars text.now) }
    ensures rest { chars result.1.now ≡ after_run kind (chars text.now) }
    ensures text { IsUtf8 result.1.now }
    ensures shorter { length result.1.now ≤ length text.now }
{
    let rest = behind_run(kind, text);
    let (run, _) = text.split_at(text.len() - rest.len());
    (run, rest)
}
