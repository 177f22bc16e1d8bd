//! The first character of a text, and what follows it.
ghost use Rattle.std.specs.Prelude.{IfSome, MatchOption, [], length, ◌<◌, ◌∷◌, ◌≡◌};
ghost use Rattle.std.specs.Str.{IsUtf8, chars};

/// The first character, and the text after it.
pub fn split_first(text: &str) -> Option<(char, &str)>
    ensures first { MatchOption result (chars text.now ≡ [])
        (λ cut. chars text.now ≡ cut.0 ∷ chars cut.1.now) }
    ensures text { IfSome result (λ cut. IsUtf8 cut.1.now) }
    ensures shorter { IfSome result (λ cut. length cut.1.now < length text.now) }
{
    let mut chars = text.chars();
    let first = chars.next()?;
    Some((first, chars.as_str()))
}
