//! Blanks, comments and the ends of lines.
ghost use Rattle.cd_conf.specs.Blanks.{behind_blanks, behind_newline, is_blank, is_line_end, line_after, next_line};
ghost use Rattle.cd_conf.specs.Place.{characters_left, position};
ghost use Rattle.std.specs.Option.{option_map};
ghost use Rattle.std.specs.Prelude.{IfSome, MatchOption, [], ◌<◌, ◌∷◌, ◌≡◌, ◌≤◌};
ghost use Rattle.std.specs.Str.{chars};

use crate::chars::split_first;
use crate::place::Place;

/// The character at a place, and the place behind it.
pub fn split_place<'a>(place: Place<'a>) -> Option<(char, Place<'a>)>
    ensures first { MatchOption result ((position place.entry).rest ≡ [])
        (λ cut. (position place.entry).rest ≡ cut.0 ∷ (position cut.1).rest) }
    ensures line { IfSome result (λ cut. cut.1.line ≡ line_after place.entry.line cut.0) }
    ensures later { IfSome result (λ cut. characters_left cut.1 < characters_left place.entry) }
{
    match split_first(place.rest) {
        None => None,
        Some((c, rest)) => {
            let line = if c == '\n' {
                place.line + 1
            } else {
                place.line
            };
            Some((c, Place { line, rest }))
        }
    }
}

/// The place behind a newline that stands there.
fn newline(place: Place) -> Option<Place>
    ensures found { option_map position result ≡ behind_newline (position place.entry) }
    ensures later { IfSome result (λ next. characters_left next < characters_left place.entry) }
{
    match split_first(place.rest) {
        Some(('\n', rest)) => Some(Place {
            line: place.line + 1,
            rest,
        }),
        _ => None,
    }
}

/// Whether a character is a blank: a space, a tab or a carriage return.
pub fn is_blank(c: char) -> bool
    ensures { result ≡ is_blank c }
{
    c == ' ' || c == '\t' || c == '\r'
}

/// The place behind a blank that stands there; a backslash directly before a newline is one.
fn blank(place: Place) -> Option<Place>
    ensures found { MatchOption result (behind_blanks (position place.entry) ≡ position place.entry)
        (λ next. behind_blanks (position place.entry) ≡ behind_blanks (position next)) }
    ensures later { IfSome result (λ next. characters_left next < characters_left place.entry) }
{
    match split_first(place.rest) {
        None => None,
        Some((c, rest)) => {
            let next = Place {
                line: place.line,
                rest,
            };
            if is_blank(c) {
                Some(next)
            } else if c == '\\' {
                newline(next)
            } else {
                None
            }
        }
    }
}

/// The place behind blanks; a backslash directly before a newline is one.
pub fn skip_blanks(place: Place) -> Place
    ensures place { position result ≡ behind_blanks (position place.entry) }
    ensures later { characters_left result ≤ characters_left place.entry }
{
    let mut place = place;
    while let Some(next) = blank(place) {
        place = next;
    }
    place
}

/// The place behind the blanks of the next line.
pub fn next_line(place: Place) -> Place
    ensures place { position result ≡ next_line (position place.entry) }
    ensures later { characters_left result ≤ characters_left place.entry }
{
    let mut place = place;
    while let Some((c, behind)) = split_place(place) {
        if c == '\n' {
            return skip_blanks(behind);
        }
        place = behind;
    }
    place
}

/// Whether a line ends at a text's start, but for a comment.
pub fn is_line_end(text: &str) -> bool
    ensures { result ≡ is_line_end (chars text.now) }
{
    match split_first(text) {
        None => true,
        Some((c, _)) => c == '\n' || c == '#',
    }
}
