//! Quoted strings.
ghost use Rattle.cd_conf.specs.Place.{characters_left, position};
ghost use Rattle.cd_conf.specs.Quotes.{inner_role, quoted_at, role_of};
ghost use Rattle.std.specs.Option.{option_map};
ghost use Rattle.std.specs.Prelude.{IfOk, IfSome, ◌<◌, ◌≡◌};

use crate::blanks::{is_blank, split_place};
use crate::place::Place;
use cd_value::{Memory, Text};
use std::alloc::Global;

/// How the next character of a quoted string is read.
#[derive(Clone, Copy)]
pub enum Quoting {
    /// As any character.
    Inside,
    /// Behind a backslash.
    Escaped,
    /// At a line's start, behind a backslash and a newline.
    Joined,
}

/// What a character is to its quoted string.
#[derive(Clone, Copy)]
pub enum Role {
    /// It ends the string.
    Close,
    /// It is a newline that doesn't belong to the string.
    Break,
    /// It isn't part of the text; the next character is read so.
    Mark(Quoting),
    /// It is part of the text.
    Letter,
}

/// What a character is to its quoted string.
fn role_of(quoting: Quoting, c: char) -> Role
    ensures { result ≡ role_of quoting c }
{
    match quoting {
        Quoting::Escaped => if c == '\n' {
            Role::Mark(Quoting::Joined)
        } else {
            Role::Letter
        },
        Quoting::Joined => if is_blank(c) {
            Role::Mark(Quoting::Joined)
        } else {
            inner_role(c)
        },
        Quoting::Inside => inner_role(c),
    }
}

/// What a character is that stands behind no backslash.
fn inner_role(c: char) -> Role
    ensures { result ≡ inner_role c }
{
    match c {
        '"' => Role::Close,
        '\n' => Role::Break,
        '\\' => Role::Mark(Quoting::Escaped),
        _ => Role::Letter,
    }
}

/// The text of the quoted string whose opening quote stands before a place, and the place behind
/// its closing quote; `None` where a newline or the text's end comes first.
pub fn read_quoted<'a>(alloc: Global, place: Place<'a>) -> Result<Option<(Text, Place<'a>)>, Memory>
    ensures value { IfOk result (λ found.
        option_map (λ cut. (cut.0, position cut.1)) found ≡ quoted_at (position place.entry)) }
    ensures later { IfOk result (λ found.
        IfSome found (λ cut. characters_left cut.1 < characters_left place.entry)) }
{
    let mut text = String::new(alloc);
    let mut place = place;
    let mut quoting = Quoting::Inside;
    while let Some((c, behind)) = split_place(place) {
        match role_of(quoting, c) {
            Role::Close => return Ok(Some((Text::from_string(text), behind))),
            Role::Break => return Ok(None),
            Role::Mark(next) => quoting = next,
            Role::Letter => {
                text.push(c)?;
                quoting = Quoting::Inside;
            }
        }
        place = behind;
    }
    Ok(None)
}
