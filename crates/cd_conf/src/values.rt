//! The values of a line.
ghost use Rattle.cd_conf.specs.Characters.{after_run};
ghost use Rattle.cd_conf.specs.Faults.{conf_fault};
ghost use Rattle.cd_conf.specs.Place.{characters_left, position};
ghost use Rattle.cd_conf.specs.Quotes.{quoted_at};
ghost use Rattle.cd_conf.specs.Seen.{seen_one, seen_value, seen_values};
ghost use Rattle.cd_conf.specs.Values.{quoted_arg, value_at, values_at, word_at};
ghost use Rattle.cd_conf.specs.declared.runs.Kind.TheVariants.{Word};
ghost use Rattle.cd_reading.specs.Gives.{Gives};
ghost use Rattle.std.specs.Option.{option_map};
ghost use Rattle.std.specs.Prelude.{IfOk, IfSome, length, ◌<◌, ◌≤◌};

use crate::blanks::{skip_blanks, split_place};
use crate::fault::{ConfFault, ConfKind};
use crate::item::{Arg, Args};
use crate::numbers::word_arg;
use crate::place::Place;
use crate::quotes::read_quoted;
use crate::runs::{Kind, is_in_word, split_run};
use std::alloc::Global;

/// A quoted string of a line whose opening quote stands before a place, and the place behind the
/// blanks after it.
fn quoted_arg<'a>(alloc: Global, line: u32, place: Place<'a>) -> Result<(Arg, Place<'a>), ConfFault>
    ensures value { Gives seen_value conf_fault result
        (quoted_arg line (quoted_at (position place.entry))) }
    ensures later { IfOk result (λ v. characters_left v.1 < characters_left place.entry) }
{
    match read_quoted(alloc, place)? {
        Some((text, behind)) => Ok((Arg::Words(text), skip_blanks(behind))),
        None => Err(ConfFault {
            kind: ConfKind::Unterminated,
            line,
        }),
    }
}

/// A word without quotes that begins at a place, and the place behind the blanks after it.
fn plain_word<'a>(alloc: Global, place: Place<'a>) -> Result<(Arg, Place<'a>), ConfFault>
    ensures value { Gives seen_value conf_fault result (word_at (position place.entry)) }
    ensures later { IfOk result (λ v.
        characters_left v.1 ≤ length (after_run Word (position place.entry).rest)) }
{
    let (word, rest) = split_run(Kind::Word, place.rest);
    let arg = word_arg(alloc, place.line, word)?;
    Ok((
        arg,
        skip_blanks(Place {
            line: place.line,
            rest,
        }),
    ))
}

/// The value that begins at a place behind blanks, and the place behind the blanks after it; `None`
/// where none begins.
#[tactic(auto, unfolding(crate::specs::Values::value_at))]
fn value<'a>(alloc: Global, place: Place<'a>) -> Result<Option<(Arg, Place<'a>)>, ConfFault>
    ensures value { Gives (option_map seen_one) conf_fault result
        (value_at (position place.entry)) }
    ensures later { IfOk result (λ found.
        IfSome found (λ v. characters_left v.1 < characters_left place.entry)) }
{
    match split_place(place) {
        None => Ok(None),
        Some(('"', behind)) => Ok(Some(quoted_arg(alloc, place.line, behind)?)),
        Some((c, _)) => if is_in_word(c) {
            Ok(Some(plain_word(alloc, place)?))
        } else {
            Ok(None)
        },
    }
}

/// The values from a place behind blanks on, and the place where no more begins.
#[tactic(auto, unfolding(crate::specs::Values::values_at))]
pub fn values<'a>(alloc: Global, place: Place<'a>) -> Result<(Args, Place<'a>), ConfFault>
    ensures value { Gives seen_values conf_fault result (values_at (position place.entry)) }
    ensures later { IfOk result (λ v. characters_left v.1 ≤ characters_left place.entry) }
{
    let mut args = Args::new(alloc);
    let mut place = place;
    while let Some((arg, behind)) = value(alloc, place)? {
        args.push(arg)?;
        place = behind;
    }
    Ok((args, place))
}
