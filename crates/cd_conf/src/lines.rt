//! The end of a line, and what stands between a line's head and its end.
ghost use Rattle.cd_conf.specs.Faults.{conf_fault};
ghost use Rattle.cd_conf.specs.Place.{characters_left, position};
ghost use Rattle.cd_conf.specs.Seen.{seen_values};
ghost use Rattle.cd_conf.specs.Statements.{close, close_here, line_behind, line_end, values_behind};
ghost use Rattle.cd_reading.specs.Gives.{Gives};
ghost use Rattle.std.specs.Option.{option_map};
ghost use Rattle.std.specs.Prelude.{IfOk, IfSome, ◌<◌, ◌≡◌, ◌≤◌};

use crate::blanks::{is_line_end, next_line, skip_blanks, split_place};
use crate::fault::{ConfFault, ConfKind};
use crate::head::LineKind;
use crate::item::{Arg, Args};
use crate::place::Place;
use crate::values::values;
use std::alloc::Global;

/// The place in the next line, where the line ends at a place.
fn line_end(place: Place) -> Result<Place, ConfFault>
    ensures value { Gives position conf_fault result (line_end (position place.entry)) }
    ensures later { IfOk result (λ next. characters_left next ≤ characters_left place.entry) }
{
    if is_line_end(place.rest) {
        Ok(next_line(place))
    } else {
        Err(ConfFault {
            kind: ConfKind::BadValue,
            line: place.line,
        })
    }
}

/// The place behind a `>` that stands at a place.
fn behind_close(place: Place) -> Option<Place>
    ensures value { option_map position result ≡ close_here (position place.entry) }
    ensures later { IfSome result (λ next. characters_left next < characters_left place.entry) }
{
    match split_place(place) {
        Some(('>', behind)) => Some(behind),
        _ => None,
    }
}

/// The place in the line behind a section's start or end that began in a line, and needs a `>` at
/// a place.
fn close(line: u32, place: Place) -> Result<Place, ConfFault>
    ensures value { Gives position conf_fault result (close line (position place.entry)) }
    ensures later { IfOk result (λ next. characters_left next ≤ characters_left place.entry) }
{
    match behind_close(place) {
        Some(behind) => line_end(skip_blanks(behind)),
        None => {
            let _ = line_end(place)?;
            Err(ConfFault {
                kind: ConfKind::BadValue,
                line,
            })
        }
    }
}

/// The place in the next line, where what began in a line ends at a place, behind its values.
pub fn line_behind<'a>(
    kind: LineKind,
    line: u32,
    args: &[Arg],
    place: Place<'a>,
) -> Result<Place<'a>, ConfFault>
    ensures value { Gives position conf_fault result
        (line_behind kind line args.now (position place.entry)) }
    ensures later { IfOk result (λ next. characters_left next ≤ characters_left place.entry) }
{
    match kind {
        LineKind::OptionLine => {
            let next = line_end(place)?;
            if args.is_empty() {
                Err(ConfFault {
                    kind: ConfKind::BadValue,
                    line,
                })
            } else {
                Ok(next)
            }
        }
        LineKind::SectionStart | LineKind::SectionEnd => close(line, place),
    }
}

/// The values behind a head, and the place behind them; a section end has none.
pub fn values_behind<'a>(
    alloc: Global,
    kind: LineKind,
    place: Place<'a>,
) -> Result<(Args, Place<'a>), ConfFault>
    ensures value { Gives seen_values conf_fault result
        (values_behind kind (position place.entry)) }
    ensures later { IfOk result (λ v. characters_left v.1 ≤ characters_left place.entry) }
{
    match kind {
        LineKind::OptionLine | LineKind::SectionStart => values(alloc, place),
        LineKind::SectionEnd => Ok((Args::new(alloc), place)),
    }
}
