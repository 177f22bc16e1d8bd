//! A configuration text, line after line.
ghost use Rattle.cd_conf.specs.Blanks.{is_newline};
ghost use Rattle.cd_conf.specs.Faults.{conf_fault};
ghost use Rattle.cd_conf.specs.Pile.{Took, opens_in};
ghost use Rattle.cd_conf.specs.Place.{characters_left, position};
ghost use Rattle.cd_conf.specs.Statements.{bad_line, line_at, stand, statement_at, statement_behind, statements_at, statements_of_text};
ghost use Rattle.cd_conf.specs.Tree.{statements_of_items};
ghost use Rattle.cd_reading.specs.Gives.{Gives, Refuses};
ghost use Rattle.std.specs.Prelude.{IfErr, IfNone, IfOk, IfSome, count_by, length, take, ◌+◌, ◌<◌, ◌≡◌, ◌≤◌};

use crate::blanks::{is_line_end, next_line, skip_blanks};
use crate::chars::split_first;
use crate::fault::{ConfFault, ConfKind};
use crate::head::{Head, head_at};
use crate::item::Items;
use crate::limits::FILE_LIMIT;
use crate::lines::{line_behind, values_behind};
use crate::pile::Pile;
use crate::place::Place;
use std::alloc::Global;

/// Takes what stands behind a head that began in a line; the place in the next line.
fn take_behind<'a>(
    alloc: Global,
    pile: &mut Pile,
    line: u32,
    head: Head,
    place: Place<'a>,
) -> Result<Place<'a>, ConfFault>
    ensures took { IfOk result (λ next. Took pile.old pile.new
        (statement_behind (opens_in pile.old) line head (position place.entry)) (position next)) }
    ensures fault { IfErr result (λ fault. Refuses (conf_fault fault)
        (statement_behind (opens_in pile.old) line head (position place.entry))) }
    ensures later { IfOk result (λ next. characters_left next ≤ characters_left place.entry) }
{
    pile.allows(line, &head)?;
    let (args, end) = values_behind(alloc, head.kind, place)?;
    let next = line_behind(head.kind, line, args.as_slice(), end)?;
    pile.put(alloc, head, args, line)?;
    Ok(next)
}

/// Takes the statement at a place; the place in the next line.
fn take_statement<'a>(
    alloc: Global,
    pile: &mut Pile,
    place: Place<'a>,
) -> Result<Place<'a>, ConfFault>
    ensures took { IfOk result (λ next. Took pile.old pile.new
        (statement_at (opens_in pile.old) (position place.entry)) (position next)) }
    ensures fault { IfErr result (λ fault. Refuses (conf_fault fault)
        (statement_at (opens_in pile.old) (position place.entry))) }
    ensures later { IfOk result (λ next. characters_left next < characters_left place.entry) }
{
    match head_at(alloc, place.rest)? {
        None => Err(ConfFault {
            kind: ConfKind::BadKey,
            line: place.line,
        }),
        Some((head, rest)) => {
            let behind = skip_blanks(Place {
                line: place.line,
                rest,
            });
            take_behind(alloc, pile, place.line, head, behind)
        }
    }
}

/// Takes the line at a place; the place in the next line, and `None` at the text's end.
#[tactic(auto, unfolding(crate::specs::Statements::line_at))]
fn take_line<'a>(
    alloc: Global,
    pile: &mut Pile,
    place: Place<'a>,
) -> Result<Option<Place<'a>>, ConfFault>
    ensures took { IfOk result (λ found. IfSome found (λ next. Took pile.old pile.new
        (line_at (stand (opens_in pile.old) (position place.entry))) (position next))) }
    ensures ended { IfOk result (λ found. IfNone found
        (line_at (stand (opens_in pile.old) (position place.entry)) ≡ Ok None)) }
    ensures stays { IfOk result (λ found. IfNone found (pile.new ≡ pile.old)) }
    ensures fault { IfErr result (λ fault. Refuses (conf_fault fault)
        (line_at (stand (opens_in pile.old) (position place.entry)))) }
    ensures later { IfOk result (λ found.
        IfSome found (λ next. characters_left next < characters_left place.entry)) }
{
    match split_first(place.rest) {
        None => Ok(None),
        Some(_) => if is_line_end(place.rest) {
            Ok(Some(next_line(place)))
        } else {
            Ok(Some(take_statement(alloc, pile, place)?))
        },
    }
}

/// The items of a text from a place behind blanks on.
#[tactic(auto, unfolding(crate::specs::Statements::statements_at))]
fn lines(alloc: Global, place: Place) -> Result<Items, ConfFault>
    ensures { Gives statements_of_items conf_fault result (statements_at (position place.entry)) }
{
    let mut pile = Pile::new(alloc);
    let mut place = place;
    while let Some(next) = take_line(alloc, &mut pile, place)? {
        place = next;
    }
    pile.finish()
}

/// The line of a text's first byte that isn't UTF-8, where so many bytes in front are.
fn bad_line(bytes: &[u8], valid: usize) -> u32
    requires within { valid ≤ length bytes.now }
    requires short { length bytes.now ≤ FILE_LIMIT }
    ensures { result ≡ 1 + count_by is_newline (take valid bytes.now) }
{
    let newlines = bytes[..valid].iter().filter(|b| **b == b'\n').count();
    1 + newlines as u32
}

/// The items of a configuration text, or its first fault, as collectd.conf(5) has the text.
#[tactic(auto, unfolding(crate::specs::Statements::statements_of_text))]
pub fn read_text(alloc: Global, bytes: &[u8]) -> Result<Items, ConfFault>
    ensures { Gives statements_of_items conf_fault result (statements_of_text bytes.now) }
{
    if bytes.len() > FILE_LIMIT {
        return Err(ConfFault {
            kind: ConfKind::TooLong,
            line: 0,
        });
    }
    match str::from_utf8(bytes) {
        Ok(text) => lines(
            alloc,
            skip_blanks(Place {
                line: 1,
                rest: text,
            }),
        ),
        Err(error) => {
            let line = bad_line(bytes, error.valid_up_to());
            Err(ConfFault {
                kind: ConfKind::NotText,
                line,
            })
        }
    }
}
