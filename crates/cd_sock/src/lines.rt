//! The lines of a stream of bytes, whatever the pieces in which it comes, as in
//! collectd-unixsock(5).
ghost use Rattle.cd_sock.specs.Lines.{Cut, Finishes, HasCut, Takes, TakesAll, content, cut, cut_lines, if_not_empty};
ghost use Rattle.cd_sock.specs.Lines.{is_newline};
ghost use Rattle.std.specs.List.{concat, position};
ghost use Rattle.std.specs.Option.{option_map, option_to_list};
ghost use Rattle.std.specs.Prelude.{IfOk, IsOk, IsSome, List, OnErr, OnOk, Option, [], map, take, ℕ, ◌++◌, ◌≡◌, ◌≤◌};
ghost use Rattle.std.specs.Vec.{vec_len};

use cd_value::Memory;
use std::alloc::Global;
use std::borrow::CowSlice;
use std::marker::Model;
use std::mem;

/// The most bytes of a line without its newline, a carriage return at its end among them.
pub const LINE_LIMIT: usize = 4_096;

/// So many bytes of an unfinished line tell whether it is too long.
const HELD_LIMIT: usize = LINE_LIMIT + 1;

/// A line without its newline.
#[derive(Drop)]
pub enum Line<'a> {
    /// At most `LINE_LIMIT` bytes: those of the piece where all of them stand there, else a copy.
    Whole(CowSlice<'a, u8>),
    /// More than `LINE_LIMIT` bytes, which aren't kept.
    TooLong,
}

/// Cuts a stream of bytes into lines. It keeps what came since the last newline, of which contracts
/// see what a line shows: its bytes, or that it is too long.
#[derive(Drop)]
pub struct LineCutter {
    /// What came since the last newline, but no more than `HELD_LIMIT` bytes.
    held: Vec<u8>,
}

impl Model for LineCutter {
    ghost use Rattle.cd_sock.specs.Lines.{Cut, IsUnfinished, cut};

    ghost Value = { Cut };

    ghost view = { λ cutter. cut cutter.held.items };

    ghost invariant = { λ cutter. IsUnfinished cutter.held.items };
}

/// The place of the first newline.
fn place_of_newline(piece: &[u8]) -> Option<usize>
    ensures { result ≡ position is_newline piece.now }
{
    piece.iter().position(|byte| *byte == b'\n')
}

/// At most so many bytes from the front.
fn front_of(bytes: &[u8], most: usize) -> &[u8]
    ensures { result.now ≡ take most bytes.now }
{
    if bytes.len() <= most {
        bytes
    } else {
        &bytes[..most]
    }
}

/// Adds bytes, as far as they tell whether the line is too long.
fn hold(held: &mut Vec<u8>, bytes: &[u8]) -> Result<(), Memory>
    requires { vec_len held.old ≤ HELD_LIMIT }
    ensures ok { OnOk result (held.new.items ≡ take HELD_LIMIT (held.old.items ++ bytes.now)) }
    ensures err { OnErr result (held.new.items ≡ held.old.items) }
{
    let few = front_of(bytes, HELD_LIMIT - held.len());
    held.extend_from_slice(few)?;
    Ok(())
}

/// Takes all bytes out.
fn take_out(held: &mut Vec<u8>) -> Vec<u8>
    ensures all { result.items ≡ held.old.items }
    ensures none { held.new.items ≡ [] }
{
    let empty = Vec::new(*held.allocator());
    mem::replace(held, empty)
}

/// The line of the held bytes and of the last ones, which are borrowed where none are held.
fn end_line<'a>(held: &mut Vec<u8>, last: &'a [u8]) -> Result<Line<'a>, Memory>
    requires { vec_len held.old ≤ HELD_LIMIT }
    ensures line { IfOk result (λ line. content line ≡ cut (held.old.items ++ last.now)) }
    ensures none { OnOk result (held.new.items ≡ []) }
    ensures err { OnErr result (held.new.items ≡ held.old.items) }
    ensures borrows { held.old.items ≡ [] → IsOk result }
{
    if last.len() >= HELD_LIMIT - held.len() {
        held.clear();
        return Ok(Line::TooLong);
    }
    if held.is_empty() {
        return Ok(Line::Whole(CowSlice::Borrowed(last)));
    }
    held.extend_from_slice(last)?;
    Ok(Line::Whole(CowSlice::Owned(take_out(held))))
}

/// The line of the last bytes of a stream, which has no newline.
fn last_line(held: &mut Vec<u8>) -> Option<Line<'static>>
    requires { vec_len held.old ≤ HELD_LIMIT }
    ensures line { option_to_list (option_map content result)
        ≡ map cut (if_not_empty held.old.items) }
    ensures none { held.new.items ≡ [] }
{
    if held.is_empty() {
        return None;
    }
    let bytes = take_out(held);
    if bytes.len() > LINE_LIMIT {
        return Some(Line::TooLong);
    }
    Some(Line::Whole(CowSlice::Owned(bytes)))
}

impl LineCutter {
    /// A cutter before the first byte of a stream.
    pub fn new(alloc: Global) -> Self
        ensures { HasCut [] [] result }
    {
        LineCutter {
            held: Vec::new(alloc),
        }
    }

    /// Uses a piece of the stream up to and with its first newline, and gives the line that this
    /// ends. The number says how many bytes were used: all where the piece has no newline, and then
    /// no line is given. A line that stands whole in the piece takes no memory.
    pub fn take<'a>(&mut self, piece: &'a [u8]) -> Result<(usize, Option<Line<'a>>), Memory>
        ensures ok { IfOk result (λ r.
            Takes self.old piece.now r.0 (option_map content r.1) self.new) }
        ensures err { OnErr result (self.new ≡ self.old) }
        ensures in_piece { self.old ≡ Some [] → IsSome (position is_newline piece.now) →
            IsOk result }
    {
        match place_of_newline(piece) {
            Some(place) => {
                let line = end_line(&mut self.held, &piece[..place])?;
                Ok((place + 1, Some(line)))
            }
            None => {
                hold(&mut self.held, piece)?;
                Ok((piece.len(), None))
            }
        }
    }

    /// Gives the last line, where it has bytes but no newline. The next byte then begins a stream.
    pub fn finish(&mut self) -> Option<Line<'static>>
        ensures { Finishes self.old (option_map content result) self.new }
    {
        last_line(&mut self.held)
    }
}

/// Whatever the pieces in which a stream comes, the lines that `take` and then `finish` give are
/// those of the pieces joined.
pub fn cut_in_any_pieces()
    ensures { (pieces : List (List ℕ)) (first last end : Cut) (given : List Cut) →
        (line : Option Cut) → HasCut [] [] first → TakesAll pieces first given last →
        Finishes last line end → given ++ option_to_list line ≡ cut_lines (concat pieces) }
{}
