//! The lines of a piece of what the peer sends.
ghost use Rattle.cd_dialogue.specs.Dialogues.{Broke, BrokeOff, Went, ended_in};
ghost use Rattle.cd_dialogue.specs.Exchanges.{Exchanged};
ghost use Rattle.cd_dialogue.specs.Served.{ServedTo};
ghost use Rattle.cd_sock.specs.Lines.{BeginsWith, Cut, content};
ghost use Rattle.std.specs.Option.{option_map, option_to_list};
ghost use Rattle.std.specs.Prelude.{IfErr, IfOk, List, [], length, take, ℕ, ◌<◌, ◌≤◌};

use crate::{DialogueFault, Next, Server};
use cd_io::{Link, say_all};
use cd_sock::{Line, LineCutter};
use std::alloc::Global;

/// Serves the line that was cut, where one was, and says its reply.
pub(crate) fn serve_cut<L: Link, S: Server>(
    alloc: Global,
    link: &mut L,
    server: &mut S,
    line: &Option<Line>,
) -> Result<Next, DialogueFault>
    ensures ok { IfOk result (λ next. (text : List ℕ)
        × ServedTo S.serves_line next (option_to_list (option_map content line.now)) text
        server.old server.new
        × Exchanged [] text (L.link_tells link.old) (L.link_tells link.new)) }
    ensures broke { IfErr result (λ fault. (lines : List Cut)
        × BeginsWith (option_to_list (option_map content line.now)) lines
        × BrokeOff S.serves_line S.gives_up server.old server.new
        (L.link_tells link.old) (L.link_tells link.new) [] lines fault) }
{
    let Some(line) = line else {
        return Ok(Next::GoOn);
    };
    let response = server.serve(alloc, line)?;
    say_all(link, response.reply.as_str().as_bytes())?;
    Ok(response.next)
}

/// Serves the line that the front of a piece ends, and answers how many bytes of the piece that took: all where it ends
/// none, and the unfinished line is held. It answers too what comes after it.
fn serve_front<L: Link, S: Server>(
    alloc: Global,
    link: &mut L,
    server: &mut S,
    cutter: &mut LineCutter,
    piece: &[u8],
) -> Result<(usize, Next), DialogueFault>
    ensures used { IfOk result (λ r.
        (r.0 ≤ length piece.now) × (0 < length piece.now → 0 < r.0)) }
    ensures ok { IfOk result (λ r. Went S.serves_line
        cutter.old cutter.new server.old server.new
        (L.link_tells link.old) (L.link_tells link.new) r.1 [] (take r.0 piece.now)) }
    ensures broke { IfErr result (λ fault. Broke S.serves_line S.gives_up fault
        (ended_in piece.now) cutter.old server.old server.new
        (L.link_tells link.old) (L.link_tells link.new) []) }
{
    let (used, line) = cutter.take(piece)?;
    let next = serve_cut(alloc, link, server, &line)?;
    Ok((used, next))
}

/// Serves the lines that a piece ends, in order, up to one at which the server closes the dialogue.
pub(crate) fn serve_piece<L: Link, S: Server>(
    alloc: Global,
    link: &mut L,
    server: &mut S,
    cutter: &mut LineCutter,
    piece: &[u8],
) -> Result<Next, DialogueFault>
    ensures ok { IfOk result (λ next. Went S.serves_line
        cutter.old cutter.new server.old server.new
        (L.link_tells link.old) (L.link_tells link.new) next [] piece.now) }
    ensures broke { IfErr result (λ fault. Broke S.serves_line S.gives_up fault
        (ended_in piece.now) cutter.old server.old server.new
        (L.link_tells link.old) (L.link_tells link.new) []) }
{
    let mut rest = piece;
    while !rest.is_empty() {
        let (used, next) = serve_front(alloc, link, server, cutter, rest)?;
        match next {
            Next::Close => return Ok(Next::Close),
            Next::GoOn => rest = rest.split_at(used).1,
        }
    }
    Ok(Next::GoOn)
}
