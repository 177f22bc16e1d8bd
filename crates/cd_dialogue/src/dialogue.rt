//! A dialogue, step by step.
ghost use Rattle.cd_dialogue.specs.Dialogues.{Broke, Finished, StepBroke, Steps};
ghost use Rattle.cd_sock.specs.Lines.{HasCut, cut_lines};
ghost use Rattle.std.specs.Prelude.{IfErr, IfOk, OnOk, []};

use crate::pieces::{serve_cut, serve_piece};
use crate::{DialogueFault, Next, Server, Step};
use cd_io::{Heard, Link};
use cd_sock::LineCutter;
use cd_value::Memory;
use std::alloc::Global;
use std::marker::Model;

/// How many bytes are heard at once, at most.
pub const PIECE: usize = 65_536;

/// A dialogue with a peer: what came of an unfinished line, and room for a piece of what the peer sends. Contracts see
/// the unfinished line.
///
/// Once it broke off or was closed, nothing is promised of further steps.
#[derive(Drop)]
pub struct Dialogue {
    cutter: LineCutter,
    buffer: Vec<u8>,
}

impl Model for Dialogue {
    ghost use Rattle.cd_dialogue.specs.declared.dialogue.TheConstants.{PIECE};
    ghost use Rattle.cd_sock.specs.Lines.{Cut};
    ghost use Rattle.std.specs.Prelude.{length, ◌≡◌};

    ghost Value = { Cut };

    ghost view = { λ dialogue. dialogue.cutter };

    ghost invariant = { λ dialogue. length dialogue.buffer.items ≡ PIECE };
}

impl Dialogue {
    /// A dialogue before the first byte.
    pub fn new(alloc: Global) -> Result<Self, Memory>
        ensures { IfOk result (λ dialogue. HasCut [] [] dialogue) }
    {
        let buffer = vec![in alloc; 0u8; PIECE]?;
        Ok(Dialogue {
            cutter: LineCutter::new(alloc),
            buffer,
        })
    }

    /// Hears what comes next, serves the lines that end in it, and says each reply in one piece, offering again
    /// what wasn't taken. No more than `room` bytes are taken; where more came, what is beyond them is lost. At a
    /// quiet and at the end the unfinished line stays held. Where the server closes the dialogue at a line, no line
    /// behind it is served. A session passes `usize::MAX` as its room.
    pub fn step<L: Link, S: Server>(
        &mut self,
        alloc: Global,
        link: &mut L,
        server: &mut S,
        room: usize,
    ) -> Result<Step, DialogueFault>
        ensures ok { IfOk result (λ step. Steps S.serves_line
            self.old self.new server.old server.new
            (L.link_tells link.old) (L.link_tells link.new) room step) }
        ensures broke { IfErr result (λ fault. StepBroke S.serves_line S.gives_up
            self.old server.old server.new
            (L.link_tells link.old) (L.link_tells link.new) room fault) }
    {
        match link.hear(self.buffer.as_mut_slice())? {
            Heard::Got(count) => {
                let taken = count.min(room);
                let piece = &self.buffer[..taken];
                match serve_piece(alloc, link, server, &mut self.cutter, piece)? {
                    Next::Close => return Ok(Step::Closed),
                    Next::GoOn => {}
                }
                if taken < count {
                    return Ok(Step::TooLong);
                }
                Ok(Step::Heard(count))
            }
            Heard::End => Ok(Step::Ended),
            Heard::Quiet => Ok(Step::Quiet),
        }
    }

    /// Serves the last line, where it has bytes but no newline, and says its reply. It answers what comes after it,
    /// `GoOn` where there is none.
    pub fn finish<L: Link, S: Server>(
        &mut self,
        alloc: Global,
        link: &mut L,
        server: &mut S,
    ) -> Result<Next, DialogueFault>
        ensures ok { IfOk result (λ next. Finished S.serves_line
            self.old self.new server.old server.new
            (L.link_tells link.old) (L.link_tells link.new) next) }
        ensures begins { OnOk result (HasCut [] [] self.new) }
        ensures broke { IfErr result (λ fault. Broke S.serves_line S.gives_up fault cut_lines
            self.old server.old server.new
            (L.link_tells link.old) (L.link_tells link.new) []) }
    {
        let line = self.cutter.finish();
        let next = serve_cut(alloc, link, server, &line)?;
        Ok(next)
    }
}
