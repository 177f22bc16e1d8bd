//! What serves the lines of a dialogue.
use cd_sock::Line;
use cd_value::{Memory, Text};
use std::alloc::Global;

/// What comes after a line.
#[derive(Clone, Copy, Debug, PartialEq, Eq)]
pub enum Next {
    /// The dialogue goes on.
    GoOn,
    /// The server closes the dialogue: no line behind this one is served.
    Close,
}

/// What a server answers to a line: its reply with its newlines, which may be empty, and what comes after it.
#[derive(Drop)]
pub struct Response {
    pub reply: Text,
    pub next: Next,
}

/// What serves lines. A line that is blank, refused or too long is its business.
pub trait Server {
    ghost use Rattle.cd_dialogue.specs.declared.server.Next.{Next};
    ghost use Rattle.cd_sock.specs.Lines.{Cut, content};
    ghost use Rattle.std.specs.Prelude.{IfOk, List, OnErr, ℕ};

    /// A line was served, after which this comes, with this reply: the server was the first, and is the second now.
    ghost serves_line: { Next → Cut → List ℕ → Self → Self → Type 0 };

    /// A line was given up for want of memory: the server was the first, and is the second now.
    ghost gives_up: { Cut → Self → Self → Type 0 };

    /// Serves a line.
    fn serve(&mut self, alloc: Global, line: &Line) -> Result<Response, Memory>
        ensures served { IfOk result (λ response.
            serves_line response.next (content line.now) response.reply self.old self.new) }
        ensures gave_up { OnErr result (gives_up (content line.now) self.old self.new) };
}
