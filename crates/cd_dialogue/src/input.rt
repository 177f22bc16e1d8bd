//! The service of a whole input.
ghost use Rattle.cd_dialogue.specs.Dialogues.{ServesInput};

use crate::{Dialogue, DialogueFault, InputEnd, Next, Server, Step};
use cd_io::Link;
use std::alloc::Global;

/// Serves the lines of a whole input, the last one without a newline among them, and says each reply. A quiet
/// counts as the end of the input. No more than `limit` bytes are taken: where more come, just the lines that end
/// within the limit are served. Where the server closes the dialogue, no later line is served.
pub fn serve_all<L: Link, S: Server>(
    alloc: Global,
    link: &mut L,
    server: &mut S,
    limit: usize,
) -> Result<InputEnd, DialogueFault>
    ensures { ServesInput S.serves_line S.gives_up server.old server.new
        (L.link_tells link.old) (L.link_tells link.new) limit result }
{
    let mut dialogue = Dialogue::new(alloc)?;
    let mut room = limit;
    loop {
        match dialogue.step(alloc, link, server, room)? {
            Step::Heard(count) => room -= count,
            Step::TooLong => return Ok(InputEnd::TooLong),
            Step::Closed => return Ok(InputEnd::Closed),
            Step::Ended | Step::Quiet => {
                match dialogue.finish(alloc, link, server)? {
                    Next::GoOn => return Ok(InputEnd::Ended),
                    Next::Close => return Ok(InputEnd::Closed),
                }
            }
        }
    }
}
