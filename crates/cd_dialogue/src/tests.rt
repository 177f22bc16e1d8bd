//! What is said for what is heard, whatever the pieces, over a server that echoes.
use crate::{Dialogue, DialogueFault, InputEnd, Next, Response, Server, Step, serve_all};
use cd_io::{LinkPlan, MemLink};
use cd_sock::Line;
use cd_value::{Memory, Text};
use std::alloc::Global;
use std::test::Fail;

/// Replies with the line, with `long` to one that is too long, and with nothing to an empty one, and closes the
/// dialogue at `bye`. It serves so many lines, and then gives up.
#[derive(Drop)]
struct Echo {
    lines: u64,
}

impl Server for Echo {
    ghost serves_line = { λ next line reply old new. Unit {0} };

    ghost gives_up = { λ line old new. Unit {0} };

    fn serve(&mut self, alloc: Global, line: &Line) -> Result<Response, Memory> {
        if self.lines == 0 {
            return Err(Memory);
        }
        self.lines -= 1;
        let text = match line {
            Line::Whole(bytes) => str::from_utf8(bytes).map_err(|_| Memory)?,
            Line::TooLong => "long",
        };
        let mut reply = Text::of(alloc, text)?;
        if !text.is_empty() {
            reply.push("\n")?;
        }
        let next = if text == "bye" {
            Next::Close
        } else {
            Next::GoOn
        };
        Ok(Response { reply, next })
    }
}

/// The service of an input over a link with a plan, and what was said in it.
fn served(
    alloc: Global,
    input: &[u8],
    plan: LinkPlan,
    limit: usize,
    lines: u64,
) -> Result<(Result<InputEnd, DialogueFault>, Vec<u8>), Fail> {
    let mut link = MemLink::new(alloc, input.to_vec(alloc)?, plan);
    let mut server = Echo { lines };
    let end = serve_all(alloc, &mut link, &mut server, limit);
    let output = link.output().ok_or("the output isn't told")?;
    Ok((end, output.to_vec(alloc)?))
}

/// A plan by which all calls go through, in pieces of at most so many bytes.
fn pieces(alloc: Global, most: usize) -> LinkPlan {
    let mut plan = LinkPlan::new(alloc);
    plan.piece_limit = most;
    plan
}

#[test]
fn any_pieces_and_limits(rt: HostRuntime) -> Result<(), Fail> {
    let alloc = rt.alloc();
    let input = b"ab\n\ncde";
    for piece in [1, 2, 3, 100] {
        for (limit, end, said) in [
            (100, InputEnd::Ended, "ab\ncde\n"),
            (7, InputEnd::Ended, "ab\ncde\n"),
            (6, InputEnd::TooLong, "ab\n"),
            (2, InputEnd::TooLong, ""),
            (0, InputEnd::TooLong, ""),
        ] {
            let (was, output) = served(alloc, input, pieces(alloc, piece), limit, 9)?;
            assert_eq!(rt; was, Ok(end));
            assert_eq!(rt; output.as_slice(), said.as_bytes());
        }
    }
    let (end, output) = served(alloc, b"", pieces(alloc, 1), 0, 9)?;
    assert_eq!(rt; end, Ok(InputEnd::Ended));
    assert!(rt; output.is_empty());
    Ok(())
}

#[test]
fn breaks_off(rt: HostRuntime) -> Result<(), Fail> {
    let alloc = rt.alloc();
    let input = b"ab\ncd\nef";
    let mut plan = pieces(alloc, 4);
    plan.failing_hears.push(1)?;
    let (end, output) = served(alloc, input, plan, 100, 9)?;
    assert_eq!(rt; end, Err(DialogueFault::Link));
    assert_eq!(rt; output.as_slice(), b"ab\n".as_slice());

    let mut plan = pieces(alloc, 100);
    plan.failing_says.push(1)?;
    let (end, output) = served(alloc, input, plan, 100, 9)?;
    assert_eq!(rt; end, Err(DialogueFault::Link));
    assert_eq!(rt; output.as_slice(), b"ab\n".as_slice());

    for (lines, said) in [(0, ""), (2, "ab\ncd\n")] {
        let (end, output) = served(alloc, input, pieces(alloc, 100), 100, lines)?;
        assert_eq!(rt; end, Err(DialogueFault::Memory));
        assert_eq!(rt; output.as_slice(), said.as_bytes());
    }
    Ok(())
}

#[test]
fn a_quiet_ends_an_input_and_no_dialogue(rt: HostRuntime) -> Result<(), Fail> {
    let alloc = rt.alloc();
    let mut plan = pieces(alloc, 4);
    plan.quiet_hears.push(1)?;
    let (end, output) = served(alloc, b"ab\ncd\n", plan, 100, 9)?;
    assert_eq!(rt; end, Ok(InputEnd::Ended));
    assert_eq!(rt; output.as_slice(), b"ab\nc\n".as_slice());

    let mut plan = pieces(alloc, 4);
    plan.quiet_hears.push(1)?;
    let mut link = MemLink::new(alloc, b"ab\ncd\ne".to_vec(alloc)?, plan);
    let mut server = Echo { lines: 9 };
    let mut dialogue = Dialogue::new(alloc)?;
    for step in [Step::Heard(4), Step::Quiet, Step::Heard(3), Step::Ended] {
        let was = dialogue.step(alloc, &mut link, &mut server, usize::MAX);
        assert_eq!(rt; was, Ok(step));
    }
    for _ in 0..2 {
        let next = dialogue.finish(alloc, &mut link, &mut server);
        assert_eq!(rt; next, Ok(Next::GoOn));
    }
    assert_eq!(rt; link.output(), Some(b"ab\ncd\ne\n".as_slice()));
    Ok(())
}

#[test]
fn a_server_closes_a_dialogue(rt: HostRuntime) -> Result<(), Fail> {
    let alloc = rt.alloc();
    for (input, said) in [
        (b"ab\nbye\ncd\n".as_slice(), "ab\nbye\n"),
        (b"ab\nbye".as_slice(), "ab\nbye\n"),
    ] {
        for piece in [1, 100] {
            let (end, output) = served(alloc, input, pieces(alloc, piece), 100, 9)?;
            assert_eq!(rt; end, Ok(InputEnd::Closed));
            assert_eq!(rt; output.as_slice(), said.as_bytes());
        }
    }
    let mut link = MemLink::new(alloc, b"bye\nab\n".to_vec(alloc)?, pieces(alloc, 100));
    let mut server = Echo { lines: 9 };
    let mut dialogue = Dialogue::new(alloc)?;
    let step = dialogue.step(alloc, &mut link, &mut server, usize::MAX);
    assert_eq!(rt; step, Ok(Step::Closed));
    Ok(())
}

#[test]
fn a_long_line_is_the_servers_business(rt: HostRuntime) -> Result<(), Fail> {
    let alloc = rt.alloc();
    let mut input = vec![in alloc; b'x'; 4_097]?;
    input.extend_from_slice(b"\nok\n")?;
    let (end, output) = served(alloc, &input, pieces(alloc, 1_000), 100_000, 9)?;
    assert_eq!(rt; end, Ok(InputEnd::Ended));
    assert_eq!(rt; output.as_slice(), b"long\nok\n".as_slice());
    Ok(())
}
