//! What reaches the link behind the gathered replies, by the calls that fail, and what the program writes at its end.
use crate::{Outcome, run_gathered};
use cd_io::{LinkPlan, MemLink, MemWorld};
use cd_plugins::Telling;
use cd_serve::{End, INPUT_LIMIT};
use std::alloc::Global;
use std::test::Fail;

/// How a run over these bytes ends, heard in pieces of 60,000, and what the link was told, where these calls of `say`
/// fail.
fn ran(alloc: Global, bytes: Vec<u8>, failing_says: &[u64]) -> Result<(End, Vec<u8>), Fail> {
    let mut words = Vec::new(alloc);
    words.push(String::from_str(alloc, "collectd")?)?;
    words.push(String::from_str(alloc, "--lines")?)?;
    let mut plan = LinkPlan::new(alloc);
    plan.failing_says.extend_from_slice(failing_says)?;
    plan.piece_limit = 60_000;
    let mut world = MemWorld::new(alloc, (0, 1), (0, 1));
    let object = Box::new(alloc, Telling::new(alloc, 0, Vec::new(alloc)))?;
    let link = MemLink::new(alloc, bytes, plan);
    let (ran, link) = run_gathered(alloc, words.as_slice(), &mut world, link, object);
    let ran = ran.ok_or("memory was lacking")?;
    let output = link.output().ok_or("the output isn't told")?;
    Ok((ran.end, output.to_vec(alloc)?))
}

#[test]
fn replies_reach_the_link(rt: HostRuntime) -> Result<(), Fail> {
    let alloc = rt.alloc();
    for (failing_says, end, said) in [
        ([9, 9], End::Done, "0 Values found\n"),
        ([0, 9], End::LinkFault, "0 Values found\n"),
        ([0, 1], End::LinkFault, ""),
    ] {
        let (ended, output) = ran(alloc, b"LISTVAL\n".to_vec(alloc)?, failing_says.as_slice())?;
        assert!(rt; ended == end);
        assert_eq!(rt; output.as_slice(), said.as_bytes());
    }
    Ok(())
}

#[test]
fn last_replies_reach_the_link(rt: HostRuntime) -> Result<(), Fail> {
    let alloc = rt.alloc();
    // Both lines end within the limit, in the last piece; nothing more is heard.
    let line = b"\nLISTVAL\n".as_slice();
    for (failing_says, end, said) in [
        ([9], End::InputTooLong, "-1 Line too long\n0 Values found\n"),
        ([0], End::LinkFault, ""),
    ] {
        let mut bytes = Vec::new(alloc);
        bytes.resize(INPUT_LIMIT - line.len(), b' ')?;
        bytes.extend_from_slice(line)?;
        bytes.push(b' ')?;
        let (ended, output) = ran(alloc, bytes, failing_says.as_slice())?;
        assert!(rt; ended == end);
        assert_eq!(rt; output.as_slice(), said.as_bytes());
    }
    Ok(())
}

#[test]
fn ends_are_told(rt: HostRuntime) -> Result<(), Fail> {
    let alloc = rt.alloc();
    for (end, status, text) in [
        (End::Done, 0, ""),
        (End::LinkFault, 5, "collectd: link failed\n"),
        (End::Memory, 9, "collectd: out of memory\n"),
    ] {
        let outcome = Outcome::of(alloc, end);
        let mut errors = Vec::new(alloc);
        outcome.tell(&mut errors)?;
        assert_eq!(rt; outcome.status, status);
        assert_eq!(rt; errors.as_slice(), text.as_bytes());
    }
    Ok(())
}
