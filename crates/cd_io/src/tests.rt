//! What no clause says: what goes over real readers and writers, and each call once.
use crate::{
    Clock, DATAGRAM_LIMIT, Dice, Failed, GATHER_LIMIT, Gathering, Heard, Link, LinkPlan, MemClock,
    MemDice, MemFile, MemLink, MemPackets, MemSource, MemWorld, OutFault, Packets, PacketsPlan,
    ReadAllFault, ReaderSource, RealWorld, Source, SourcePlan, Streams, World, read_all, say_all,
};
use std::alloc::{AllocError, Global};
use std::fs::{self, Permissions};
use std::io::{self, ErrorKind, Read, Write};
use std::os::unix::fs::PermissionsExt;
use std::process;
use std::test::Fail;

/// A reader and a writer that fail each time.
#[derive(Drop)]
struct Broken(ErrorKind);

impl Read for Broken {
    fn read(&mut self, _buf: &mut [u8]) -> io::Result<usize> {
        Err(io::Error::new(self.0, "broken"))
    }
}

impl Write for Broken {
    fn write(&mut self, _buf: &[u8]) -> io::Result<usize> {
        Err(io::Error::new(self.0, "broken"))
    }

    fn flush(&mut self) -> io::Result<()> {
        Ok(())
    }
}

/// A writer that takes a byte at a time, and whose flush fails.
#[derive(Drop)]
struct ByteByByte<'a> {
    taken: &'a mut Vec<u8>,
}

impl Write for ByteByByte<'_> {
    fn write(&mut self, buf: &[u8]) -> io::Result<usize> {
        let first = &buf[..buf.len().min(1)];
        match self.taken.extend_from_slice(first) {
            Ok(()) => Ok(first.len()),
            Err(_) => Err(io::Error::from(ErrorKind::OutOfMemory)),
        }
    }

    fn flush(&mut self) -> io::Result<()> {
        Err(io::Error::from(ErrorKind::BrokenPipe))
    }
}

#[test]
fn memory_goes_by_its_plan(rt: HostRuntime) -> Result<(), Fail> {
    let alloc = rt.alloc();
    let mut plan = LinkPlan::new(alloc);
    plan.failing_hears.push(1)?;
    plan.quiet_hears.push(2)?;
    plan.failing_says.push(1)?;
    plan.piece_limit = 2;
    let mut link = MemLink::new(alloc, b"abc".to_vec(alloc)?, plan);
    let heard = [
        (Ok(Heard::Got(2)), b"ab"),
        (Err(Failed), b".."),
        (Ok(Heard::Quiet), b".."),
        (Ok(Heard::Got(1)), b"c."),
        (Ok(Heard::End), b".."),
    ];
    for (answer, bytes) in heard {
        let mut buf = *b"..";
        assert_eq!(rt; link.hear(&mut buf), answer);
        assert_eq!(rt; &buf, bytes);
    }
    for answer in [Ok(3), Err(Failed), Ok(3)] {
        assert_eq!(rt; link.say(b"123"), answer);
    }
    assert_eq!(rt; link.output(), Some(b"123123".as_slice()));
    assert_eq!(rt; say_all(&mut link, b"4"), Ok(()));
    assert_eq!(rt; link.output(), Some(b"1231234".as_slice()));

    let mut world = MemWorld::new(alloc, (u64::MAX - 6, 5), (u64::MAX - 6, 5));
    let mut clock = world.clock();
    let mut dice = world.dice();
    for (moment, word) in [
        (u64::MAX - 6, u64::MAX - 6),
        (u64::MAX - 1, u64::MAX - 1),
        (u64::MAX, 3),
    ] {
        clock.pause();
        assert_eq!(rt; clock.fork().now(), moment);
        assert_eq!(rt; clock.now(), moment);
        assert_eq!(rt; dice.fork().word(), word);
        assert_eq!(rt; dice.word(), word);
    }
    assert_eq!(rt; MemClock::new(7, 1).now(), 7);
    assert_eq!(rt; MemDice::new(7, 1).word(), 7);
    Ok(())
}

/// A reader and a writer that fail some times before they go on, as a stream that would block.
#[derive(Drop)]
struct Late<T> {
    errors: u8,
    kind: ErrorKind,
    stream: T,
}

impl<T: Drop> Late<T> {
    /// Whether this call is to fail.
    fn fails(&mut self) -> bool {
        let fails = self.errors > 0;
        self.errors = self.errors.saturating_sub(1);
        fails
    }
}

impl<T: Read + Drop> Read for Late<T> {
    fn read(&mut self, buf: &mut [u8]) -> io::Result<usize> {
        if self.fails() {
            return Err(io::Error::from(self.kind));
        }
        self.stream.read(buf)
    }
}

impl<T: Write + Drop> Write for Late<T> {
    fn write(&mut self, buf: &[u8]) -> io::Result<usize> {
        if self.fails() {
            return Err(io::Error::from(self.kind));
        }
        self.stream.write(buf)
    }

    fn flush(&mut self) -> io::Result<()> {
        self.stream.flush()
    }
}

#[test]
fn streams_are_a_link(rt: HostRuntime) {
    let mut link = Streams::new(rt, b"abc".as_slice(), Vec::new(rt.alloc()));
    let mut buf = *b"....";
    assert!(rt; matches!(link.hear(&mut buf), Ok(Heard::Got(3))));
    assert!(rt; matches!(buf, [b'a', b'b', b'c', b'.']));
    assert!(rt; matches!(link.hear(&mut buf), Ok(Heard::End)));
    assert!(rt; matches!(link.say(b"123"), Ok(3)));
    let mut link = Streams::new(rt, Broken(ErrorKind::TimedOut), Broken(ErrorKind::TimedOut));
    assert!(rt; matches!(link.hear(&mut buf), Ok(Heard::Quiet)));
    assert!(rt; link.say(b"").is_err());
    let mut link = Streams::new(rt, Broken(ErrorKind::BrokenPipe), Vec::new(rt.alloc()));
    assert!(rt; link.hear(&mut buf).is_err());
}

#[test]
fn streams_wait(rt: HostRuntime) -> Result<(), Fail> {
    for kind in [ErrorKind::Interrupted, ErrorKind::WouldBlock] {
        let mut taken = Vec::new(rt.alloc());
        let reader = Late {
            errors: 2,
            kind,
            stream: b"abc".as_slice(),
        };
        let writer = Late {
            errors: 2,
            kind,
            stream: ByteByByte { taken: &mut taken },
        };
        let mut link = Streams::new(rt, reader, writer);
        let mut buf = *b"....";
        assert!(rt; matches!(link.hear(&mut buf), Ok(Heard::Got(3))));
        assert!(rt; matches!(link.hear(&mut buf), Ok(Heard::End)));
        assert_eq!(rt; say_all(&mut link, b"12"), Ok(()));
        assert_eq!(rt; taken.as_slice(), b"12".as_slice());
    }
    Ok(())
}

#[test]
fn replies_are_gathered(rt: HostRuntime) -> Result<(), Fail> {
    let alloc = rt.alloc();
    // The first call of `say` on the inner link fails, which shows when it is made.
    let mut plan = LinkPlan::new(alloc);
    plan.failing_says.push(0)?;
    let mut link = Gathering::new(alloc, MemLink::new(alloc, b"x".to_vec(alloc)?, plan));
    let mut buf = *b".";
    assert_eq!(rt; link.say(b"0 Success\n"), Ok(10));
    assert_eq!(rt; link.say(b"1 Value found\n"), Ok(14));
    assert_eq!(rt; link.hear(&mut buf), Err(Failed));
    assert_eq!(rt; link.hear(&mut buf), Ok(Heard::Got(1)));
    assert_eq!(rt; link.hear(&mut buf), Ok(Heard::End));
    let (mut link, finished) = link.finish();
    assert_eq!(rt; finished, Ok(()));
    assert_eq!(rt;
        link.output(),
        Some(b"0 Success\n1 Value found\n".as_slice())
    );
    assert_eq!(rt; link.say(b"3"), Ok(1));

    // What is said after the end isn't kept, and neither is what has no room.
    let mut plan = LinkPlan::new(alloc);
    plan.failing_says.extend_from_slice(&[0, 2])?;
    let mut link = Gathering::new(alloc, MemLink::new(alloc, Vec::new(alloc), plan));
    assert_eq!(rt;
        link.say(&vec![in alloc; b'1'; GATHER_LIMIT + 1]?),
        Err(Failed)
    );
    assert_eq!(rt; link.say(b"2"), Ok(1));
    assert_eq!(rt; link.hear(&mut buf), Ok(Heard::End));
    assert_eq!(rt; link.say(b"3"), Err(Failed));
    assert_eq!(rt; link.say(b"4"), Ok(1));
    let (link, finished) = link.finish();
    assert_eq!(rt; finished, Ok(()));
    assert_eq!(rt; link.output(), Some(b"24".as_slice()));
    Ok(())
}

#[test]
fn short_writes_lose_and_double_nothing(rt: HostRuntime) -> Result<(), Fail> {
    let mut taken = Vec::new(rt.alloc());
    let writer = ByteByByte { taken: &mut taken };
    let mut link = Streams::new(rt, b"".as_slice(), writer);
    assert_eq!(rt; link.say(b"abc"), Ok(1));
    assert_eq!(rt; say_all(&mut link, b"0 Success\n"), Ok(()));
    assert_eq!(rt; taken.as_slice(), b"a0 Success\n".as_slice());
    Ok(())
}

#[test]
fn the_real_world_goes_on(rt: HostRuntime) -> Result<(), Fail> {
    let mut world = RealWorld::new(rt);
    let mut clock = world.clock();
    let mut dice = world.dice();
    let before = clock.now();
    clock.pause();
    let later = clock.fork().now();
    assert!(rt; before >> 30 > 1_700_000_000);
    assert!(rt; later.saturating_sub(before) >> 26 > 0);
    let word = dice.fork().word();
    assert_eq!(rt; dice.word(), word);
    assert!(rt; dice.word() != word);
    assert!(rt; world.dice().word() != word);
    Ok(())
}

#[test]
fn packets_go_by_their_plan(rt: HostRuntime) -> Result<(), Fail> {
    let alloc = rt.alloc();
    let mut plan = PacketsPlan::new(alloc);
    plan.failing_calls.push(1)?;
    plan.quiet_calls.push(2)?;
    let mut datagrams = Vec::new(alloc);
    for bytes in [b"abc".as_slice(), b"", b"d"] {
        datagrams.push(bytes.to_vec(alloc)?)?;
    }
    datagrams.push(vec![in alloc; 7u8; DATAGRAM_LIMIT + 1]?)?;
    let mut source = MemPackets::new(datagrams, plan);
    let mut buf = vec![in alloc; 0u8; DATAGRAM_LIMIT]?;
    for (answer, bytes) in [
        (Ok(Heard::Got(3)), b"abc".as_slice()),
        (Err(Failed), b"abc"),
        (Ok(Heard::Quiet), b"abc"),
        (Ok(Heard::Got(0)), b"abc"),
        (Ok(Heard::Got(1)), b"dbc"),
        (Ok(Heard::Got(DATAGRAM_LIMIT)), b"\x07\x07\x07"),
        (Ok(Heard::End), b"\x07\x07\x07"),
        (Ok(Heard::End), b"\x07\x07\x07"),
    ] {
        let room: &mut [u8] = &mut buf;
        assert!(rt; room.len() >= DATAGRAM_LIMIT);
        assert_eq!(rt; source.next(room), answer);
        assert_eq!(rt; room.get(..3), Some(bytes));
    }
    Ok(())
}

/// A source of the alphabet's first four letters, which gives two at a time and fails at the calls of `failing_reads`.
fn letters(alloc: Global, failing_reads: &[u64]) -> Result<MemSource, AllocError> {
    let mut plan = SourcePlan::new(alloc);
    plan.failing_reads.extend_from_slice(failing_reads)?;
    plan.piece_limit = 2;
    Ok(MemSource::new(b"abcd".to_vec(alloc)?, plan))
}

#[test]
fn sources_are_read_whole(rt: HostRuntime) -> Result<(), Fail> {
    let alloc = rt.alloc();
    let mut source = letters(alloc, &[1])?;
    for (answer, bytes) in [
        (Ok(2), b"ab."),
        (Err(Failed), b"..."),
        (Ok(2), b"cd."),
        (Ok(0), b"..."),
    ] {
        let mut buf = *b"...";
        assert_eq!(rt; source.read(&mut buf), answer);
        assert_eq!(rt; &buf, bytes);
    }
    let whole = read_all(alloc, &mut letters(alloc, &[])?, 4);
    assert_eq!(rt; whole.map(|v| v.as_slice() == b"abcd".as_slice()), Ok(true));
    for (failing_reads, limit, fault) in [
        ([9], 3, ReadAllFault::TooLong),
        ([2], 4, ReadAllFault::Failed),
    ] {
        let whole = read_all(alloc, &mut letters(alloc, &failing_reads)?, limit);
        assert_eq!(rt; whole.map(|v| v.len()), Err(fault));
    }
    let read = read_all(alloc, &mut ReaderSource::new(b"abc".as_slice()), 3);
    assert_eq!(rt; read.map(|v| v.as_slice() == b"abc".as_slice()), Ok(true));
    let mut broken = ReaderSource::new(Broken(ErrorKind::BrokenPipe));
    assert_eq!(rt; broken.read(&mut [0]), Err(Failed));
    Ok(())
}

/// What the next opening of a path gives: its text where it is read whole, and what the opening or the reading was
/// refused with otherwise.
fn text_of<W: World>(
    alloc: Global,
    world: &mut W,
    path: &str,
) -> Result<Result<Vec<u8>, ReadAllFault>, OutFault> {
    let mut source = world.file(path)?;
    let text = read_all(alloc, &mut source, 10);
    world.shut(source);
    Ok(text)
}

/// Whether an opening gave this text.
fn gave(given: &Result<Result<Vec<u8>, ReadAllFault>, OutFault>, text: &[u8]) -> bool {
    match given {
        Ok(Ok(bytes)) => bytes.as_slice() == text,
        _ => false,
    }
}

#[test]
fn files_in_memory_give_their_texts(rt: HostRuntime) -> Result<(), Fail> {
    let alloc = rt.alloc();
    let mut texts = Vec::new(alloc);
    texts.push(b"first".to_vec(alloc)?)?;
    texts.push(b"second".to_vec(alloc)?)?;
    let mut world = MemWorld::new(alloc, (0, 1), (0, 1));
    world.add_file(MemFile::new(alloc, "a", texts, SourcePlan::new(alloc))?)?;
    world.add_file(MemFile::of(alloc, "b", b"other")?)?;
    world.add_file(MemFile::new(alloc, "c", Vec::new(alloc), SourcePlan::new(alloc))?)?;
    let mut broken = SourcePlan::new(alloc);
    broken.failing_reads.push(0)?;
    let mut unread = Vec::new(alloc);
    unread.push(b"never".to_vec(alloc)?)?;
    world.add_file(MemFile::new(alloc, "d", unread, broken)?)?;
    world.fail_file(1)?;
    assert!(rt; gave(&text_of(alloc, &mut world, "a"), b"first"));
    assert!(rt; matches!(text_of(alloc, &mut world, "a"), Err(OutFault::Failed)));
    for (path, text) in [
        ("b", b"other".as_slice()),
        ("a", b"second"),
        ("a", b"second"),
    ] {
        assert!(rt; gave(&text_of(alloc, &mut world, path), text));
    }
    for path in ["c", "e"] {
        assert!(rt; matches!(text_of(alloc, &mut world, path), Err(OutFault::Failed)));
    }
    assert!(rt;
        matches!(
            text_of(alloc, &mut world, "d"),
            Ok(Err(ReadAllFault::Failed))
        )
    );
    Ok(())
}

#[test]
fn files_are_read_from_the_disk(rt: HostRuntime) -> Result<(), Fail> {
    let alloc = rt.alloc();
    let number = process::id(rt.process());
    let folder = format!(in alloc; "/tmp/cd_io-{number}")?;
    let path = format!(in alloc; "{folder}/text")?;
    let missing = format!(in alloc; "{folder}/none")?;
    let mut world = RealWorld::new(rt);
    fs::create_dir(&rt, folder.as_str())?;
    fs::write(&rt, path.as_str(), "some text")?;
    let given = text_of(alloc, &mut world, path.as_str());
    let none = text_of(alloc, &mut world, missing.as_str());
    let of_folder = text_of(alloc, &mut world, folder.as_str());
    fs::set_permissions(&rt, path.as_str(), Permissions::from_mode(0))?;
    let locked = text_of(alloc, &mut world, path.as_str());
    fs::remove_file(&rt, path.as_str())?;
    fs::remove_dir(&rt, folder.as_str())?;
    assert!(rt; gave(&given, b"some text"));
    assert!(rt; matches!(none, Err(OutFault::Failed)));
    assert!(rt; matches!(of_folder, Ok(Err(ReadAllFault::Failed))));
    // The superuser may read each file.
    assert!(rt; matches!(locked, Err(OutFault::Failed)) || gave(&locked, b"some text"));
    Ok(())
}
