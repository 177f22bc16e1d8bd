//! Packets worked by hand from the protocol: what each says, by its parts.
use crate::{Decoded, Item, PacketEnd, items, parts};
use cd_types::TypesDb;
use cd_value::{Notification, SECOND, TryCopy, ValueList};
use std::alloc::Global;
use std::test::Fail;

/// The parts that have a name in the rows below; a word that is none is its bytes in hexadecimal digits.
fn digits_of(word: &str) -> &str {
    match word {
        "nothing" => "",
        "host" => "000000066800",
        "plugin" => "000200067000",
        "other_plugin" => "000200067100",
        "derive" => "0004000b64657269766500",
        "at_100_s" => "0001000c0000000000000064",
        "five" => "0006000f0001020000000000000005",
        "a_gauge" => "0006000f000101000000000000f03f",
        "counter" => "0004000c636f756e74657200",
        "absolute" => "0004000d6162736f6c75746500",
        "warning" => "0101000c0000000000000002",
        "hello" => "0100000a68656c6c6f00",
        _ => word,
    }
}

/// Puts the bytes of hexadecimal digits behind. What is none, and half a byte, is a fault.
fn push_digits(bytes: &mut Vec<u8>, digits: &str) -> Result<(), Fail> {
    let mut half = None;
    for digit in digits.bytes() {
        let value = match digit {
            b'0'..=b'9' => digit - b'0',
            b'a'..=b'f' => digit - b'a' + 10,
            _ => return Err("a word that has no name".into()),
        };
        half = match half {
            None => Some(value),
            Some(high) => {
                let high: u8 = high;
                bytes.push(high.wrapping_mul(16).wrapping_add(value))?;
                None
            }
        };
    }
    match half {
        None => Ok(()),
        Some(_) => Err("half a byte".into()),
    }
}

/// Puts the bytes of a word behind, so often.
fn push_times(bytes: &mut Vec<u8>, word: &str, times: u64) -> Result<(), Fail> {
    for _ in 0..times {
        push_digits(bytes, digits_of(word))?;
    }
    Ok(())
}

/// The packet of some words; behind a `*` stands how often a word comes.
fn packet(alloc: Global, words: &str) -> Result<Vec<u8>, Fail> {
    let mut bytes = Vec::new(alloc);
    for word in words.split(' ') {
        let (word, times) = word.split_once('*').unwrap_or((word, "1"));
        let times = times.parse::<u64>().map_err(|_| "no number")?;
        push_times(&mut bytes, word, times)?;
    }
    Ok(bytes)
}

fn show_list(out: &mut String, list: &ValueList) -> Result<(), Fail> {
    let name = list.id.name(*out.allocator())?;
    let values = list.values.as_slice();
    let (time, interval) = (list.time, list.interval);
    write!(out, "{} @{time} +{interval} {values:?}; ", name.as_str())?;
    Ok(())
}

fn show_note(out: &mut String, note: &Notification) -> Result<(), Fail> {
    let (severity, time) = (note.severity, note.time);
    write!(out, "{severity:?} @{time} ")?;
    for text in [
        &note.host,
        &note.plugin,
        &note.plugin_instance,
        &note.type_name,
        &note.type_instance,
        &note.message,
    ] {
        write!(out, "{}|", text.as_str())?;
    }
    write!(out, "; ")?;
    Ok(())
}

/// What a packet says, in one line; of many items or refusals their number.
fn shown(alloc: Global, decoded: &Decoded) -> Result<String, Fail> {
    let mut out = String::new(alloc);
    let (items, refused) = (decoded.items.as_slice(), decoded.refused.as_slice());
    if items.len() > 9 || refused.len() > 9 {
        write!(
            out,
            "{} items, {} refused; {:?}",
            items.len(),
            refused.len(),
            decoded.end
        )?;
        return Ok(out);
    }
    for item in items {
        match item {
            Item::List(list) => show_list(&mut out, list)?,
            Item::Note(note) => show_note(&mut out, note)?,
        }
    }
    for (place, refusal) in refused {
        write!(out, "{refusal:?} at {place}; ")?;
    }
    write!(out, "{:?}", decoded.end)?;
    Ok(out)
}

/// Fields in force: a line has a packet, and what it says.
const FIELDS: &str = "\
nothing = Whole
host at_100_s plugin derive five a_gauge = h/p/derive @107374182400 +10737418240 [Derive(5)]; Gauge at 50; Whole
at_100_s plugin derive five a_gauge = BadField at 29; BadField at 44; Whole
host at_100_s other_plugin plugin derive five a_gauge = \
    h/p/derive @107374182400 +10737418240 [Derive(5)]; Gauge at 56; Whole
host plugin derive at_100_s a_gauge five other_plugin five = \
    h/p/derive @107374182400 +10737418240 [Derive(5)]; h/q/derive @107374182400 +10737418240 [Derive(5)]; \
    Gauge at 35; Whole
";

/// Texts, and what becomes of them.
const TEXTS: &str = "\
0000000568 plugin derive at_100_s five = NotText at 34; Whole
0000000568 host plugin derive at_100_s five = h/p/derive @107374182400 +10737418240 [Derive(5)]; Whole
0000000868006900 plugin derive at_100_s five = NotText at 37; Whole
00000006ff00 plugin derive at_100_s five = NotText at 35; Whole
00000004 plugin derive at_100_s five = NotText at 33; Whole
00050006ff00 a_gauge = NotText at 6; Whole
00000008612f6200 plugin derive at_100_s 00050008782f7f00 five = \
    a_b/p/derive-x/_ @107374182400 +10737418240 [Derive(5)]; Whole
000000080a2f6200 plugin derive at_100_s five = __b/p/derive @107374182400 +10737418240 [Derive(5)]; Whole
host plugin 00040008612d6200 at_100_s five = BadField at 32; Whole
host plugin 000400086109620000 at_100_s = BadLength(20)
host plugin 0004000861096200 at_100_s five = BadField at 32; Whole
00000085 68*128 00 plugin derive at_100_s five = BadField at 162; Whole
";

/// Lengths, and parts that are skipped or end a packet.
const LENGTHS: &str = "\
00 = BadLength(0)
000000 = BadLength(0)
000000006800 = BadLength(0)
000000016800 = BadLength(0)
000000026800 = BadLength(0)
000000036800 = BadLength(0)
0000ffff6800 = BadLength(0)
host 000000076800 = BadLength(6)
0001000b00000000000064 = BadLength(0)
0009000d000000000000000064 = BadLength(0)
0006000500 = BadLength(0)
host 0006000f0002020000000000000005 = BadLength(6)
000a000578 02000004 host plugin derive at_100_s five = h/p/derive @107374182400 +10737418240 [Derive(5)]; Whole
host plugin derive at_100_s five 02100004 five = h/p/derive @107374182400 +10737418240 [Derive(5)]; Encrypted(50)
02100003 = BadLength(0)
";

/// Times and intervals.
const TIMES: &str = "\
host plugin derive five = NoTime at 23; Whole
host plugin derive 0008000c0000000000000064 five at_100_s five = \
    h/p/derive @100 +10737418240 [Derive(5)]; h/p/derive @107374182400 +10737418240 [Derive(5)]; Whole
host plugin derive 0001000c00000003ffffffff five = h/p/derive @18446744072635809792 +10737418240 [Derive(5)]; Whole
host plugin derive 0001000c0000000400000000 five = BadField at 35; Whole
host plugin derive at_100_s 0007000c0000000400000000 five = BadField at 47; Whole
host plugin derive at_100_s 0007000c0000000000000005 five = h/p/derive @107374182400 +5368709120 [Derive(5)]; Whole
host plugin derive at_100_s 0009000c0000000000000005 five = h/p/derive @107374182400 +5 [Derive(5)]; Whole
host plugin derive at_100_s 0009000c0000000000000000 five = h/p/derive @107374182400 +10737418240 [Derive(5)]; Whole
";

/// Values, and why they are refused.
const VALUE_PARTS: &str = "\
host plugin derive at_100_s 0006000f000102fffffffffffffffe = h/p/derive @107374182400 +10737418240 [Derive(-2)]; Whole
host plugin counter at_100_s 0006000f000100fffffffffffffffe = \
    h/p/counter @107374182400 +10737418240 [Counter(18446744073709551614)]; Whole
host plugin absolute at_100_s 0006000f0001030000000000000102 = \
    h/p/absolute @107374182400 +10737418240 [Absolute(258)]; Whole
host plugin derive at_100_s 000600060000 = WrongCount at 35; Whole
host plugin derive at_100_s 000600180002000200000000000000050000000000000006 = WrongCount at 35; Whole
host plugin derive 0006000f0001000000000000000005 = WrongKind at 23; Whole
host plugin derive at_100_s 0006000f0001070000000000000005 = WrongKind at 35; Whole
host plugin 000400096c6f616400 at_100_s five a_gauge = UnknownType at 33; Gauge at 48; Whole
";

/// Messages.
const MESSAGES: &str = "\
host at_100_s warning hello = Warning @107374182400 h|||||hello|; Whole
at_100_s 0101000c0000000000000001 0100000500 = Failure @107374182400 ||||||; Whole
at_100_s 0101000c0000000000000004 00030008612f6200 00040008612f0900 01000008612f0900 = \
    Okay @107374182400 ||a_b|a/_||a/_|; Whole
0101000c0000000000000003 hello = BadSeverity at 12; Whole
hello = BadSeverity at 0; Whole
warning hello = NoTime at 12; Whole
warning at_100_s 0100000968656c6c6f = NotText at 24; Whole
at_100_s warning 0007000c0000000400000000 hello = BadField at 36; Whole
00000085 68*128 00 warning hello = BadField at 145; Whole
";

/// Long packets: many lists, a type of 30,000 bytes before each of 2,300 lists, and a message that is cut.
const LONG: &str = "\
at_100_s derive plugin host*100 five*2500 = 2500 items, 0 refused; Whole
host at_100_s plugin 00047535 64*30000 00 five*2300 = 0 items, 2300 refused; Whole
at_100_s warning 01000131 c3a9*150 00 = Warning @107374182400 |||||\
    éééééééééééééééééééééééééééééééééééééééééééééééééééééééééééééééé\
    ééééééééééééééééééééééééééééééééééééééééééééééééééééééééééééééé|; Whole
";

#[test]
fn says_its_items(rt: HostRuntime) -> Result<(), Fail> {
    let alloc = rt.alloc();
    let types = TypesDb::builtin(alloc)?;
    for table in [FIELDS, TEXTS, LENGTHS, TIMES, VALUE_PARTS, MESSAGES, LONG] {
        for row in table.lines() {
            let (words, want) = row.split_once(" = ").ok_or("no row")?;
            let bytes = packet(alloc, words)?;
            let decoded = items(alloc, bytes.as_slice(), &types, 10 * SECOND)?;
            let copy = Decoded {
                items: decoded.items.copy(alloc)?,
                refused: decoded.refused.copy(alloc)?,
                end: decoded.end,
            };
            assert_eq!(rt; shown(alloc, &copy)?.as_str(), want, "of {words}");
        }
    }
    Ok(())
}

/// The packet of a host, a time, a plugin, a type, a derive and a gauge.
const SAMPLE: &str = "host at_100_s plugin derive five a_gauge";

/// Where its parts begin, and where it ends.
const PLACES: [u64; 7] = [0, 6, 18, 24, 35, 50, 65];

/// How the front of the sample of a length ends.
fn end_at(length: u64) -> PacketEnd {
    match PLACES.iter().rev().find(|place| **place <= length) {
        Some(place) if *place < length => PacketEnd::BadLength(*place),
        _ => PacketEnd::Whole,
    }
}

#[test]
fn each_front_of_the_sample(rt: HostRuntime) -> Result<(), Fail> {
    let alloc = rt.alloc();
    let types = TypesDb::builtin(alloc)?;
    let mut front = Vec::new(alloc);
    for byte in packet(alloc, SAMPLE)? {
        front.push(byte)?;
        let length = front.len() as u64;
        let decoded = items(alloc, front.as_slice(), &types, SECOND)?;
        let as_wanted = decoded.end == end_at(length)
            && decoded.items.len() == usize::from(length >= 50)
            && decoded.refused.len() == usize::from(length == 65);
        assert!(rt; as_wanted, "of {length}");
    }
    let cut = parts(alloc, front.as_slice())?;
    let list = cut.list.copy(alloc)?;
    assert_eq!(rt; list.len(), 6);
    for (part, place) in list.as_slice().iter().zip(PLACES) {
        assert_eq!(rt; part.place, place);
    }
    Ok(())
}
