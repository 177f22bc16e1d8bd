//! Runs over memory with one plug-in or none, whose answers and lines are worked by hand.
use crate::runs::{Ran, Shelf, gave, run_on, shelf_of, told};
use cd_io::{LinkPlan, MemLink, MemWorld};
use cd_plugins::Telling;
use cd_registry::{Answer, Call, Kinds, Plug, Probe, Reading, TellsReadings};
use cd_serve::{End, INPUT_LIMIT, Shelved, ShelvedProbe, check_shelves, run, status, text_of};
use cd_value::{Memory, SECOND, Text, Value};
use std::alloc::Global;
use std::marker::Send;
use std::test::Fail;

/// A shelf with a writer of that name.
fn shelf(alloc: Global, name: &str) -> Result<Shelf, Memory> {
    shelf_of(alloc, &[(name, Kinds::WRITE, Answer::Done)])
}

/// A run over these bytes with the writer `w`, and what it wrote.
fn ran(alloc: Global, word: &str, bytes: &[u8], plan: LinkPlan) -> Result<(Ran, Vec<u8>), Fail> {
    let shelf = shelf(alloc, "w")?;
    let words = format!(in alloc; "collectd {word}")?;
    run_on(
        alloc,
        shelf,
        words.as_str(),
        &[],
        bytes.to_vec(alloc)?,
        plan,
    )
}

/// The time, the interval and the first value of the first write that came back.
fn first_write(ran: &Ran) -> Option<(u64, u64, Value)> {
    let plug = ran.plugs.first()?;
    let entered = plug.object.calls()?.first()?;
    match &entered.call {
        Call::Write(list) => Some((list.time, list.interval, *list.values.as_slice().first()?)),
        _ => None,
    }
}

#[test]
fn one_line_reaches_the_plug_in(rt: HostRuntime) -> Result<(), Fail> {
    let alloc = rt.alloc();
    let line = b"PUTVAL h/p/derive interval=10 1000:5\n";
    let (ran, output) = ran(alloc, "--lines", line.as_slice(), LinkPlan::new(alloc))?;
    assert!(rt; ran.end == End::Done);
    assert_eq!(rt; output.as_slice(), b"0 Success\n".as_slice());
    assert_eq!(rt; told(alloc, &ran)?.as_str(), "w: write h/p/derive 1000\n");
    assert_eq!(rt;
        first_write(&ran),
        Some((1000 * SECOND, 10 * SECOND, Value::Derive(5)))
    );
    let given = [
        ("now", 2_000_000_000),
        ("word", 5),
        ("now", 2_000_000_001),
        ("done", 0),
    ];
    assert!(rt; gave(&ran, given.as_slice()));
    Ok(())
}

/// Lines and what is written for them.
const ROWS: [(&str, &str); 10] = [
    ("", ""),
    ("\n \t\r\n", ""),
    (
        "PUTVAL h/p/counter 100:4294967290 110:5\nGETVAL h/p/counter\n",
        "0 Success\n1 Value found\nvalue=1.100000\n",
    ),
    (
        "PUTVAL h/p/derive 100:1 100:5\nGETVAL h/p/derive\nLISTVAL\n",
        "0 Success\n1 Value found\nvalue=NaN\n1 Value found\n100 h/p/derive\n",
    ),
    (
        "PUTVAL h/p/gauge 1:1.26e+00\nGETVAL h/p/gauge\nPUTVAL h/p/gauge 2:-0.0000009\nGETVAL h/p/gauge\nPUTVAL h/p/gauge 3:U\nGETVAL h/p/gauge",
        "0 Success\n1 Value found\nvalue=1.260000\n0 Success\n1 Value found\nvalue=0.000000\n0 Success\n1 Value found\nvalue=NaN\n",
    ),
    (
        "PUTVAL h/p/gauge 1:1e24\nGETVAL h/p/gauge\nPUTVAL h/p/gauge 2:1.1e24\n",
        "0 Success\n1 Value found\nvalue=1000000000000000000000000.000000\n-1 Bad value\n",
    ),
    (
        "PUTVAL h/p/gauge 17179869183.999999999:1\nLISTVAL\nPUTVAL h/p/gauge 17179869184:1\n",
        "0 Success\n1 Value found\n17179869183 h/p/gauge\n-1 Bad time\n",
    ),
    (
        "GETVAL h/p/none\nGETVAL h\nPUTVAL h/p/none 1:1\nPUTVAL h/p/derive 1:1:1\nFOO\nGETVAL \"h\nGETVAL\nLISTVAL x\n",
        "-1 No such value\n-1 Bad identifier\n-1 Unknown type\n-1 Wrong number of values\n-1 Unknown command\n-1 Unterminated quote\n-1 Missing argument\n-1 Bad option\n",
    ),
    (
        "PUTVAL b/p/gauge 1:1\nPUTVAL a/p/gauge 2:2\nPUTVAL a-b/p/gauge 3:3\nlistval\n",
        "0 Success\n0 Success\n0 Success\n3 Values found\n3 a-b/p/gauge\n2 a/p/gauge\n1 b/p/gauge\n",
    ),
    (
        "PUTVAL h/p/absolute 10:7 20:7\ngetval h/p/absolute\nPUTVAL h/p/absolute 15:7\nGETVAL h/p/absolute\n",
        "0 Success\n1 Value found\nvalue=0.700000\n0 Success\n1 Value found\nvalue=0.700000\n",
    ),
];

#[test]
fn lines_are_answered(rt: HostRuntime) -> Result<(), Fail> {
    let alloc = rt.alloc();
    for (lines, written) in ROWS {
        let mut plan = LinkPlan::new(alloc);
        plan.piece_limit = 1;
        let (ran, output) = ran(alloc, "--lines", lines.as_bytes(), plan)?;
        assert!(rt; ran.end == End::Done);
        assert_eq!(rt; output.as_slice(), written.as_bytes());
    }
    Ok(())
}

/// The times, in seconds, and the values of the writes that came back.
fn writes(ran: &Ran, wanted: &[(u64, i64)]) -> bool {
    let Some(plug) = ran.plugs.first() else {
        return false;
    };
    let Some(calls) = plug.object.calls() else {
        return false;
    };
    calls.len() == wanted.len()
        && calls.iter().zip(wanted).all(|(one, want)| match &one.call {
            Call::Write(list) => {
                list.time == want.0 << 30
                    && list.values.as_slice().first() == Some(&Value::Derive(want.1))
            }
            _ => false,
        })
}

#[test]
fn older_list_is_still_written(rt: HostRuntime) -> Result<(), Fail> {
    let alloc = rt.alloc();
    let equal = b"PUTVAL h/p/derive 100:1 100:5\n";
    let (twice, _) = ran(alloc, "--lines", equal.as_slice(), LinkPlan::new(alloc))?;
    assert!(rt; writes(&twice, [(100, 1), (100, 5)].as_slice()));
    let older = b"PUTVAL h/p/derive 100:1 100:5 90:3\n";
    let (thrice, _) = ran(alloc, "--lines", older.as_slice(), LinkPlan::new(alloc))?;
    assert!(rt; writes(&thrice, [(100, 1), (100, 5), (90, 3)].as_slice()));
    Ok(())
}

#[test]
fn a_time_is_cut_to_its_unit(rt: HostRuntime) -> Result<(), Fail> {
    let alloc = rt.alloc();
    let line = b"PUTVAL h/p/gauge 17179869183.999999999:1\n";
    let (ran, _) = ran(alloc, "--lines", line.as_slice(), LinkPlan::new(alloc))?;
    let (time, _, value) = first_write(&ran).ok_or("no write")?;
    assert_eq!(rt; time, 18_446_744_073_709_551_614);
    assert_eq!(rt; value, Value::Gauge(Some(1_000_000)));
    Ok(())
}

#[test]
fn links_fail(rt: HostRuntime) -> Result<(), Fail> {
    let alloc = rt.alloc();
    let lines = b"PUTVAL h/p/derive interval=10 1000:5\nPUTVAL h/p/derive interval=10 1010:5\n";
    let mut says = LinkPlan::new(alloc);
    says.failing_says.push(1)?;
    let (second, output) = ran(alloc, "--lines", lines.as_slice(), says)?;
    assert!(rt; second.end == End::LinkFault);
    assert_eq!(rt; output.as_slice(), b"0 Success\n".as_slice());
    assert!(rt; writes(&second, [(1000, 5), (1010, 5)].as_slice()));
    let mut hears = LinkPlan::new(alloc);
    hears.failing_hears.push(0)?;
    let (first, output) = ran(alloc, "--lines", lines.as_slice(), hears)?;
    assert!(rt; first.end == End::LinkFault);
    assert_eq!(rt; output.len(), 0);
    let mut quiet = LinkPlan::new(alloc);
    quiet.quiet_hears.push(0)?;
    let (early, output) = ran(alloc, "--lines", lines.as_slice(), quiet)?;
    assert!(rt; early.end == End::Done);
    assert_eq!(rt; output.len(), 0);
    Ok(())
}

/// A command with blanks up to that length, and a newline.
fn padded(alloc: Global, command: &[u8], length: usize) -> Result<Vec<u8>, Memory> {
    let mut line = command.to_vec(alloc)?;
    line.resize(length, b' ')?;
    line.push(b'\n')?;
    Ok(line)
}

#[test]
fn long_lines_are_refused(rt: HostRuntime) -> Result<(), Fail> {
    let alloc = rt.alloc();
    let mut lines = padded(alloc, b"LISTVAL".as_slice(), 4096)?;
    lines.extend_from_slice(padded(alloc, b"LISTVAL".as_slice(), 4097)?.as_slice())?;
    lines.extend_from_slice(b"LISTVAL\n".as_slice())?;
    let (ran, output) = ran(alloc, "--lines", lines.as_slice(), LinkPlan::new(alloc))?;
    assert!(rt; ran.end == End::Done);
    let written = b"0 Values found\n-1 Line too long\n0 Values found\n";
    assert_eq!(rt; output.as_slice(), written.as_slice());
    Ok(())
}

/// A line of blanks, of as many bytes as a line may have.
fn blank_line(alloc: Global) -> Result<Vec<u8>, Fail> {
    let mut line = Vec::new(alloc);
    line.resize(4_095, b' ')?;
    line.push(b'\n')?;
    Ok(line)
}

/// A LISTVAL, and blank lines up to the limit of the input.
fn as_much_as_is_taken(alloc: Global) -> Result<Vec<u8>, Fail> {
    let line = blank_line(alloc)?;
    let mut bytes = b"LISTVAL\n".to_vec(alloc)?;
    bytes.resize(4_096, b'\n')?;
    for _ in 1..INPUT_LIMIT / 4_096 {
        bytes.extend_from_slice(line.as_slice())?;
    }
    Ok(bytes)
}

#[test]
fn too_much_input_ends_the_run(rt: HostRuntime) -> Result<(), Fail> {
    let alloc = rt.alloc();
    let mut bytes = as_much_as_is_taken(alloc)?;
    assert_eq!(rt; bytes.len(), INPUT_LIMIT);
    let (full, _) = ran(alloc, "--lines", bytes.as_slice(), LinkPlan::new(alloc))?;
    assert!(rt; full.end == End::Done);
    bytes.push(b'\n')?;
    let (more, output) = ran(alloc, "--lines", bytes.as_slice(), LinkPlan::new(alloc))?;
    assert!(rt; more.end == End::InputTooLong);
    assert_eq!(rt; output.as_slice(), b"0 Values found\n".as_slice());
    Ok(())
}

#[test]
fn words_and_ends(rt: HostRuntime) -> Result<(), Fail> {
    let alloc = rt.alloc();
    let (other, output) = ran(alloc, "-t", b"LISTVAL\n".as_slice(), LinkPlan::new(alloc))?;
    assert!(rt; other.end == End::Usage);
    assert_eq!(rt; output.len(), 0);
    assert_eq!(rt; told(alloc, &other)?.as_str(), "");
    for (end, number, text) in [
        (End::Done, 0, ""),
        (
            End::Usage,
            1,
            "collectd: usage: collectd [-f] [-C file] [-t, -T, --lines or --load N]\n",
        ),
        (End::LinkFault, 5, "collectd: link failed\n"),
        (End::InputTooLong, 7, "collectd: input too long\n"),
        (End::Memory, 9, "collectd: out of memory\n"),
    ] {
        assert_eq!(rt; status(&end), number);
        assert_eq!(rt; text_of(alloc, &end)?.as_str(), text);
    }
    Ok(())
}

#[test]
fn nobody_writes(rt: HostRuntime) -> Result<(), Fail> {
    let alloc = rt.alloc();
    let lines = b"PUTVAL h/p/derive interval=10 1000:5\nLISTVAL\n".to_vec(alloc)?;
    let plan = LinkPlan::new(alloc);
    let (empty, output) = run_on(alloc, Vec::new(alloc), "collectd --lines", &[], lines, plan)?;
    assert!(rt; empty.end == End::Done);
    let written = b"0 Success\n1 Value found\n1000 h/p/derive\n";
    assert_eq!(rt; output.as_slice(), written.as_slice());
    assert_eq!(rt; empty.plugs.len(), 0);
    let given = [
        ("now", 2_000_000_000),
        ("word", 5),
        ("now", 2_000_000_001),
        ("now", 2_000_000_002),
    ];
    assert!(rt; gave(&empty, given.as_slice()));
    Ok(())
}

/// A reader that tells no readings.
#[derive(Drop)]
struct Silent;

impl TellsReadings for Silent {
    ghost use Rattle.std.specs.Prelude.{None};

    ghost probe_tells = { λ probe. record { mark = 0; faults = 0; readings = None } };
}

impl Probe for Silent {
    fn read(&mut self, _now: u64) -> Reading {
        Reading::Memory
    }
}

#[test]
fn boxed_objects_come_back(rt: HostRuntime) -> Result<(), Fail> {
    let alloc = rt.alloc();
    let mut words = Vec::new(alloc);
    for word in ["collectd", "--lines"] {
        words.push(String::from_str(alloc, word)?)?;
    }
    let object: Box<dyn Plug + Send> = Box::new(alloc, Telling::new(alloc, 7, Vec::new(alloc)))?;
    let mut plugs = Vec::new(alloc);
    plugs.push(Shelved {
        name: Text::of(alloc, "w")?,
        kinds: Kinds::WRITE,
        object,
    })?;
    let reader: Box<dyn Probe + Send> = Box::new(alloc, Silent)?;
    let mut probes = Vec::new(alloc);
    probes.push(ShelvedProbe {
        name: Text::of(alloc, "r")?,
        object: reader,
    })?;
    if check_shelves(plugs.as_slice(), probes.as_slice()).is_err() {
        return Err(Fail::from("the shelves can't be loaded"));
    }
    let mut world = MemWorld::new(alloc, (0, 1), (0, 1));
    let bytes = b"PUTVAL h/p/derive 1:5\n".to_vec(alloc)?;
    let mut input = MemLink::new(alloc, bytes, LinkPlan::new(alloc));
    let ran = run(
        alloc,
        words.as_slice(),
        &mut world,
        &mut input,
        plugs,
        probes,
    );
    assert!(rt; ran.end == End::Done);
    assert_eq!(rt; ran.plugs.len(), 1);
    let back = ran.probes.first().ok_or("no reader")?;
    assert_eq!(rt; back.name.as_str(), "r");
    assert_eq!(rt; input.output(), Some(b"0 Success\n".as_slice()));
    Ok(())
}
