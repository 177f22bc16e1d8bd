//! Runs over memory with several plug-ins, worked by hand: the limits of the write queue, flushes, blocks of the
//! configuration, the order of calls, and shelves.
use crate::runs::{Shelf, gave, run_on, shelf_of, told};
use cd_io::LinkPlan;
use cd_plugins::Telling;
use cd_registry::{Answer, Kinds};
use cd_serve::{End, ShelfFault, ShelvedOf, ShelvedProbeOf, check_shelves};
use cd_value::{Memory, Text};
use std::alloc::Global;
use std::test::Fail;

/// The kinds of a writer that is configured.
const CONFIGURED: Kinds = Kinds(17);

/// Plug-ins on a shelf, a configuration, lines, what is said for them, and what the plug-ins got. The words of the dice
/// are 5, 8, 11 and 14.
const ROWS: [(&[(&str, Kinds, Answer)], &str, &str, &str, &str); 8] = [
    // From the high limit on each list is dropped.
    (
        &[("w", Kinds::WRITE, Answer::Done)],
        "WriteQueueLimitHigh 2\nWriteQueueLimitLow 2\nLoadPlugin w\n",
        "PUTVAL h/p/gauge 1:1 2:2 3:3\n",
        "0 Success\n",
        "w: write h/p/gauge 1\nw: write h/p/gauge 2\n",
    ),
    // Between the limits, where one waits, the even word drops its list, and the odd one doesn't.
    (
        &[("w", Kinds::WRITE, Answer::Done)],
        "WriteQueueLimitHigh 2\nWriteQueueLimitLow 1\nLoadPlugin w\n",
        "PUTVAL h/p/gauge 1:1 2:2 3:3 4:4\n",
        "0 Success\n",
        "w: write h/p/gauge 1\nw: write h/p/gauge 3\n",
    ),
    // A pair whose plug-in isn't there is an error.
    (
        &[
            ("w", Kinds::WRITE, Answer::Done),
            ("csv", Kinds::FLUSH, Answer::Done),
        ],
        "LoadPlugin w\nLoadPlugin csv\n",
        "FLUSH plugin=csv plugin=none identifier=h/df/df-root\n",
        "0 Done: 1 successful, 1 errors\n",
        "csv: flush 0 h/df/df-root\n",
    ),
    // Without a plug-in named all that are flushed are meant, and without a name all values; a call that fails is an
    // error.
    (
        &[
            ("a", Kinds::FLUSH, Answer::Done),
            ("b", Kinds::FLUSH, Answer::Failed),
        ],
        "LoadPlugin b\nLoadPlugin a\n",
        "FLUSH\nFLUSH timeout=10 identifier=h/p/gauge identifier=h/q/gauge\n",
        "0 Done: 1 successful, 1 errors\n0 Done: 4 successful, 0 errors\n",
        "a: flush 0\na: flush 1 h/p/gauge\na: flush 1 h/q/gauge\nb: flush 0\nb: flush 1 h/p/gauge\nb: flush 1 h/q/gauge\n",
    ),
    // A writer isn't flushed, and neither is a plug-in that the file doesn't load.
    (
        &[
            ("w", Kinds::WRITE, Answer::Done),
            ("csv", Kinds::FLUSH, Answer::Done),
        ],
        "LoadPlugin w\n",
        "FLUSH\nFLUSH plugin=w\nFLUSH plugin=csv\n",
        "0 Done: 0 successful, 0 errors\n0 Done: 0 successful, 1 errors\n0 Done: 0 successful, 1 errors\n",
        "",
    ),
    // A plug-in gets its block in canonical text before its first write.
    (
        &[("csv", CONFIGURED, Answer::Done)],
        "LoadPlugin csv\n<Plugin csv>\n\tDataDir   \"/x\"   # raw values\n\tStoreRates yes\n</Plugin>\n",
        "\nPUTVAL h/p/gauge 1:1\n",
        "0 Success\n",
        "csv: configure DataDir \"/x\"\nStoreRates true\n\ncsv: write h/p/gauge 1\n",
    ),
    // Without a block it gets an empty one; and a plug-in that isn't to be configured gets none.
    (
        &[
            ("csv", CONFIGURED, Answer::Failed),
            ("w", Kinds::WRITE, Answer::Done),
        ],
        "LoadPlugin w\nLoadPlugin csv\n<Plugin w>\nA 1\n</Plugin>\n",
        "PUTVAL h/p/gauge 1:1\n",
        "0 Success\n",
        "csv: configure \ncsv: write h/p/gauge 1\nw: write h/p/gauge 1\n",
    ),
    // Each writer that is loaded gets each list. One that isn't gets nothing, and comes back in its place.
    (
        &[
            ("a", Kinds::WRITE, Answer::Done),
            ("b", Kinds::WRITE, Answer::Done),
            ("c", Kinds::WRITE, Answer::Done),
        ],
        "LoadPlugin c\nLoadPlugin none\nLoadPlugin a\n",
        "PUTVAL h/p/gauge 1:1 2:2\n",
        "0 Success\n",
        "a: write h/p/gauge 1\na: write h/p/gauge 2\nc: write h/p/gauge 1\nc: write h/p/gauge 2\n",
    ),
];

#[test]
fn plug_ins_get_their_calls(rt: HostRuntime) -> Result<(), Fail> {
    let alloc = rt.alloc();
    for (plugs, configuration, input, said, got) in ROWS {
        let shelf = shelf_of(alloc, plugs)?;
        let files = [("c", configuration)];
        let input = input.as_bytes().to_vec(alloc)?;
        let plan = LinkPlan::new(alloc);
        let words = "collectd --lines -C c";
        let (ran, output) = run_on(alloc, shelf, words, files.as_slice(), input, plan)?;
        assert!(rt; ran.end == End::Done);
        assert_eq!(rt; output.as_slice(), said.as_bytes());
        assert_eq!(rt; told(alloc, &ran)?.as_str(), got);
        assert_eq!(rt; ran.plugs.len(), plugs.len());
    }
    Ok(())
}

/// Plug-ins on a shelf, a configuration, lines, and what was given: the clock stands at 2,000,000,000 s.
const ORDERS: [(&[(&str, Kinds, Answer)], &str, &str, &[(&str, u64)]); 4] = [
    // The writers are called in the order in which the file loads them, for one list after the other.
    (
        &[
            ("a", Kinds::WRITE, Answer::Done),
            ("b", Kinds::WRITE, Answer::Failed),
        ],
        "LoadPlugin b\nLoadPlugin a\n",
        "PUTVAL h/p/gauge 1:1 2:2\n",
        &[
            ("now", 2_000_000_000),
            ("word", 5),
            ("word", 8),
            ("now", 2_000_000_001),
            ("failed", 0),
            ("done", 0),
            ("now", 2_000_000_002),
            ("done", 0),
            ("done", 0),
        ],
    ),
    // A plug-in is configured at the first line that isn't blank, a refused one too, ..
    (
        &[("csv", CONFIGURED, Answer::Failed)],
        "LoadPlugin csv\n",
        "\n \nFOO\nPUTVAL h/p/gauge 1:1\n",
        &[
            ("now", 2_000_000_000),
            ("failed", 0),
            ("now", 2_000_000_001),
            ("word", 5),
            ("now", 2_000_000_002),
            ("done", 0),
        ],
    ),
    // .. behind the moment and the words of its lists, ..
    (
        &[("csv", CONFIGURED, Answer::Failed)],
        "LoadPlugin csv\n",
        "PUTVAL h/p/gauge 1:1\n",
        &[
            ("now", 2_000_000_000),
            ("word", 5),
            ("failed", 0),
            ("now", 2_000_000_001),
            ("done", 0),
        ],
    ),
    // .. or at the end.
    (
        &[("csv", CONFIGURED, Answer::Failed)],
        "LoadPlugin csv\n",
        "\n",
        &[("failed", 0)],
    ),
];

#[test]
fn calls_come_in_order(rt: HostRuntime) -> Result<(), Fail> {
    let alloc = rt.alloc();
    for (plugs, configuration, input, given) in ORDERS {
        let shelf = shelf_of(alloc, plugs)?;
        let files = [("c", configuration)];
        let input = input.as_bytes().to_vec(alloc)?;
        let plan = LinkPlan::new(alloc);
        let words = "collectd --lines -C c";
        let (ran, _) = run_on(alloc, shelf, words, files.as_slice(), input, plan)?;
        assert!(rt; ran.end == End::Done);
        assert!(rt; gave(&ran, given));
    }
    Ok(())
}

/// A shelf of so many writers.
fn writers(alloc: Global, count: u64) -> Result<Shelf, Memory> {
    let mut shelf = Vec::new(alloc);
    for number in 0..count {
        shelf.push(ShelvedOf {
            name: Text::from_string(format!(in alloc; "w{number}")?),
            kinds: Kinds::WRITE,
            object: Telling::new(alloc, number, Vec::new(alloc)),
        })?;
    }
    Ok(shelf)
}

#[test]
fn many_writers_get_the_list(rt: HostRuntime) -> Result<(), Fail> {
    let alloc = rt.alloc();
    for count in [0, 2, 256] {
        let shelf = writers(alloc, count)?;
        let input = b"PUTVAL h/p/gauge 1:1\n".to_vec(alloc)?;
        let plan = LinkPlan::new(alloc);
        let (ran, output) = run_on(alloc, shelf, "collectd --lines", &[], input, plan)?;
        assert!(rt; ran.end == End::Done);
        assert_eq!(rt; output.as_slice(), b"0 Success\n".as_slice());
        let mut wanted = String::new(alloc);
        for number in 0..count {
            wanted.push_str(format!(in alloc; "w{number}: write h/p/gauge 1\n")?.as_str())?;
        }
        assert_eq!(rt; told(alloc, &ran)?.as_str(), wanted.as_str());
    }
    Ok(())
}

/// Why these writers can't be loaded.
fn refusal(shelf: &Shelf, alloc: Global) -> Option<ShelfFault> {
    let probes: Vec<ShelvedProbeOf<()>> = Vec::new(alloc);
    check_shelves(shelf.as_slice(), probes.as_slice()).err()
}

#[test]
fn shelves_are_refused(rt: HostRuntime) -> Result<(), Fail> {
    let alloc = rt.alloc();
    for (names, fault) in [
        (["w", "threshold", "w"], Some(ShelfFault::Reserved(1))),
        (["unixsock", "w", "w"], Some(ShelfFault::Reserved(0))),
        (["a", "b", "network"], Some(ShelfFault::Reserved(2))),
        (["a", "b", "a"], Some(ShelfFault::NameTaken(2))),
        (["a", "b", "A"], None),
    ] {
        let [first, second, third] = names;
        let plugs = [
            (first, Kinds::WRITE, Answer::Done),
            (second, Kinds::WRITE, Answer::Done),
            (third, Kinds::WRITE, Answer::Done),
        ];
        let shelf = shelf_of(alloc, plugs.as_slice())?;
        assert_eq!(rt; refusal(&shelf, alloc), fault);
    }
    assert_eq!(rt; refusal(&writers(alloc, 256)?, alloc), None);
    assert_eq!(rt;
        refusal(&writers(alloc, 257)?, alloc),
        Some(ShelfFault::TooMany)
    );
    Ok(())
}
