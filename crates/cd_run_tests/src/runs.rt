//! What the tests share: shelves of plug-ins that keep what they get, runs over memory, and what came of them.
use cd_history::Given;
use cd_io::{LinkPlan, MemFile, MemLink, MemWorld};
use cd_plugins::Telling;
use cd_registry::{Answer, Call, Kinds, Probe};
use cd_serve::{RanOf, ShelvedOf, ShelvedProbe, check_shelves, run_of};
use cd_value::{Memory, SECOND, Text};
use std::alloc::Global;
use std::marker::Send;
use std::test::Fail;

/// What a run with plug-ins that keep what they get leaves.
pub(crate) type Ran = RanOf<Telling, Box<dyn Probe + Send>>;

/// A shelf of such plug-ins.
pub(crate) type Shelf = Vec<ShelvedOf<Telling>>;

/// A shelf of plug-ins of these names and kinds, each with its place as its mark, which give this answer to their first
/// call.
pub(crate) fn shelf_of(alloc: Global, plugs: &[(&str, Kinds, Answer)]) -> Result<Shelf, Memory> {
    let mut shelf = Vec::new(alloc);
    for (mark, (name, kinds, answer)) in plugs.iter().enumerate() {
        let mut answers = Vec::new(alloc);
        answers.push(*answer)?;
        shelf.push(ShelvedOf {
            name: Text::of(alloc, name)?,
            kinds: *kinds,
            object: Telling::new(alloc, mark as u64, answers),
        })?;
    }
    Ok(shelf)
}

/// A run by words that are cut at blanks, over files of these paths and texts, where one isn't empty, with these
/// plug-ins, over an input that is heard and told by a plan; and what it said. The clock stands at 2,000,000,000 s and
/// goes on by a second with each question, and the dice give 5, 8, 11 and so on.
pub(crate) fn run_on(
    alloc: Global,
    shelf: Shelf,
    line: &str,
    files: &[(&str, &str)],
    input: Vec<u8>,
    plan: LinkPlan,
) -> Result<(Ran, Vec<u8>), Fail> {
    let probes: Vec<ShelvedProbe> = Vec::new(alloc);
    if check_shelves(shelf.as_slice(), probes.as_slice()).is_err() {
        return Err(Fail::from("the shelf can't be loaded"));
    }
    let mut words = Vec::new(alloc);
    for word in line.split_whitespace() {
        words.push(String::from_str(alloc, word)?)?;
    }
    let mut world = MemWorld::new(alloc, (2_000_000_000 * SECOND, SECOND), (5, 3));
    for (path, text) in files {
        if !text.is_empty() {
            world.add_file(MemFile::of(alloc, path, text.as_bytes())?)?;
        }
    }
    let mut link = MemLink::new(alloc, input, plan);
    let ran = run_of(
        alloc,
        words.as_slice(),
        &mut world,
        &mut link,
        shelf,
        probes,
    );
    let output = link.output().ok_or("the output isn't told")?;
    Ok((ran, output.to_vec(alloc)?))
}

/// A call as a text: a write by its name and its time in whole seconds, a flush by its number and its name.
fn call_text(alloc: Global, call: &Call) -> Result<String, Fail> {
    Ok(match call {
        Call::Configure(text) => format!(in alloc; "configure {}", text.as_str())?,
        Call::Write(list) => {
            let name = list.id.name(alloc)?;
            format!(in alloc; "write {} {}", name.as_str(), list.time / SECOND)?
        }
        Call::Flush { number, name, .. } => match name {
            Some(name) => format!(in alloc; "flush {number} {}", name.as_str())?,
            None => format!(in alloc; "flush {number}")?,
        },
        Call::Missing(_) => format!(in alloc; "missing")?,
        Call::Notify(_) => format!(in alloc; "notify")?,
    })
}

/// What the plug-ins that came back have got: a line for each call, with the plug-in's name, in the order of the shelf.
pub(crate) fn told(alloc: Global, ran: &Ran) -> Result<String, Fail> {
    let mut text = String::new(alloc);
    for plug in ran.plugs.iter() {
        let calls = plug.object.calls().ok_or("the calls aren't told")?;
        for entered in calls {
            let call = call_text(alloc, &entered.call)?;
            text.push_str(format!(in alloc;
                "{}: {}\n",
                plug.name.as_str(),
                call.as_str()
            )?.as_str())?;
        }
    }
    Ok(text)
}

/// Whether the moments, words and answers that were given are these, in order; moments in
/// seconds.
pub(crate) fn gave(ran: &Ran, wanted: &[(&str, u64)]) -> bool {
    let given = ran.given.as_slice();
    given.len() == wanted.len()
        && given.iter().zip(wanted).all(|(one, want)| match one {
            Given::Now(now) => want.0 == "now" && *now == want.1 << 30,
            Given::Word(word) => want.0 == "word" && *word == want.1,
            Given::Answered(answer) => want.0 == name_of(*answer),
            Given::Read(_) => false,
        })
}

/// The name of an answer.
fn name_of(answer: Answer) -> &'static str {
    match answer {
        Answer::Done => "done",
        Answer::Failed => "failed",
        Answer::Memory => "memory",
    }
}
