//! The program over what the machine gives it.
use crate::{Outcome, run_gathered};
use cd_io::{RealWorld, Streams};
use cd_plugins::Telling;
use cd_serve::End;
use std::env;
use std::io::ErrorKind;
use std::process::ExitCode;

/// The words of the command line, the program's name first. One that isn't UTF-8 is none of the program's.
fn words(rt: &HostRuntime) -> Result<Vec<String>, End> {
    let given = match env::args(rt) {
        Ok(given) => given,
        Err(error) if error.kind() == ErrorKind::InvalidData => return Err(End::Usage),
        Err(_) => return Err(End::Memory),
    };
    let mut words = Vec::new(rt.alloc());
    for word in given {
        if words.push(word).is_err() {
            return Err(End::Memory);
        }
    }
    Ok(words)
}

/// Serves standard input and output by the words of the command line.
fn serve_here(rt: &HostRuntime) -> Outcome {
    let alloc = rt.alloc();
    let words = match words(rt) {
        Ok(words) => words,
        Err(end) => return Outcome::of(alloc, end),
    };
    let Ok(object) = Box::new(alloc, Telling::new(alloc, 0, Vec::new(alloc))) else {
        return Outcome::of(alloc, End::Memory);
    };
    let mut world = RealWorld::new(*rt);
    let streams = Streams::new(*rt, rt.stdin(), rt.stdout());
    let (ran, _) = run_gathered(alloc, words.as_slice(), &mut world, streams, object);
    match ran {
        Some(ran) => Outcome::of(alloc, ran.end),
        None => Outcome::of(alloc, End::Memory),
    }
}

/// Serves, writes what is to be said on standard error, and gives the exit status.
pub fn start(rt: &HostRuntime) -> ExitCode {
    let outcome = serve_here(rt);
    let _ = outcome.tell(&mut rt.stderr());
    ExitCode::from(outcome.status)
}
