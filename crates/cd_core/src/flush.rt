//! Flushes that are under way.
ghost use Rattle.cd_daemon.specs.Flushes.{flush_of};
ghost use Rattle.cd_core.specs.UnderWay.{after_answer, after_answer_to, counted_as};
ghost use Rattle.std.specs.Prelude.{map, ◌≡◌};

use cd_registry::{Answer, Call};

/// A flush that is under way, as FLUSH of collectd-unixsock(5) asks for it: its number, how many of its calls have no
/// answer, how many were answered with `Done`, and how many otherwise, those pairs of a plug-in and a name besides for
/// which there was nobody to call.
#[derive(Clone, Copy, Debug, PartialEq, Eq)]
pub struct Flush {
    pub number: u64,
    pub unanswered: u64,
    pub successful: u64,
    pub errors: u64,
}

impl Flush {
    /// One of its calls was answered.
    fn count(&mut self, answer: Answer)
        ensures { self.new ≡ after_answer answer self.old }
    {
        self.unanswered = self.unanswered.saturating_sub(1);
        match answer {
            Answer::Done => self.successful = self.successful.saturating_add(1),
            _ => self.errors = self.errors.saturating_add(1),
        }
    }

    /// The same, where it is the flush of that number.
    fn count_as(&mut self, number: u64, answer: Answer)
        ensures { self.new ≡ counted_as number answer self.old }
    {
        if number == self.number {
            self.count(answer);
        }
    }
}

/// A call of the flush of a number was answered.
fn count_answer(flushes: &mut [Flush], number: u64, answer: Answer)
    ensures { flushes.new ≡ map (counted_as number answer) flushes.old }
{
    for flush in flushes.iter_mut() {
        flush.count_as(number, answer);
    }
}

/// A call was answered: where it is one of a flush, it counts there.
pub(crate) fn note_answer(flushes: &mut Vec<Flush>, call: &Call, answer: Answer)
    ensures { flushes.new.items ≡ map (after_answer_to call.now answer) flushes.old.items }
{
    match flush_of(call) {
        Some(number) => count_answer(flushes.as_mut_slice(), number, answer),
        None => {}
    }
}

/// The number of the flush that a call is one of.
fn flush_of(call: &Call) -> Option<u64>
    ensures { result ≡ flush_of call.now }
{
    match call {
        Call::Flush { number, .. } => Some(*number),
        Call::Configure(_) => None,
        Call::Write(_) => None,
        Call::Missing(_) => None,
        Call::Notify(_) => None,
    }
}
