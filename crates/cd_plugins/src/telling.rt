//! A plug-in that keeps what it got.
ghost use Rattle.cd_plugins.specs.Answering.{answer_at};
ghost use Rattle.cd_registry.specs.Told.{calls_after, told_after};
ghost use Rattle.std.specs.Prelude.{None, OnOk, Some, [], drop, option_copied, slice_get, ◌++◌, ◌+◌, ◌∷◌, ◌≡◌, ◌≢◌, ◌⊎◌};

use cd_registry::{Answer, AnsweredCall, Call, Plug, TellsCalls};
use cd_value::{Memory, Sequence, TryCopy};
use std::alloc::Global;

/// A plug-in that gives the answers of its list in order and then `Done`, and keeps each call with its answer as long
/// as memory serves.
#[derive(Drop)]
pub struct Telling {
    alloc: Global,
    mark: u64,
    answers: Vec<Answer>,
    entered: usize,
    calls: Option<Sequence<AnsweredCall>>,
}

impl Telling {
    ghost use Rattle.cd_plugins.specs.Telling.{answers_left};

    /// A plug-in that has got no call, and that will give these answers.
    pub fn new(alloc: Global, mark: u64, answers: Vec<Answer>) -> Self
        ensures tells { ⟦<Telling as TellsCalls>⟧.plug_tells result ≡
            record { mark = mark; calls = Some [] } }
        ensures answers { answers_left result ≡ answers.items }
    {
        Telling {
            alloc,
            mark,
            answers,
            entered: 0,
            calls: Some(Sequence::new(alloc)),
        }
    }

    /// The calls that it got with its answers, oldest first; none after memory was lacking for one.
    pub fn calls(&self) -> Option<&[AnsweredCall]>
        ensures { option_copied result ≡ (⟦<Telling as TellsCalls>⟧.plug_tells self.now).calls }
    {
        match &self.calls {
            Some(calls) => Some(calls.as_slice()),
            None => None,
        }
    }
}

// The answer of the list at a place, and `Done` behind its end.
fn answer_of(answers: &[Answer], place: usize) -> Answer
    ensures { result ≡ answer_at answers.now place }
{
    match answers.get(place) {
        Some(answer) => *answer,
        None => Answer::Done,
    }
}

// Puts a call with its answer behind the others.
fn put(
    alloc: Global,
    calls: &mut Sequence<AnsweredCall>,
    call: &Call,
    answer: Answer,
) -> Result<(), Memory>
    ensures { OnOk result (calls.new ≡
        calls.old ++ record { call = call.now; answer = answer } ∷ []) }
{
    let call = call.copy(alloc)?;
    calls.push(AnsweredCall { call, answer })
}

// Keeps a call with its answer, where calls are kept. The answer is that memory was lacking where it was.
fn keep(
    alloc: Global,
    calls: &mut Option<Sequence<AnsweredCall>>,
    call: &Call,
    answer: Answer,
) -> Answer
    ensures kept { calls.new ≡ calls_after call.now result calls.old }
    ensures answer { (result ≡ answer) ⊎ (result ≡ Answer.Memory) }
{
    if answer == Answer::Memory {
        *calls = None;
        return Answer::Memory;
    }
    let kept = match calls {
        Some(calls) => put(alloc, calls, call, answer),
        None => return answer,
    };
    if kept.is_err() {
        *calls = None;
        return Answer::Memory;
    }
    answer
}

impl TellsCalls for Telling {
    ghost plug_tells = { λ t. record { mark = t.mark; calls = t.calls } };
}

impl Plug for Telling {
    ghost use Rattle.cd_plugins.specs.Telling.{answers_left};

    fn enter(&mut self, call: &Call) -> Answer
        ensures tells { ⟦<Telling as TellsCalls>⟧.plug_tells self.new ≡
            told_after call.now result (⟦<Telling as TellsCalls>⟧.plug_tells self.old) }
        ensures answer { (result ≡ answer_at (answers_left self.old) 0) ⊎ (result ≡ Answer.Memory) }
        ensures order { answers_left self.new ≡ drop 1 (answers_left self.old) }
    {
        let answer = answer_of(&self.answers, self.entered);
        self.entered = self.entered.saturating_add(1);
        keep(self.alloc, &mut self.calls, call, answer)
    }
}
