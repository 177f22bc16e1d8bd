//! Who is registered, as a plain list: each call is kept for good.
use crate::step::Joining;
use cd_core::RegisterFault;
use cd_registry::{Answer, AnsweredCall, Call, Kinds, NotRegistered, RetireFault};
use cd_value::{Memory, Text, TryCopy};
use std::alloc::Global;

/// The most registrations that may be live at once.
const LIVE_LIMIT: usize = 256;

/// A registration.
#[derive(Drop)]
struct Registration {
    name: Text,
    kinds: Kinds,
    /// Who closed it.
    closer: Option<u64>,
    /// Who has its plug-in for a call.
    holder: Option<u64>,
    retired: bool,
    /// All calls that were made to it, how many of them were taken, and what was answered to them.
    calls: Vec<Call>,
    taken: usize,
    answered: Vec<Answer>,
    /// What its plug-in will answer before it answers `Done`.
    answers: Vec<Answer>,
}

impl Registration {
    fn is_live(&self) -> bool {
        self.closer.is_none()
    }

    fn is_live_as(&self, name: &Text) -> bool {
        self.is_live() && self.name == *name
    }

    /// Whether its plug-in is at home and a call waits for it.
    fn is_ready(&self) -> bool {
        self.holder.is_none() && self.taken < self.calls.len()
    }

    /// Why its plug-in isn't handed out for good.
    fn retire_fault(&self) -> Option<RetireFault> {
        if self.is_live() || self.retired {
            return Some(RetireFault::NotRegistered);
        }
        if let Some(actor) = self.holder {
            return Some(RetireFault::Out(actor));
        }
        let waiting = self.calls.len().saturating_sub(self.taken) as u64;
        if waiting == 0 {
            None
        } else {
            Some(RetireFault::Pending(waiting))
        }
    }

    /// The calls with their answers.
    fn told(&self, alloc: Global) -> Result<Vec<AnsweredCall>, Memory> {
        let mut told = Vec::new(alloc);
        for (call, answer) in self.calls.iter().zip(&self.answered) {
            let call = call.copy(alloc)?;
            told.push(AnsweredCall {
                call,
                answer: *answer,
            })?;
        }
        Ok(told)
    }

    /// The first call that wasn't taken goes out with an actor.
    fn take(&mut self, alloc: Global, actor: u64) -> Result<Option<Call>, Memory> {
        let Some(call) = self.calls.get(self.taken) else {
            return Ok(None);
        };
        let call = call.copy(alloc)?;
        self.taken = self.taken.saturating_add(1);
        self.holder = Some(actor);
        Ok(Some(call))
    }

    /// Its plug-in comes home.
    fn come_home(&mut self) -> Result<Answer, Memory> {
        let answer = match self.answers.get(self.answered.len()) {
            Some(answer) => *answer,
            None => Answer::Done,
        };
        self.answered.push(answer)?;
        self.holder = None;
        Ok(answer)
    }
}

/// All registrations, and the numbers of those whose plug-in is out, in the order in which they were taken.
#[derive(Drop)]
pub struct Registrations {
    all: Vec<Registration>,
    out: Vec<usize>,
}

impl Registrations {
    pub fn new(alloc: Global) -> Registrations {
        Registrations {
            all: Vec::new(alloc),
            out: Vec::new(alloc),
        }
    }

    pub fn count(&self) -> u64 {
        self.all.len() as u64
    }

    /// Who closed the registration of a number.
    pub fn closer(&self, reg: u64) -> Option<u64> {
        self.all.get(reg as usize)?.closer
    }

    /// The number of the live registration of a name.
    fn live_as(&self, name: &Text) -> Option<usize> {
        self.all.iter().position(|one| one.is_live_as(name))
    }

    /// The same, where it is registered for that kind.
    pub fn find(&self, name: &Text, kind: Kinds) -> Option<usize> {
        self.all
            .iter()
            .position(|one| one.is_live_as(name) && one.kinds.has(kind))
    }

    /// The numbers of the live registrations of that kind.
    pub fn listening(&self, alloc: Global, kind: Kinds) -> Result<Vec<usize>, Memory> {
        let mut regs = Vec::new(alloc);
        for (reg, one) in self.all.iter().enumerate() {
            if one.is_live() && one.kinds.has(kind) {
                regs.push(reg)?;
            }
        }
        Ok(regs)
    }

    /// Why no plug-in may be registered under a name.
    fn fault(&self, name: &Text) -> Option<RegisterFault> {
        if is_reserved(name.as_str()) {
            return Some(RegisterFault::Reserved);
        }
        if let Some(reg) = self.live_as(name) {
            return Some(RegisterFault::NameTaken(reg as u64));
        }
        if self.all.iter().filter(|one| one.is_live()).count() >= LIVE_LIMIT {
            return Some(RegisterFault::TableFull);
        }
        None
    }

    /// Registers a plug-in, which is first called with its configuration, if it is to be.
    pub fn register(
        &mut self,
        alloc: Global,
        joining: &Joining,
    ) -> Result<Result<u64, RegisterFault>, Memory> {
        if let Some(why) = self.fault(&joining.name) {
            return Ok(Err(why));
        }
        let reg = self.all.len();
        let mut calls = Vec::new(alloc);
        if joining.kinds.has(Kinds::CONFIGURE) {
            calls.push(Call::Configure(joining.block.copy(alloc)?))?;
        }
        self.all.push(Registration {
            name: joining.name.copy(alloc)?,
            kinds: joining.kinds,
            closer: None,
            holder: None,
            retired: false,
            calls,
            taken: 0,
            answered: Vec::new(alloc),
            answers: copy_of(alloc, joining.answers.as_slice())?,
        })?;
        Ok(Ok(reg as u64))
    }

    pub fn close(&mut self, name: &Text, actor: u64) -> Result<u64, NotRegistered> {
        let Some(reg) = self.live_as(name) else {
            return Err(NotRegistered);
        };
        if let Some(one) = self.all.get_mut(reg) {
            one.closer = Some(actor);
        }
        Ok(reg as u64)
    }

    /// The calls that the plug-in of a closed registration got, with its answers.
    pub fn retire(
        &mut self,
        alloc: Global,
        reg: u64,
    ) -> Result<Result<Vec<AnsweredCall>, RetireFault>, Memory> {
        let Some(one) = self.all.get_mut(reg as usize) else {
            return Ok(Err(RetireFault::NotRegistered));
        };
        if let Some(why) = one.retire_fault() {
            return Ok(Err(why));
        }
        one.retired = true;
        Ok(Ok(one.told(alloc)?))
    }

    /// Makes a call to a registration, and gives its place among the calls of that one.
    pub fn post(&mut self, reg: usize, call: Call) -> Result<usize, Memory> {
        let Some(one) = self.all.get_mut(reg) else {
            return Ok(0);
        };
        let place = one.calls.len();
        one.calls.push(call)?;
        Ok(place)
    }

    /// What was answered to the call at a place.
    pub fn answer(&self, reg: usize, place: usize) -> Option<Answer> {
        self.all.get(reg)?.answered.get(place).copied()
    }

    /// The first plug-in that is ready goes out with an actor: its number and its call.
    pub fn take(&mut self, alloc: Global, actor: u64) -> Result<Option<(u64, Call)>, Memory> {
        let Some(reg) = self.all.iter().position(|one| one.is_ready()) else {
            return Ok(None);
        };
        let Some(one) = self.all.get_mut(reg) else {
            return Ok(None);
        };
        let Some(call) = one.take(alloc, actor)? else {
            return Ok(None);
        };
        self.out.push(reg)?;
        Ok(Some((reg as u64, call)))
    }

    /// The plug-in at a place among those that are out comes home: its number and its answer.
    pub fn done(&mut self, place: u64) -> Result<Option<(u64, Answer)>, Memory> {
        let Some(place) = place.checked_rem(self.out.len() as u64) else {
            return Ok(None);
        };
        let place = place as usize;
        if place >= self.out.len() {
            return Ok(None);
        }
        let reg = self.out.remove(place);
        let Some(one) = self.all.get_mut(reg) else {
            return Ok(None);
        };
        Ok(Some((reg as u64, one.come_home()?)))
    }
}

fn is_reserved(name: &str) -> bool {
    name == "threshold" || name == "unixsock" || name == "network"
}

/// Answers that are the same.
pub fn copy_of(alloc: Global, answers: &[Answer]) -> Result<Vec<Answer>, Memory> {
    let mut copy = Vec::with_capacity(alloc, answers.len())?;
    for answer in answers {
        copy.push(*answer)?;
    }
    Ok(copy)
}
