//! Flushes, as plain lists of what they asked for.
use crate::registrations::Registrations;
use cd_core::FlushEnd;
use cd_registry::{Answer, Call, Kinds};
use cd_value::{FlushRequest, Memory, Text, TryCopy};
use std::alloc::Global;

/// A pair of a plug-in and a name that a flush asked for.
#[derive(Clone, Copy)]
enum Asked {
    /// No such plug-in was there.
    Nobody,
    /// The plug-in of this registration was called, with this place among its calls.
    Call(usize, usize),
}

/// A flush: who began it, what it asked for, and whether its counts were told.
#[derive(Drop)]
struct Flush {
    beginner: u64,
    asked: Vec<Asked>,
    told: bool,
}

/// What came of a flush.
#[derive(Clone, Copy)]
struct Came {
    unanswered: u64,
    successful: u64,
    errors: u64,
}

/// All flushes, in the order in which they were begun.
#[derive(Drop)]
pub struct Flushes {
    all: Vec<Flush>,
}

impl Flushes {
    pub fn new(alloc: Global) -> Flushes {
        Flushes {
            all: Vec::new(alloc),
        }
    }

    pub fn count(&self) -> u64 {
        self.all.len() as u64
    }

    /// Who began the flush of a number.
    pub fn beginner(&self, number: u64) -> Option<u64> {
        Some(self.all.get(number as usize)?.beginner)
    }

    /// Begins a flush, and gives its number.
    pub fn begin(
        &mut self,
        alloc: Global,
        registrations: &mut Registrations,
        request: &FlushRequest,
        beginner: u64,
    ) -> Result<u64, Memory> {
        let number = self.count();
        let mut asked = Vec::new(alloc);
        for plugin in plugins_meant(alloc, registrations, request)? {
            ask_for_names(alloc, registrations, &mut asked, number, request, plugin)?;
        }
        self.all.push(Flush {
            beginner,
            asked,
            told: false,
        })?;
        Ok(number)
    }

    /// How many calls of a flush succeeded, and how many of its pairs didn't.
    pub fn end(
        &mut self,
        registrations: &Registrations,
        number: u64,
    ) -> Result<(u64, u64), FlushEnd> {
        let Some(flush) = self.all.get_mut(number as usize) else {
            return Err(FlushEnd::NoSuchFlush);
        };
        if flush.told {
            return Err(FlushEnd::NoSuchFlush);
        }
        let came = what_came(registrations, flush.asked.as_slice());
        if came.unanswered > 0 {
            return Err(FlushEnd::NotYet(came.unanswered));
        }
        flush.told = true;
        Ok((came.successful, came.errors))
    }
}

/// The plug-ins that a flush is for: those it names, each of which may not be there, or else all.
fn plugins_meant(
    alloc: Global,
    registrations: &Registrations,
    request: &FlushRequest,
) -> Result<Vec<Option<usize>>, Memory> {
    let mut plugins = Vec::new(alloc);
    if request.plugins.is_empty() {
        for reg in registrations.listening(alloc, Kinds::FLUSH)? {
            plugins.push(Some(reg))?;
        }
    }
    for name in request.plugins.as_slice() {
        plugins.push(registrations.find(name, Kinds::FLUSH))?;
    }
    Ok(plugins)
}

/// Asks a plug-in for each name, or once for all.
fn ask_for_names(
    alloc: Global,
    registrations: &mut Registrations,
    asked: &mut Vec<Asked>,
    number: u64,
    request: &FlushRequest,
    plugin: Option<usize>,
) -> Result<(), Memory> {
    let timeout = request.timeout;
    if request.names.is_empty() {
        asked.push(ask(registrations, number, timeout, None, plugin)?)?;
    }
    for name in request.names.as_slice() {
        let name = name.copy(alloc)?;
        asked.push(ask(registrations, number, timeout, Some(name), plugin)?)?;
    }
    Ok(())
}

fn ask(
    registrations: &mut Registrations,
    number: u64,
    timeout: Option<u64>,
    name: Option<Text>,
    plugin: Option<usize>,
) -> Result<Asked, Memory> {
    let Some(reg) = plugin else {
        return Ok(Asked::Nobody);
    };
    let call = Call::Flush {
        number,
        timeout,
        name,
    };
    Ok(Asked::Call(reg, registrations.post(reg, call)?))
}

fn what_came(registrations: &Registrations, asked: &[Asked]) -> Came {
    let mut came = Came {
        unanswered: 0,
        successful: 0,
        errors: 0,
    };
    for one in asked {
        match one {
            Asked::Nobody => came.errors = came.errors.saturating_add(1),
            Asked::Call(reg, place) => came.count(registrations.answer(*reg, *place)),
        }
    }
    came
}

impl Came {
    fn count(&mut self, answer: Option<Answer>) {
        match answer {
            None => self.unanswered = self.unanswered.saturating_add(1),
            Some(Answer::Done) => self.successful = self.successful.saturating_add(1),
            Some(_) => self.errors = self.errors.saturating_add(1),
        }
    }
}
