//! What comes by chance.
use crate::names::{GAUGE, LISTS, PLUGINS, host_name, plugin_name, type_name};
use crate::step::{Event, Joining, Step};
use cd_registry::{Answer, Kinds};
use cd_value::{
    FlushRequest, Identifier, Lists, Memory, Names, Sequence, Text, Value, ValueList, Values,
};
use rand_core::{Rng, SeedableRng};
use rand_xoshiro::Xoshiro256PlusPlus;
use std::alloc::Global;

/// How many actors there are.
const ACTORS: u64 = 3;
/// How far the time of a list stands from the moment at most. A list of a name comes every 100 steps or so, and moments
/// rise by one a step: so some lists are newer than the one before, and some aren't.
const SPREAD: u64 = 150;

/// How many registrations and flushes there were.
#[derive(Clone, Copy)]
pub struct Counts {
    pub registered: u64,
    pub begun: u64,
}

/// Where events are drawn from, and the moment of the last one.
#[derive(Drop)]
pub struct Draw {
    words: Xoshiro256PlusPlus,
    now: u64,
}

impl Draw {
    /// Events that a seed decides.
    pub fn new(seed: u64) -> Draw {
        Draw {
            words: Xoshiro256PlusPlus::seed_from_u64(seed),
            now: SPREAD,
        }
    }

    /// A number below a count that isn't 0.
    fn below(&mut self, count: u64) -> u64 {
        self.words.next_u64().checked_rem(count).unwrap_or(0)
    }

    /// What anyone asks next.
    pub fn event(&mut self, alloc: Global, counts: Counts) -> Result<Event, Memory> {
        let step = self.step(alloc, counts)?;
        Ok(self.asked(step))
    }

    /// The daemon is to stop.
    pub fn stop(&mut self) -> Event {
        self.asked(Step::Stop)
    }

    fn asked(&mut self, step: Step) -> Event {
        self.now = self.now.saturating_add(self.below(3));
        Event {
            actor: self.below(ACTORS),
            now: self.now,
            step,
        }
    }

    fn step(&mut self, alloc: Global, counts: Counts) -> Result<Step, Memory> {
        match self.below(64) {
            0..=3 => Ok(Step::Register(self.joining(alloc)?)),
            4..=5 => Ok(Step::Close(self.plugin(alloc)?)),
            6..=9 => Ok(Step::Retire(self.number_of(counts.registered))),
            10..=25 => Ok(Step::Take),
            26..=41 => Ok(Step::Done(self.below(8))),
            42..=46 => self.offer(alloc),
            47..=52 => Ok(Step::Handle),
            53..=54 => Ok(Step::Get(self.identifier(alloc)?.name(alloc)?)),
            55 => Ok(Step::List),
            56..=57 => Ok(Step::FlushBegin(self.request(alloc)?)),
            _ => Ok(Step::FlushEnd(self.number_of(counts.begun))),
        }
    }

    /// One of so many numbers or one too high, mostly one of the last.
    fn number_of(&mut self, count: u64) -> u64 {
        if self.below(4) == 0 {
            self.below(count.saturating_add(2))
        } else {
            count.saturating_sub(self.below(16))
        }
    }

    /// The name of a plug-in.
    fn plugin(&mut self, alloc: Global) -> Result<Text, Memory> {
        Text::of(alloc, plugin_name(self.below(PLUGINS)))
    }

    fn joining(&mut self, alloc: Global) -> Result<Joining, Memory> {
        let name = self.plugin(alloc)?;
        let kinds = Kinds((self.words.next_u64() % 32) as u8);
        let mut answers = Vec::new(alloc);
        for _ in 0..self.below(24) {
            answers.push(self.answer())?;
        }
        let limit = self.below(1_000);
        let block = Text::from_string(format!(in alloc; "Limit {limit}\n")?);
        Ok(Joining {
            name,
            kinds,
            answers,
            block,
        })
    }

    fn answer(&mut self) -> Answer {
        if self.below(3) == 0 {
            Answer::Failed
        } else {
            Answer::Done
        }
    }

    /// The identifier of one of the lists.
    fn identifier(&mut self, alloc: Global) -> Result<Identifier, Memory> {
        let number = self.below(LISTS);
        let host = host_name(number % 3);
        let kind = type_name(number / 3 % 2);
        let instance = number / 6;
        let text = format!(in alloc; "{host}/disk-{instance}/{kind}")?;
        match Identifier::read(alloc, text.as_str()) {
            Ok(id) => Ok(id),
            Err(_) => Err(Memory),
        }
    }

    /// Up to four lists.
    fn offer(&mut self, alloc: Global) -> Result<Step, Memory> {
        let mut lists = Lists::new(alloc);
        let mut words = Vec::new(alloc);
        for _ in 0..self.below(5) {
            lists.push(self.list(alloc)?)?;
            words.push(self.words.next_u64())?;
        }
        Ok(Step::Accept(lists, words))
    }

    /// A list whose time is near the moment, before or behind it.
    fn list(&mut self, alloc: Global) -> Result<ValueList, Memory> {
        let id = self.identifier(alloc)?;
        let values = self.values(alloc, id.type_name.as_str() == GAUGE)?;
        let early = self.now.saturating_sub(SPREAD);
        Ok(ValueList {
            id,
            time: early.saturating_add(self.below(2 * SPREAD)),
            interval: self.below(100),
            values,
        })
    }

    /// Values of the type of one source, or else of that of two.
    fn values(&mut self, alloc: Global, is_gauge: bool) -> Result<Values, Memory> {
        let mut values = Sequence::new(alloc);
        if is_gauge {
            values.push(self.gauge())?;
        } else {
            values.push(Value::Derive((self.words.next_u64() % 1_000_000) as i64))?;
            values.push(Value::Counter(self.below(1_000_000)))?;
        }
        Ok(values)
    }

    /// A level, or an unknown one.
    fn gauge(&mut self) -> Value {
        match self.below(1_000_000) {
            0..=99_999 => Value::Gauge(None),
            level => Value::Gauge(Some(i128::from(level))),
        }
    }

    /// A flush of up to two plug-ins and up to two lists; none means all.
    fn request(&mut self, alloc: Global) -> Result<FlushRequest, Memory> {
        let mut plugins = Names::new(alloc);
        for _ in 0..self.below(3) {
            plugins.push(self.plugin(alloc)?)?;
        }
        let mut names = Names::new(alloc);
        for _ in 0..self.below(3) {
            names.push(self.identifier(alloc)?.name(alloc)?)?;
        }
        Ok(FlushRequest {
            plugins,
            names,
            timeout: self.timeout(),
        })
    }

    fn timeout(&mut self) -> Option<u64> {
        match self.below(100) {
            0..=49 => None,
            timeout => Some(timeout),
        }
    }
}
