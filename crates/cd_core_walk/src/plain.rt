//! A daemon that keeps only lists and walks over them, as collectd's manual pages have it.
use crate::flushes::Flushes;
use crate::names::{NAMED_HOST, NAMED_WRITER, NOBODY, STOPPED_HOST};
use crate::opening::{Filters, HIGH, LOW, TIMEOUT};
use crate::registrations::Registrations;
use crate::step::{Event, Joining, Reply, Step};
use cd_cache::Updated;
use cd_core::{AcceptFault, FlushFault, Got, HandleFault, QueryFault, RegisterFault};
use cd_history::{Handled, How};
use cd_registry::{Call, Kinds};
use cd_types::TypesDb;
use cd_value::{
    Fates, FlushRequest, Memory, Names, Offered, Rows, Sequence, Text, TryCopy, ValueList,
};
use std::alloc::Global;

/// The daemon.
#[derive(Drop)]
pub struct Plain {
    filters: Filters,
    types: TypesDb,
    registrations: Registrations,
    /// All lists that weren't dropped, and how many of them were handled.
    kept: Vec<ValueList>,
    handled: usize,
    cache: cd_cache_plain::Plain,
    flushes: Flushes,
    stopped: bool,
}

impl Plain {
    pub fn new(alloc: Global, filters: Filters, types: TypesDb) -> Plain {
        Plain {
            filters,
            types,
            registrations: Registrations::new(alloc),
            kept: Vec::new(alloc),
            handled: 0,
            cache: cd_cache_plain::Plain::new(alloc, TIMEOUT),
            flushes: Flushes::new(alloc),
            stopped: false,
        }
    }

    /// How many registrations there were.
    pub fn registered(&self) -> u64 {
        self.registrations.count()
    }

    /// How many flushes were begun.
    pub fn begun(&self) -> u64 {
        self.flushes.count()
    }

    /// How many lists wait to be handled.
    pub fn queued(&self) -> u64 {
        self.kept.len().saturating_sub(self.handled) as u64
    }

    pub fn stopped(&self) -> bool {
        self.stopped
    }

    /// Whether the actor of an event may ask for it: only who closed a registration asks for its plug-in, and only who
    /// began a flush for its counts.
    pub fn may(&self, event: &Event) -> bool {
        let owner = match &event.step {
            Step::Retire(reg) => self.registrations.closer(*reg),
            Step::FlushEnd(number) => self.flushes.beginner(*number),
            _ => None,
        };
        owner.is_none() || owner == Some(event.actor)
    }

    /// What the daemon answers.
    pub fn answer(&mut self, alloc: Global, event: &Event) -> Result<Reply, Memory> {
        match &event.step {
            Step::Register(joining) => self.register(alloc, joining),
            Step::Close(name) => {
                let closed = self.registrations.close(name, event.actor);
                Ok(Reply::Closed(closed))
            }
            Step::Retire(reg) => {
                let retired = self.registrations.retire(alloc, *reg)?;
                Ok(Reply::Retired(retired))
            }
            Step::Take => self.take(alloc, event.actor),
            Step::Done(place) => self.done(*place),
            Step::Accept(lists, words) => self.accept(alloc, lists.as_slice(), words.as_slice()),
            Step::Handle => self.handle(alloc, event.now),
            Step::Get(name) => self.get(alloc, name),
            Step::List => self.list(alloc),
            Step::FlushBegin(request) => self.flush_begin(alloc, request, event.actor),
            Step::FlushEnd(number) => {
                let ended = self.flushes.end(&self.registrations, *number);
                Ok(Reply::FlushEnded(ended))
            }
            Step::Stop => {
                self.stopped = true;
                Ok(Reply::Stopped)
            }
        }
    }

    fn register(&mut self, alloc: Global, joining: &Joining) -> Result<Reply, Memory> {
        if self.stopped {
            return Ok(Reply::Registered(Err(RegisterFault::Stopping)));
        }
        let registered = self.registrations.register(alloc, joining)?;
        Ok(Reply::Registered(registered))
    }

    fn take(&mut self, alloc: Global, actor: u64) -> Result<Reply, Memory> {
        match self.registrations.take(alloc, actor)? {
            Some((reg, call)) => Ok(Reply::Taken(reg, call)),
            None => Ok(Reply::NoneReady),
        }
    }

    fn done(&mut self, place: u64) -> Result<Reply, Memory> {
        match self.registrations.done(place)? {
            Some((reg, answer)) => Ok(Reply::CameHome(reg, answer)),
            None => Ok(Reply::NoneOut),
        }
    }

    fn accept(
        &mut self,
        alloc: Global,
        lists: &[ValueList],
        words: &[u64],
    ) -> Result<Reply, Memory> {
        if self.stopped {
            return Ok(Reply::Accepted(Err(AcceptFault::Stopping)));
        }
        let mut fates = Fates::new(alloc);
        for (list, word) in lists.iter().zip(words) {
            fates.push(self.offer(alloc, list, *word)?)?;
        }
        Ok(Reply::Accepted(Ok(fates)))
    }

    /// Keeps a list, unless too many wait: from the high limit on none is kept, and from the low one on the more are
    /// dropped, by chance, the more wait.
    fn offer(&mut self, alloc: Global, list: &ValueList, word: u64) -> Result<Offered, Memory> {
        let waiting = self.queued();
        if waiting >= u64::from(HIGH) {
            return Ok(Offered::Dropped);
        }
        let above = waiting.saturating_add(1).saturating_sub(u64::from(LOW));
        let span = u64::from(HIGH - LOW + 1);
        if word % span < above {
            return Ok(Offered::Dropped);
        }
        self.kept.push(list.copy(alloc)?)?;
        Ok(Offered::Kept)
    }

    /// Handles the first list that wasn't handled: the chain before the cache stops those of one host; the others are
    /// stored and written.
    fn handle(&mut self, alloc: Global, now: u64) -> Result<Reply, Memory> {
        let Some(list) = self.kept.get(self.handled) else {
            return Ok(Reply::Handled(Err(HandleFault::Empty)));
        };
        let list = list.copy(alloc)?;
        self.handled = self.handled.saturating_add(1);
        let handled = if self.filters.has_host(&list, STOPPED_HOST) {
            Handled {
                how: How::StoppedBefore,
                skipped: 0,
            }
        } else {
            let how = self.store(alloc, &list, now)?;
            let skipped = self.write(alloc, &list)?;
            Handled { how, skipped }
        };
        Ok(Reply::Handled(Ok(handled)))
    }

    fn store(&mut self, alloc: Global, list: &ValueList, now: u64) -> Result<How, Memory> {
        let Some(set) = self.types.get(list.id.type_name.as_str()) else {
            return Ok(How::StoppedBefore);
        };
        match self.cache.update(alloc, list, set, now)? {
            Updated::Stored => Ok(How::Stored),
            Updated::Old => Ok(How::Old),
        }
    }

    /// Writes a list to all live writers, and before, where the chain behind the cache names some, to these. It says how
    /// many of these there are not.
    fn write(&mut self, alloc: Global, list: &ValueList) -> Result<u64, Memory> {
        let mut skipped = 0;
        if self.filters.has_host(list, NAMED_HOST) {
            skipped = self.write_to_named(alloc, list)?;
        }
        for reg in self.registrations.listening(alloc, Kinds::WRITE)? {
            let copy = list.copy(alloc)?;
            self.registrations.post(reg, Call::Write(copy))?;
        }
        Ok(skipped)
    }

    fn write_to_named(&mut self, alloc: Global, list: &ValueList) -> Result<u64, Memory> {
        let mut skipped = 0u64;
        for name in [NAMED_WRITER, NOBODY] {
            let name = Text::of(alloc, name)?;
            match self.registrations.find(&name, Kinds::WRITE) {
                Some(reg) => {
                    let copy = list.copy(alloc)?;
                    self.registrations.post(reg, Call::Write(copy))?;
                }
                None => skipped = skipped.saturating_add(1),
            }
        }
        Ok(skipped)
    }

    /// The sources and rates of the list that is cached under a name.
    fn get(&self, alloc: Global, name: &Text) -> Result<Reply, Memory> {
        let Some(entry) = self.cache.get(name) else {
            return Ok(Reply::Got(Err(QueryFault::NoSuchValue)));
        };
        let names = self.source_names(alloc, entry.list.id.type_name.as_str())?;
        let mut rates = Sequence::new(alloc);
        for rate in &entry.rates {
            rates.push(*rate)?;
        }
        Ok(Reply::Got(Ok(Got { names, rates })))
    }

    fn source_names(&self, alloc: Global, type_name: &str) -> Result<Names, Memory> {
        let mut names = Names::new(alloc);
        let Some(set) = self.types.get(type_name) else {
            return Ok(names);
        };
        for source in set.sources.as_slice() {
            names.push(source.name.copy(alloc)?)?;
        }
        Ok(names)
    }

    /// The time and the name of each list that is cached.
    fn list(&self, alloc: Global) -> Result<Reply, Memory> {
        let mut rows = Rows::new(alloc);
        for entry in self.cache.entries() {
            rows.push((entry.list.time, entry.name.copy(alloc)?))?;
        }
        Ok(Reply::Listed(rows))
    }

    fn flush_begin(
        &mut self,
        alloc: Global,
        request: &FlushRequest,
        actor: u64,
    ) -> Result<Reply, Memory> {
        if self.stopped {
            return Ok(Reply::FlushBegun(Err(FlushFault::Stopping)));
        }
        let number = self
            .flushes
            .begin(alloc, &mut self.registrations, request, actor)?;
        Ok(Reply::FlushBegun(Ok(number)))
    }
}
