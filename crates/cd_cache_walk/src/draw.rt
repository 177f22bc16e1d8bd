//! What comes by chance.
use cd_value::{DataSet, DataSource, DsType, Identifier, Memory, Sequence, Text, Value, ValueList};
use rand_core::{Rng, SeedableRng};
use rand_xoshiro::Xoshiro256PlusPlus;
use std::alloc::Global;

/// How many names there are.
const NAMES: u64 = 96;
/// The longest interval, but for one list in thirty-two, whose interval is the longest that there can be. Moments rise
/// by one a step and a list of a name comes every 150 steps or so: so of the names in the cache some are lost and some
/// aren't, and many a tick falls on the very moment of one.
const INTERVAL: u64 = 100;

/// Where steps are drawn from.
#[derive(Drop)]
pub struct Draw {
    words: Xoshiro256PlusPlus,
}

impl Draw {
    /// Steps that a seed decides.
    pub fn new(seed: u64) -> Draw {
        Draw {
            words: Xoshiro256PlusPlus::seed_from_u64(seed),
        }
    }

    /// A number below a count that isn't 0.
    pub fn below(&mut self, count: u64) -> u64 {
        self.words.next_u64().checked_rem(count).unwrap_or(0)
    }

    /// A number below a count, and once in thirty-two the greatest that there is.
    pub fn below_or_last(&mut self, count: u64) -> u64 {
        if self.below(32) == 0 {
            return u64::MAX;
        }
        self.below(count)
    }

    /// The identifier of a name. The order of the names is not that of their numbers.
    pub fn identifier(&mut self, alloc: Global) -> Result<Identifier, Memory> {
        let number = self.below(NAMES);
        let text = format!(in alloc; "h/p-{number}/t")?;
        match Identifier::read(alloc, text.as_str()) {
            Ok(id) => Ok(id),
            Err(_) => Err(Memory),
        }
    }

    /// A list of one to three values of a name, of a time from a moment on.
    pub fn list(&mut self, alloc: Global, now: u64) -> Result<ValueList, Memory> {
        let id = self.identifier(alloc)?;
        let mut values = Sequence::new(alloc);
        for _ in 0..=self.below(3) {
            values.push(Value::Counter(self.words.next_u64()))?;
        }
        Ok(ValueList {
            id,
            time: now.saturating_add(self.below(200)),
            interval: self.below_or_last(INTERVAL),
            values,
        })
    }
}

/// A data set of two counters.
pub fn counters(alloc: Global) -> Result<DataSet, Memory> {
    let mut sources = Sequence::new(alloc);
    sources.push(counter(alloc, "rx")?)?;
    sources.push(counter(alloc, "tx")?)?;
    let name = Text::of(alloc, "t")?;
    Ok(DataSet { name, sources })
}

fn counter(alloc: Global, name: &str) -> Result<DataSource, Memory> {
    Ok(DataSource {
        name: Text::of(alloc, name)?,
        kind: DsType::Counter,
        min: None,
        max: None,
    })
}
