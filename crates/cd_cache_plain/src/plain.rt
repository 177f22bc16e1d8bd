//! The cache as a plain list, as its definitions have it: each call walks over the entries.
use cd_cache::{CacheEntry, Updated};
use cd_value::{DataSet, Memory, Rate, Text, TryCopy, ValueList};
use std::alloc::Global;

/// An entry with its name. The moment of its arrival is in 2^-30 s.
#[derive(Drop)]
pub struct PlainEntry {
    pub name: Text,
    pub list: ValueList,
    pub rates: Vec<Rate>,
    pub arrival: u64,
}

/// The entries in the order of their names' bytes.
#[derive(Drop)]
pub struct Plain {
    timeout: u32,
    entries: Vec<PlainEntry>,
}

impl Plain {
    /// No entries. A name is lost where no newer list came in so many of its intervals.
    pub fn new(alloc: Global, timeout: u32) -> Plain {
        Plain {
            timeout,
            entries: Vec::new(alloc),
        }
    }

    /// The entries in the order of their names' bytes.
    pub fn entries(&self) -> &[PlainEntry] {
        self.entries.as_slice()
    }

    /// How many names stand before a name.
    fn place(&self, name: &Text) -> usize {
        let mut place = 0usize;
        for entry in &self.entries {
            if entry.name < *name {
                place = place.saturating_add(1);
            }
        }
        place
    }

    /// The entry of a name.
    pub fn get(&self, name: &Text) -> Option<&PlainEntry> {
        let entry = self.entries.get(self.place(name))?;
        if entry.name == *name {
            Some(entry)
        } else {
            None
        }
    }

    /// Puts a list that is newer than the one of its name in that one's place. The moment is in 2^-30 s.
    pub fn update(
        &mut self,
        alloc: Global,
        list: &ValueList,
        set: &DataSet,
        now: u64,
    ) -> Result<Updated, Memory> {
        let Some(rates) = self.preview(alloc, list, set)? else {
            return Ok(Updated::Old);
        };
        let entry = PlainEntry {
            name: list.id.name(alloc)?,
            list: list.copy(alloc)?,
            rates,
            arrival: now,
        };
        self.remove(&entry.name);
        self.put(entry)?;
        Ok(Updated::Stored)
    }

    /// The rates that a list would have, and `None` where the one of its name is as new.
    pub fn preview(
        &self,
        alloc: Global,
        list: &ValueList,
        set: &DataSet,
    ) -> Result<Option<Vec<Rate>>, Memory> {
        let name = list.id.name(alloc)?;
        let Some(before) = self.get(&name) else {
            let rates = first_rates(alloc, set, list)?;
            return Ok(Some(rates));
        };
        if list.time <= before.list.time {
            return Ok(None);
        }
        let rates = later_rates(alloc, set, &before.list, list)?;
        Ok(Some(rates))
    }

    /// Puts an entry, whose name has none, behind those of the names before it.
    fn put(&mut self, entry: PlainEntry) -> Result<(), Memory> {
        let place = self.place(&entry.name).min(self.entries.len());
        self.entries.insert(place, entry)?;
        Ok(())
    }

    /// Takes a name out, and says whether it was there.
    pub fn remove(&mut self, name: &Text) -> bool {
        let found = self.get(name).is_some();
        let place = self.place(name);
        if found && place < self.entries.len() {
            self.entries.remove(place);
        }
        found
    }

    /// Whether those are the names of the entries whose moment has come.
    pub fn has_lost(&self, names: &[Text], now: u64) -> bool {
        let mut count = 0usize;
        for entry in &self.entries {
            if self.expiry(entry) <= u128::from(now) {
                if !entry.is_named(names.get(count)) {
                    return false;
                }
                count = count.saturating_add(1);
            }
        }
        count == names.len()
    }

    /// The moment from which on an entry is lost.
    fn expiry(&self, entry: &PlainEntry) -> u128 {
        u128::from(entry.arrival) + u128::from(self.timeout) * u128::from(entry.list.interval)
    }
}

impl PlainEntry {
    fn is_named(&self, name: Option<&Text>) -> bool {
        match name {
            Some(name) => self.name == *name,
            None => false,
        }
    }

    /// Whether a row is that of the entry.
    pub fn has_row(&self, row: &(u64, Text)) -> bool {
        self.list.time == row.0 && self.name == row.1
    }

    /// Whether a cached entry is the same.
    pub fn is_cached(&self, cached: &CacheEntry) -> bool {
        self.arrival == cached.arrival
            && self.list.time == cached.list.time
            && self.list.interval == cached.list.interval
            && self.list.values.as_slice() == cached.list.values.as_slice()
            && are_rates(self.rates.as_slice(), cached.rates.as_slice())
    }
}

/// Whether rates are the same, fraction by fraction.
pub fn are_rates(rates: &[Rate], others: &[Rate]) -> bool {
    if rates.len() != others.len() {
        return false;
    }
    for (rate, other) in rates.iter().zip(others) {
        if !is_rate(rate, other) {
            return false;
        }
    }
    true
}

fn is_rate(rate: &Rate, other: &Rate) -> bool {
    match rate {
        Rate::Known { num, den } => is_fraction(*num, *den, other),
        Rate::Unknown => matches!(other, Rate::Unknown),
    }
}

fn is_fraction(num: i128, den: u64, rate: &Rate) -> bool {
    match rate {
        Rate::Known {
            num: top,
            den: bottom,
        } => num == *top && den == *bottom,
        Rate::Unknown => false,
    }
}

/// The rates of a list whose name has none before it.
fn first_rates(alloc: Global, set: &DataSet, list: &ValueList) -> Result<Vec<Rate>, Memory> {
    let mut rates = Vec::new(alloc);
    for (source, value) in set.sources.as_slice().iter().zip(list.values.as_slice()) {
        rates.push(Rate::of(None, value, 0, source))?;
    }
    Ok(rates)
}

/// The rates of a list against the one before it.
fn later_rates(
    alloc: Global,
    set: &DataSet,
    before: &ValueList,
    list: &ValueList,
) -> Result<Vec<Rate>, Memory> {
    let dt = list.time.saturating_sub(before.time);
    let mut rates = Vec::new(alloc);
    let sources = set.sources.as_slice().iter();
    let values = before.values.as_slice().iter().zip(list.values.as_slice());
    for (source, (old, new)) in sources.zip(values) {
        rates.push(Rate::of(Some(old), new, dt, source))?;
    }
    Ok(rates)
}
