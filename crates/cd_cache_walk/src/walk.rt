//! Steps on a cache and on a plain list beside it.
use crate::draw::{Draw, counters};
use cd_cache::{Cache, HashKey, Updated};
use cd_cache_plain::{Plain, PlainEntry, are_rates};
use cd_value::{DataSet, Memory, Text, ValueList};
use std::alloc::Global;

/// In how many of its intervals a newer list has to come.
const TIMEOUT: u32 = 2;

/// How many lists and names there were of each kind.
#[derive(Clone, Copy)]
pub struct Tally {
    pub stored: u64,
    pub old: u64,
    pub removed: u64,
    pub lost: u64,
}

/// How a walk ended.
#[derive(Drop)]
pub enum End {
    /// The two agreed after each step.
    Agreed(Tally),
    /// They differed after the step of that number.
    Differs(u64),
}

/// Takes so many steps that a seed decides, up to the first one at which the two differ.
pub fn walk(alloc: Global, seed: u64, steps: u64) -> Result<End, Memory> {
    let set = counters(alloc)?;
    let mut both = Both::new(alloc, seed);
    for number in 1..=steps {
        if !both.step(alloc, &set)? {
            return Ok(End::Differs(number));
        }
    }
    Ok(End::Agreed(both.tally))
}

/// A cache, the plain list beside it, where the steps come from, the moment, and what was done.
#[derive(Drop)]
struct Both {
    cache: Cache,
    plain: Plain,
    draw: Draw,
    now: u64,
    tally: Tally,
}

impl Both {
    fn new(alloc: Global, seed: u64) -> Both {
        Both {
            cache: Cache::keyed(alloc, TIMEOUT, HashKey::new(seed, 5)),
            plain: Plain::new(alloc, TIMEOUT),
            draw: Draw::new(seed),
            now: 0,
            tally: Tally {
                stored: 0,
                old: 0,
                removed: 0,
                lost: 0,
            },
        }
    }

    /// Takes a step on both, and says whether they answer the same and have the same entries then. Of ten steps six
    /// are updates, one is a removal, and three are ticks.
    fn step(&mut self, alloc: Global, set: &DataSet) -> Result<bool, Memory> {
        self.now = self.now.saturating_add(self.draw.below(3));
        let answered = match self.draw.below(10) {
            0 => self.remove(alloc)?,
            1..=3 => self.tick(alloc)?,
            _ => self.update(alloc, set)?,
        };
        let agreed = self.agree(alloc)?;
        Ok(answered && agreed)
    }

    /// An update, with a preview before it.
    fn update(&mut self, alloc: Global, set: &DataSet) -> Result<bool, Memory> {
        let list = self.draw.list(alloc, self.now)?;
        let previewed = preview(alloc, &self.cache, &self.plain, &list, set)?;
        let how = update(
            alloc,
            &mut self.cache,
            &mut self.plain,
            &list,
            set,
            self.now,
        )?;
        match how {
            Some(how) => self.tally.count(how),
            None => return Ok(false),
        }
        Ok(previewed)
    }

    fn remove(&mut self, alloc: Global) -> Result<bool, Memory> {
        let name = self.draw.identifier(alloc)?.name(alloc)?;
        let was_there = self.cache.remove(&name);
        let expected = self.plain.remove(&name);
        if expected {
            self.tally.removed = self.tally.removed.saturating_add(1);
        }
        Ok(was_there == expected)
    }

    /// The names that are lost at a moment near this one, and that no more than one pair was looked at beyond them.
    fn tick(&mut self, alloc: Global) -> Result<bool, Memory> {
        let now = self.now.saturating_add(self.draw.below_or_last(20));
        let mut looks = 0;
        let names = self.cache.lost_with(alloc, now, &mut looks)?;
        let count = names.len() as u64;
        self.tally.lost = self.tally.lost.saturating_add(count);
        Ok(looks <= count.saturating_add(1) && self.plain.has_lost(names.as_slice(), now))
    }

    /// Whether the cache has the entries of the plain list and no others.
    fn agree(&self, alloc: Global) -> Result<bool, Memory> {
        let rows = self.cache.rows(alloc)?;
        let entries = self.plain.entries();
        if rows.len() != entries.len() {
            return Ok(false);
        }
        for (row, entry) in rows.as_slice().iter().zip(entries) {
            if !has_entry(&self.cache, row, entry) {
                return Ok(false);
            }
        }
        Ok(true)
    }
}

/// Whether a row is that of an entry, which the cache has under its name.
fn has_entry(cache: &Cache, row: &(u64, Text), entry: &PlainEntry) -> bool {
    match cache.get(&entry.name) {
        Some(cached) => entry.has_row(row) && entry.is_cached(cached),
        None => false,
    }
}

/// Whether a cache and a plain list have the same preview of a list.
fn preview(
    alloc: Global,
    cache: &Cache,
    plain: &Plain,
    list: &ValueList,
    set: &DataSet,
) -> Result<bool, Memory> {
    let rates = cache.preview(alloc, list, set)?;
    let expected = plain.preview(alloc, list, set)?;
    Ok(match (&rates, &expected) {
        (Some(rates), Some(expected)) => are_rates(rates.as_slice(), expected.as_slice()),
        (None, None) => true,
        _ => false,
    })
}

/// What became of a list, where a cache and a plain list say the same.
fn update(
    alloc: Global,
    cache: &mut Cache,
    plain: &mut Plain,
    list: &ValueList,
    set: &DataSet,
    now: u64,
) -> Result<Option<Updated>, Memory> {
    let how = cache.update(alloc, list, set, now)?;
    let expected = plain.update(alloc, list, set, now)?;
    if how == expected {
        Ok(Some(how))
    } else {
        Ok(None)
    }
}

impl Tally {
    fn count(&mut self, how: Updated) {
        match how {
            Updated::Stored => self.stored = self.stored.saturating_add(1),
            Updated::Old => self.old = self.old.saturating_add(1),
        }
    }
}
