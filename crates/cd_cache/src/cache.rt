//! The cache and its calls.
ghost use Rattle.cd_cache.specs.Cache.{KeepsOthers, cached, cached_rates, empty, entry_of, name_order, outcome, preview_of, updated, without};
ghost use Rattle.cd_cache.specs.Index.{AreOrdersOf, found, has, is_same, kept, outcome_at};
ghost use Rattle.cd_cache.specs.Lost.{expiry, lost_of};
ghost use Rattle.cd_cache.specs.Rows.{names_of, rows_of};
ghost use Rattle.cd_value.specs.Rows.{as_rows};
ghost use Rattle.cd_value.specs.Identifier.{name_of};
ghost use Rattle.std.specs.List.Sorted.{IsStrictlySortedBy};
ghost use Rattle.std.specs.Prelude.{IfOk, IfSome, IsNone, List, None, OnErr, OnOk, Some, cond, false, is_some, length, option_copied, true, ℕ, ◌+◌, ◌<◌, ◌^◌, ◌↔◌, ◌≡◌, ◌≤◌};
ghost use Rattle.std.specs.Str.{bytes_eq};

use crate::entry::moment_after;
use crate::index::Index;
use crate::rates::rates_against;
use crate::renewal::Renewal;
use crate::{CacheEntry, HashKey, Updated};
use cd_value::{DataSet, Memory, Names, RateView, Rates, Rows, Text, TryCopy, ValueList};
use std::alloc::Global;
use std::collections::HashMap;
use std::marker::Model;

/// The value cache: the last value list of each name, which is the printed identifier, as in
/// collectd-unixsock(5), LISTVAL and GETVAL.
#[derive(Drop)]
pub struct Cache {
    timeout: u32,
    entries: HashMap<Text, CacheEntry, HashKey>,
    /// Each name once, by the moment from which on its entry counts as missing, and by its bytes.
    index: Index,
}

impl Model for Cache {
    ghost use Rattle.cd_cache.specs.Cache.{CacheMap};

    ghost Value = { CacheMap };

    ghost use Rattle.cd_cache.specs.Index.{AreOrdersOf, by_name};

    ghost view = { λ cache.
        record { timeout = cache.timeout; entries = by_name cache.entries.entries } };

    ghost invariant = { λ cache. AreOrdersOf cache.timeout cache.entries.entries cache.index };
}

impl RateView for Cache {
    ghost use Rattle.cd_cache.specs.Cache.{cached_rates};

    ghost rates_at = { cached_rates };

    fn rates(&self, name: &Text) -> Option<&Rates> {
        self.get(name).map(|entry| &entry.rates)
    }
}

impl Cache {
    /// An empty cache. A list counts as missing when no newer one came within `timeout` of its
    /// intervals, as in collectd.conf(5), Timeout. The key of its hashes is a fixed one.
    pub fn new(alloc: Global, timeout: u32) -> Cache
        ensures { result ≡ empty timeout }
    {
        Cache::keyed(alloc, timeout, HashKey::new(0, 0))
    }

    /// An empty cache, as `new` makes it, with that key of its hashes.
    pub fn keyed(alloc: Global, timeout: u32, key: HashKey) -> Cache
        ensures { result ≡ empty timeout }
    {
        Cache {
            timeout,
            entries: HashMap::with_hasher(alloc, key),
            index: Index::new(alloc),
        }
    }

    /// Puts a list of that data set under its name, with its rates against the list that is there,
    /// and `now`, in 2^-30 s, as the moment of its arrival. Where the list that is there is as new
    /// or newer, or memory is lacking, the cache stays. There are rates for as many sources as the set
    /// and both lists have.
    pub fn update(
        &mut self,
        alloc: Global,
        list: &ValueList,
        set: &DataSet,
        now: u64,
    ) -> Result<Updated, Memory>
        ensures outcome { IfOk result (λ how. how ≡ outcome list.now self.old) }
        ensures after { OnOk result (self.new ≡ updated set.now list.now now self.old) }
        ensures err { OnErr result (self.new ≡ self.old) }

        // What this is of the cache as a map from names.
        ensures stands { IfOk result (λ how. how ≡ Updated.Stored →
            cached (name_of list.now.id) self.new ≡ Some (entry_of set.now list.now now self.old)) }
        ensures others { KeepsOthers (name_of list.now.id) self.old self.new }
    {
        let name = list.id.name(alloc)?;
        let timeout = self.timeout;
        let Some(place) = self.entries.get_mut(&name) else {
            let entry = CacheEntry::first(alloc, set, list, now)?;
            put_first(
                alloc,
                &mut self.entries,
                &mut self.index,
                timeout,
                name,
                entry,
            )?;
            return Ok(Updated::Stored);
        };
        renew(alloc, place, &mut self.index, timeout, name, list, set, now)
    }

    /// The rates that `update` would store with a list of that data set, and `None` where it would
    /// answer `Old`. The cache stays: so a chain behind it, PostCacheChain of collectd.conf(5), can
    /// run before anything is changed.
    pub fn preview(
        &self,
        alloc: Global,
        list: &ValueList,
        set: &DataSet,
    ) -> Result<Option<Rates>, Memory>
        ensures rates { IfOk result (λ rates. rates ≡ preview_of set.now list.now self.now) }

        // What this is of `update`.
        ensures old { IfOk result (λ rates.
            IsNone rates ↔ (outcome list.now self.now ≡ Updated.Old)) }
        ensures stored { IfOk result (λ rates. IfSome rates (λ stored. (now : ℕ) →
            cached_rates (updated set.now list.now now self.now) (name_of list.now.id)
            ≡ Some stored)) }
    {
        let name = list.id.name(alloc)?;
        let Some(before) = self.get(&name) else {
            let first = rates_against(alloc, set, None, list)?;
            return Ok(Some(first));
        };
        if before.is_as_new_as(list) {
            return Ok(None);
        }
        let rates = rates_against(alloc, set, Some(before), list)?;
        Ok(Some(rates))
    }

    /// The entry of a name.
    pub fn get(&self, name: &Text) -> Option<&CacheEntry>
        ensures { option_copied result ≡ cached name.now self.now }
    {
        self.entries.get(name)
    }

    /// The time, in 2^-30 s, and the name of each entry, in the order of the names' bytes.
    pub fn rows(&self, alloc: Global) -> Result<Rows, Memory>
        ensures rows { IfOk result (λ rows. rows ≡ rows_of self.now) }
        ensures sorted { IfOk result (λ rows. IsStrictlySortedBy name_order (names_of rows)) }
    {
        let listed = self.listed(alloc)?;
        let mut rows = Vec::with_capacity(alloc, listed.len())?;
        for row in &listed {
            rows.push((row.0, row.1.copy(alloc)?))?;
        }
        Ok(Rows::from_vec(rows))
    }

    /// What `rows` answers, the time in 2^-30 s and the name of each entry in the order of the names'
    /// bytes, with the names by reference.
    pub fn listed(&self, alloc: Global) -> Result<Vec<(u64, &Text)>, Memory>
        ensures rows { IfOk result (λ rows. as_rows rows.items ≡ rows_of self.now) }
        ensures sorted { IfOk result
            (λ rows. IsStrictlySortedBy name_order (names_of (as_rows rows.items))) }
    {
        let names = self.index.names();
        let mut rows = Vec::with_capacity(alloc, names.len())?;
        for name in names {
            let entry = &self.entries[name];
            rows.push((entry.list.time, name))?;
        }
        Ok(rows)
    }

    /// The names of which no list came within the timeout, which counts in intervals of the cached
    /// list from its arrival on, at a moment in 2^-30 s, in the order of their bytes: the missing
    /// values of collectd.conf(5), Timeout.
    pub fn lost(&self, alloc: Global, now: u64) -> Result<Names, Memory>
        ensures names { IfOk result (λ names. names ≡ lost_of now self.now) }
        ensures sorted { IfOk result (λ names. IsStrictlySortedBy name_order names) }
    {
        self.lost_with(alloc, now, &mut 0)
    }

    /// What `lost` answers. The number of names that were looked at is added to `looks`, which is below
    /// 2^63: as many as are given, or one more. Where memory is lacking `looks` stays.
    pub fn lost_with(&self, alloc: Global, now: u64, looks: &mut u64) -> Result<Names, Memory>
        requires { looks.old < 2 ^ 63 }
        ensures names { IfOk result (λ names. names ≡ lost_of now self.now) }
        ensures sorted { IfOk result (λ names. IsStrictlySortedBy name_order names) }
        ensures looks { IfOk result (λ names. looks.new ≤ looks.old + length names + 1) }
        ensures added { IfOk result (λ names. looks.old + length names ≤ looks.new) }
        ensures err { OnErr result (looks.new ≡ looks.old) }
    {
        let found = self.index.lost(alloc, now)?;
        let (lost, looked) = found;
        let mut names = Vec::with_capacity(alloc, lost.len())?;
        for name in &lost {
            names.push(name.copy(alloc)?)?;
        }
        *looks += looked;
        Ok(Names::from_vec(names))
    }

    /// Takes a name out of the cache, and says whether it was there.
    pub fn remove(&mut self, name: &Text) -> bool
        ensures found { result ≡ is_some (cached name.now self.old) }
        ensures after { self.new ≡ without name.now self.old }
        ensures gone { cached name.now self.new ≡ None }
        ensures others { KeepsOthers name.now self.old self.new }
    {
        let timeout = self.timeout;
        let Some((name, entry)) = self.entries.remove_entry(name) else {
            return false;
        };
        self.index.take_out(&(entry.expiry(timeout), name));
        true
    }
}

/// Renews the entry of a name by a list, where it is newer, and moves the name in the index.
fn renew(
    alloc: Global,
    place: &mut CacheEntry,
    index: &mut Index,
    timeout: u32,
    name: Text,
    list: &ValueList,
    set: &DataSet,
    now: u64,
) -> Result<Updated, Memory>
    requires { has index.old.pairs (expiry timeout place.old, name) ≡ true }
    ensures how { IfOk result (λ how. how ≡ outcome_at (Some place.old) list.now) }
    ensures ok { OnOk result (place.new ≡ kept set.now place.old list.now now) }
    ensures moved { OnOk result ((q : ℕ × List ℕ) → has index.new.pairs q
        ≡ cond (is_same (expiry timeout place.new, name) q) true
        (cond (is_same (expiry timeout place.old, name) q) false (has index.old.pairs q))) }
    ensures names { index.new.names ≡ index.old.names }
    ensures err { OnErr result (place.new ≡ place.old) }
    ensures still { OnErr result (index.new ≡ index.old) }
{
    if place.is_as_new_as(list) {
        return Ok(Updated::Old);
    }
    let renewal = Renewal::of(alloc, set, place, list)?;
    let from = place.expiry(timeout);
    index.shift(alloc, name, from, moment_after(timeout, now, list.interval))?;
    place.renew(alloc, renewal, list, now);
    Ok(Updated::Stored)
}

/// Puts the first entry of a name into a map and its index.
fn put_first(
    alloc: Global,
    entries: &mut HashMap<Text, CacheEntry, HashKey>,
    index: &mut Index,
    timeout: u32,
    name: Text,
    entry: CacheEntry,
) -> Result<(), Memory>
    requires absent { found entries.old.entries name ≡ None }
    requires indexed { AreOrdersOf timeout entries.old.entries index.old }
    ensures ok { OnOk result ((q : List ℕ) → found entries.new.entries q
        ≡ cond (bytes_eq name q) (Some entry) (found entries.old.entries q)) }
    ensures err { OnErr result (entries.new.entries ≡ entries.old.entries) }
    ensures indexed { AreOrdersOf timeout entries.new.entries index.new }
{
    let at = entry.expiry(timeout);
    index.add(alloc, at, &name)?;
    match entries.insert(name, entry) {
        Ok(_) => Ok(()),
        Err(refused) => {
            let (name, _) = refused.value;
            index.take_out(&(at, name));
            Err(Memory)
        }
    }
}
