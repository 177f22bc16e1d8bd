//! What a value list brings to the entry of its name.
ghost use Rattle.cd_cache.specs.Cache.{is_old, renewed};
ghost use Rattle.cd_cache.specs.Renewal.{HasRoom, IsRenewal, renewed_by};
ghost use Rattle.std.specs.Option.{unwrap_or};
ghost use Rattle.std.specs.Prelude.{IfOk, IsTrue, None, Some, length, ◌≡◌};

use crate::CacheEntry;
use crate::rates::rates_against;
use cd_value::{DataSet, Identifier, Memory, Rates, Sequence, TryCopy, Value, ValueList, Values};
use std::alloc::Global;
use std::mem;

/// What takes memory of the entry that a list makes, got before anything changes.
#[derive(Drop)]
pub struct Renewal {
    /// The identifier, where it isn't that of the entry before.
    id: Option<Identifier>,
    /// The values, where the entry before has another number of them.
    values: Option<Values>,
    rates: Rates,
}

impl Renewal {
    /// What a list brings to an entry.
    pub fn of(
        alloc: Global,
        set: &DataSet,
        before: &CacheEntry,
        list: &ValueList,
    ) -> Result<Renewal, Memory>
        ensures entry { IfOk result (λ renewal. IsRenewal renewal set.now before.now list.now) }
        ensures room { IfOk result (λ renewal. HasRoom renewal before.now list.now) }
    {
        let id = if is_same(&before.list.id, &list.id) {
            None
        } else {
            Some(list.id.copy(alloc)?)
        };
        let values = if before.list.values.len() == list.values.len() {
            None
        } else {
            Some(list.values.copy(alloc)?)
        };
        let rates = rates_against(alloc, set, Some(before), list)?;
        Ok(Renewal { id, values, rates })
    }
}

impl CacheEntry {
    /// The entry of a list whose name has none.
    pub(crate) fn first(
        alloc: Global,
        set: &DataSet,
        list: &ValueList,
        now: u64,
    ) -> Result<CacheEntry, Memory>
        ensures { IfOk result (λ entry. entry ≡ renewed set.now None list.now now) }
    {
        let rates = rates_against(alloc, set, None, list)?;
        let list = list.copy(alloc)?;
        Ok(CacheEntry {
            list,
            rates,
            arrival: now,
        })
    }

    /// Whether the list of the entry is as new as another, or newer.
    pub(crate) fn is_as_new_as(&self, list: &ValueList) -> bool
        ensures { result ≡ is_old (Some self.now) list.now }
    {
        list.time <= self.list.time
    }

    /// Takes what a list brings.
    pub(crate) fn renew(&mut self, alloc: Global, renewal: Renewal, list: &ValueList, now: u64)
        requires { HasRoom renewal self.old list.now }
        ensures { self.new ≡ renewed_by renewal list.now now self.old }
    {
        let Renewal { id, values, rates } = renewal;
        if let Some(id) = id {
            self.list.id = id;
        }
        self.list.time = list.time;
        self.list.interval = list.interval;
        put_values(alloc, &mut self.list.values, values, &list.values);
        self.rates = rates;
        self.arrival = now;
    }
}

/// Whether two identifiers have the same fields.
fn is_same(id: &Identifier, other: &Identifier) -> bool
    ensures { IsTrue result → id.now ≡ other.now }
{
    id.host == other.host
        && id.plugin == other.plugin
        && id.plugin_instance == other.plugin_instance
        && id.type_name == other.type_name
        && id.type_instance == other.type_instance
}

/// Puts values where others stand: a copy of them, or where there is none, over as many.
fn put_values(alloc: Global, place: &mut Values, copy: Option<Values>, values: &Values)
    requires { copy ≡ None → length place.old ≡ length values.now }
    ensures { place.new ≡ unwrap_or copy values.now }
{
    match copy {
        Some(copy) => *place = copy,
        None => {
            let room = mem::replace(place, Sequence::new(alloc)).into_vec();
            *place = Sequence::from_vec(written(room, values.as_slice()));
        }
    }
}

/// A vector with values written over its own.
fn written(mut room: Vec<Value>, values: &[Value]) -> Vec<Value>
    requires { length room.items ≡ length values.now }
    ensures { result.items ≡ values.now }
{
    room.as_mut_slice().copy_from_slice(values);
    room
}
