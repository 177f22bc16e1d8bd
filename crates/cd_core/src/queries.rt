//! What is cached.
ghost use Rattle.cd_cache.specs.Cache.{cached};
ghost use Rattle.cd_core.specs.Replies.{get_reply};
ghost use Rattle.cd_daemon.specs.Answers.{source_names};
ghost use Rattle.cd_history.specs.declared.entry.Entry.TheVariants as entry;
ghost use Rattle.cd_history.specs.declared.entry.Found.TheVariants as found;
ghost use Rattle.cd_value.specs.Rows.{as_rows};
ghost use Rattle.std.specs.Prelude.{IfOk, IfSome, None, Some, map, ℕ, ◌≡◌};

use crate::{Core, Got, QueryFault};
use cd_cache::CacheEntry;
use cd_registry::{TellsCalls, TellsReadings};
use cd_types::TypesDb;
use cd_value::{DataSource, Memory, Names, Rows, Text, TryCopy};
use std::alloc::Global;

impl<P: TellsCalls, Q: TellsReadings> Core<P, Q> {
    ghost use Rattle.cd_core.specs.Seen.{seen};
    ghost use Rattle.cd_core.specs.Stands.{Anyhow, Makes};

    /// The names of the data sources of the list that is cached under a name, and their rates, as GETVAL of
    /// collectd-unixsock(5) tells them. `NoSuchValue` where none is, or `Memory`.
    pub fn get(&self, alloc: Global, name: &Text) -> Result<Got, QueryFault>
        ensures { IfSome (get_reply result) (λ reply. (actor : ℕ) →
            Makes (seen P.plug_tells Q.probe_tells self.now)
            (seen P.plug_tells Q.probe_tells self.now) Anyhow
            (entry.Query actor (Some name.now) reply)) }
    {
        let Some(entry) = self.cache.get(name) else {
            return Err(QueryFault::NoSuchValue);
        };
        match got_from(alloc, &self.types, entry) {
            Ok(got) => Ok(got),
            Err(Memory) => Err(QueryFault::Memory),
        }
    }

    /// The time, in 2^-30 s, and the name of each cached list, in the order of the names' bytes, as LISTVAL of
    /// collectd-unixsock(5) tells them, or `Memory`.
    pub fn list(&self, alloc: Global) -> Result<Rows, Memory>
        ensures { IfOk result (λ rows. (actor : ℕ) →
            Makes (seen P.plug_tells Q.probe_tells self.now)
            (seen P.plug_tells Q.probe_tells self.now) Anyhow
            (entry.Query actor None (found.Listed rows))) }
    {
        self.cache.rows(alloc)
    }

    /// What `list` answers, with the names by reference.
    pub fn listed(&self, alloc: Global) -> Result<Vec<(u64, &Text)>, Memory>
        ensures step { IfOk result (λ rows. (actor : ℕ) →
            Makes (seen P.plug_tells Q.probe_tells self.now)
            (seen P.plug_tells Q.probe_tells self.now) Anyhow
            (entry.Query actor None (found.Listed (as_rows rows.items)))) }
    {
        self.cache.listed(alloc)
    }
}

/// The names of the data sources of a cached list, and their rates.
fn got_from(alloc: Global, types: &TypesDb, entry: &CacheEntry) -> Result<Got, Memory>
    ensures names { IfOk result (λ got. got.names ≡ source_names types.now entry.now) }
    ensures rates { IfOk result (λ got. got.rates ≡ entry.now.rates) }
{
    let names = match types.get(entry.list.id.type_name.as_str()) {
        Some(set) => names_of(alloc, set.sources.as_slice())?,
        None => Names::new(alloc),
    };
    let rates = entry.rates.copy(alloc)?;
    Ok(Got { names, rates })
}

/// The names of data sources.
fn names_of(alloc: Global, sources: &[DataSource]) -> Result<Names, Memory>
    ensures { IfOk result (λ names. names ≡ map (λ source. source.name) sources.now) }
{
    let mut names = Names::new(alloc);
    for source in sources {
        names.push(source.name.copy(alloc)?)?;
    }
    Ok(names)
}
