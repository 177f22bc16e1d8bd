//! The data sets that are known.
ghost use Rattle.cd_types.specs.Sets.{with_set, with_sets};
ghost use Rattle.cd_types.specs.Types.{builtin, fits, set_named, single};
ghost use Rattle.std.specs.Prelude.{IfErr, IfOk, OnErr, OnOk, [], option_copied, ◌≡◌};

use crate::fit::fits_set;
use cd_value::{DataSet, DataSource, DsType, Memory, Refused, Sequence, Text, TryCopy, ValueList};
use std::alloc::Global;
use std::collections::BTreeMap;
use std::marker::Model;

/// The types that are known, each a data set with a name, as in types.db(5), in the order of the
/// names' bytes.
#[derive(Drop)]
pub struct TypesDb {
    pub(crate) sets: BTreeMap<String, DataSet>,
}

impl Model for TypesDb {
    ghost use Rattle.cd_types.specs.Named.{AreNamed};
    ghost use Rattle.cd_value.specs.declared.data.DataSet.{DataSet};
    ghost use Rattle.std.specs.Map.{values_of};
    ghost use Rattle.std.specs.Prelude.{List};

    ghost Value = { List DataSet };

    ghost view = { λ db. values_of db.sets.entries };

    ghost invariant = { λ db. AreNamed db.sets.entries };
}

/// A set with one source, `value`, that has no greatest rate.
fn single_source(
    alloc: Global,
    name: &str,
    kind: DsType,
    min: Option<i128>,
) -> Result<DataSet, Memory>
    ensures { IfOk result (λ set. set ≡ single name.now kind min) }
{
    let source = DataSource {
        name: Text::of(alloc, "value")?,
        kind,
        min,
        max: None,
    };
    let mut sources = Sequence::new(alloc);
    sources.push(source)?;
    let name = Text::of(alloc, name)?;
    Ok(DataSet { name, sources })
}

impl TypesDb {
    /// No type.
    pub(crate) fn new(alloc: Global) -> TypesDb
        ensures { result ≡ [] }
    {
        TypesDb {
            sets: BTreeMap::new(alloc),
        }
    }

    /// Puts a set in its place, which is that of the set of its name where there is one.
    pub(crate) fn put(&mut self, alloc: Global, set: DataSet) -> Result<(), Memory>
        ensures ok { OnOk result (self.new ≡ with_set set self.old) }
        ensures err { OnErr result (self.new ≡ self.old) }
    {
        // the proof reads the sets as they stood before the name is copied
        let _ = &self.sets;
        let name = String::from_str(alloc, set.name.as_str())?;
        let _ = self.sets.insert(name, set)?;
        Ok(())
    }

    /// The four types that are known without a types.db: `absolute`, `counter`, `derive` and
    /// `gauge`.
    #[tactic(auto, unfolding(crate::specs::Types::builtin))]
    pub fn builtin(alloc: Global) -> Result<TypesDb, Memory>
        ensures { IfOk result (λ db. db ≡ builtin) }
    {
        let mut db = TypesDb::new(alloc);
        db.put(
            alloc,
            single_source(alloc, "absolute", DsType::Absolute, Some(0))?,
        )?;
        db.put(
            alloc,
            single_source(alloc, "counter", DsType::Counter, None)?,
        )?;
        db.put(
            alloc,
            single_source(alloc, "derive", DsType::Derive, Some(0))?,
        )?;
        db.put(alloc, single_source(alloc, "gauge", DsType::Gauge, None)?)?;
        Ok(db)
    }

    /// The set of that name, where one is known.
    pub fn get(&self, name: &str) -> Option<&DataSet>
        ensures { option_copied result ≡ set_named name.now self.now }
    {
        self.sets.get(name)
    }

    /// Whether the type of the list is known and the list fits it.
    pub fn fits(&self, list: &ValueList) -> bool
        ensures { result ≡ fits self.now list.now }
    {
        match self.get(list.id.type_name.as_str()) {
            Some(set) => fits_set(set, list),
            None => false,
        }
    }

    /// Puts the sets of another in their places: of one name the later one stands. Where memory is
    /// lacking, this one stays and the other comes back.
    pub fn merge(&mut self, alloc: Global, later: TypesDb) -> Result<(), Refused<TypesDb, Memory>>
        ensures ok { OnOk result (self.new ≡ with_sets later self.old) }
        ensures err { OnErr result (self.new ≡ self.old) }
        ensures back { IfErr result (λ refused. refused.value ≡ later) }
    {
        match merged(alloc, self, &later) {
            Ok(both) => {
                *self = both;
                Ok(())
            }
            Err(why) => Err(Refused { value: later, why }),
        }
    }

    /// Puts a copy of each set of another in its place.
    fn put_all(&mut self, alloc: Global, other: &TypesDb) -> Result<(), Memory>
        ensures { OnOk result (self.new ≡ with_sets other.now self.old) }
    {
        for set in other.sets.values() {
            self.put(alloc, set.copy(alloc)?)?;
        }
        Ok(())
    }
}

impl TryCopy for TypesDb {
    fn copy(&self, alloc: Global) -> Result<TypesDb, Memory> {
        // the length says that the keys are in order, on which the proof stands
        let _ = self.sets.len();
        let mut db = TypesDb::new(alloc);
        db.put_all(alloc, self)?;
        Ok(db)
    }
}

/// The sets of both, of one name the later one.
fn merged(alloc: Global, old: &TypesDb, later: &TypesDb) -> Result<TypesDb, Memory>
    ensures { IfOk result (λ db. db ≡ with_sets later.now old.now) }
{
    let mut db = old.copy(alloc)?;
    db.put_all(alloc, later)?;
    Ok(db)
}
