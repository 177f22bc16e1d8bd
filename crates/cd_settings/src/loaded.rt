//! The names of the plug-ins that are loaded.
ghost use Rattle.cd_settings.specs.TopLevel.{is_among, with_name};
ghost use Rattle.std.specs.Prelude.{IfOk, OnOk, [], ◌≡◌};

use cd_value::{Memory, Names, Text, TryCopy};
use indexmap::IndexSet;
use std::alloc::Global;
use std::marker::Model;

/// Names in order, each once, which are found by their hash.
#[derive(Drop)]
pub struct Loaded {
    names: IndexSet<Text>,
}

impl Model for Loaded {
    ghost use Rattle.std.specs.Prelude.{List, ℕ};

    ghost Value = { List (List ℕ) };

    ghost view = { λ l. l.names.keys };
}

impl Loaded {
    /// No name.
    pub fn new(alloc: Global) -> Self
        ensures { result ≡ [] }
    {
        Loaded {
            names: IndexSet::new(alloc),
        }
    }

    /// Whether a name is among these.
    pub fn has(&self, name: &Text) -> bool
        ensures { result ≡ is_among name.now self.now }
    {
        self.names.contains(name)
    }

    /// Puts a name behind the others, where it isn't among them. After want of memory nothing is
    /// said of the names.
    pub fn add(&mut self, name: Text) -> Result<(), Memory>
        ensures { OnOk result (self.new ≡ with_name self.old name) }
    {
        self.names.insert(name)?;
        Ok(())
    }

    /// The names as a list.
    pub fn to_names(&self, alloc: Global) -> Result<Names, Memory>
        ensures { IfOk result (λ names. names ≡ self.now) }
    {
        let names = self.names.as_slice();
        let mut copies = Vec::with_capacity(alloc, names.len())?;
        for name in names {
            copies.push(name.copy(alloc)?)?;
        }
        Ok(Names::from_vec(copies))
    }
}
