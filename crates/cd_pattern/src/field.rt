//! The fields of an identifier.
ghost use Rattle.cd_pattern.specs.Fields.{field_of};
ghost use Rattle.std.specs.Prelude.{◌≡◌};

use cd_value::{Identifier, Memory, Text, TryCopy};
use std::alloc::Global;

/// A field of an identifier, as the matches and targets of collectd.conf(5) name it.
#[derive(Clone, Copy, Debug, PartialEq, Eq)]
pub enum Field {
    Host,
    Plugin,
    PluginInstance,
    TypeName,
    TypeInstance,
}

impl TryCopy for Field {
    fn copy(&self, _alloc: Global) -> Result<Field, Memory> {
        Ok(*self)
    }
}

impl Field {
    /// The text of this field of an identifier.
    pub fn of(self, id: &Identifier) -> &Text
        ensures { result.now ≡ field_of self id.now }
    {
        match self {
            Field::Host => &id.host,
            Field::Plugin => &id.plugin,
            Field::PluginInstance => &id.plugin_instance,
            Field::TypeName => &id.type_name,
            Field::TypeInstance => &id.type_instance,
        }
    }
}
