//! The identifier of a value list.
ghost use Rattle.cd_value.specs.Identifier.{as_named, dashed, fields_of, has_bad_field, has_control, has_dash, has_long_field, is_bad_text, is_dash, is_identifier, is_long_text, is_slash, is_type_byte, name_of, read_identifier, read_of_name};
ghost use Rattle.cd_value.specs.Parts.{IsCutAtSlash, IsFaultOf, shown};
ghost use Rattle.std.specs.List.{after_first, before_first, list_all};
ghost use Rattle.std.specs.Prelude.{IfErr, IfOk, IsTrue, MatchOption, OnOk, count_by, false, ◌++◌, ◌+◌, ◌<◌, ◌↔◌, ◌≡◌, ◌≤◌};

use crate::field::has_control;
use crate::{FIELD_LIMIT, Memory, Text, TryCopy};
use std::alloc::Global;
use std::marker::Model;

/// Why a text is no identifier.
#[derive(Clone, Copy, Debug, PartialEq, Eq)]
pub enum IdFault {
    /// Fewer than two `/`, an empty host, plugin or type, a control character, or a type with a
    /// character other than a letter, a digit or `_`.
    BadIdentifier,
    /// A field of more than `FIELD_LIMIT` bytes.
    FieldTooLong,
    /// Memory was lacking.
    Memory,
}

impl From<Memory> for IdFault {
    ghost use Rattle.cd_value.specs.declared.identifier.IdFault.TheVariants as faults;

    ghost from_gives = { λ _ e. e ≡ faults.Memory };

    fn from(_: Memory) -> Self {
        IdFault::Memory
    }
}

/// The identifier of a value list, as in collectd-unixsock(5), "Identifiers". Its fields always
/// make one: each has no control character and at most `FIELD_LIMIT` bytes; host, plugin and type
/// aren't empty; host, plugin and plugin instance have no `/`; the type has only letters, digits
/// and `_`.
#[derive(Drop)]
pub struct Identifier {
    pub host: Text,
    pub plugin: Text,
    pub plugin_instance: Text,
    pub type_name: Text,
    pub type_instance: Text,
}

impl Model for Identifier {
    ghost use Rattle.cd_value.specs.Identifier.{Fields, is_identifier};
    ghost use Rattle.std.specs.Prelude.{IsTrue};

    ghost Value = { Fields };

    ghost use Rattle.cd_value.specs.Inside.{fields};

    ghost view = { fields };

    ghost invariant = { λ id. IsTrue (is_identifier (fields id)) };
}

impl TryCopy for Identifier {
    fn copy(&self, alloc: Global) -> Result<Identifier, Memory> {
        let host = self.host.copy(alloc)?;
        let plugin = self.plugin.copy(alloc)?;
        let plugin_instance = self.plugin_instance.copy(alloc)?;
        let type_name = self.type_name.copy(alloc)?;
        let type_instance = self.type_instance.copy(alloc)?;
        Ok(Identifier {
            host,
            plugin,
            plugin_instance,
            type_name,
            type_instance,
        })
    }
}

impl Identifier {
    /// Reads `host/plugin[-instance]/type[-instance]`, as in collectd-unixsock(5), "Identifiers".
    /// The host ends at the first `/` and the plugin part at the second; the rest is the type part,
    /// whose instance may have more `/`. In the plugin part and in the type part an instance begins
    /// after the first `-`. Printing what was read and reading that gives it again.
    pub fn read(alloc: Global, text: &str) -> Result<Identifier, IdFault>
        ensures ok { IfOk result (λ id. read_identifier text.now ≡ Ok id) }
        ensures err { IfErr result (IsFaultOf text.now) }
        ensures bad { (result ≡ Err IdFault.BadIdentifier) ↔ IsTrue (is_bad_text text.now) }
        ensures long { (result ≡ Err IdFault.FieldTooLong) ↔ IsTrue (is_long_text text.now) }
        ensures again { IfOk result (λ id. read_identifier (name_of id) ≡ Ok id) }
    {
        let Some(parts) = Parts::of(text) else {
            return Err(IdFault::BadIdentifier);
        };
        if has_control(text) || parts.has_bad_field() {
            return Err(IdFault::BadIdentifier);
        }
        if parts.has_long_field() {
            return Err(IdFault::FieldTooLong);
        }
        Ok(parts.own(alloc)?)
    }

    /// The printed identifier, as in collectd-unixsock(5), "Identifiers": an empty instance is
    /// printed without its dash. It is the key of the value cache, so identifiers of one name share
    /// their place there. A name reads as its identifier again, but that a `-` in the plugin then
    /// begins the instance.
    pub fn name(&self, alloc: Global) -> Result<Text, Memory>
        ensures value { IfOk result (λ name. name ≡ name_of self.now) }
        ensures shows { IfOk result (λ name. fields_of name ≡ as_named self.now) }
        ensures reads { IfOk result (λ name. read_identifier name ≡ read_of_name self.now) }
        ensures again { has_dash self.now.plugin ≡ false →
            IfOk result (λ name. read_identifier name ≡ Ok self.now) }
    {
        let mut name = Text::with_capacity(alloc, self.name_capacity())?;
        name.push(self.host.as_str())?;
        name.push("/")?;
        name.push(self.plugin.as_str())?;
        push_instance(&mut name, self.plugin_instance.as_str())?;
        name.push("/")?;
        name.push(self.type_name.as_str())?;
        push_instance(&mut name, self.type_instance.as_str())?;
        Ok(name)
    }

    /// Room for the printed identifier.
    fn name_capacity(&self) -> usize {
        let plugin = self.plugin.len() + self.plugin_instance.len();
        let type_part = self.type_name.len() + self.type_instance.len();
        self.host.len() + plugin + type_part + 4
    }
}

/// The five fields of an identifier as they stand in a text.
#[derive(Clone, Copy)]
struct Parts<'a> {
    host: &'a str,
    plugin: &'a str,
    plugin_instance: &'a str,
    type_name: &'a str,
    type_instance: &'a str,
}

impl<'a> Parts<'a> {
    /// The parts of a text that has two `/`.
    fn of(text: &'a str) -> Option<Parts<'a>>
        ensures { let slashes = count_by is_slash text.now in
            MatchOption result (slashes < 2)
            (λ parts. (2 ≤ slashes) × (shown parts ≡ fields_of text.now)) }
    {
        let Some((host, rest)) = at_slash(text) else {
            return None;
        };
        let Some((plugin_part, type_part)) = at_slash(rest) else {
            return None;
        };
        let (plugin, plugin_instance) = at_dash(plugin_part);
        let (type_name, type_instance) = at_dash(type_part);
        Some(Parts {
            host,
            plugin,
            plugin_instance,
            type_name,
            type_instance,
        })
    }

    fn has_bad_field(self) -> bool
        ensures { result ≡ has_bad_field (shown self.entry) }
    {
        self.host.is_empty()
            || self.plugin.is_empty()
            || self.type_name.is_empty()
            || !is_type(self.type_name)
    }

    fn has_long_field(self) -> bool
        ensures { result ≡ has_long_field (shown self.entry) }
    {
        self.host.len() > FIELD_LIMIT
            || self.plugin.len() > FIELD_LIMIT
            || self.plugin_instance.len() > FIELD_LIMIT
            || self.type_name.len() > FIELD_LIMIT
            || self.type_instance.len() > FIELD_LIMIT
    }

    /// An identifier of its own.
    fn own(self, alloc: Global) -> Result<Identifier, Memory>
        requires { IsTrue (is_identifier (shown self)) }
        ensures { IfOk result (λ id. id ≡ shown self.entry) }
    {
        let host = Text::of(alloc, self.host)?;
        let plugin = Text::of(alloc, self.plugin)?;
        let plugin_instance = Text::of(alloc, self.plugin_instance)?;
        let type_name = Text::of(alloc, self.type_name)?;
        let type_instance = Text::of(alloc, self.type_instance)?;
        Ok(Identifier {
            host,
            plugin,
            plugin_instance,
            type_name,
            type_instance,
        })
    }
}

/// Puts a dash and an instance behind, and nothing for an empty instance.
fn push_instance(name: &mut Text, instance: &str) -> Result<(), Memory>
    ensures { OnOk result (name.new ≡ name.old ++ dashed instance.now) }
{
    if instance.is_empty() {
        return Ok(());
    }
    name.push("-")?;
    name.push(instance)
}

/// A text before its first slash, and what stands behind it.
fn at_slash(text: &str) -> Option<(&str, &str)>
    ensures { MatchOption result (count_by is_slash text.now ≡ 0)
        (λ x. IsCutAtSlash text.now x.0.now x.1.now) }
{
    text.split_once('/')
}

/// A part before its first dash, and its instance behind it.
fn at_dash(part: &str) -> (&str, &str)
    ensures name { result.0.now ≡ before_first is_dash part.now }
    ensures instance { result.1.now ≡ after_first is_dash part.now }
{
    match part.split_once('-') {
        Some((name, instance)) => (name, instance),
        None => (part, ""),
    }
}

fn is_type(text: &str) -> bool
    ensures { result ≡ list_all is_type_byte text.now }
{
    text.bytes()
        .all(|byte| byte.is_ascii_alphanumeric() || byte == b'_')
}
