//! The fields that parts carry forward to the values and messages behind them.
ghost use Rattle.cd_net.specs.Carried.{as_fields, shown, text_in, with_field};
ghost use Rattle.cd_net.specs.InForce.{in_force};
ghost use Rattle.cd_net.specs.Items.{clean_texts, interval_or};
ghost use Rattle.cd_net.specs.Packet.{IsOfKind};
ghost use Rattle.cd_net.specs.Payload.{payload_text};
ghost use Rattle.cd_net.specs.Refusals.{are_texts, are_times, has_time, set_in_force, texts_of};
ghost use Rattle.cd_value.specs.Identifier.{has_bad_field, has_long_field, is_long, is_type_byte};
ghost use Rattle.std.specs.List.{list_all};
ghost use Rattle.std.specs.Option.{option_copied};
ghost use Rattle.std.specs.Prelude.{IfOk, List, [], length, nat_lt, unwrap_or, ℕ, ◌≡◌};

use crate::field::Field;
use crate::numbers::{
    HOST, INTERVAL, INTERVAL_HIGH_RESOLUTION, PLUGIN, PLUGIN_INSTANCE, SEVERITY, TIME,
    TIME_HIGH_RESOLUTION, TYPE, TYPE_INSTANCE,
};
use crate::payload::{number, text, units_of_seconds};
use cd_types::TypesDb;
use cd_value::{DataSet, FIELD_LIMIT, Memory, Text};
use std::alloc::Global;

/// The fields in force. A text that isn't one, and a time of 2^34 seconds or more, is `None`.
#[derive(Clone, Copy)]
pub(crate) struct Carried<'a> {
    pub host: Option<Field<'a>>,
    pub plugin: Option<Field<'a>>,
    pub plugin_instance: Option<Field<'a>>,
    pub type_name: Option<Field<'a>>,
    pub type_instance: Option<Field<'a>>,
    pub time: Option<u64>,
    pub interval: Option<u64>,
    pub severity: u64,
}

/// Copies of the five texts, made fit to be fields.
#[derive(Drop)]
pub(crate) struct CleanTexts {
    pub host: Text,
    pub plugin: Text,
    pub plugin_instance: Text,
    pub type_name: Text,
    pub type_instance: Text,
}

impl<'a> Carried<'a> {
    /// The fields before any part.
    pub fn new() -> Self
        ensures { (bytes : List ℕ) → shown result ≡ in_force bytes [] }
    {
        let empty = Some(Field::new(""));
        Carried {
            host: empty,
            plugin: empty,
            plugin_instance: empty,
            type_name: empty,
            type_instance: empty,
            time: Some(0),
            interval: Some(0),
            severity: 0,
        }
    }

    /// Takes the field of a part, if it has one.
    #[tactic(auto, unfolding(crate::specs::Carried::with_field))]
    pub fn take(&mut self, kind: u16, payload: &'a [u8])
        requires { IsOfKind kind payload.now }
        ensures { shown self.new ≡ with_field kind payload.now (shown self.old) }
    {
        match kind {
            HOST => self.host = field(payload),
            PLUGIN => self.plugin = field(payload),
            PLUGIN_INSTANCE => self.plugin_instance = field(payload),
            TYPE => self.type_name = field(payload),
            TYPE_INSTANCE => self.type_instance = field(payload),
            TIME => self.time = units_of_seconds(number(payload)),
            TIME_HIGH_RESOLUTION => self.time = Some(number(payload)),
            INTERVAL => self.interval = units_of_seconds(number(payload)),
            INTERVAL_HIGH_RESOLUTION => self.interval = Some(number(payload)),
            SEVERITY => self.severity = number(payload),
            _ => {}
        }
    }

    /// Whether each text is one.
    pub fn are_texts(&self) -> bool
        ensures { result ≡ are_texts (shown self.now) }
    {
        self.host.is_some()
            && self.plugin.is_some()
            && self.plugin_instance.is_some()
            && self.type_name.is_some()
            && self.type_instance.is_some()
    }

    /// Whether the texts that an identifier needs are empty, or the type has a character that it may not have.
    pub fn has_bad_text(&self) -> bool
        ensures { result ≡ has_bad_field (texts_of (shown self.now)) }
    {
        text_or_empty(self.host).is_empty()
            || text_or_empty(self.plugin).is_empty()
            || text_or_empty(self.type_name).is_empty()
            || !is_type(text_or_empty(self.type_name))
    }

    /// Whether a text is too long for a field.
    pub fn has_long_text(&self) -> bool
        ensures { result ≡ has_long_field (texts_of (shown self.now)) }
    {
        is_long(self.host)
            || is_long(self.plugin)
            || is_long(self.plugin_instance)
            || is_long(self.type_name)
            || is_long(self.type_instance)
    }

    /// Whether the time and the interval are below 2^34 seconds.
    pub fn are_times(&self) -> bool
        ensures { result ≡ are_times (shown self.now) }
    {
        self.time.is_some() && self.interval.is_some()
    }

    /// Whether the time is not 0.
    pub fn has_time(&self) -> bool
        ensures { result ≡ has_time (shown self.now) }
    {
        self.time.unwrap_or(0) != 0
    }

    /// Copies of the texts, made fit to be fields; of an empty text where there is none.
    pub fn clean_texts(&self, alloc: Global) -> Result<CleanTexts, Memory>
        ensures { IfOk result
            (λ texts. as_fields texts ≡ clean_texts (texts_of (shown self.now))) }
    {
        Ok(CleanTexts {
            host: field_or_empty(self.host).clean_copy(alloc, true)?,
            plugin: field_or_empty(self.plugin).clean_copy(alloc, true)?,
            plugin_instance: field_or_empty(self.plugin_instance).clean_copy(alloc, true)?,
            type_name: field_or_empty(self.type_name).clean_copy(alloc, false)?,
            type_instance: field_or_empty(self.type_instance).clean_copy(alloc, false)?,
        })
    }

    /// The data set of the type, if it is known. A type that no list can have isn't looked for.
    pub fn set_in<'t>(&self, types: &'t TypesDb) -> Option<&'t DataSet>
        ensures { option_copied result ≡ set_in_force types.now (shown self.now) }
    {
        let Some(name) = self.type_name else {
            return None;
        };
        if name.text.len() > FIELD_LIMIT {
            return None;
        }
        types.get(name.text)
    }

    /// The interval, or the global one.
    pub fn interval_or(&self, global: u64) -> u64
        ensures { result ≡ interval_or global (unwrap_or self.now.interval 0) }
    {
        match self.interval.unwrap_or(0) {
            0 => global,
            interval => interval,
        }
    }
}

/// The text of a payload as a field.
fn field(payload: &[u8]) -> Option<Field<'_>>
    ensures { text_in result ≡ payload_text payload.now }
{
    match text(payload) {
        Some(text) => Some(Field::new(text)),
        None => None,
    }
}

/// The field, or one with an empty text where there is none.
fn field_or_empty(field: Option<Field<'_>>) -> Field<'_>
    ensures { result.text.now ≡ unwrap_or (text_in field.entry) [] }
{
    match field {
        Some(field) => field,
        None => Field::new(""),
    }
}

/// The text of the field, or an empty one where there is none.
fn text_or_empty(field: Option<Field<'_>>) -> &str
    ensures { result.now ≡ unwrap_or (text_in field.entry) [] }
{
    match field {
        Some(field) => field.text,
        None => "",
    }
}

fn is_long(field: Option<Field<'_>>) -> bool
    ensures { result ≡ is_long (unwrap_or (text_in field.entry) []) }
{
    text_or_empty(field).len() > FIELD_LIMIT
}

fn is_type(text: &str) -> bool
    ensures { result ≡ list_all is_type_byte text.now }
{
    text.bytes()
        .all(|byte| byte.is_ascii_alphanumeric() || byte == b'_')
}
