//! Placeholders in texts.
ghost use Rattle.cd_target.specs.Placeholders.{begins_with, field_at, filled, is_percent, message_of, placeholder, substituted};
ghost use Rattle.std.specs.List.{flat_map, slice_split};
ghost use Rattle.std.specs.Prelude.{IfOk, MatchOption, None, OnOk, Some, [], drop, false, length, true, ◌++◌, ◌<◌, ◌∷◌, ◌≡◌, ◌≤◌};

use cd_pattern::Field;
use cd_value::{Identifier, MESSAGE_LIMIT, Memory, Text, ValueList, longest_front};
use std::alloc::Global;

/// The message of a target "notification", as in collectd.conf(5): each of the placeholders `%{host}`, `%{plugin}`,
/// `%{plugin_instance}`, `%{type}` and `%{type_instance}` in the text stands for that field of the list, any other text
/// stays as it is, and of the result the longest front of at most `MESSAGE_LIMIT` bytes is kept that ends at a
/// character.
pub fn message(alloc: Global, text: &Text, list: &ValueList) -> Result<Text, Memory>
    ensures value { IfOk result (λ message. message ≡ message_of list.now.id text.now) }
    ensures short { IfOk result (λ message. length message ≤ MESSAGE_LIMIT) }
{
    let whole = substituted(alloc, text.as_str(), &list.id)?;
    Text::of(alloc, longest_front(whole.as_str(), MESSAGE_LIMIT))
}

/// The text with the fields of an identifier in the place of their placeholders.
#[tactic(auto, unfolding(crate::specs::Placeholders::substituted))]
pub(crate) fn substituted(alloc: Global, text: &str, id: &Identifier) -> Result<Text, Memory>
    ensures { IfOk result (λ new. new ≡ substituted id.now text.now) }
{
    match at_percent(text) {
        Some((first, rest)) => {
            let mut new = Text::of(alloc, first)?;
            push_parts(&mut new, rest, id)?;
            Ok(new)
        }
        None => Text::of(alloc, text),
    }
}

/// Puts behind what the parts of a text become that stood behind a percent sign.
fn push_parts(new: &mut Text, mut rest: &str, id: &Identifier) -> Result<(), Memory>
    ensures { OnOk result (new.new
        ≡ new.old ++ flat_map (filled id.now) (slice_split is_percent rest.now)) }
{
    while let Some((part, behind)) = at_percent(rest) {
        push_filled(new, part, id)?;
        rest = behind;
    }
    push_filled(new, rest, id)
}

/// What stands before the first percent sign of a text, and what behind it.
fn at_percent(text: &str) -> Option<(&str, &str)>
    ensures { MatchOption result (slice_split is_percent text.now ≡ text.now ∷ [])
        (λ x. (slice_split is_percent text.now ≡ x.0.now ∷ slice_split is_percent x.1.now)
        × (length x.1.now < length text.now)) }
{
    text.split_once('%')
}

/// Puts behind what a part becomes that stood behind a percent sign.
fn push_filled(new: &mut Text, part: &str, id: &Identifier) -> Result<(), Memory>
    ensures { OnOk result (new.new ≡ new.old ++ filled id.now part.now) }
{
    match placeholder_in(part) {
        Some((field, behind)) => {
            new.push(field.of(id).as_str())?;
            new.push(behind)
        }
        None => {
            new.push("%")?;
            new.push(part)
        }
    }
}

/// The field whose placeholder a part begins with, and what stands behind it.
fn placeholder_in(part: &str) -> Option<(Field, &str)>
    ensures { MatchOption result (field_at part.now ≡ None)
        (λ x. (field_at part.now ≡ Some x.0)
        × (x.1.now ≡ drop (length (placeholder x.0)) part.now)) }
{
    let fields = [
        Field::Host,
        Field::Plugin,
        Field::PluginInstance,
        Field::TypeName,
        Field::TypeInstance,
    ];
    for field in fields {
        if let Some(behind) = behind(part, field) {
            return Some((field, behind));
        }
    }
    None
}

/// What stands behind the placeholder of a field, where a part begins with it.
fn behind(part: &str, field: Field) -> Option<&str>
    ensures { MatchOption result (begins_with part.now field ≡ false)
        (λ x. (begins_with part.now field ≡ true)
        × (x.now ≡ drop (length (placeholder field)) part.now)) }
{
    part.strip_prefix(placeholder(field))
}

/// The placeholder of a field, without its percent sign.
fn placeholder(field: Field) -> &'static str
    ensures { result.now ≡ placeholder field }
{
    match field {
        Field::Host => "{host}",
        Field::Plugin => "{plugin}",
        Field::PluginInstance => "{plugin_instance}",
        Field::TypeName => "{type}",
        Field::TypeInstance => "{type_instance}",
    }
}
