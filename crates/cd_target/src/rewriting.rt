//! Targets that change a value list.
ghost use Rattle.cd_pattern.specs.Fields.{field_of};
ghost use Rattle.cd_target.specs.Targets.{Keeps, cleaned, is_same, replaced_on, replaced_text, rewritten, rewritten_fields, rewritten_field, set_text, text_of};
ghost use Rattle.cd_value.specs.Identifier.{is_identifier};
ghost use Rattle.std.specs.List.{find, list_any};
ghost use Rattle.std.specs.Prelude.{IfOk, IsTrue, OnErr, OnOk, option_copied, reverse, unwrap_or, ◌≡◌};

use crate::placeholders::substituted;
use crate::{Replacing, Target};
use cd_pattern::Field;
use cd_value::{Identifier, Memory, Text, TryCopy, ValueList, clean};
use std::alloc::Global;

/// The list after a target, as in collectd.conf(5): "set" gives each field that has an option the text of its last one,
/// in which placeholders stand for the fields of the list as it was; "replace" replaces, option by option, the first
/// match of the pattern in the field by the replacement as it stands. What a field is given is cleaned at the end:
/// control characters become `_`, and so does `/` but in the type instance; at most `FIELD_LIMIT` bytes stay; host and
/// plugin stay as they were where they would be empty. The type never changes. After any other target the list is an
/// equal one.
pub fn rewrite(alloc: Global, target: &mut Target, list: &ValueList) -> Result<ValueList, Memory>
    ensures value { IfOk result (λ new. new ≡ rewritten target.old list.now) }
    ensures target { target.new ≡ target.old }

    // A list that fitted its data set still does.
    ensures keeps { IfOk result (Keeps list.now) }
    ensures identifier { IfOk result (λ new. IsTrue (is_identifier new.id)) }
{
    let mut new = list.copy(alloc)?;
    rewrite_in_place(alloc, target, &mut new.id)?;
    Ok(new)
}

/// Changes the fields of a list's identifier as `rewrite` does. Where memory is lacking they stay as they were.
pub fn rewrite_in_place(alloc: Global, target: &Target, id: &mut Identifier) -> Result<(), Memory>
    ensures ok { OnOk result (id.new ≡ rewritten_fields target.now id.old) }
    ensures err { OnErr result (id.new ≡ id.old) }
    ensures type_name { id.new.type_name ≡ id.old.type_name }
    ensures identifier { OnOk result (IsTrue (is_identifier id.new)) }
{
    let host = rewritten_field(alloc, target, Field::Host, id)?;
    let plugin = rewritten_field(alloc, target, Field::Plugin, id)?;
    let plugin_instance = rewritten_field(alloc, target, Field::PluginInstance, id)?;
    let type_instance = rewritten_field(alloc, target, Field::TypeInstance, id)?;
    put(&mut id.host, host);
    put(&mut id.plugin, plugin);
    put(&mut id.plugin_instance, plugin_instance);
    put(&mut id.type_instance, type_instance);
    Ok(())
}

/// Puts a text into a field, if there is one.
fn put(field: &mut Text, text: Option<Text>)
    ensures { field.new ≡ unwrap_or text field.old }
{
    if let Some(text) = text {
        *field = text;
    }
}

/// What a field becomes, or none where it stays as it is.
fn rewritten_field(
    alloc: Global,
    target: &Target,
    field: Field,
    id: &Identifier,
) -> Result<Option<Text>, Memory>
    ensures { IfOk result (λ text.
        unwrap_or text (field_of field id.now) ≡ rewritten_field target.now field id.now) }
{
    match text_for(alloc, target, field, id)? {
        Some(text) => Ok(Some(cleaned(alloc, field, text, id)?)),
        None => Ok(None),
    }
}

/// A text made fit to be that field of an identifier.
fn cleaned(alloc: Global, field: Field, text: Text, id: &Identifier) -> Result<Text, Memory>
    ensures { IfOk result (λ new. new ≡ cleaned field id.now text) }
{
    match field {
        Field::Host => clean(alloc, text, true, &id.host, true),
        Field::Plugin => clean(alloc, text, true, &id.plugin, true),
        Field::PluginInstance => clean(alloc, text, true, &id.plugin_instance, false),
        Field::TypeName => id.type_name.copy(alloc),
        Field::TypeInstance => clean(alloc, text, false, &id.type_instance, false),
    }
}

/// The text that a target gives a field, or none.
fn text_for(
    alloc: Global,
    target: &Target,
    field: Field,
    id: &Identifier,
) -> Result<Option<Text>, Memory>
    ensures { IfOk result (λ text. text ≡ text_of target.now field id.now) }
{
    match target {
        Target::Set(options) => set_text(alloc, options.as_slice(), field, id),
        Target::Replace(options) => replaced_text(alloc, options.as_slice(), field, id),
        _ => Ok(None),
    }
}

/// The text that the last option on a field gives it, or none where no option is on it.
fn set_text(
    alloc: Global,
    options: &[(Field, Text)],
    field: Field,
    id: &Identifier,
) -> Result<Option<Text>, Memory>
    ensures { IfOk result (λ text. text ≡ set_text options.now field id.now) }
{
    match last_on(options, field) {
        Some(option) => Ok(Some(substituted(alloc, option.1.as_str(), id)?)),
        None => Ok(None),
    }
}

/// The last option on a field.
fn last_on(options: &[(Field, Text)], field: Field) -> Option<&(Field, Text)>
    ensures { option_copied result
        ≡ find (λ option. is_same option.0 field) (reverse options.now) }
{
    options.iter().rev().find(|option| is_same(option.0, field))
}

/// The field after each option on it in turn, or none where no option is on it.
fn replaced_text(
    alloc: Global,
    options: &[Replacing],
    field: Field,
    id: &Identifier,
) -> Result<Option<Text>, Memory>
    ensures { IfOk result (λ text. text ≡ replaced_text options.now field id.now) }
{
    if !has_option_on(options, field) {
        return Ok(None);
    }
    let mut text = field.of(id).copy(alloc)?;
    for option in options {
        text = replaced_on(alloc, option, field, text)?;
    }
    Ok(Some(text))
}

/// Whether an option is on a field.
fn has_option_on(options: &[Replacing], field: Field) -> bool
    ensures { result ≡ list_any (λ option. is_same option.field field) options.now }
{
    options.iter().any(|option| is_same(option.field, field))
}

/// The text after an option, if that is on the field.
fn replaced_on(alloc: Global, option: &Replacing, field: Field, text: Text) -> Result<Text, Memory>
    ensures { IfOk result (λ new. new ≡ replaced_on field text option.now) }
{
    if is_same(option.field, field) {
        option.apply(alloc, text)
    } else {
        Ok(text)
    }
}

/// Whether two fields are the same.
fn is_same(a: Field, b: Field) -> bool
    ensures { result ≡ is_same a b }
{
    a == b
}
