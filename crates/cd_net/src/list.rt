//! The value list of a values part.
ghost use Rattle.cd_net.specs.Carried.{shown};
ghost use Rattle.cd_net.specs.Items.{clean_texts, list_outcome};
ghost use Rattle.cd_net.specs.Packet.{IsOfKind};
ghost use Rattle.cd_net.specs.Payload.{code_of, coded_value, codes_of, payload_values, value_count};
ghost use Rattle.cd_net.specs.Refusals.{are_texts, are_times, first_refusal, has_time, is_code_of, is_gauge_code, list_tests, sources_of, texts_of};
ghost use Rattle.cd_value.specs.Identifier.{has_bad_field, has_long_field};
ghost use Rattle.std.specs.List.{list_all, list_any, zip};
ghost use Rattle.std.specs.Option.{option_copied};
ghost use Rattle.std.specs.Prelude.{IfOk, IsTrue, false, is_none, length, not, ◌*◌, ◌+◌, ◌==◌, ◌≡◌, ◌≤◌};

use crate::carried::{Carried, CleanTexts};
use crate::decode::Outcome;
use crate::numbers::{ABSOLUTE_CODE, COUNTER_CODE, DERIVE_CODE, GAUGE_CODE, VALUES};
use crate::payload::{codes_and_numbers, number};
use crate::{Item, ItemRefusal};
use byteorder::{ByteOrder, NetworkEndian};
use cd_value::{
    DataSet, DataSource, DsType, Identifier, Memory, Sequence, Value, ValueList, Values,
};
use std::alloc::Global;

/// The code of a kind of data source.
fn code_of(kind: DsType) -> u8
    ensures { result ≡ code_of kind }
{
    match kind {
        DsType::Counter => COUNTER_CODE,
        DsType::Gauge => GAUGE_CODE,
        DsType::Derive => DERIVE_CODE,
        DsType::Absolute => ABSOLUTE_CODE,
    }
}

/// The value of a code and the first eight of some bytes.
fn coded_value(code: u8, bytes: &[u8]) -> Option<Value>
    requires { 8 ≤ length bytes.now }
    ensures { result ≡ coded_value code bytes.now }
{
    match code {
        COUNTER_CODE => Some(Value::Counter(number(bytes))),
        DERIVE_CODE => Some(Value::Derive(NetworkEndian::read_i64(bytes))),
        ABSOLUTE_CODE => Some(Value::Absolute(number(bytes))),
        _ => None,
    }
}

/// The values of a payload.
fn payload_values(alloc: Global, payload: &[u8]) -> Result<Values, Memory>
    requires { 2 + 9 * value_count payload.now ≤ length payload.now }
    ensures { IfOk result (λ values. values ≡ payload_values payload.now) }
{
    let (codes, mut numbers) = codes_and_numbers(payload);
    let mut values = Vec::with_capacity(alloc, codes.len())?;
    for code in codes {
        if let Some(value) = coded_value(*code, numbers) {
            values.push(value)?;
        }
        numbers = &numbers[8..];
    }
    Ok(Sequence::from_vec(values))
}

/// Whether a value is a gauge.
fn has_gauge(codes: &[u8]) -> bool
    ensures { result ≡ list_any is_gauge_code codes.now }
{
    codes.contains(&GAUGE_CODE)
}

/// Whether each code is that of the source beside it.
fn have_kinds(codes: &[u8], sources: &[DataSource]) -> bool
    ensures { result ≡ list_all is_code_of (zip codes.now sources.now) }
{
    codes
        .iter()
        .zip(sources)
        .all(|(code, source)| *code == code_of(source.kind))
}

/// Why a values part gives no list, if so.
fn list_refusal(fields: &Carried<'_>, payload: &[u8], set: Option<&DataSet>) -> Option<ItemRefusal>
    requires { IsOfKind VALUES payload.now }
    ensures { let set = option_copied set.entry in
        result ≡ first_refusal (list_tests set (shown fields.now) payload.now) }
{
    if !fields.are_texts() {
        return Some(ItemRefusal::NotText);
    }
    // The lengths first: a text is then looked through only where it is short, so a packet takes a
    // time linear in its bytes.
    if fields.has_long_text() || fields.has_bad_text() || !fields.are_times() {
        return Some(ItemRefusal::BadField);
    }
    let (codes, _) = codes_and_numbers(payload);
    if has_gauge(codes) {
        return Some(ItemRefusal::Gauge);
    }
    let Some(set) = set else {
        return Some(ItemRefusal::UnknownType);
    };
    if codes.len() != set.sources.len() {
        return Some(ItemRefusal::WrongCount);
    }
    if !have_kinds(codes, set.sources.as_slice()) {
        return Some(ItemRefusal::WrongKind);
    }
    if !fields.has_time() {
        return Some(ItemRefusal::NoTime);
    }
    None
}

/// The identifier of the texts in force.
fn identifier(alloc: Global, fields: &Carried<'_>) -> Result<Identifier, Memory>
    requires good { has_bad_field (texts_of (shown fields.now)) ≡ false }
    requires short { has_long_field (texts_of (shown fields.now)) ≡ false }
    ensures { IfOk result (λ id. id ≡ clean_texts (texts_of (shown fields.now))) }
{
    let texts = fields.clean_texts(alloc)?;
    let CleanTexts {
        host,
        plugin,
        plugin_instance,
        type_name,
        type_instance,
    } = texts;
    Ok(Identifier {
        host,
        plugin,
        plugin_instance,
        type_name,
        type_instance,
    })
}

/// The list of a values part under the fields in force and their data set, or why it gives none.
#[tactic(auto, unfolding(crate::specs::Items::list_outcome))]
pub(crate) fn list(
    alloc: Global,
    fields: &Carried<'_>,
    payload: &[u8],
    set: Option<&DataSet>,
    interval: u64,
) -> Result<Outcome, Memory>
    requires { IsOfKind VALUES payload.now }
    ensures { let set = option_copied set.entry in
        let fields = shown fields.now in
        IfOk result (λ gave. gave ≡ list_outcome set interval fields payload.now) }
{
    if let Some(refusal) = list_refusal(fields, payload, set) {
        return Ok(Err(refusal));
    }
    let id = identifier(alloc, fields)?;
    let values = payload_values(alloc, payload)?;
    Ok(Ok(Item::List(ValueList {
        id,
        time: fields.time.unwrap_or(0),
        interval: fields.interval_or(interval),
        values,
    })))
}
