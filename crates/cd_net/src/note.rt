//! The notification of a message part.
ghost use Rattle.cd_net.specs.Carried.{shown};
ghost use Rattle.cd_net.specs.Items.{message_of, note_of, note_outcome, severity_of};
ghost use Rattle.cd_net.specs.Payload.{payload_text};
ghost use Rattle.cd_net.specs.Refusals.{first_refusal, is_severity, note_tests};
ghost use Rattle.std.specs.Option.{option_copied};
ghost use Rattle.std.specs.Prelude.{IfOk, ◌≡◌};

use crate::carried::{Carried, CleanTexts};
use crate::decode::Outcome;
use crate::field::Field;
use crate::numbers::{FAILURE_CODE, OKAY_CODE, WARNING_CODE};
use crate::payload::text;
use crate::{Item, ItemRefusal};
use cd_value::{MESSAGE_LIMIT, Memory, Notification, Severity, longest_front};
use std::alloc::Global;

fn is_severity(code: u64) -> bool
    ensures { result ≡ is_severity code }
{
    code == FAILURE_CODE || code == WARNING_CODE || code == OKAY_CODE
}

fn severity_of(code: u64) -> Severity
    ensures { result ≡ severity_of code }
{
    match code {
        FAILURE_CODE => Severity::Failure,
        WARNING_CODE => Severity::Warning,
        _ => Severity::Okay,
    }
}

/// Why a message part gives no notification, if so.
fn note_refusal(fields: &Carried<'_>, message: Option<&str>) -> Option<ItemRefusal>
    ensures { let message = option_copied message.entry in
        result ≡ first_refusal (note_tests (shown fields.now) message) }
{
    if !fields.are_texts() || message.is_none() {
        return Some(ItemRefusal::NotText);
    }
    if fields.has_long_text() || !fields.are_times() {
        return Some(ItemRefusal::BadField);
    }
    if !is_severity(fields.severity) {
        return Some(ItemRefusal::BadSeverity);
    }
    if !fields.has_time() {
        return Some(ItemRefusal::NoTime);
    }
    None
}

/// The notification of a message under the fields in force.
fn note_of(alloc: Global, fields: &Carried<'_>, message: &str) -> Result<Notification, Memory>
    ensures { IfOk result (λ note. note ≡ note_of (shown fields.now) message.now) }
{
    let texts = fields.clean_texts(alloc)?;
    let CleanTexts {
        host,
        plugin,
        plugin_instance,
        type_name,
        type_instance,
    } = texts;
    let message = Field::new(longest_front(message, MESSAGE_LIMIT)).clean_copy(alloc, false)?;
    Ok(Notification {
        severity: severity_of(fields.severity),
        time: fields.time.unwrap_or(0),
        host,
        plugin,
        plugin_instance,
        type_name,
        type_instance,
        message,
    })
}

/// The notification of a message part under the fields in force, or why it gives none.
#[tactic(auto, unfolding(crate::specs::Items::note_outcome))]
pub(crate) fn note(alloc: Global, fields: &Carried<'_>, payload: &[u8]) -> Result<Outcome, Memory>
    ensures { IfOk result (λ gave. gave ≡ note_outcome (shown fields.now) payload.now) }
{
    let message = text(payload);
    if let Some(refusal) = note_refusal(fields, message) {
        return Ok(Err(refusal));
    }
    Ok(Ok(Item::Note(note_of(alloc, fields, message.unwrap_or(""))?)))
}
