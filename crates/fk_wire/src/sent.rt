//! The texts of a request on its way to its follower.

ghost use Rattle.std.specs.Prelude.{◌≡◌, Err, IfOk, IfSome, IfNone};
ghost use Rattle.json.specs.Value.{value_view};
ghost use Rattle.serde_json.specs.View.{view};
ghost use Rattle.fk_wire.specs.Json.{HasFields, IsText};
ghost use Rattle.fk_wire.specs.SentText.{CanSaySent, IsLimitedSent, IsSent, IsSentText, IsTypedSent, OneSent, sent_data, sent_from, sent_text};
ghost use Rattle.fk_wire.specs.declared.message.Sent.{Sent};
ghost use Rattle.fk_wire.specs.declared.version.Version.TheVariants as version;

use crate::fault::WireFault;
use crate::message::Sent;
use crate::object::Object;
use crate::op::{op_at, request_value};
use crate::reader::Reader;
use crate::reading::{NUMBERS, number_at, value_of, version_from};
use crate::version::Version;
use crate::writing::{is_same, text_of};
use fk_base::{Bytes, NoMemory};
use json::{Scratch, Value as Json};
use serde_json::Value;
use std::alloc::Global;

fn sent_value(alloc: Global, version: Version, message: &Sent) -> Result<Value, NoMemory>
    ensures value { IfOk result (λ value. view value ≡ sent_data version message.now) }
    ensures typed { IfOk result (λ value. IsTypedSent message.now) }
{
    let op = request_value(alloc, &message.request)?;
    let object = Object::new(alloc)
        .with(alloc, "op", op)?
        .with_number(alloc, "seen", message.seen)?
        .with_number(alloc, "v", version.number())?;
    Ok(object.value())
}

/// The message of which a value has the fields.
fn sent_from(alloc: Global, version: Version, value: &Json<'_>) -> Result<Option<Sent>, NoMemory>
    ensures message { IfOk result (λ o. o ≡ sent_from version (value_view value.now)) }
    ensures sent { IfOk result (λ o. IfSome o IsSent) }
    ensures said { IfOk result (λ o. IfSome o (CanSaySent version)) }
{
    let Some(request) = op_at(alloc, version, value)? else {
        return Ok(None);
    };
    match number_at(NUMBERS, value, "seen") {
        Some(seen) => Ok(Some(Sent { request, seen })),
        None => Ok(None),
    }
}

/// The text of a message, in the second version.
pub fn encode_send(alloc: Global, message: &Sent) -> Result<Bytes, NoMemory>
    requires limited { IsLimitedSent message.now }
    ensures text { IfOk result (λ b. b ≡ sent_text version.Two message.now) }
    ensures sent { IfOk result (λ b. IsSent message.now) }
{
    let value = sent_value(alloc, Version::Two, message)?;
    text_of(alloc, &value)
}

/// The message of which a text has the fields, and its version.
fn found(
    alloc: Global,
    bytes: &[u8],
    scratch: &mut Scratch,
) -> Result<Option<(Version, Sent)>, NoMemory>
    ensures fields { IfOk result (λ o. IfSome o
        (λ p. HasFields sent_from bytes.now p.0 p.1)) }
    ensures limits { IfOk result (λ o. IfSome o (λ p. IsSent p.1)) }
    ensures said { IfOk result (λ o. IfSome o (λ p. CanSaySent p.0 p.1)) }
    ensures none { IfOk result (λ o. IfNone o
        ((m : Sent) → ¬ (IsSentText bytes.now m))) }
{
    let Some(value) = value_of(alloc, bytes, scratch)? else {
        return Ok(None);
    };
    let Some(version) = version_from(&value) else {
        return Ok(None);
    };
    match sent_from(alloc, version, &value)? {
        Some(message) => Ok(Some((version, message))),
        None => Ok(None),
    }
}

/// The message that a reader's text is, in either version.
pub fn sent_of(alloc: Global, reader: &mut Reader) -> Result<Sent, NoMemory>
    requires text { IsText IsSentText reader.old.text.items }
    ensures message { IfOk result (IsSentText reader.old.text.items) }
    ensures back { (m : Sent) → IsSentText reader.old.text.items m
        → IfOk result (λ n. n ≡ m) }
{
    match found(alloc, reader.text.as_slice(), &mut reader.scratch)? {
        Some((_, message)) => Ok(message),
        None => unreachable!(),
    }
}

/// The message of a text, in either version.
pub fn decode_send(alloc: Global, bytes: &[u8]) -> Result<Sent, WireFault>
    ensures message { IfOk result (IsSentText bytes.now) }
    ensures back { (m : Sent) → IsSentText bytes.now m → IfOk result (λ n. n ≡ m) }
    ensures malformed { result ≡ Err WireFault.Malformed
        → (m : Sent) → ¬ (IsSentText bytes.now m) }
{
    let mut scratch = Scratch::new(alloc);
    let Some((version, message)) = found(alloc, bytes, &mut scratch)? else {
        return Err(WireFault::Malformed);
    };
    let again = sent_value(alloc, version, &message)?;
    let text = text_of(alloc, &again)?;
    if is_same(text.as_slice(), bytes) {
        Ok(message)
    } else {
        Err(WireFault::Malformed)
    }
}

/// A law: bytes are the text of one message.
pub fn one_sent()
    ensures { OneSent }
{}
