//! The texts of a tell.

ghost use Rattle.std.specs.Prelude.{◌≡◌, Err, IfOk, IfNone, IfSome};
ghost use Rattle.fk_wire.specs.Json.{HasFields, IsText};
ghost use Rattle.fk_wire.specs.TellText.{CanSayTell, IsLimitedTell, IsTell, IsTellText, OneTell, tell_from, tell_text};
ghost use Rattle.fk_wire.specs.declared.message.Tell.{Tell};
ghost use Rattle.fk_wire.specs.declared.version.Version.TheVariants as version;

use crate::fault::WireFault;
use crate::message::Tell;
use crate::reader::Reader;
use crate::reading::{value_of, version_from};
use crate::tell_reading::tell_from;
use crate::tell_writing::tell_value;
use crate::version::Version;
use crate::writing::{is_same, text_of};
use fk_base::{Bytes, NoMemory};
use json::Scratch;
use std::alloc::Global;

/// The text of a tell, in the second version.
pub fn encode_tell(alloc: Global, message: &Tell) -> Result<Bytes, NoMemory>
    requires limited { IsLimitedTell message.now }
    ensures text { IfOk result (λ b. b ≡ tell_text version.Two message.now) }
    ensures tell { IfOk result (λ b. IsTell message.now) }
{
    let value = tell_value(alloc, Version::Two, message)?;
    text_of(alloc, &value)
}

/// The tell of which a text has the fields, and its version.
fn found(
    alloc: Global,
    bytes: &[u8],
    scratch: &mut Scratch,
) -> Result<Option<(Version, Tell)>, NoMemory>
    ensures fields { IfOk result (λ o. IfSome o
        (λ p. HasFields tell_from bytes.now p.0 p.1)) }
    ensures limits { IfOk result (λ o. IfSome o (λ p. IsTell p.1)) }
    ensures said { IfOk result (λ o. IfSome o (λ p. CanSayTell p.0 p.1)) }
    ensures none { IfOk result (λ o. IfNone o
        ((m : Tell) → ¬ (IsTellText bytes.now m))) }
{
    let Some(value) = value_of(alloc, bytes, scratch)? else {
        return Ok(None);
    };
    let Some(version) = version_from(&value) else {
        return Ok(None);
    };
    match tell_from(alloc, version, &value)? {
        Some(message) => Ok(Some((version, message))),
        None => Ok(None),
    }
}

/// The tell that a reader's text is, in either version.
pub fn tell_of(alloc: Global, reader: &mut Reader) -> Result<Tell, NoMemory>
    requires text { IsText IsTellText reader.old.text.items }
    ensures message { IfOk result (IsTellText reader.old.text.items) }
    ensures back { (m : Tell) → IsTellText reader.old.text.items m
        → IfOk result (λ n. n ≡ m) }
{
    match found(alloc, reader.text.as_slice(), &mut reader.scratch)? {
        Some((_, message)) => Ok(message),
        None => unreachable!(),
    }
}

/// The tell of a text, in either version.
pub fn decode_tell(alloc: Global, bytes: &[u8]) -> Result<Tell, WireFault>
    ensures message { IfOk result (IsTellText bytes.now) }
    ensures back { (m : Tell) → IsTellText bytes.now m → IfOk result (λ n. n ≡ m) }
    ensures malformed { result ≡ Err WireFault.Malformed
        → (m : Tell) → ¬ (IsTellText bytes.now m) }
{
    let mut scratch = Scratch::new(alloc);
    let Some((version, message)) = found(alloc, bytes, &mut scratch)? else {
        return Err(WireFault::Malformed);
    };
    let again = tell_value(alloc, version, &message)?;
    let text = text_of(alloc, &again)?;
    if is_same(text.as_slice(), bytes) {
        Ok(message)
    } else {
        Err(WireFault::Malformed)
    }
}

/// A law: bytes are the text of one tell.
pub fn one_tell()
    ensures { OneTell }
{}
