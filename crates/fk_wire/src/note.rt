//! The texts of a note.

ghost use Rattle.std.specs.Prelude.{◌≡◌, Err, IfOk, IfSome, IfNone};
ghost use Rattle.json.specs.Value.{value_view};
ghost use Rattle.serde_json.specs.View.{view};
ghost use Rattle.fk_wire.specs.Json.{HasFields, IsText};
ghost use Rattle.fk_wire.specs.NoteText.{CanSayNote, IsLimitedNote, IsNote, IsNoteText, IsTypedNote, OneNote, note_data, note_from, note_text};
ghost use Rattle.fk_wire.specs.declared.message.Note.{Note};
ghost use Rattle.fk_wire.specs.declared.version.Version.TheVariants as version;

use crate::fault::WireFault;
use crate::message::Note;
use crate::reader::Reader;
use crate::reading::{NUMBERS, number_at, value_of, version_from};
use crate::version::Version;
use crate::watches::{fired_list_at, fired_list_value};
use crate::writing::{is_same, text_of};
use fk_base::{Bytes, NoMemory};
use json::{Scratch, Value as Json};
use serde_json::{Value, json};
use std::alloc::Global;

fn note_value(alloc: Global, version: Version, message: &Note) -> Result<Value, NoMemory>
    ensures value { IfOk result (λ value. view value ≡ note_data version message.now) }
    ensures typed { IfOk result (λ value. IsTypedNote message.now) }
{
    let fired = fired_list_value(alloc, &message.fired)?;
    let version = version.number();
    let value = json!(in alloc; {"fired": &fired, "tx": message.tx, "v": version})?;
    Ok(value)
}

/// The note of which a value has the fields.
fn note_from(alloc: Global, version: Version, value: &Json<'_>) -> Result<Option<Note>, NoMemory>
    ensures message { IfOk result (λ o. o ≡ note_from version (value_view value.now)) }
    ensures note { IfOk result (λ o. IfSome o IsNote) }
{
    let Some(tx) = number_at(NUMBERS, value, "tx") else {
        return Ok(None);
    };
    match fired_list_at(alloc, value, "fired")? {
        Some(fired) => Ok(Some(Note { tx, fired })),
        None => Ok(None),
    }
}

/// The text of a note, in the second version.
pub fn encode_note(alloc: Global, message: &Note) -> Result<Bytes, NoMemory>
    requires limited { IsLimitedNote message.now }
    ensures text { IfOk result (λ b. b ≡ note_text version.Two message.now) }
    ensures note { IfOk result (λ b. IsNote message.now) }
{
    let value = note_value(alloc, Version::Two, message)?;
    text_of(alloc, &value)
}

/// The note of which a text has the fields, and its version.
fn found(
    alloc: Global,
    bytes: &[u8],
    scratch: &mut Scratch,
) -> Result<Option<(Version, Note)>, NoMemory>
    ensures fields { IfOk result (λ o. IfSome o
        (λ p. HasFields note_from bytes.now p.0 p.1)) }
    ensures limits { IfOk result (λ o. IfSome o (λ p. IsNote p.1)) }
    ensures said { IfOk result (λ o. IfSome o (λ p. CanSayNote p.0 p.1)) }
    ensures none { IfOk result (λ o. IfNone o
        ((m : Note) → ¬ (IsNoteText bytes.now m))) }
{
    let Some(value) = value_of(alloc, bytes, scratch)? else {
        return Ok(None);
    };
    let Some(version) = version_from(&value) else {
        return Ok(None);
    };
    match note_from(alloc, version, &value)? {
        Some(message) => Ok(Some((version, message))),
        None => Ok(None),
    }
}

/// The note that a reader's text is, in either version.
pub fn note_of(alloc: Global, reader: &mut Reader) -> Result<Note, NoMemory>
    requires text { IsText IsNoteText reader.old.text.items }
    ensures message { IfOk result (IsNoteText reader.old.text.items) }
    ensures back { (m : Note) → IsNoteText reader.old.text.items m
        → IfOk result (λ n. n ≡ m) }
{
    match found(alloc, reader.text.as_slice(), &mut reader.scratch)? {
        Some((_, message)) => Ok(message),
        None => unreachable!(),
    }
}

/// The note of a text, in either version.
pub fn decode_note(alloc: Global, bytes: &[u8]) -> Result<Note, WireFault>
    ensures message { IfOk result (IsNoteText bytes.now) }
    ensures back { (m : Note) → IsNoteText bytes.now m → IfOk result (λ n. n ≡ m) }
    ensures malformed { result ≡ Err WireFault.Malformed
        → (m : Note) → ¬ (IsNoteText bytes.now m) }
{
    let mut scratch = Scratch::new(alloc);
    let Some((version, message)) = found(alloc, bytes, &mut scratch)? else {
        return Err(WireFault::Malformed);
    };
    let again = note_value(alloc, version, &message)?;
    let text = text_of(alloc, &again)?;
    if is_same(text.as_slice(), bytes) {
        Ok(message)
    } else {
        Err(WireFault::Malformed)
    }
}

/// A law: bytes are the text of one note.
pub fn one_note()
    ensures { OneNote }
{}
