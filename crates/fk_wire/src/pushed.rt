//! The texts of a request on its way to the leader.

ghost use Rattle.std.specs.Prelude.{◌≡◌, ◌<◌, ◌^◌, Err, IfOk, IfSome, IfNone};
ghost use Rattle.std.specs.List.{AllByRecursion};
ghost use Rattle.json.specs.Value.{value_view};
ghost use Rattle.serde_json.specs.View.{view};
ghost use Rattle.fk_base.specs.Limits.{IsNumber, IsPath, IsSmall};
ghost use Rattle.fk_wire.specs.Json.{HasFields, IsText};
ghost use Rattle.fk_wire.specs.Mades.{AreTypedMades};
ghost use Rattle.fk_wire.specs.Objects.{members};
ghost use Rattle.fk_wire.specs.PushedText.{CanSayPushed, IsLimitedPushed, IsPushed, IsPushedText, IsTypedPushed, OnePushed, heading_from, heading_members, pushed_data, pushed_from, pushed_text, with_made, with_paths};
ghost use Rattle.fk_wire.specs.declared.message.Pushed.{Pushed};
ghost use Rattle.fk_wire.specs.declared.version.Version.TheVariants as version;

use crate::fault::WireFault;
use crate::mades::{made_in, mades_value};
use crate::message::Pushed;
use crate::object::Object;
use crate::op::{op_at, request_value};
use crate::reader::Reader;
use crate::reading::{NUMBERS, SMALL, number_at, path_at, paths_at, value_of, version_from};
use crate::version::Version;
use crate::writing::{is_same, paths_value, text_of, text_of_path};
use fk_base::{Bytes, NoMemory};
use fk_tree::Mades;
use json::{Scratch, Value as Json};
use serde_json::Value;
use std::alloc::Global;

/// The numbers of a message.
#[derive(Clone, Copy)]
struct Heading {
    session: u32,
    k: u64,
    inv: u64,
    moment: u64,
    version: u32,
}

/// The members that hold the numbers of a message.
fn heading_of(alloc: Global, version: Version, message: &Pushed) -> Result<Object, NoMemory>
    ensures heading { IfOk result (λ o. members o ≡ heading_members version message.now) }
    ensures small { IfOk result (λ o. IsSmall message.now.session × IsSmall message.now.version) }
{
    Object::new(alloc)
        .with_number(alloc, "client", message.session as u64)?
        .with_number(alloc, "inv", message.inv)?
        .with_number(alloc, "k", message.k)?
        .with_number(alloc, "moment", message.moment)?
        .with_number(alloc, "v", version.number())?
        .with_number(alloc, "version", message.version as u64)
}

/// The members that hold the paths of a message, with those that are there.
fn with_paths(alloc: Global, object: Object, message: &Pushed) -> Result<Object, NoMemory>
    ensures paths { IfOk result (λ o. members o ≡ with_paths message.now (members object)) }
    ensures gone { IfOk result (λ o. AllByRecursion IsPath message.now.gone) }
    ensures name { IfOk result (λ o. IsPath message.now.name) }
    ensures paths_typed { IfOk result (λ o. AllByRecursion IsPath message.now.paths) }
{
    let gone = paths_value(alloc, message.gone.as_slice())?;
    let name = text_of_path(&message.name)?;
    let paths = paths_value(alloc, message.paths.as_slice())?;
    object
        .with(alloc, "gone", gone)?
        .with_text(alloc, "name", name.as_str())?
        .with(alloc, "paths", paths)
}

/// What the parts came to, which the first version doesn't have.
fn with_made(
    alloc: Global,
    version: Version,
    object: Object,
    made: &Mades,
) -> Result<Object, NoMemory>
    ensures made { IfOk result (λ o. members o ≡ with_made version made.now (members object)) }
    ensures typed { IfOk result (λ o. AreTypedMades made.now) }
{
    let made = mades_value(alloc, made)?;
    match version {
        Version::One => Ok(object),
        Version::Two => object.with(alloc, "made", made),
    }
}

fn pushed_value(alloc: Global, version: Version, message: &Pushed) -> Result<Value, NoMemory>
    ensures value { IfOk result (λ value. view value ≡ pushed_data version message.now) }
    ensures typed { IfOk result (λ value. IsTypedPushed message.now) }
{
    let op = request_value(alloc, &message.request)?;
    let heading = heading_of(alloc, version, message)?;
    let object = with_paths(alloc, heading, message)?.with(alloc, "op", op)?;
    let object = with_made(alloc, version, object, &message.made)?;
    Ok(object.value())
}

/// The numbers of which a value has the fields.
fn heading_from(value: &Json<'_>) -> Option<Heading>
    ensures heading { result ≡ heading_from (value_view value.now) }
    ensures small { IfSome result (λ h. IsSmall h.session × IsSmall h.version) }
    ensures limited { IfSome result (λ h. IsNumber h.k × IsNumber h.inv × IsNumber h.moment) }
{
    let session = number_at(SMALL, value, "client")? as u32;
    let k = number_at(NUMBERS, value, "k")?;
    let inv = number_at(NUMBERS, value, "inv")?;
    let moment = number_at(NUMBERS, value, "moment")?;
    let version = number_at(SMALL, value, "version")? as u32;
    Some(Heading {
        session,
        k,
        inv,
        moment,
        version,
    })
}

/// The message of which a value has the fields.
fn pushed_from(
    alloc: Global,
    version: Version,
    value: &Json<'_>,
) -> Result<Option<Pushed>, NoMemory>
    ensures message { IfOk result (λ o. o ≡ pushed_from version (value_view value.now)) }
    ensures pushed { IfOk result (λ o. IfSome o IsPushed) }
    ensures said { IfOk result (λ o. IfSome o (CanSayPushed version)) }
{
    let Some(heading) = heading_from(value) else {
        return Ok(None);
    };
    let Some(request) = op_at(alloc, version, value)? else {
        return Ok(None);
    };
    let Some(name) = path_at(alloc, value, "name")? else {
        return Ok(None);
    };
    let Some(gone) = paths_at(alloc, value, "gone")? else {
        return Ok(None);
    };
    let Some(made) = made_in(alloc, version, value)? else {
        return Ok(None);
    };
    let Some(paths) = paths_at(alloc, value, "paths")? else {
        return Ok(None);
    };
    Ok(Some(Pushed {
        session: heading.session,
        k: heading.k,
        inv: heading.inv,
        moment: heading.moment,
        request,
        name,
        version: heading.version,
        gone,
        made,
        paths,
    }))
}

/// The text of a message, in the second version.
pub fn encode_pushed(alloc: Global, message: &Pushed) -> Result<Bytes, NoMemory>
    requires limited { IsLimitedPushed message.now }
    ensures text { IfOk result (λ b. b ≡ pushed_text version.Two message.now) }
    ensures pushed { IfOk result (λ b. IsPushed message.now) }
{
    let value = pushed_value(alloc, Version::Two, message)?;
    text_of(alloc, &value)
}

/// The message of which a text has the fields, and its version.
fn found(
    alloc: Global,
    bytes: &[u8],
    scratch: &mut Scratch,
) -> Result<Option<(Version, Pushed)>, NoMemory>
    ensures fields { IfOk result (λ o. IfSome o
        (λ p. HasFields pushed_from bytes.now p.0 p.1)) }
    ensures limits { IfOk result (λ o. IfSome o (λ p. IsPushed p.1)) }
    ensures said { IfOk result (λ o. IfSome o (λ p. CanSayPushed p.0 p.1)) }
    ensures none { IfOk result (λ o. IfNone o
        ((m : Pushed) → ¬ (IsPushedText bytes.now m))) }
{
    let Some(value) = value_of(alloc, bytes, scratch)? else {
        return Ok(None);
    };
    let Some(version) = version_from(&value) else {
        return Ok(None);
    };
    match pushed_from(alloc, version, &value)? {
        Some(message) => Ok(Some((version, message))),
        None => Ok(None),
    }
}

/// The message that a reader's text is, in either version.
pub fn pushed_of(alloc: Global, reader: &mut Reader) -> Result<Pushed, NoMemory>
    requires text { IsText IsPushedText reader.old.text.items }
    ensures message { IfOk result (IsPushedText reader.old.text.items) }
    ensures back { (m : Pushed) → IsPushedText reader.old.text.items m
        → IfOk result (λ n. n ≡ m) }
{
    match found(alloc, reader.text.as_slice(), &mut reader.scratch)? {
        Some((_, message)) => Ok(message),
        None => unreachable!(),
    }
}

/// The message of a text, in either version.
pub fn decode_pushed(alloc: Global, bytes: &[u8]) -> Result<Pushed, WireFault>
    ensures message { IfOk result (IsPushedText bytes.now) }
    ensures back { (m : Pushed) → IsPushedText bytes.now m → IfOk result (λ n. n ≡ m) }
    ensures malformed { result ≡ Err WireFault.Malformed
        → (m : Pushed) → ¬ (IsPushedText bytes.now m) }
{
    let mut scratch = Scratch::new(alloc);
    let Some((version, message)) = found(alloc, bytes, &mut scratch)? else {
        return Err(WireFault::Malformed);
    };
    let again = pushed_value(alloc, version, &message)?;
    let text = text_of(alloc, &again)?;
    if is_same(text.as_slice(), bytes) {
        Ok(message)
    } else {
        Err(WireFault::Malformed)
    }
}

/// A law: bytes are the text of one message.
pub fn one_pushed()
    ensures { OnePushed }
{}
