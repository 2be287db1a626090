//! A request in a message, and the parts of a multi.

ghost use Rattle.std.specs.Prelude.{◌≡◌, [], IfOk, IfSome};
ghost use Rattle.std.specs.List.{AllByRecursion};
ghost use Rattle.json.specs.Value.{items_view, value_view};
ghost use Rattle.serde_json.specs.View.{view};
ghost use Rattle.fk_wire.specs.Json.{items_onto, list_data};
ghost use Rattle.fk_wire.specs.Limits.{IsLimitedPart, IsLimitedRequest, IsTypedPart, IsTypedRequest};
ghost use Rattle.fk_base.specs.Limits.{IsData, IsPath};
ghost use Rattle.fk_wire.specs.Ops.{CanSayRequest, create_data, create_from, delete_data, delete_from, multi_from, op_at, part_by, part_data, part_from, request_data, request_from, request_of, set_data, set_from};

use crate::object::Object;
use crate::reading::{bytes_at, expected_at, flag_at, items_at, path_at, text_at};
use crate::version::Version;
use crate::writing::{text_of_bytes, text_of_path};
use fk_base::{Bytes, NoMemory, Path};
use fk_tree::{Part, Parts, Request};
use json::Value as Json;
use serde_json::{Value, json};
use std::alloc::Global;

fn create_value(
    alloc: Global,
    path: &Path,
    bytes: &Bytes,
    seq: bool,
    eph: bool,
) -> Result<Value, NoMemory>
    ensures value { IfOk result (λ value. view value ≡ create_data path.now bytes.now seq eph) }
    ensures typed { IfOk result (λ value. IsPath path.now × IsData bytes.now) }
{
    let path = text_of_path(path)?;
    let data = text_of_bytes(alloc, bytes.as_slice())?;
    let value =
        json!(in alloc; {"data": data.as_str(), "e": eph, "path": path.as_str(), "s": seq, "t": "create"})?;
    Ok(value)
}

fn set_value(alloc: Global, path: &Path, bytes: &Bytes, version: i32) -> Result<Value, NoMemory>
    ensures value { IfOk result (λ value. view value ≡ set_data path.now bytes.now version) }
    ensures typed { IfOk result (λ value. IsPath path.now × IsData bytes.now) }
{
    let path = text_of_path(path)?;
    let data = text_of_bytes(alloc, bytes.as_slice())?;
    let value =
        json!(in alloc; {"data": data.as_str(), "path": path.as_str(), "t": "set", "version": version})?;
    Ok(value)
}

fn delete_value(alloc: Global, path: &Path, version: i32) -> Result<Value, NoMemory>
    ensures value { IfOk result (λ value. view value ≡ delete_data path.now version) }
    ensures typed { IfOk result (λ value. IsPath path.now) }
{
    let path = text_of_path(path)?;
    let value = json!(in alloc; {"path": path.as_str(), "t": "delete", "version": version})?;
    Ok(value)
}

fn part_value(alloc: Global, part: &Part) -> Result<Value, NoMemory>
    ensures value { IfOk result (λ value. view value ≡ part_data part.now) }
    ensures typed { IfOk result (λ value. IsTypedPart part.now) }
{
    match part {
        Part::Create { path, bytes, eph } => create_value(alloc, path, bytes, false, *eph),
        Part::Set {
            path,
            bytes,
            version,
        } => set_value(alloc, path, bytes, *version),
        Part::Delete { path, version } => delete_value(alloc, path, *version),
    }
}

fn parts_value(alloc: Global, parts: &[Part]) -> Result<Value, NoMemory>
    ensures value { IfOk result (λ value. view value ≡ list_data part_data parts.now) }
    ensures typed { IfOk result (λ value. AllByRecursion IsTypedPart parts.now) }
{
    let mut items = Vec::new(alloc);
    'writing: for part in parts {
        items.push(part_value(alloc, part)?)?;
    }
    Ok(Value::Array(items))
}

/// The value of a request.
pub(crate) fn request_value(alloc: Global, request: &Request) -> Result<Value, NoMemory>
    ensures value { IfOk result (λ value. view value ≡ request_data request.now) }
    ensures typed { IfOk result (λ value. IsTypedRequest request.now) }
{
    match request {
        Request::Create {
            path,
            bytes,
            seq,
            eph,
        } => create_value(alloc, path, bytes, *seq, *eph),
        Request::Set {
            path,
            bytes,
            version,
        } => set_value(alloc, path, bytes, *version),
        Request::Delete { path, version } => delete_value(alloc, path, *version),
        Request::Close { evict } => {
            let value = json!(in alloc; {"evict": *evict, "t": "close"})?;
            Ok(value)
        }
        Request::Multi(parts) => {
            let parts = parts_value(alloc, parts.as_slice())?;
            let object = Object::new(alloc)
                .with(alloc, "parts", parts)?
                .with_text(alloc, "t", "multi")?;
            Ok(object.value())
        }
    }
}

fn create_from(alloc: Global, value: &Json<'_>) -> Result<Option<Part>, NoMemory>
    ensures part { IfOk result (λ o. o ≡ create_from (value_view value.now)) }
    ensures limited { IfOk result (λ o. IfSome o IsLimitedPart) }
    ensures typed { IfOk result (λ o. IfSome o IsTypedPart) }
{
    let Some(path) = path_at(alloc, value, "path")? else {
        return Ok(None);
    };
    let Some(bytes) = bytes_at(alloc, value, "data")? else {
        return Ok(None);
    };
    match flag_at(value, "e") {
        Some(eph) => Ok(Some(Part::Create { path, bytes, eph })),
        None => Ok(None),
    }
}

fn set_from(alloc: Global, value: &Json<'_>) -> Result<Option<Part>, NoMemory>
    ensures part { IfOk result (λ o. o ≡ set_from (value_view value.now)) }
    ensures limited { IfOk result (λ o. IfSome o IsLimitedPart) }
    ensures typed { IfOk result (λ o. IfSome o IsTypedPart) }
{
    let Some(path) = path_at(alloc, value, "path")? else {
        return Ok(None);
    };
    let Some(bytes) = bytes_at(alloc, value, "data")? else {
        return Ok(None);
    };
    match expected_at(value, "version") {
        Some(version) => Ok(Some(Part::Set {
            path,
            bytes,
            version,
        })),
        None => Ok(None),
    }
}

fn delete_from(alloc: Global, value: &Json<'_>) -> Result<Option<Part>, NoMemory>
    ensures part { IfOk result (λ o. o ≡ delete_from (value_view value.now)) }
    ensures limited { IfOk result (λ o. IfSome o IsLimitedPart) }
    ensures typed { IfOk result (λ o. IfSome o IsTypedPart) }
{
    let Some(path) = path_at(alloc, value, "path")? else {
        return Ok(None);
    };
    match expected_at(value, "version") {
        Some(version) => Ok(Some(Part::Delete { path, version })),
        None => Ok(None),
    }
}

/// The part of this kind of which a value has the fields.
fn part_by(alloc: Global, value: &Json<'_>, kind: &str) -> Result<Option<Part>, NoMemory>
    ensures part { IfOk result (λ o. o ≡ part_by (value_view value.now) kind.now) }
    ensures limited { IfOk result (λ o. IfSome o IsLimitedPart) }
    ensures typed { IfOk result (λ o. IfSome o IsTypedPart) }
{
    match kind {
        "create" => create_from(alloc, value),
        "set" => set_from(alloc, value),
        "delete" => delete_from(alloc, value),
        _ => Ok(None),
    }
}

fn part_from(alloc: Global, value: &Json<'_>) -> Result<Option<Part>, NoMemory>
    ensures part { IfOk result (λ o. o ≡ part_from (value_view value.now)) }
    ensures limited { IfOk result (λ o. IfSome o IsLimitedPart) }
    ensures typed { IfOk result (λ o. IfSome o IsTypedPart) }
{
    match text_at(value, "t") {
        Some(kind) => part_by(alloc, value, kind),
        None => Ok(None),
    }
}

/// The parts of which the items have the fields, where each has those of one.
fn parts_from(alloc: Global, items: &[Json<'_>]) -> Result<Option<Parts>, NoMemory>
    ensures parts { IfOk result (λ o. o ≡ items_onto part_from [] (items_view items.now)) }
    ensures limited { IfOk result (λ o. IfSome o (AllByRecursion IsLimitedPart)) }
    ensures typed { IfOk result (λ o. IfSome o (AllByRecursion IsTypedPart)) }
{
    let mut parts = Parts::new(alloc);
    let mut left = items;
    'reading: while let [first, rest @ ..] = left {
        let Some(part) = part_from(alloc, first)? else {
            return Ok(None);
        };
        parts.push(part)?;
        left = rest;
    }
    Ok(Some(parts))
}

/// The multi of which a value has the parts, 1 to 16.
fn multi_from(
    alloc: Global,
    version: Version,
    value: &Json<'_>,
) -> Result<Option<Request>, NoMemory>
    ensures request { IfOk result (λ o. o ≡ multi_from version (value_view value.now)) }
    ensures limited { IfOk result (λ o. IfSome o IsLimitedRequest) }
    ensures typed { IfOk result (λ o. IfSome o IsTypedRequest) }
    ensures said { IfOk result (λ o. IfSome o (CanSayRequest version)) }
{
    let Version::Two = version else {
        return Ok(None);
    };
    let Some(items) = items_at(value, "parts") else {
        return Ok(None);
    };
    let Some(parts) = parts_from(alloc, items)? else {
        return Ok(None);
    };
    let count = parts.as_slice().len();
    if 0 < count && count < 17 {
        Ok(Some(Request::Multi(parts)))
    } else {
        Ok(None)
    }
}

/// A part as a request, where a create tells whether it is sequential.
fn request_of(version: Version, seq: Option<bool>, part: Part) -> Option<Request>
    requires limited { IsLimitedPart part }
    requires typed { IsTypedPart part }
    ensures request { result ≡ request_of seq part }
    ensures limited { IfSome result IsLimitedRequest }
    ensures typed { IfSome result IsTypedRequest }
    ensures said { IfSome result (CanSayRequest version) }
{
    match part {
        Part::Create { path, bytes, eph } => {
            let seq = seq?;
            Some(Request::Create {
                path,
                bytes,
                seq,
                eph,
            })
        }
        Part::Set {
            path,
            bytes,
            version,
        } => Some(Request::Set {
            path,
            bytes,
            version,
        }),
        Part::Delete { path, version } => Some(Request::Delete { path, version }),
    }
}

/// The request of which a value has the fields.
fn request_from(
    alloc: Global,
    version: Version,
    value: &Json<'_>,
) -> Result<Option<Request>, NoMemory>
    ensures request { IfOk result (λ o. o ≡ request_from version (value_view value.now)) }
    ensures limited { IfOk result (λ o. IfSome o IsLimitedRequest) }
    ensures typed { IfOk result (λ o. IfSome o IsTypedRequest) }
    ensures said { IfOk result (λ o. IfSome o (CanSayRequest version)) }
{
    let Some(kind) = text_at(value, "t") else {
        return Ok(None);
    };
    match kind {
        "close" => Ok(flag_at(value, "evict").map(|evict| Request::Close { evict })),
        "multi" => multi_from(alloc, version, value),
        _ => match part_by(alloc, value, kind)? {
            Some(part) => Ok(request_of(version, flag_at(value, "s"), part)),
            None => Ok(None),
        },
    }
}

/// The request at the key `op`.
pub(crate) fn op_at(
    alloc: Global,
    version: Version,
    value: &Json<'_>,
) -> Result<Option<Request>, NoMemory>
    ensures request { IfOk result (λ o. o ≡ op_at version (value_view value.now)) }
    ensures limited { IfOk result (λ o. IfSome o IsLimitedRequest) }
    ensures typed { IfOk result (λ o. IfSome o IsTypedRequest) }
    ensures said { IfOk result (λ o. IfSome o (CanSayRequest version)) }
{
    match value.get("op") {
        Some(op) => request_from(alloc, version, op),
        None => Ok(None),
    }
}
