//! The tells of which values have the fields.

ghost use Rattle.std.specs.Prelude.{◌≡◌, IfOk, IfSome};
ghost use Rattle.json.specs.Value.{value_view};
ghost use Rattle.fk_base.specs.Limits.{IsSmall};
ghost use Rattle.fk_wire.specs.declared.version.Version.{Version};
ghost use Rattle.fk_wire.specs.TellText.{CanSayTell, IsTell, code_at, code_of, done_from, evicted_from, kind_from, lost_from, ping_from, place_in, refused_from, tell_from, watch_from};

use crate::mades::made_in;
use crate::message::Tell;
use crate::reading::{NUMBERS, SMALL, digits_at, number_at, path_at, text_at};
use crate::version::Version;
use crate::watches::fired_from;
use fk_base::{Code, NoMemory};
use json::Value;
use std::alloc::Global;

fn code_of(digits: &str) -> Option<Code>
    ensures { result ≡ code_of digits.now }
{
    match digits {
        "-1" => Some(Code::SystemError),
        "-4" => Some(Code::ConnectionLoss),
        "-8" => Some(Code::BadArguments),
        "-101" => Some(Code::NoNode),
        "-103" => Some(Code::BadVersion),
        "-108" => Some(Code::NoChildrenForEphemerals),
        "-110" => Some(Code::NodeExists),
        "-111" => Some(Code::NotEmpty),
        "-112" => Some(Code::SessionExpired),
        _ => None,
    }
}

fn code_at(value: &Value<'_>, key: &str) -> Option<Code>
    ensures { result ≡ code_at key.now (value_view value.now) }
{
    code_of(digits_at(value, key)?)
}

/// The place of a refusal, which version 1 has none of.
fn place_in(version: Version, value: &Value<'_>) -> Option<u32>
    ensures place { result ≡ place_in version (value_view value.now) }
    ensures typed { IfSome result IsSmall }
{
    match version {
        Version::One => Some(0),
        Version::Two => {
            let place = number_at(SMALL, value, "place")?;
            Some(place as u32)
        }
    }
}

fn done_from(alloc: Global, version: Version, value: &Value<'_>) -> Result<Option<Tell>, NoMemory>
    ensures message { IfOk result (λ o. o ≡ done_from version (value_view value.now)) }
    ensures tell { IfOk result (λ o. IfSome o IsTell) }
    ensures said { IfOk result (λ o. IfSome o (CanSayTell version)) }
{
    let Some(k) = number_at(NUMBERS, value, "k") else {
        return Ok(None);
    };
    let Some(tx) = number_at(NUMBERS, value, "tx") else {
        return Ok(None);
    };
    let Some(name) = path_at(alloc, value, "name")? else {
        return Ok(None);
    };
    let Some(node) = number_at(SMALL, value, "version") else {
        return Ok(None);
    };
    let node = node as u32;
    match made_in(alloc, version, value)? {
        Some(made) => Ok(Some(Tell::Done {
            k,
            tx,
            name,
            version: node,
            made,
        })),
        None => Ok(None),
    }
}

fn evicted_from(value: &Value<'_>) -> Option<Tell>
    ensures message { result ≡ evicted_from (value_view value.now) }
    ensures tell { IfSome result IsTell }
    ensures said { IfSome result (λ m. (v : Version) → CanSayTell v m) }
{
    let k = number_at(NUMBERS, value, "k")?;
    let tx = number_at(NUMBERS, value, "tx")?;
    Some(Tell::Evicted { k, tx })
}

fn refused_from(version: Version, value: &Value<'_>) -> Option<Tell>
    ensures message { result ≡ refused_from version (value_view value.now) }
    ensures tell { IfSome result IsTell }
    ensures said { IfSome result (CanSayTell version) }
{
    let k = number_at(NUMBERS, value, "k")?;
    let code = code_at(value, "code")?;
    let at = number_at(NUMBERS, value, "at")?;
    let place = place_in(version, value)?;
    Some(Tell::Refused { k, code, at, place })
}

fn lost_from(alloc: Global, value: &Value<'_>) -> Result<Option<Tell>, NoMemory>
    ensures message { IfOk result (λ o. o ≡ lost_from (value_view value.now)) }
    ensures tell { IfOk result (λ o. IfSome o IsTell) }
    ensures said { IfOk result (λ o. IfSome o (λ m. (v : Version) → CanSayTell v m)) }
{
    let Some(k) = number_at(NUMBERS, value, "k") else {
        return Ok(None);
    };
    let Some(path) = path_at(alloc, value, "path")? else {
        return Ok(None);
    };
    let Some(own) = number_at(NUMBERS, value, "own") else {
        return Ok(None);
    };
    let Some(found) = number_at(NUMBERS, value, "found") else {
        return Ok(None);
    };
    match number_at(NUMBERS, value, "moment") {
        Some(moment) => Ok(Some(Tell::Lost {
            k,
            path,
            own,
            found,
            moment,
        })),
        None => Ok(None),
    }
}

fn watch_from(alloc: Global, value: &Value<'_>) -> Result<Option<Tell>, NoMemory>
    ensures message { IfOk result (λ o. o ≡ watch_from (value_view value.now)) }
    ensures tell { IfOk result (λ o. IfSome o IsTell) }
    ensures said { IfOk result (λ o. IfSome o (λ m. (v : Version) → CanSayTell v m)) }
{
    let Some(tx) = number_at(NUMBERS, value, "tx") else {
        return Ok(None);
    };
    match fired_from(alloc, value)? {
        Some(fired) => Ok(Some(Tell::Watch { tx, fired })),
        None => Ok(None),
    }
}

fn ping_from(value: &Value<'_>) -> Option<Tell>
    ensures message { result ≡ ping_from (value_view value.now) }
    ensures tell { IfSome result IsTell }
    ensures said { IfSome result (λ m. (v : Version) → CanSayTell v m) }
{
    let n = number_at(NUMBERS, value, "n")?;
    Some(Tell::Ping(n))
}

/// The tell of the kind that a word says.
fn kind_from(
    alloc: Global,
    version: Version,
    kind: &str,
    value: &Value<'_>,
) -> Result<Option<Tell>, NoMemory>
    ensures message { IfOk result (λ o. o ≡ kind_from version kind.now (value_view value.now)) }
    ensures tell { IfOk result (λ o. IfSome o IsTell) }
    ensures said { IfOk result (λ o. IfSome o (CanSayTell version)) }
{
    if kind == "done" {
        done_from(alloc, version, value)
    } else if kind == "evicted" {
        Ok(evicted_from(value))
    } else if kind == "refused" {
        Ok(refused_from(version, value))
    } else if kind == "lost" {
        lost_from(alloc, value)
    } else if kind == "watch" {
        watch_from(alloc, value)
    } else if kind == "ping" {
        Ok(ping_from(value))
    } else {
        Ok(None)
    }
}

/// The tell of which a value has the fields, in a text of this version.
pub(crate) fn tell_from(
    alloc: Global,
    version: Version,
    value: &Value<'_>,
) -> Result<Option<Tell>, NoMemory>
    ensures message { IfOk result (λ o. o ≡ tell_from version (value_view value.now)) }
    ensures tell { IfOk result (λ o. IfSome o IsTell) }
    ensures said { IfOk result (λ o. IfSome o (CanSayTell version)) }
{
    match text_at(value, "t") {
        Some(kind) => kind_from(alloc, version, kind, value),
        None => Ok(None),
    }
}
