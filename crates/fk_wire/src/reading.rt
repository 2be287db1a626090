//! The fields of a value that was read.

ghost use Rattle.std.specs.Prelude.{◌≡◌, ◌<◌, IfOk, IfSome, IfNone, None, Some, IsUtf8, option_map, option_and_then, []};
ghost use Rattle.std.specs.List.{AllByRecursion};
ghost use Rattle.json.specs.Find.{as_array, get};
ghost use Rattle.json.specs.Json.{document};
ghost use Rattle.json.specs.Value.{items_view, value_view};
ghost use Rattle.fk_base.specs.Limits.{IsData, IsExpected, IsPath};
ghost use Rattle.fk_wire.specs.Json.{bytes_at, digits_at, expected_at, flag_at, items_onto, list_at, number_at, path_at, path_from, text_at, version_from};

use crate::version::Version;
use base64::DecodeAllocError;
use base64::engine::general_purpose::STANDARD;
use fk_base::{Bytes, NoMemory, Path, PathFault, Paths, expected_of, number_below};
use json::{Error, Scratch, Value};
use std::alloc::Global;

/// The numbers of messages are below this one.
pub(crate) const NUMBERS: u64 = 9_223_372_036_854_775_808;

/// The numbers of 32 bits are below this one.
pub(crate) const SMALL: u64 = 4_294_967_296;

/// The value of a text, or none where it is no JSON.
pub(crate) fn value_of<'a>(
    alloc: Global,
    bytes: &'a [u8],
    scratch: &'a mut Scratch,
) -> Result<Option<Value<'a>>, NoMemory>
    ensures some { IfOk result (λ o. IfSome o
        (λ value. document bytes.now ≡ Some (value_view value))) }
    ensures none { IfOk result (λ o. IfNone o (IsUtf8 bytes.now → document bytes.now ≡ None)) }
{
    match Value::from_slice(alloc, bytes, scratch) {
        Ok(value) => Ok(Some(value)),
        Err(Error::Invalid) => Ok(None),
        Err(Error::OutOfMemory) => Err(NoMemory),
        Err(Error::TooLong) => unreachable!(),
        Err(Error::DuplicateKey) => unreachable!(),
    }
}

pub(crate) fn text_at<'a>(value: &Value<'a>, key: &str) -> Option<&'a str>
    ensures { option_map (λ s. s.now) result ≡ text_at key.now (value_view value.now) }
{
    value.get(key)?.as_str()
}

/// The text of the number at a key.
pub(crate) fn digits_at<'a>(value: &Value<'a>, key: &str) -> Option<&'a str>
    ensures { option_map (λ s. s.now) result ≡ digits_at key.now (value_view value.now) }
{
    value.get(key)?.as_number()
}

pub(crate) fn flag_at(value: &Value<'_>, key: &str) -> Option<bool>
    ensures { result ≡ flag_at key.now (value_view value.now) }
{
    value.get(key)?.as_bool()
}

/// The items of the array at a key.
pub(crate) fn items_at<'v, 'a>(value: &'v Value<'a>, key: &str) -> Option<&'v [Value<'a>]>
    ensures { option_map (λ s. items_view s.now) result
        ≡ option_and_then as_array (get key.now (value_view value.now)) }
{
    match value.get(key)? {
        Value::Array(items) => Some(items.as_slice()),
        Value::Null => None,
        Value::Bool(_) => None,
        Value::Number(_) => None,
        Value::String(_) => None,
        Value::Object(_) => None,
    }
}

/// The number at a key, where it is below the limit.
pub(crate) fn number_at(limit: u64, value: &Value<'_>, key: &str) -> Option<u64>
    ensures number { result ≡ number_at limit key.now (value_view value.now) }
    ensures below { IfSome result (λ n. n < limit) }
{
    number_below(digits_at(value, key)?, limit)
}

pub(crate) fn version_from(value: &Value<'_>) -> Option<Version>
    ensures { result ≡ version_from (value_view value.now) }
{
    match number_at(NUMBERS, value, "v")? {
        1 => Some(Version::One),
        2 => Some(Version::Two),
        _ => None,
    }
}

/// The expected version at a key.
pub(crate) fn expected_at(value: &Value<'_>, key: &str) -> Option<i32>
    ensures expected { result ≡ expected_at key.now (value_view value.now) }
    ensures limits { IfSome result IsExpected }
{
    expected_of(digits_at(value, key)?)
}

/// The path that a value means.
pub(crate) fn path_from(alloc: Global, value: &Value<'_>) -> Result<Option<Path>, NoMemory>
    ensures path { IfOk result (λ o. o ≡ path_from (value_view value.now)) }
    ensures typed { IfOk result (λ o. IfSome o IsPath) }
{
    let Some(text) = value.as_str() else {
        return Ok(None);
    };
    // a text is UTF-8
    let _bytes = text.as_bytes();
    match Path::parse(alloc, text) {
        Ok(path) => Ok(Some(path)),
        Err(PathFault::BadPath) => Ok(None),
        Err(PathFault::NoMemory) => Err(NoMemory),
    }
}

/// The path at a key.
pub(crate) fn path_at(alloc: Global, value: &Value<'_>, key: &str) -> Result<Option<Path>, NoMemory>
    ensures path { IfOk result (λ o. o ≡ path_at key.now (value_view value.now)) }
    ensures typed { IfOk result (λ o. IfSome o IsPath) }
{
    match value.get(key) {
        Some(found) => path_from(alloc, found),
        None => Ok(None),
    }
}

/// The bytes at a key.
pub(crate) fn bytes_at(
    alloc: Global,
    value: &Value<'_>,
    key: &str,
) -> Result<Option<Bytes>, NoMemory>
    ensures bytes { IfOk result (λ o. o ≡ bytes_at key.now (value_view value.now)) }
    ensures typed { IfOk result (λ o. IfSome o IsData) }
{
    let Some(text) = text_at(value, key) else {
        return Ok(None);
    };
    match STANDARD.decode(alloc, text.as_bytes()) {
        Ok(bytes) => Ok(Some(Bytes::from_slice(alloc, bytes.as_slice())?)),
        Err(DecodeAllocError::DecodeError(_)) => Ok(None),
        Err(DecodeAllocError::OutOfMemory) => Err(NoMemory),
    }
}

/// The paths that the items mean, where each means one.
fn paths_from(alloc: Global, items: &[Value<'_>]) -> Result<Option<Paths>, NoMemory>
    ensures paths { IfOk result (λ o. o ≡ items_onto path_from [] (items_view items.now)) }
    ensures typed { IfOk result (λ o. IfSome o (AllByRecursion IsPath)) }
{
    let mut paths = Paths::new(alloc);
    let mut left = items;
    'reading: while let [first, rest @ ..] = left {
        let Some(path) = path_from(alloc, first)? else {
            return Ok(None);
        };
        paths.push(path)?;
        left = rest;
    }
    Ok(Some(paths))
}

/// The paths at a key.
pub(crate) fn paths_at(
    alloc: Global,
    value: &Value<'_>,
    key: &str,
) -> Result<Option<Paths>, NoMemory>
    ensures paths { IfOk result (λ o. o ≡ list_at path_from key.now (value_view value.now)) }
    ensures typed { IfOk result (λ o. IfSome o (AllByRecursion IsPath)) }
{
    match items_at(value, key) {
        Some(items) => paths_from(alloc, items),
        None => Ok(None),
    }
}
