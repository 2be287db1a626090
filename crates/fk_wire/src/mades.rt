//! What the parts of a multi came to, as JSON.

ghost use Rattle.std.specs.Prelude.{◌≡◌, IfOk, IfSome};
ghost use Rattle.json.specs.Value.{value_view};
ghost use Rattle.serde_json.specs.View.{view};
ghost use Rattle.fk_wire.specs.Mades.{AreTypedMades, CanSayMades, IsTypedMade, made_data, made_from, made_in, mades_at, mades_data};

use crate::reading::{SMALL, items_at, number_at, path_at};
use crate::version::Version;
use crate::writing::text_of_path;
use fk_base::NoMemory;
use fk_tree::{Made, Mades};
use json::Value as Json;
use serde_json::{Value, json};
use std::alloc::Global;

fn made_value(alloc: Global, made: &Made) -> Result<Value, NoMemory>
    ensures value { IfOk result (λ value. view value ≡ made_data made.now) }
    ensures typed { IfOk result (λ value. IsTypedMade made.now) }
{
    let text = text_of_path(&made.name)?;
    let name = text.as_str();
    let version = made.version;
    let value = json!(in alloc; {"name": name, "version": version})?;
    Ok(value)
}

/// The entries as a JSON array.
pub(crate) fn mades_value(alloc: Global, mades: &Mades) -> Result<Value, NoMemory>
    ensures value { IfOk result (λ value. view value ≡ mades_data mades.now) }
    ensures typed { IfOk result (λ value. AreTypedMades mades.now) }
{
    let mut list = Vec::new(alloc);
    'writing: for made in mades.as_slice() {
        list.push(made_value(alloc, made)?)?;
    }
    Ok(Value::Array(list))
}

fn made_from(alloc: Global, value: &Json<'_>) -> Result<Option<Made>, NoMemory>
    ensures made { IfOk result (λ o. o ≡ made_from (value_view value.now)) }
    ensures typed { IfOk result (λ o. IfSome o IsTypedMade) }
{
    let Some(name) = path_at(alloc, value, "name")? else {
        return Ok(None);
    };
    let Some(version) = number_at(SMALL, value, "version") else {
        return Ok(None);
    };
    let version = version as u32;
    Ok(Some(Made { name, version }))
}

/// The entries at a key.
fn mades_at(alloc: Global, value: &Json<'_>, key: &str) -> Result<Option<Mades>, NoMemory>
    ensures mades { IfOk result (λ o. o ≡ mades_at key.now (value_view value.now)) }
    ensures typed { IfOk result (λ o. IfSome o AreTypedMades) }
{
    let Some(list) = items_at(value, key) else {
        return Ok(None);
    };
    let mut mades = Mades::new(alloc);
    let mut left = list;
    'reading: while let [first, rest @ ..] = left {
        let Some(made) = made_from(alloc, first)? else {
            return Ok(None);
        };
        mades.push(made)?;
        left = rest;
    }
    Ok(Some(mades))
}

/// The entries of a value in this version; the first has none.
pub(crate) fn made_in(
    alloc: Global,
    version: Version,
    value: &Json<'_>,
) -> Result<Option<Mades>, NoMemory>
    ensures made { IfOk result (λ o. o ≡ made_in version (value_view value.now)) }
    ensures typed { IfOk result (λ o. IfSome o AreTypedMades) }
    ensures said { IfOk result (λ o. IfSome o (CanSayMades version)) }
{
    match version {
        Version::One => Ok(Some(Mades::new(alloc))),
        Version::Two => mades_at(alloc, value, "made"),
    }
}
