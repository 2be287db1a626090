//! Watches that fired, as JSON.

ghost use Rattle.std.specs.Prelude.{◌≡◌, IfOk, IfSome};
ghost use Rattle.json.specs.Value.{value_view};
ghost use Rattle.serde_json.specs.View.{view};
ghost use Rattle.fk_wire.specs.Fired.{AreLimitedFired, AreTypedFired, IsLimitedFired, IsTypedFired, change_at, change_of, change_word, fired_data, fired_from, fired_list_at, fired_list_data, kind_at, kind_of, kind_word};

use crate::fired::{Fired, FiredList};
use crate::reading::{NUMBERS, SMALL, items_at, number_at, path_at, text_at};
use crate::writing::text_of_path;
use fk_base::NoMemory;
use fk_tree::{Change, Kind};
use json::Value as Json;
use serde_json::{Value, json};
use std::alloc::Global;

/// The word for what a watch waits for.
pub(crate) fn kind_word(kind: Kind) -> &'static str
    ensures { result.now ≡ kind_word kind }
{
    match kind {
        Kind::Data => "data",
        Kind::Child => "child",
    }
}

/// The word for what happened.
pub(crate) fn change_word(change: Change) -> &'static str
    ensures { result.now ≡ change_word change }
{
    match change {
        Change::Created => "NodeCreated",
        Change::Changed => "NodeDataChanged",
        Change::Deleted => "NodeDeleted",
        Change::Child => "NodeChildrenChanged",
    }
}

fn kind_of(word: &str) -> Option<Kind>
    ensures { result ≡ kind_of word.now }
{
    if word == "data" {
        Some(Kind::Data)
    } else if word == "child" {
        Some(Kind::Child)
    } else {
        None
    }
}

fn change_of(word: &str) -> Option<Change>
    ensures { result ≡ change_of word.now }
{
    if word == "NodeCreated" {
        Some(Change::Created)
    } else if word == "NodeDataChanged" {
        Some(Change::Changed)
    } else if word == "NodeDeleted" {
        Some(Change::Deleted)
    } else if word == "NodeChildrenChanged" {
        Some(Change::Child)
    } else {
        None
    }
}

fn kind_at(value: &Json<'_>, key: &str) -> Option<Kind>
    ensures { result ≡ kind_at key.now (value_view value.now) }
{
    kind_of(text_at(value, key)?)
}

fn change_at(value: &Json<'_>, key: &str) -> Option<Change>
    ensures { result ≡ change_at key.now (value_view value.now) }
{
    change_of(text_at(value, key)?)
}

fn fired_value(alloc: Global, fired: &Fired) -> Result<Value, NoMemory>
    ensures value { IfOk result (λ value. view value ≡ fired_data fired.now) }
    ensures typed { IfOk result (λ value. IsTypedFired fired.now) }
{
    let text = text_of_path(&fired.path)?;
    let path = text.as_str();
    let kind = kind_word(fired.kind);
    let change = change_word(fired.change);
    let id = fired.id;
    let session = fired.session;
    let value =
        json!(in alloc; {"client": session, "id": id, "kind": kind, "path": path, "type": change})?;
    Ok(value)
}

/// The watches as a JSON array.
pub(crate) fn fired_list_value(alloc: Global, list: &FiredList) -> Result<Value, NoMemory>
    ensures value { IfOk result (λ value. view value ≡ fired_list_data list.now) }
    ensures typed { IfOk result (λ value. AreTypedFired list.now) }
{
    let mut items = Vec::new(alloc);
    'writing: for fired in list.as_slice() {
        items.push(fired_value(alloc, fired)?)?;
    }
    Ok(Value::Array(items))
}

/// The watch that a value says.
pub(crate) fn fired_from(alloc: Global, value: &Json<'_>) -> Result<Option<Fired>, NoMemory>
    ensures fired { IfOk result (λ o. o ≡ fired_from (value_view value.now)) }
    ensures limits { IfOk result (λ o. IfSome o IsLimitedFired) }
    ensures typed { IfOk result (λ o. IfSome o IsTypedFired) }
{
    let Some(session) = number_at(SMALL, value, "client") else {
        return Ok(None);
    };
    let session = session as u32;
    let Some(id) = number_at(NUMBERS, value, "id") else {
        return Ok(None);
    };
    let Some(kind) = kind_at(value, "kind") else {
        return Ok(None);
    };
    let Some(path) = path_at(alloc, value, "path")? else {
        return Ok(None);
    };
    let Some(change) = change_at(value, "type") else {
        return Ok(None);
    };
    Ok(Some(Fired {
        id,
        session,
        path,
        kind,
        change,
    }))
}

/// The watches at a key.
pub(crate) fn fired_list_at(
    alloc: Global,
    value: &Json<'_>,
    key: &str,
) -> Result<Option<FiredList>, NoMemory>
    ensures list { IfOk result (λ o. o ≡ fired_list_at key.now (value_view value.now)) }
    ensures limits { IfOk result (λ o. IfSome o AreLimitedFired) }
    ensures typed { IfOk result (λ o. IfSome o AreTypedFired) }
{
    let Some(list) = items_at(value, key) else {
        return Ok(None);
    };
    let mut fired = FiredList::new(alloc);
    let mut left = list;
    'reading: while let [first, rest @ ..] = left {
        let Some(one) = fired_from(alloc, first)? else {
            return Ok(None);
        };
        fired.push(one)?;
        left = rest;
    }
    Ok(Some(fired))
}
