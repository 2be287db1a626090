//! The tells as JSON: what is written for each kind.

ghost use Rattle.std.specs.Prelude.{◌≡◌, List, [], IfOk};
ghost use Rattle.serde_json.specs.View.{view};
ghost use Rattle.fk_tree.specs.declared.applied.Made.{Made};
ghost use Rattle.fk_wire.specs.Mades.{mades_data};
ghost use Rattle.fk_wire.specs.TellText.{CanSayTell, IsTypedTell, tell_data};
ghost use Rattle.fk_base.specs.Limits.{IsPath};

use crate::fired::Fired;
use crate::mades::mades_value;
use crate::message::Tell;
use crate::version::Version;
use crate::watches::{change_word, kind_word};
use crate::writing::text_of_path;
use fk_base::{Code, NoMemory, Path};
use fk_tree::Mades;
use serde_json::{Value, json};
use std::alloc::Global;

fn done_value(
    alloc: Global,
    k: u64,
    tx: u64,
    name: &Path,
    node: u32,
    made: &Mades,
) -> Result<Value, NoMemory>
    ensures value { IfOk result (λ value. view value ≡ tell_data Version.Two (Tell.Done k tx name.now node made.now)) }
    ensures typed { IfOk result (λ value. IsTypedTell (Tell.Done k tx name.now node made.now)) }
{
    let value = mades_value(alloc, made)?;
    done_with(alloc, k, tx, name, node, &value)
}

/// The value of a commit, with the value of its parts.
fn done_with(
    alloc: Global,
    k: u64,
    tx: u64,
    name: &Path,
    node: u32,
    made: &Value,
) -> Result<Value, NoMemory>
    ensures value { IfOk result (λ value. (ms : List Made) → view made.now ≡ mades_data ms
        → view value ≡ tell_data Version.Two (Tell.Done k tx name.now node ms)) }
    ensures typed { IfOk result (λ value. IsPath name.now) }
{
    let text = text_of_path(name)?;
    let name = text.as_str();
    let value =
        json!(in alloc; {"k": k, "made": made, "name": name, "t": "done", "tx": tx, "v": 2, "version": node})?;
    Ok(value)
}

/// The same in version 1, which has no parts.
fn first_done_value(
    alloc: Global,
    k: u64,
    tx: u64,
    name: &Path,
    node: u32,
) -> Result<Value, NoMemory>
    ensures value { IfOk result (λ value. view value ≡ tell_data Version.One (Tell.Done k tx name.now node [])) }
    ensures typed { IfOk result (λ value. IsPath name.now) }
{
    let text = text_of_path(name)?;
    let name = text.as_str();
    let value =
        json!(in alloc; {"k": k, "name": name, "t": "done", "tx": tx, "v": 1, "version": node})?;
    Ok(value)
}

fn evicted_value(alloc: Global, version: Version, k: u64, tx: u64) -> Result<Value, NoMemory>
    ensures { IfOk result (λ value. view value ≡ tell_data version (Tell.Evicted k tx)) }
{
    let v = version.number();
    let value = json!(in alloc; {"k": k, "t": "evicted", "tx": tx, "v": v})?;
    Ok(value)
}

fn refused_value(alloc: Global, k: u64, code: Code, at: u64, place: u32) -> Result<Value, NoMemory>
    ensures { IfOk result (λ value. view value ≡ tell_data Version.Two (Tell.Refused k code at place)) }
{
    let number = code.number();
    let value =
        json!(in alloc; {"at": at, "code": number, "k": k, "place": place, "t": "refused", "v": 2})?;
    Ok(value)
}

/// The same in version 1, which has no places.
fn first_refused_value(alloc: Global, k: u64, code: Code, at: u64) -> Result<Value, NoMemory>
    ensures { IfOk result (λ value. view value ≡ tell_data Version.One (Tell.Refused k code at 0)) }
{
    let number = code.number();
    let value = json!(in alloc; {"at": at, "code": number, "k": k, "t": "refused", "v": 1})?;
    Ok(value)
}

fn lost_value(
    alloc: Global,
    version: Version,
    k: u64,
    path: &Path,
    own: u64,
    found: u64,
    moment: u64,
) -> Result<Value, NoMemory>
    ensures value { IfOk result (λ value. view value ≡ tell_data version (Tell.Lost k path.now own found moment)) }
    ensures typed { IfOk result (λ value. IsTypedTell (Tell.Lost k path.now own found moment)) }
{
    let text = text_of_path(path)?;
    let path = text.as_str();
    let v = version.number();
    let value =
        json!(in alloc; {"found": found, "k": k, "moment": moment, "own": own, "path": path, "t": "lost", "v": v})?;
    Ok(value)
}

fn watch_value(alloc: Global, version: Version, tx: u64, fired: &Fired) -> Result<Value, NoMemory>
    ensures value { IfOk result (λ value. view value ≡ tell_data version (Tell.Watch tx fired.now)) }
    ensures typed { IfOk result (λ value. IsTypedTell (Tell.Watch tx fired.now)) }
{
    let text = text_of_path(&fired.path)?;
    let path = text.as_str();
    let kind = kind_word(fired.kind);
    let change = change_word(fired.change);
    let id = fired.id;
    let session = fired.session;
    let v = version.number();
    let value =
        json!(in alloc; {"client": session, "id": id, "kind": kind, "path": path, "t": "watch", "tx": tx, "type": change, "v": v})?;
    Ok(value)
}

fn ping_value(alloc: Global, version: Version, n: u64) -> Result<Value, NoMemory>
    ensures { IfOk result (λ value. view value ≡ tell_data version (Tell.Ping n)) }
{
    let v = version.number();
    let value = json!(in alloc; {"n": n, "t": "ping", "v": v})?;
    Ok(value)
}

/// The value of a tell in a version that has it.
pub(crate) fn tell_value(alloc: Global, version: Version, message: &Tell) -> Result<Value, NoMemory>
    ensures value { IfOk result (λ value. view value ≡ tell_data version message.now) }
    ensures typed { IfOk result (λ value. CanSayTell version message.now → IsTypedTell message.now) }
{
    match message {
        Tell::Done {
            k,
            tx,
            name,
            version: node,
            made,
        } => match version {
            Version::One => first_done_value(alloc, *k, *tx, name, *node),
            Version::Two => done_value(alloc, *k, *tx, name, *node, made),
        },
        Tell::Evicted { k, tx } => evicted_value(alloc, version, *k, *tx),
        Tell::Refused { k, code, at, place } => match version {
            Version::One => first_refused_value(alloc, *k, *code, *at),
            Version::Two => refused_value(alloc, *k, *code, *at, *place),
        },
        Tell::Lost {
            k,
            path,
            own,
            found,
            moment,
        } => lost_value(alloc, version, *k, path, *own, *found, *moment),
        Tell::Watch { tx, fired } => watch_value(alloc, version, *tx, fired),
        Tell::Ping(n) => ping_value(alloc, version, *n),
    }
}
