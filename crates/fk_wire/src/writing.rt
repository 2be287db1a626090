//! The value of a message, and its text.

ghost use Rattle.std.specs.Prelude.{◌≡◌, ◌↔◌, false, string_bytes, IfOk, IsTrue};
ghost use Rattle.std.specs.List.{AllByRecursion};
ghost use Rattle.base64.specs.Engines.{standard};
ghost use Rattle.base64.specs.GeneralPurpose.{encode_of};
ghost use Rattle.serde_json.specs.View.{view};
ghost use Rattle.serde_json.specs.Written.{compact_text, has_float};
ghost use Rattle.fk_base.specs.Path.{path_text};
ghost use Rattle.fk_wire.specs.Json.{list_data, path_data};
ghost use Rattle.fk_base.specs.Limits.{IsData, IsPath};

use base64::engine::general_purpose::STANDARD;
use fk_base::{Bytes, NoMemory, Path, Text};
use serde_json::Value;
use std::alloc::Global;

/// The text of a value.
pub(crate) fn text_of(alloc: Global, value: &Value) -> Result<Bytes, NoMemory>
    requires { has_float (view value.now) ≡ false }
    ensures { IfOk result (λ b. b ≡ compact_text (view value.now)) }
{
    let text = value.to_string(alloc)?;
    Bytes::from_slice(alloc, text.as_bytes())
}

pub(crate) fn is_same(a: &[u8], b: &[u8]) -> bool
    ensures { IsTrue result ↔ (a.now ≡ b.now) }
{
    a == b
}

/// The text of a path.
pub(crate) fn text_of_path(path: &Path) -> Result<Text, NoMemory>
    ensures text { IfOk result (λ t. t ≡ path_text path.now) }
    ensures typed { IfOk result (λ t. IsPath path.now) }
{
    let text = path.text()?;
    // a text is UTF-8
    let _text = text.as_str();
    Ok(text)
}

/// Data in base64.
pub(crate) fn text_of_bytes(alloc: Global, bytes: &[u8]) -> Result<String, NoMemory>
    ensures text { IfOk result (λ t. string_bytes t ≡ encode_of standard bytes.now) }
    ensures typed { IsData bytes.now }
{
    Ok(STANDARD.encode(alloc, bytes)?)
}

/// The value of a list of paths.
pub(crate) fn paths_value(alloc: Global, paths: &[Path]) -> Result<Value, NoMemory>
    ensures value { IfOk result (λ value. view value ≡ list_data path_data paths.now) }
    ensures typed { IfOk result (λ value. AllByRecursion IsPath paths.now) }
{
    let mut items = Vec::new(alloc);
    'writing: for path in paths {
        let text = text_of_path(path)?;
        items.push(Value::try_from_str(alloc, text.as_str())?)?;
    }
    Ok(Value::Array(items))
}
