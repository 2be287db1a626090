ghost use Rattle.std.specs.Prelude.{◌≡◌, IfOk};
ghost use Rattle.fk_base.specs.Path.{are_names, has_barred, is_barred_byte, is_barred_pair, is_dots, is_name, pieces};

use crate::memory::NoMemory;
use crate::names::Names;
use crate::text::Text;
use std::alloc::Global;

/// Whether a text can be the name of a node.
pub fn is_name(text: &str) -> bool
    ensures { result ≡ is_name text.now }
{
    let bytes = text.as_bytes();
    !is_dots(bytes) && !has_barred(bytes)
}

fn is_dots(bytes: &[u8]) -> bool
    ensures { result ≡ is_dots bytes.now }
{
    match bytes {
        [] => true,
        [first] => *first == b'.',
        [first, second] => *first == b'.' && *second == b'.',
        _ => false,
    }
}

fn has_barred(bytes: &[u8]) -> bool
    ensures { result ≡ has_barred bytes.now }
{
    let mut left = bytes;
    'looking: while let [first, rest @ ..] = left {
        if is_barred_byte(*first) || is_barred_pair(*first, rest) {
            return true;
        }
        left = rest;
    }
    false
}

fn is_barred_byte(byte: u8) -> bool
    ensures { result ≡ is_barred_byte byte }
{
    byte <= b' ' || byte == b'/' || byte == 0x7F
}

/// Whether a byte and what follows it begin with one of U+0080 to U+009F.
fn is_barred_pair(first: u8, rest: &[u8]) -> bool
    ensures { result ≡ is_barred_pair first rest.now }
{
    match rest {
        [] => false,
        [second, ..] => first == 0xC2 && *second <= 0x9F,
    }
}

/// Whether each piece between slashes is a name.
pub(crate) fn are_names(text: &str) -> bool
    ensures { result ≡ are_names (pieces text.now) }
{
    text.split('/').all(is_name)
}

/// The pieces between slashes.
pub(crate) fn names_of(alloc: Global, text: &str) -> Result<Names, NoMemory>
    ensures { IfOk result (λ n. n ≡ pieces text.now) }
{
    let mut names = Names::new(alloc);
    'cutting: for piece in text.split('/') {
        names.push(Text::from_str(alloc, piece)?)?;
    }
    Ok(names)
}
