//! The first line of the bytes that are left.

ghost use Rattle.std.specs.Prelude.{◌≡◌, ◌∷◌, ◌<◌, [], true, false, length, position, take, drop, IfSome, MatchOption};
ghost use Rattle.std.specs.Str.{is_utf8};
ghost use Rattle.fk_script.specs.Lines.{is_line_feed, lines};

use std::str;

/// A line, and what stands behind it.
#[derive(Clone, Copy)]
pub(crate) struct Cut<'a> {
    pub(crate) line: &'a [u8],
    /// Whether a line feed ends it.
    pub(crate) ended: bool,
    pub(crate) rest: &'a [u8],
}

/// The first line of the bytes.
pub(crate) fn first_line(bytes: &[u8]) -> Option<Cut<'_>>
    ensures exact { MatchOption result (lines bytes.now ≡ []) (λ c. lines bytes.now ≡ record { text = c.line.now; ended = c.ended } ∷ lines c.rest.now) }
    ensures shorter { IfSome result (λ c. length c.rest.now < length bytes.now) }
{
    if bytes.is_empty() {
        return None;
    }
    match line_feed(bytes) {
        Some(at) => Some(Cut {
            line: &bytes[..at],
            ended: true,
            rest: &bytes[at + 1..],
        }),
        None => Some(Cut {
            line: bytes,
            ended: false,
            rest: &[],
        }),
    }
}

/// Where the first line feed stands.
fn line_feed(bytes: &[u8]) -> Option<usize>
    ensures exact { result ≡ position is_line_feed bytes.now }
    ensures within { IfSome result (λ at. at < length bytes.now) }
{
    bytes.iter().position(|byte| *byte == b'\n')
}

/// The text of a line that is UTF-8.
pub(crate) fn text_of(line: &[u8]) -> Option<&str>
    ensures { MatchOption result (is_utf8 line.now ≡ false) (λ t. (is_utf8 line.now ≡ true) × (t.now ≡ line.now)) }
{
    match str::from_utf8(line) {
        Ok(text) => Some(text),
        Err(_) => None,
    }
}
