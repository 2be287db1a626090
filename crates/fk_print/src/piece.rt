ghost use Rattle.std.specs.Prelude.{◌≡◌, ◌++◌, OnOk, IfSome, IfNone, IsTrue, false, string_bytes};
ghost use Rattle.std.specs.List.{list_all};
ghost use Rattle.fk_base.specs.Path.{path_text};
ghost use Rattle.fk_print.specs.Pieces.{piece_words, words_of};
ghost use Rattle.fk_print.specs.Words.{client, data_word, is_plain, marked, spaced};

use base64::engine::general_purpose::STANDARD;
use fk_base::{Bytes, Code, Names, NoMemory, Path};
use std::fmt::Write;

/// A word of a line that isn't written yet.
#[derive(Clone, Copy)]
pub(crate) enum Piece<'a> {
    Word(&'a str),
    Number(u64),
    Signed(i32),
    /// A session, which is written as its client's name.
    Client(u32),
    /// A number behind `@`.
    At(u64),
    /// A part's place in its multi; for 0 nothing is written.
    Place(u32),
    Path(&'a Path),
    /// A code, by its name.
    Code(Code),
    Data(&'a Bytes),
}

/// Writes words, each behind a space.
pub(crate) fn words(out: &mut String, clients: &Names, pieces: &[Piece]) -> Result<(), NoMemory>
    ensures { OnOk result (string_bytes out.new ≡ string_bytes out.old
        ++ spaced (words_of clients.now pieces.now)) }
{
    for one in pieces {
        put_piece(out, clients, one)?;
    }
    Ok(())
}

/// Writes a line: its mark, its words and a line feed.
pub(crate) fn put_line(
    out: &mut String,
    clients: &Names,
    mark: &str,
    pieces: &[Piece],
) -> Result<(), NoMemory>
    ensures { OnOk result (string_bytes out.new ≡ string_bytes out.old
        ++ marked mark.now (words_of clients.now pieces.now)) }
{
    out.push_str(mark)?;
    words(out, clients, pieces)?;
    out.push_str("\n")?;
    Ok(())
}

fn put_piece(out: &mut String, clients: &Names, piece: &Piece) -> Result<(), NoMemory>
    ensures { OnOk result (string_bytes out.new ≡ string_bytes out.old
        ++ spaced (piece_words clients.now piece.now)) }
{
    if let Piece::Place(0) = piece {
        return Ok(());
    }
    out.push_str(" ")?;
    match piece {
        Piece::Word(word) => out.push_str(word)?,
        Piece::Number(number) => write!(out, "{number}")?,
        Piece::Signed(number) => write!(out, "{number}")?,
        Piece::Client(session) => put_client(out, clients, *session)?,
        Piece::At(number) => write!(out, "@{number}")?,
        Piece::Place(place) => write!(out, "{place}")?,
        Piece::Path(path) => put_path(out, path)?,
        Piece::Code(code) => out.push_str(code.name())?,
        Piece::Data(bytes) => put_data(out, bytes.as_slice())?,
    }
    Ok(())
}

fn put_client(out: &mut String, clients: &Names, session: u32) -> Result<(), NoMemory>
    ensures { OnOk result (string_bytes out.new ≡ string_bytes out.old
        ++ client clients.now session) }
{
    let names = clients.as_slice();
    let place = session as usize;
    if 0 < place && place <= names.len() {
        out.push_str(names[place - 1].as_str())?;
    }
    Ok(())
}

fn put_path(out: &mut String, path: &Path) -> Result<(), NoMemory>
    ensures { OnOk result (string_bytes out.new ≡ string_bytes out.old ++ path_text path.now) }
{
    let names = path.as_slice();
    if names.is_empty() {
        out.push_str("/")?;
    }
    for name in names {
        out.push_str("/")?;
        out.push_str(name.as_str())?;
    }
    Ok(())
}

fn put_data(out: &mut String, bytes: &[u8]) -> Result<(), NoMemory>
    ensures { OnOk result (string_bytes out.new ≡ string_bytes out.old ++ data_word bytes.now) }
{
    match plain_text(bytes) {
        Some(text) => {
            out.push_str("=")?;
            out.push_str(text)?;
        }
        None => {
            out.push_str("~")?;
            STANDARD.encode_string(bytes, out)?;
        }
    }
    Ok(())
}

/// The bytes as text, where a word may show each of them.
#[tactic(auto, using(crate::proofs::Texts::not_plain))]
fn plain_text(bytes: &[u8]) -> Option<&str>
    ensures some { IfSome result (λ text. IsTrue (list_all is_plain bytes.now)
        × (text.now ≡ bytes.now)) }
    ensures none { IfNone result (list_all is_plain bytes.now ≡ false) }
{
    match str::from_utf8(bytes) {
        Ok(text) => are_plain(bytes).then_some(text),
        Err(_) => None,
    }
}

/// Whether a word may show each byte as it is.
fn are_plain(bytes: &[u8]) -> bool
    ensures { result ≡ list_all is_plain bytes.now }
{
    bytes.iter().all(|byte| (0x21..=0x7E).contains(byte))
}
