//! The words of a printed line.

ghost use Rattle.std.specs.Prelude.{◌≡◌, [], ◌∷◌, ◌++◌, OnOk};
ghost use Rattle.fk_print.specs.Words.{marked, spaced};
ghost use Rattle.fk_script.specs.Pieces.{piece_words, words_of};
ghost use Rattle.fk_script.specs.Printed.{data_words};

use base64::engine::general_purpose::STANDARD;
use fk_base::{Bytes, NoMemory};
use itoa::Buffer;

/// Words of a line that aren't written yet.
#[derive(Clone, Copy)]
pub(crate) enum Piece<'a> {
    Word(&'a str),
    /// The word, where this holds.
    If(bool, &'a str),
    Number(u64),
    /// `-v` and the version; for -1 nothing is written.
    Version(i32),
    /// Data, in base64 where this holds; for no bytes nothing is written.
    Data(&'a Bytes, bool),
}

/// Writes a line: its first word, the words behind it and a line feed.
pub(crate) fn put_line(out: &mut Bytes, first: &str, pieces: &[Piece]) -> Result<(), NoMemory>
    ensures { OnOk result (out.new ≡ out.old ++ marked first.now (words_of pieces.now)) }
{
    out.append(first.as_bytes())?;
    put_words(out, pieces)?;
    out.push(b'\n')
}

/// Writes words, each behind a space.
pub(crate) fn put_words(out: &mut Bytes, pieces: &[Piece]) -> Result<(), NoMemory>
    ensures { OnOk result (out.new ≡ out.old ++ spaced (words_of pieces.now)) }
{
    for one in pieces {
        put_piece(out, one)?;
    }
    Ok(())
}

fn put_piece(out: &mut Bytes, piece: &Piece) -> Result<(), NoMemory>
    ensures { OnOk result (out.new ≡ out.old ++ spaced (piece_words piece.now)) }
{
    match piece {
        Piece::Word(word) => put_word(out, word.as_bytes()),
        Piece::If(holds, word) => {
            if *holds {
                put_word(out, word.as_bytes())?;
            }
            Ok(())
        }
        Piece::Number(number) => put_word(out, Buffer::new().format(*number).as_bytes()),
        Piece::Version(version) => {
            if *version >= 0 {
                put_word(out, b"-v")?;
                put_word(out, Buffer::new().format(*version).as_bytes())?;
            }
            Ok(())
        }
        Piece::Data(bytes, coded) => put_data(out, bytes, *coded),
    }
}

fn put_data(out: &mut Bytes, bytes: &Bytes, coded: bool) -> Result<(), NoMemory>
    ensures { OnOk result (out.new ≡ out.old ++ spaced (data_words coded bytes.now)) }
{
    if bytes.is_empty() {
        return Ok(());
    }
    if coded {
        let text = STANDARD.encode(bytes.allocator(), bytes.as_slice())?;
        return put_word(out, text.as_bytes());
    }
    put_word(out, bytes.as_slice())
}

fn put_word(out: &mut Bytes, word: &[u8]) -> Result<(), NoMemory>
    ensures { OnOk result (out.new ≡ out.old ++ spaced (word.now ∷ [])) }
{
    out.push(b' ')?;
    out.append(word)
}
