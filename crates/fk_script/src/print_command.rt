//! The line of a command.

ghost use Rattle.std.specs.Prelude.{◌≡◌, ◌∷◌, ◌++◌, codes, OnOk};
ghost use Rattle.std.specs.List.{list_all};
ghost use Rattle.fk_print.specs.Words.{is_plain, spaced};
ghost use Rattle.fk_script.specs.Pieces.{words_of};
ghost use Rattle.fk_script.specs.Printed.{and_words, beginning, command_words, create_words, is_coded, is_coded_in_part, line_text, part_words, parts_words, read_words, set_words};

use crate::command::{Command, PartCommand};
use crate::piece::{Piece, put_line, put_words};
use fk_base::{Bytes, NoMemory, Text};

/// Writes the line of a command.
pub(crate) fn put_command(out: &mut Bytes, command: &Command) -> Result<(), NoMemory>
    ensures { OnOk result (out.new ≡ out.old ++ line_text (command_words command.now)) }
{
    match command {
        Command::Create {
            path,
            bytes,
            seq,
            eph,
            wait,
        } => put_create(out, *wait, *seq, *eph, path, bytes),
        Command::Set {
            path,
            bytes,
            version,
            wait,
        } => put_set(out, *wait, *version, path, bytes),
        Command::Delete {
            path,
            version,
            wait,
        } => put_write(
            out,
            *wait,
            "delete",
            &[Piece::Version(*version), Piece::Word(path.as_str())],
        ),
        Command::Get { path, watch } => put_read(out, "get", *watch, path),
        Command::Stat { path, watch } => put_read(out, "stat", *watch, path),
        Command::Ls { path, watch } => put_read(out, "ls", *watch, path),
        Command::Close => put_line(out, "close", &[]),
        Command::Multi { parts, wait } => put_multi(out, *wait, parts.as_slice()),
    }
}

fn put_create<'a>(
    out: &mut Bytes,
    wait: bool,
    seq: bool,
    eph: bool,
    path: &'a Text,
    bytes: &'a Bytes,
) -> Result<(), NoMemory>
    ensures { OnOk result (out.new ≡ out.old
        ++ line_text (and_words wait ++ create_words seq eph (is_coded bytes.now) path.now bytes.now)) }
{
    use Piece::*;
    let coded = is_coded(bytes);
    put_write(
        out,
        wait,
        "create",
        &[
            If(seq, "-s"),
            If(eph, "-e"),
            If(coded, "-b"),
            Word(path.as_str()),
            Data(bytes, coded),
        ],
    )
}

fn put_set<'a>(
    out: &mut Bytes,
    wait: bool,
    version: i32,
    path: &'a Text,
    bytes: &'a Bytes,
) -> Result<(), NoMemory>
    ensures { OnOk result (out.new ≡ out.old
        ++ line_text (and_words wait ++ set_words version (is_coded bytes.now) path.now bytes.now)) }
{
    use Piece::*;
    let coded = is_coded(bytes);
    put_write(
        out,
        wait,
        "set",
        &[
            Version(version),
            If(coded, "-b"),
            Word(path.as_str()),
            Data(bytes, coded),
        ],
    )
}

fn put_read(out: &mut Bytes, verb: &str, watch: bool, path: &Text) -> Result<(), NoMemory>
    ensures { OnOk result (out.new ≡ out.old ++ line_text (read_words verb.now watch path.now)) }
{
    put_line(
        out,
        verb,
        &[Piece::If(watch, "-w"), Piece::Word(path.as_str())],
    )
}

/// Writes a line that begins with `&` where the client doesn't wait.
#[tactic(auto, using(crate::proofs::PrintedLines::line_begins))]
fn put_write(out: &mut Bytes, wait: bool, verb: &str, pieces: &[Piece]) -> Result<(), NoMemory>
    ensures { OnOk result (out.new ≡ out.old
        ++ line_text (and_words wait ++ verb.now ∷ words_of pieces.now)) }
{
    put_and(out, wait)?;
    put_line(out, verb, pieces)
}

fn put_multi(out: &mut Bytes, wait: bool, parts: &[PartCommand]) -> Result<(), NoMemory>
    ensures { OnOk result (out.new ≡ out.old
        ++ line_text (and_words wait ++ codes "multi" ∷ parts_words parts.now)) }
{
    put_and(out, wait)?;
    out.append(b"multi")?;
    put_parts(out, parts)?;
    out.push(b'\n')
}

fn put_and(out: &mut Bytes, wait: bool) -> Result<(), NoMemory>
    ensures { OnOk result (out.new ≡ out.old ++ beginning wait) }
{
    if !wait {
        out.append(b"& ")?;
    }
    Ok(())
}

/// Writes the words of the parts, with `;` between each two.
fn put_parts(out: &mut Bytes, parts: &[PartCommand]) -> Result<(), NoMemory>
    ensures { OnOk result (out.new ≡ out.old ++ spaced (parts_words parts.now)) }
{
    let Some((first, others)) = parts.split_first() else {
        return Ok(());
    };
    put_part(out, first)?;
    'writing: for part in others {
        put_words(out, &[Piece::Word(";")])?;
        put_part(out, part)?;
    }
    Ok(())
}

fn put_part(out: &mut Bytes, part: &PartCommand) -> Result<(), NoMemory>
    ensures { OnOk result (out.new ≡ out.old ++ spaced (part_words part.now)) }
{
    use Piece::*;
    match part {
        PartCommand::Create { path, bytes, eph } => {
            let coded = is_coded_in_part(bytes);
            put_words(
                out,
                &[
                    Word("create"),
                    If(*eph, "-e"),
                    If(coded, "-b"),
                    Word(path.as_str()),
                    Data(bytes, coded),
                ],
            )
        }
        PartCommand::Set {
            path,
            bytes,
            version,
        } => {
            let coded = is_coded_in_part(bytes);
            put_words(
                out,
                &[
                    Word("set"),
                    Version(*version),
                    If(coded, "-b"),
                    Word(path.as_str()),
                    Data(bytes, coded),
                ],
            )
        }
        PartCommand::Delete { path, version } => put_words(
            out,
            &[Word("delete"), Version(*version), Word(path.as_str())],
        ),
    }
}

/// Whether data is written in base64.
fn is_coded(bytes: &Bytes) -> bool
    ensures { result ≡ is_coded bytes.now }
{
    !are_plain(bytes.as_slice())
}

/// Whether a part's data is.
fn is_coded_in_part(bytes: &Bytes) -> bool
    ensures { result ≡ is_coded_in_part bytes.now }
{
    is_coded(bytes) || bytes.as_slice() == b";".as_slice()
}

/// Whether a word may show each byte as it is.
fn are_plain(bytes: &[u8]) -> bool
    ensures { result ≡ list_all is_plain bytes.now }
{
    bytes.iter().all(|byte| (0x21..=0x7E).contains(byte))
}
