ghost use Rattle.std.specs.Prelude.{◌≡◌, ◌++◌, OnOk, map, string_bytes};
ghost use Rattle.std.specs.List.{flat_map};
ghost use Rattle.fk_base.specs.Path.{path_text};
ghost use Rattle.fk_print.specs.LineText.{act_words, close_word, flag_word, part_words};
ghost use Rattle.fk_print.specs.Words.{spaced};

use crate::line::Act;
use crate::piece::{Piece, words};
use fk_base::{Names, NoMemory, Path};
use fk_tree::Part;

/// Writes the words of what a transaction did.
pub(crate) fn put_act(out: &mut String, clients: &Names, act: &Act) -> Result<(), NoMemory>
    ensures { OnOk result (string_bytes out.new ≡ string_bytes out.old
        ++ spaced (act_words act.now)) }
{
    use Piece::*;
    match act {
        Act::Create {
            path,
            bytes,
            seq,
            eph,
        } => words(
            out,
            clients,
            &[
                Word("create"),
                Word(flag(*seq, *eph)),
                Path(path),
                Data(bytes),
            ],
        ),
        Act::Set {
            path,
            bytes,
            version,
        } => words(
            out,
            clients,
            &[Word("set"), Signed(*version), Path(path), Data(bytes)],
        ),
        Act::Delete { path, version } => words(
            out,
            clients,
            &[Word("delete"), Signed(*version), Path(path)],
        ),
        Act::Close { evict, gone } => {
            let paths = gone.as_slice();
            words(
                out,
                clients,
                &[Word(close(*evict)), Number(paths.len() as u64)],
            )?;
            put_paths(out, clients, paths)
        }
        Act::Multi(parts) => {
            let parts = parts.as_slice();
            words(out, clients, &[Word("multi"), Number(parts.len() as u64)])?;
            put_parts(out, clients, parts)
        }
    }
}

fn put_paths(out: &mut String, clients: &Names, paths: &[Path]) -> Result<(), NoMemory>
    ensures { OnOk result (string_bytes out.new ≡ string_bytes out.old
        ++ spaced (map path_text paths.now)) }
{
    for path in paths {
        words(out, clients, &[Piece::Path(path)])?;
    }
    Ok(())
}

fn put_parts(out: &mut String, clients: &Names, parts: &[Part]) -> Result<(), NoMemory>
    ensures { OnOk result (string_bytes out.new ≡ string_bytes out.old
        ++ spaced (flat_map part_words parts.now)) }
{
    for part in parts {
        put_part(out, clients, part)?;
    }
    Ok(())
}

fn put_part(out: &mut String, clients: &Names, part: &Part) -> Result<(), NoMemory>
    ensures { OnOk result (string_bytes out.new ≡ string_bytes out.old
        ++ spaced (part_words part.now)) }
{
    use Piece::*;
    match part {
        Part::Create { path, bytes, eph } => words(
            out,
            clients,
            &[
                Word("create"),
                Word(flag(false, *eph)),
                Path(path),
                Data(bytes),
            ],
        ),
        Part::Set {
            path,
            bytes,
            version,
        } => words(
            out,
            clients,
            &[Word("set"), Signed(*version), Path(path), Data(bytes)],
        ),
        Part::Delete { path, version } => words(
            out,
            clients,
            &[Word("delete"), Signed(*version), Path(path)],
        ),
    }
}

fn flag(seq: bool, eph: bool) -> &'static str
    ensures { result.now ≡ flag_word seq eph }
{
    match (seq, eph) {
        (false, false) => "-",
        (true, false) => "s",
        (false, true) => "e",
        (true, true) => "se",
    }
}

fn close(evict: bool) -> &'static str
    ensures { result.now ≡ close_word evict }
{
    if evict { "evict" } else { "close" }
}
