ghost use Rattle.std.specs.Prelude.{◌≡◌, ◌++◌, [], ◌∷◌, OnOk, map, string_bytes};
ghost use Rattle.fk_print.specs.LineText.{part_reply_word, shown_words, stat_words};
ghost use Rattle.fk_print.specs.Words.{spaced};

use crate::line::Shown;
use crate::piece::{Piece, words};
use fk_base::{Names, NoMemory, Text};
use fk_tree::{PartReply, Stat};

/// Writes the words of what a command is answered.
pub(crate) fn put_shown(out: &mut String, clients: &Names, shown: &Shown) -> Result<(), NoMemory>
    ensures { OnOk result (string_bytes out.new ≡ string_bytes out.old
        ++ spaced (shown_words shown.now)) }
{
    use Piece::*;
    match shown {
        Shown::Created { tx, path } => words(out, clients, &[Word("ok"), At(*tx), Path(path)]),
        Shown::Version { tx, version } => words(
            out,
            clients,
            &[Word("ok"), At(*tx), Number(*version as u64)],
        ),
        Shown::Done { tx } => words(out, clients, &[Word("ok"), At(*tx)]),
        Shown::Multi { tx, replies } => {
            let replies = replies.as_slice();
            words(
                out,
                clients,
                &[Word("ok"), At(*tx), Number(replies.len() as u64)],
            )?;
            put_part_replies(out, clients, replies)
        }
        Shown::Got { at, bytes, stat } => {
            words(out, clients, &[Word("ok"), At(*at), Data(bytes)])?;
            put_stat(out, clients, stat)
        }
        Shown::Stated { at, stat } => {
            words(out, clients, &[Word("ok"), At(*at)])?;
            put_stat(out, clients, stat)
        }
        Shown::Listed { at, names } => {
            let names = names.as_slice();
            words(
                out,
                clients,
                &[Word("ok"), At(*at), Number(names.len() as u64)],
            )?;
            put_names(out, clients, names)
        }
        Shown::Refused { code, at, place } => words(
            out,
            clients,
            &[
                Word("err"),
                Signed(code.number()),
                Code(*code),
                Place(*place),
                At(*at),
            ],
        ),
        Shown::Plain(code) => words(
            out,
            clients,
            &[Word("err"), Signed(code.number()), Code(*code)],
        ),
        Shown::Lost {
            path,
            own,
            found,
            moment,
        } => words(
            out,
            clients,
            &[
                Word("err LOCKLOST"),
                Path(path),
                Number(*own),
                Number(*found),
                Number(*moment),
            ],
        ),
    }
}

fn put_stat(out: &mut String, clients: &Names, stat: &Stat) -> Result<(), NoMemory>
    ensures { OnOk result (string_bytes out.new ≡ string_bytes out.old
        ++ spaced (stat_words stat.now)) }
{
    use Piece::Number;
    words(
        out,
        clients,
        &[
            Number(stat.czxid),
            Number(stat.mzxid),
            Number(stat.pzxid),
            Number(stat.ctime),
            Number(stat.mtime),
            Number(stat.version as u64),
            Number(stat.cversion as u64),
            Number(stat.aversion as u64),
            Number(stat.owner as u64),
            Number(stat.length as u64),
            Number(stat.children as u64),
        ],
    )
}

fn put_names(out: &mut String, clients: &Names, names: &[Text]) -> Result<(), NoMemory>
    ensures { OnOk result (string_bytes out.new ≡ string_bytes out.old ++ spaced names.now) }
{
    for name in names {
        words(out, clients, &[Piece::Word(name.as_str())])?;
    }
    Ok(())
}

fn put_part_replies(
    out: &mut String,
    clients: &Names,
    replies: &[PartReply],
) -> Result<(), NoMemory>
    ensures { OnOk result (string_bytes out.new ≡ string_bytes out.old
        ++ spaced (map part_reply_word replies.now)) }
{
    for reply in replies {
        put_part_reply(out, clients, reply)?;
    }
    Ok(())
}

fn put_part_reply(out: &mut String, clients: &Names, reply: &PartReply) -> Result<(), NoMemory>
    ensures { OnOk result (string_bytes out.new ≡ string_bytes out.old
        ++ spaced (part_reply_word reply.now ∷ [])) }
{
    match reply {
        PartReply::Created(path) => words(out, clients, &[Piece::Path(path)]),
        PartReply::Version(version) => words(out, clients, &[Piece::Number(*version as u64)]),
        PartReply::Deleted => words(out, clients, &[Piece::Word("-")]),
    }
}
