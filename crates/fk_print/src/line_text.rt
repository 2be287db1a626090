ghost use Rattle.std.specs.Prelude.{◌≡◌, ◌++◌, OnOk, string_bytes};
ghost use Rattle.std.specs.List.{flat_map};
ghost use Rattle.fk_print.specs.LineText.{change_word, kind_word, line_text, reply_text, tx_text, verb_word};

use crate::act_text::put_act;
use crate::line::{Line, Printed, Shown, Verb};
use crate::piece::{Piece, put_line, words};
use crate::reply_text::put_shown;
use fk_base::{Names, NoMemory};
use fk_tree::{Change, Kind};

impl Verb {
    /// The verb as a command has it.
    pub fn text(self) -> &'static str
        ensures { result.now ≡ verb_word self }
    {
        match self {
            Verb::Create => "create",
            Verb::Set => "set",
            Verb::Delete => "delete",
            Verb::Get => "get",
            Verb::Stat => "stat",
            Verb::Ls => "ls",
            Verb::Close => "close",
            Verb::Multi => "multi",
        }
    }
}

/// Writes public lines, in order.
pub(crate) fn put_lines(out: &mut String, clients: &Names, lines: &[Line]) -> Result<(), NoMemory>
    ensures { OnOk result (string_bytes out.new ≡ string_bytes out.old
        ++ flat_map (line_text clients.now) lines.now) }
{
    for line in lines {
        put_public(out, clients, line)?;
    }
    Ok(())
}

fn put_public(out: &mut String, clients: &Names, line: &Line) -> Result<(), NoMemory>
    ensures { OnOk result (string_bytes out.new ≡ string_bytes out.old
        ++ line_text clients.now line.now) }
{
    use Piece::*;
    match line {
        Line::Tx(printed) => put_transaction(out, clients, printed),
        Line::Reply {
            session,
            command,
            verb,
            shown,
        } => put_reply(out, clients, *session, *command, *verb, shown),
        Line::Notice {
            session,
            tx,
            kind,
            change,
            path,
        } => put_line(
            out,
            clients,
            "!",
            &[
                Client(*session),
                At(*tx),
                Word(kind_text(*kind)),
                Word(change_text(*change)),
                Path(path),
            ],
        ),
        Line::Expired { session, tx } => put_line(out, clients, "x", &[Client(*session), At(*tx)]),
    }
}

fn put_transaction(out: &mut String, clients: &Names, printed: &Printed) -> Result<(), NoMemory>
    ensures { OnOk result (string_bytes out.new ≡ string_bytes out.old
        ++ tx_text clients.now printed.now) }
{
    use Piece::*;
    out.push_str("+")?;
    words(
        out,
        clients,
        &[
            Number(printed.tx),
            Number(printed.moment),
            Client(printed.session),
            Number(printed.k),
        ],
    )?;
    put_act(out, clients, &printed.act)?;
    out.push_str("\n")?;
    Ok(())
}

fn put_reply(
    out: &mut String,
    clients: &Names,
    session: u32,
    command: u32,
    verb: Verb,
    shown: &Shown,
) -> Result<(), NoMemory>
    ensures { OnOk result (string_bytes out.new ≡ string_bytes out.old
        ++ reply_text clients.now session command verb shown.now) }
{
    use Piece::*;
    out.push_str("<")?;
    words(
        out,
        clients,
        &[Client(session), Number(command as u64), Word(verb.text())],
    )?;
    put_shown(out, clients, shown)?;
    out.push_str("\n")?;
    Ok(())
}

fn kind_text(kind: Kind) -> &'static str
    ensures { result.now ≡ kind_word kind }
{
    match kind {
        Kind::Data => "data",
        Kind::Child => "child",
    }
}

fn change_text(change: Change) -> &'static str
    ensures { result.now ≡ change_word change }
{
    match change {
        Change::Created => "NodeCreated",
        Change::Changed => "NodeDataChanged",
        Change::Deleted => "NodeDeleted",
        Change::Child => "NodeChildrenChanged",
    }
}
