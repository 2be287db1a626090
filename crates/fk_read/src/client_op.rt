ghost use Rattle.std.specs.Prelude.{List, IfOk};
ghost use Rattle.fk_base.specs.Path.{Name};
ghost use Rattle.fk_print.specs.WellFormed.{IsClient, IsOp};
ghost use Rattle.fk_read.specs.ReadClient.{client_fault, client_op, look_op, take_op, watch_op};
ghost use Rattle.fk_read.specs.Reads.{Reads};

use crate::piece::number;
use crate::unread::Unread;
use crate::words::{Cut, is};
use fk_base::Names;
use fk_print::Op;

/// Reads a client's operation behind its first word.
pub(crate) fn read_client_op(
    clients: &Names,
    session: u32,
    word: &[u8],
    words: &mut Cut,
) -> Result<Op, Unread>
    requires { IsClient clients.now session }
    ensures reads { Reads result (client_op session word.now words.old) }
    ensures fits { IfOk result (IsOp clients.now) }
{
    if is(word, "pong") {
        let ping = words.number()?;
        return Ok(Op::Pong { session, ping });
    }
    if is(word, "take") {
        return read_take(clients, session, words);
    }
    if is(word, "look") {
        return read_look(clients, session, words);
    }
    if is(word, "send") {
        let command = words.small()?;
        let k = words.number()?;
        return Ok(Op::Send {
            session,
            command,
            k,
        });
    }
    if is(word, "read") {
        let command = words.small()?;
        let stamp = words.number()?;
        return Ok(Op::Read {
            session,
            command,
            stamp,
        });
    }
    if is(word, "watch") {
        return read_watch(clients, session, words);
    }
    if is(word, "local") {
        let command = words.small()?;
        return Ok(Op::Local { session, command });
    }
    read_fault(clients, session, words)
}

fn read_take(clients: &Names, session: u32, words: &mut Cut) -> Result<Op, Unread>
    requires { IsClient clients.now session }
    ensures reads { Reads result (take_op session words.old) }
    ensures fits { IfOk result (IsOp clients.now) }
{
    let word = words.word()?;
    let number = words.number()?;
    if is(word, "done") {
        let tx = words.number()?;
        return Ok(Op::TakeDone {
            session,
            k: number,
            tx,
        });
    }
    if is(word, "evicted") {
        let tx = words.number()?;
        return Ok(Op::TakeEvicted {
            session,
            k: number,
            tx,
        });
    }
    if is(word, "refused") {
        return Ok(Op::TakeRefused { session, k: number });
    }
    if is(word, "lost") {
        return Ok(Op::TakeLost { session, k: number });
    }
    if is(word, "watch") {
        return Ok(Op::TakeWatch {
            session,
            watch: number,
        });
    }
    Ok(Op::TakePing {
        session,
        ping: number,
    })
}

fn read_look(clients: &Names, session: u32, words: &mut Cut) -> Result<Op, Unread>
    requires { IsClient clients.now session }
    ensures reads { Reads result (look_op session words.old) }
    ensures fits { IfOk result (IsOp clients.now) }
{
    let command = words.small()?;
    let mark = words.number()?;
    let word = words.word()?;
    if is(word, "ok") {
        return Ok(Op::LookOk {
            session,
            command,
            mark,
        });
    }
    if is(word, "behind") {
        return Ok(Op::LookBehind {
            session,
            command,
            mark,
        });
    }
    let watch = words.number()?;
    Ok(Op::LookHeld {
        session,
        command,
        mark,
        watch,
    })
}

fn read_watch(clients: &Names, session: u32, words: &mut Cut) -> Result<Op, Unread>
    requires { IsClient clients.now session }
    ensures reads { Reads result (watch_op session words.old) }
    ensures fits { IfOk result (IsOp clients.now) }
{
    let command = words.small()?;
    let word = words.word()?;
    if let Some(watch) = number(word) {
        return Ok(Op::WatchSet {
            session,
            command,
            watch,
        });
    }
    let tx = words.number()?;
    Ok(Op::WatchSwept {
        session,
        command,
        tx,
    })
}

fn read_fault(clients: &Names, session: u32, words: &mut Cut) -> Result<Op, Unread>
    requires { IsClient clients.now session }
    ensures reads { Reads result (client_fault session words.old) }
    ensures fits { IfOk result (IsOp clients.now) }
{
    let word = words.word()?;
    if is(word, "pong") {
        return Ok(Op::PongFault { session });
    }
    if is(word, "take") {
        return Ok(Op::TakeFault { session });
    }
    let command = words.small()?;
    if is(word, "look") {
        return Ok(Op::LookFault { session, command });
    }
    if is(word, "send") {
        return Ok(Op::SendFault { session, command });
    }
    if is(word, "read") {
        return Ok(Op::ReadFault { session, command });
    }
    Ok(Op::WatchFault { session, command })
}
