ghost use Rattle.std.specs.Prelude.{IfOk};
ghost use Rattle.fk_print.specs.WellFormed.{IsOp};
ghost use Rattle.fk_read.specs.ReadOp.{op_of};
ghost use Rattle.fk_read.specs.Reads.{Reads};

use crate::client_op::read_client_op;
use crate::function_op::read_function_op;
use crate::piece::{client, number};
use crate::unread::Unread;
use crate::words::Cut;
use fk_base::Names;
use fk_print::Op;

/// Reads an operation.
pub(crate) fn read_op(clients: &Names, words: &mut Cut) -> Result<Op, Unread>
    ensures reads { Reads result (op_of clients.now words.old) }
    ensures fits { IfOk result (IsOp clients.now) }
{
    let first = words.word()?;
    if let Some(function) = number(first) {
        return read_function_op(clients, function, words);
    }
    let Some(second) = words.next() else {
        return Ok(Op::Idle);
    };
    if let Some(moment) = number(second) {
        return Ok(Op::Clock { moment });
    }
    let Some(session) = client(clients, first) else {
        return Err(Unread::Malformed);
    };
    read_client_op(clients, session, second, words)
}
