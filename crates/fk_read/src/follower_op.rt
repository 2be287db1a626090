ghost use Rattle.std.specs.Prelude.{List, IfOk};
ghost use Rattle.fk_base.specs.Path.{Name};
ghost use Rattle.fk_print.specs.WellFormed.{IsOp};
ghost use Rattle.fk_base.specs.Limits.{IsNumber};
ghost use Rattle.fk_read.specs.ReadEnding.{ending_of};
ghost use Rattle.fk_read.specs.ReadOp.{ack_op, commit_op, lock_op, lost_by, refuse_op, session_of};
ghost use Rattle.fk_read.specs.Reads.{Reads};
ghost use Rattle.std.specs.Option.{option_and_then};

use crate::ending::{Ending, read_ending, read_spot};
use crate::unread::Unread;
use crate::words::{Cut, is};
use fk_print::Op;

pub(crate) fn session(function: u64, words: &mut Cut) -> Result<Op, Unread>
    requires { IsNumber function }
    ensures reads { Reads result (session_of function words.old) }
    ensures fits { IfOk result (λ o. (names : List Name) → IsOp names o) }
{
    let word = words.word()?;
    if is(word, "new") {
        return Ok(Op::SessionNew { function });
    }
    if is(word, "closed") {
        return Ok(Op::SessionClosed { function });
    }
    if is(word, "applied") {
        return Ok(Op::SessionApplied { function });
    }
    if is(word, "refused") {
        return Ok(Op::SessionRefused { function });
    }
    Ok(Op::SessionPast { function })
}

pub(crate) fn lock(function: u64, words: &mut Cut) -> Result<Op, Unread>
    requires { IsNumber function }
    ensures reads { Reads result (lock_op function words.old) }
    ensures fits { IfOk result (λ o. (names : List Name) → IsOp names o) }
{
    let path = words.path()?;
    let word = words.word()?;
    if is(word, "ok") {
        return Ok(Op::LockOk { function, path });
    }
    let holder = words.number()?;
    let moment = words.number()?;
    Ok(Op::LockBusy {
        function,
        path,
        holder,
        moment,
    })
}

pub(crate) fn commit(function: u64, words: &mut Cut) -> Result<Op, Unread>
    requires { IsNumber function }
    ensures reads { Reads result (commit_op function words.old) }
    ensures fits { IfOk result (λ o. (names : List Name) → IsOp names o) }
{
    let tx = words.number()?;
    let ending = read_ending(words)?;
    match ending {
        Ending::Done => Ok(Op::CommitOk { function, tx }),
        Ending::Settled(settled) => Ok(Op::CommitSettled {
            function,
            tx,
            settled,
        }),
        Ending::Lock {
            path,
            holder,
            moment,
        } => Ok(Op::CommitLock {
            function,
            tx,
            path,
            holder,
            moment,
        }),
    }
}

pub(crate) fn refuse(function: u64, words: &mut Cut) -> Result<Op, Unread>
    requires { IsNumber function }
    ensures reads { Reads result (refuse_op function words.old) }
    ensures fits { IfOk result (λ o. (names : List Name) → IsOp names o) }
{
    let code = words.code()?;
    let (place, at) = read_spot(words)?;
    let ending = read_ending(words)?;
    match ending {
        Ending::Done => Ok(Op::RefuseOk {
            function,
            code,
            place,
            at,
        }),
        Ending::Settled(settled) => Ok(Op::RefuseSettled {
            function,
            code,
            place,
            at,
            settled,
        }),
        Ending::Lock {
            path,
            holder,
            moment,
        } => Ok(Op::RefuseLock {
            function,
            code,
            place,
            at,
            path,
            holder,
            moment,
        }),
    }
}

pub(crate) fn lost(function: u64, words: &mut Cut) -> Result<Op, Unread>
    requires { IsNumber function }
    ensures reads { Reads result (option_and_then (lost_by function) (ending_of words.old)) }
    ensures fits { IfOk result (λ o. (names : List Name) → IsOp names o) }
{
    let ending = read_ending(words)?;
    match ending {
        Ending::Done => Ok(Op::LostOk { function }),
        Ending::Settled(settled) => Ok(Op::LostSettled { function, settled }),
        Ending::Lock { .. } => Err(Unread::Malformed),
    }
}

pub(crate) fn ack(function: u64, words: &mut Cut) -> Result<Op, Unread>
    requires { IsNumber function }
    ensures reads { Reads result (ack_op function words.old) }
    ensures fits { IfOk result (λ o. (names : List Name) → IsOp names o) }
{
    let word = words.word()?;
    if is(word, "ok") {
        return Ok(Op::AckOk { function });
    }
    Ok(Op::AckGone { function })
}
