ghost use Rattle.std.specs.Prelude.{List, IfOk};
ghost use Rattle.fk_base.specs.Path.{Name};
ghost use Rattle.fk_print.specs.WellFormed.{IsOp};
ghost use Rattle.fk_base.specs.Limits.{IsNumber};
ghost use Rattle.fk_read.specs.ReadOp.{done_op, drop_op, pending_op, publish_op, put_op, sweep_op};
ghost use Rattle.fk_read.specs.Reads.{Reads};

use crate::unread::Unread;
use crate::words::{Cut, is};
use fk_print::Op;

pub(crate) fn pending(function: u64, words: &mut Cut) -> Result<Op, Unread>
    requires { IsNumber function }
    ensures reads { Reads result (pending_op function words.old) }
    ensures fits { IfOk result (λ o. (names : List Name) → IsOp names o) }
{
    let tx = words.number()?;
    let word = words.word()?;
    if is(word, "yes") {
        return Ok(Op::PendingYes { function, tx });
    }
    Ok(Op::PendingNo { function, tx })
}

pub(crate) fn drop(function: u64, words: &mut Cut) -> Result<Op, Unread>
    requires { IsNumber function }
    ensures reads { Reads result (drop_op function words.old) }
    ensures fits { IfOk result (λ o. (names : List Name) → IsOp names o) }
{
    let tx = words.number()?;
    let word = words.word()?;
    if is(word, "ok") {
        return Ok(Op::DropOk { function, tx });
    }
    let done = words.number()?;
    Ok(Op::DropMiss { function, tx, done })
}

pub(crate) fn sweep(function: u64, words: &mut Cut) -> Result<Op, Unread>
    requires { IsNumber function }
    ensures reads { Reads result (sweep_op function words.old) }
    ensures fits { IfOk result (λ o. (names : List Name) → IsOp names o) }
{
    let tx = words.number()?;
    let word = words.word()?;
    let first = words.number()?;
    if is(word, "ok") {
        return Ok(Op::SweepOk {
            function,
            tx,
            fired: first,
        });
    }
    let fired = words.number()?;
    Ok(Op::SweepMiss {
        function,
        tx,
        swept: first,
        fired,
    })
}

pub(crate) fn put(function: u64, words: &mut Cut) -> Result<Op, Unread>
    requires { IsNumber function }
    ensures reads { Reads result (put_op function words.old) }
    ensures fits { IfOk result (λ o. (names : List Name) → IsOp names o) }
{
    let tx = words.number()?;
    let path = words.path()?;
    let word = words.word()?;
    if is(word, "ok") {
        return Ok(Op::PutOk { function, tx, path });
    }
    let stamp = words.number()?;
    Ok(Op::PutMiss {
        function,
        tx,
        path,
        stamp,
    })
}

pub(crate) fn publish(function: u64, words: &mut Cut) -> Result<Op, Unread>
    requires { IsNumber function }
    ensures reads { Reads result (publish_op function words.old) }
    ensures fits { IfOk result (λ o. (names : List Name) → IsOp names o) }
{
    let tx = words.number()?;
    let word = words.word()?;
    if is(word, "ok") {
        return Ok(Op::PublishOk { function, tx });
    }
    let mark = words.number()?;
    Ok(Op::PublishMiss { function, tx, mark })
}

pub(crate) fn done(function: u64, words: &mut Cut) -> Result<Op, Unread>
    requires { IsNumber function }
    ensures reads { Reads result (done_op function words.old) }
    ensures fits { IfOk result (λ o. (names : List Name) → IsOp names o) }
{
    let tx = words.number()?;
    let word = words.word()?;
    if is(word, "ok") {
        return Ok(Op::DoneOk { function, tx });
    }
    let done = words.number()?;
    Ok(Op::DoneMiss { function, tx, done })
}
