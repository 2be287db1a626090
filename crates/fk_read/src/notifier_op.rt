ghost use Rattle.std.specs.Prelude.{List, IfOk};
ghost use Rattle.fk_base.specs.Path.{Name};
ghost use Rattle.fk_print.specs.WellFormed.{IsOp};
ghost use Rattle.fk_base.specs.Limits.{IsNumber};
ghost use Rattle.fk_read.specs.ReadOp.{note_op, probe_op};
ghost use Rattle.fk_read.specs.Reads.{Reads};

use crate::unread::Unread;
use crate::words::{Cut, is};
use fk_print::Op;

pub(crate) fn probe(function: u64, words: &mut Cut) -> Result<Op, Unread>
    requires { IsNumber function }
    ensures reads { Reads result (probe_op function words.old) }
    ensures fits { IfOk result (λ o. (names : List Name) → IsOp names o) }
{
    let word = words.word()?;
    if is(word, "closed") {
        return Ok(Op::ProbeClosed { function });
    }
    if is(word, "fresh") {
        return Ok(Op::ProbeFresh { function });
    }
    if is(word, "waiting") {
        return Ok(Op::ProbeWaiting { function });
    }
    let ping = words.number()?;
    let moment = words.number()?;
    Ok(Op::ProbeLate {
        function,
        ping,
        moment,
    })
}

pub(crate) fn note(function: u64, words: &mut Cut) -> Result<Op, Unread>
    requires { IsNumber function }
    ensures reads { Reads result (note_op function words.old) }
    ensures fits { IfOk result (λ o. (names : List Name) → IsOp names o) }
{
    let word = words.word()?;
    if is(word, "ok") {
        return Ok(Op::NoteOk { function });
    }
    let ping = words.number()?;
    Ok(Op::NoteMiss { function, ping })
}
