ghost use Rattle.std.specs.Prelude.{◌≡◌, List, IfOk, IfSome, ℕ};
ghost use Rattle.fk_base.specs.Path.{Name};
ghost use Rattle.fk_print.specs.WellFormed.{IsOp};
ghost use Rattle.fk_base.specs.Limits.{IsNumber};
ghost use Rattle.fk_read.specs.ReadOp.{function_op, named_op, word_of};
ghost use Rattle.fk_read.specs.Reads.{Reads, Takes, take};

use crate::follower_op::{ack, commit, lock, lost, refuse, session};
use crate::leader_op::{done, drop, pending, publish, put, sweep};
use crate::notifier_op::{note, probe};
use crate::unread::Unread;
use crate::words::{Cut, is};
use fk_base::Names;
use fk_print::{Op, Word};

/// Reads a function's operation, behind the function's number.
pub(crate) fn read_function_op(
    clients: &Names,
    function: u64,
    words: &mut Cut,
) -> Result<Op, Unread>
    requires { IsNumber function }
    ensures reads { Reads result (function_op clients.now function words.old) }
    ensures fits { IfOk result (IsOp clients.now) }
{
    let word = words.word()?;
    if is(word, "follower") {
        let session = words.client(clients)?;
        let k = words.number()?;
        return Ok(Op::Follower {
            function,
            session,
            k,
        });
    }
    if is(word, "leader") {
        let tx = words.number()?;
        return Ok(Op::Leader { function, tx });
    }
    if is(word, "teller") {
        let note = words.number()?;
        return Ok(Op::Teller { function, note });
    }
    if is(word, "beat") {
        let session = words.client(clients)?;
        return Ok(Op::Beat { function, session });
    }
    if is(word, "crash") {
        return Ok(Op::Crash { function });
    }
    if is(word, "fault") {
        let word = words.first_word()?;
        return Ok(Op::Fault { function, word });
    }
    let Some(word) = first_word(word) else {
        return Err(Unread::Malformed);
    };
    read_named_op(clients, function, word, words)
}

/// Reads an operation behind its first word.
fn read_named_op(clients: &Names, function: u64, word: Word, words: &mut Cut) -> Result<Op, Unread>
    requires { IsNumber function }
    ensures reads { Reads result (named_op clients.now function word words.old) }
    ensures fits { IfOk result (IsOp clients.now) }
{
    match word {
        Word::Session => session(function, words),
        Word::Owned => {
            let count = words.number()?;
            Ok(Op::Owned { function, count })
        }
        Word::Lock => lock(function, words),
        Word::Push => {
            let tx = words.number()?;
            Ok(Op::Push { function, tx })
        }
        Word::Commit => commit(function, words),
        Word::Refuse => refuse(function, words),
        Word::Lost => lost(function, words),
        Word::Reply => {
            let session = words.client(clients)?;
            let k = words.number()?;
            Ok(Op::Reply {
                function,
                session,
                k,
            })
        }
        Word::Ack => ack(function, words),
        Word::Pending => pending(function, words),
        Word::Drop => drop(function, words),
        Word::Sweep => sweep(function, words),
        Word::Put => put(function, words),
        Word::Publish => publish(function, words),
        Word::Notify => {
            let tx = words.number()?;
            let note = words.number()?;
            Ok(Op::Notify { function, tx, note })
        }
        Word::Done => done(function, words),
        Word::Tell => {
            let session = words.client(clients)?;
            let watch = words.number()?;
            Ok(Op::Tell {
                function,
                session,
                watch,
            })
        }
        Word::Told => {
            let tx = words.number()?;
            Ok(Op::Told { function, tx })
        }
        Word::Probe => probe(function, words),
        Word::Ping => {
            let session = words.client(clients)?;
            Ok(Op::Ping { function, session })
        }
        Word::Note => note(function, words),
        Word::Evict => {
            let k = words.number()?;
            Ok(Op::Evict { function, k })
        }
    }
}

impl<'a> Cut<'a> {
    /// The first word of an operation.
    #[tactic(auto, unfolding(crate::specs::Reads::take))]
    fn first_word(&mut self) -> Result<Word, Unread>
        ensures { Takes result self.new (take word_of self.old) }
    {
        let Some(word) = self.next() else {
            return Err(Unread::Malformed);
        };
        match first_word(word) {
            Some(word) => Ok(word),
            None => Err(Unread::Malformed),
        }
    }
}

#[tactic(auto, unfolding(crate::specs::ReadOp::word_of))]
fn first_word(text: &[u8]) -> Option<Word>
    ensures { result ≡ word_of text.now }
{
    if is(text, "session") {
        return Some(Word::Session);
    }
    if is(text, "owned") {
        return Some(Word::Owned);
    }
    if is(text, "lock") {
        return Some(Word::Lock);
    }
    if is(text, "push") {
        return Some(Word::Push);
    }
    if is(text, "commit") {
        return Some(Word::Commit);
    }
    if is(text, "refuse") {
        return Some(Word::Refuse);
    }
    if is(text, "lost") {
        return Some(Word::Lost);
    }
    if is(text, "reply") {
        return Some(Word::Reply);
    }
    if is(text, "ack") {
        return Some(Word::Ack);
    }
    if is(text, "pending") {
        return Some(Word::Pending);
    }
    if is(text, "drop") {
        return Some(Word::Drop);
    }
    if is(text, "sweep") {
        return Some(Word::Sweep);
    }
    if is(text, "put") {
        return Some(Word::Put);
    }
    if is(text, "publish") {
        return Some(Word::Publish);
    }
    if is(text, "notify") {
        return Some(Word::Notify);
    }
    if is(text, "done") {
        return Some(Word::Done);
    }
    if is(text, "tell") {
        return Some(Word::Tell);
    }
    if is(text, "told") {
        return Some(Word::Told);
    }
    if is(text, "probe") {
        return Some(Word::Probe);
    }
    if is(text, "ping") {
        return Some(Word::Ping);
    }
    if is(text, "note") {
        return Some(Word::Note);
    }
    if is(text, "evict") {
        return Some(Word::Evict);
    }
    None
}
