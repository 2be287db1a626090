ghost use Rattle.std.specs.Prelude.{◌≡◌, ◌++◌, OnOk, string_bytes};
ghost use Rattle.fk_print.specs.OpText.{op_text, op_words, word_text};
ghost use Rattle.fk_print.specs.Words.{spaced};

use crate::function_text::follower_operation;
use crate::op::{Op, Word};
use crate::piece::{Piece, words};
use crate::said::{said, said_word};
use fk_base::{Names, NoMemory};

impl Word {
    /// The word as it stands in a line.
    pub fn text(self) -> &'static str
        ensures { result.now ≡ word_text self }
    {
        match self {
            Word::Session => "session",
            Word::Owned => "owned",
            Word::Lock => "lock",
            Word::Push => "push",
            Word::Commit => "commit",
            Word::Refuse => "refuse",
            Word::Lost => "lost",
            Word::Reply => "reply",
            Word::Ack => "ack",
            Word::Pending => "pending",
            Word::Drop => "drop",
            Word::Sweep => "sweep",
            Word::Put => "put",
            Word::Publish => "publish",
            Word::Notify => "notify",
            Word::Done => "done",
            Word::Tell => "tell",
            Word::Told => "told",
            Word::Probe => "probe",
            Word::Ping => "ping",
            Word::Note => "note",
            Word::Evict => "evict",
        }
    }
}

/// Writes the line of an operation.
pub(crate) fn put_op(out: &mut String, clients: &Names, op: &Op) -> Result<(), NoMemory>
    ensures { OnOk result (string_bytes out.new ≡ string_bytes out.old
        ++ op_text clients.now op.now) }
{
    out.push_str(".")?;
    operation(out, clients, op)?;
    out.push_str("\n")?;
    Ok(())
}

/// Writes the words of an operation.
fn operation(out: &mut String, clients: &Names, op: &Op) -> Result<(), NoMemory>
    ensures { OnOk result (string_bytes out.new ≡ string_bytes out.old
        ++ spaced (op_words clients.now op.now)) }
{
    said!(out, clients, op, follower_operation(out, clients, op);
        Idle => ["idle"],
        Clock { moment } => ["clock" moment],
        Follower { function, session, k } => [function "follower" session k],
        Leader { function, tx } => [function "leader" tx],
        Teller { function, note } => [function "teller" note],
        Beat { function, session } => [function "beat" session],
        Crash { function } => [function "crash"],
        Fault { function, word } => [function "fault" word],
        CommitOk { function, tx } => [function "commit" tx "ok"],
        CommitSettled { function, tx, settled } => [function "commit" tx "miss settled" settled],
        CommitLock { function, tx, path, holder, moment } =>
            [function "commit" tx "miss lock" path holder moment],
        Reply { function, session, k } => [function "reply" session k],
        AckOk { function } => [function "ack ok"],
        AckGone { function } => [function "ack gone"],
    )
}
