ghost use Rattle.std.specs.Prelude.{◌≡◌, ◌++◌, OnOk, string_bytes};
ghost use Rattle.fk_print.specs.OpText.{client_words};
ghost use Rattle.fk_print.specs.Words.{spaced};

use crate::op::Op;
use crate::piece::{Piece, words};
use crate::said::{said, said_word};
use fk_base::{Names, NoMemory};

/// Writes the words of a client's operation, and nothing for any other.
pub(crate) fn client_operation(out: &mut String, clients: &Names, op: &Op) -> Result<(), NoMemory>
    ensures { OnOk result (string_bytes out.new ≡ string_bytes out.old
        ++ spaced (client_words clients.now op.now)) }
{
    said!(out, clients, op, Ok(());
        Pong { session, ping } => [session "pong" ping],
        TakeDone { session, k, tx } => [session "take done" k tx],
        TakeEvicted { session, k, tx } => [session "take evicted" k tx],
        TakeRefused { session, k } => [session "take refused" k],
        TakeLost { session, k } => [session "take lost" k],
        TakeWatch { session, watch } => [session "take watch" watch],
        TakePing { session, ping } => [session "take ping" ping],
        LookOk { session, command, mark } => [session "look" command mark "ok"],
        LookBehind { session, command, mark } => [session "look" command mark "behind"],
        LookHeld { session, command, mark, watch } => [session "look" command mark "held" watch],
        Send { session, command, k } => [session "send" command k],
        Read { session, command, stamp } => [session "read" command stamp],
        WatchSet { session, command, watch } => [session "watch" command watch],
        WatchSwept { session, command, tx } => [session "watch" command "swept" tx],
        Local { session, command } => [session "local" command],
        PongFault { session } => [session "fault pong"],
        TakeFault { session } => [session "fault take"],
        LookFault { session, command } => [session "fault look" command],
        SendFault { session, command } => [session "fault send" command],
        ReadFault { session, command } => [session "fault read" command],
        WatchFault { session, command } => [session "fault watch" command],
    )
}
