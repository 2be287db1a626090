ghost use Rattle.std.specs.Prelude.{◌≡◌, ◌++◌, OnOk, string_bytes};
ghost use Rattle.fk_print.specs.OpText.{follower_words, leader_words, notifier_words};
ghost use Rattle.fk_print.specs.Words.{spaced};

use crate::client_text::client_operation;
use crate::op::Op;
use crate::piece::{Piece, words};
use crate::said::{said, said_word};
use fk_base::{Names, NoMemory};

/// Writes the words of a follower's operation, and passes any other on.
pub(crate) fn follower_operation(out: &mut String, clients: &Names, op: &Op) -> Result<(), NoMemory>
    ensures { OnOk result (string_bytes out.new ≡ string_bytes out.old
        ++ spaced (follower_words clients.now op.now)) }
{
    said!(out, clients, op, leader_operation(out, clients, op);
        SessionNew { function } => [function "session new"],
        SessionClosed { function } => [function "session closed"],
        SessionApplied { function } => [function "session applied"],
        SessionRefused { function } => [function "session refused"],
        SessionPast { function } => [function "session past"],
        Owned { function, count } => [function "owned" count],
        LockOk { function, path } => [function "lock" path "ok"],
        LockBusy { function, path, holder, moment } => [function "lock" path "busy" holder moment],
        Push { function, tx } => [function "push" tx],
        RefuseOk { function, code, place, at } => [function "refuse" code place at "ok"],
        RefuseSettled { function, code, place, at, settled } =>
            [function "refuse" code place at "miss settled" settled],
        RefuseLock { function, code, place, at, path, holder, moment } =>
            [function "refuse" code place at "miss lock" path holder moment],
        LostOk { function } => [function "lost ok"],
        LostSettled { function, settled } => [function "lost miss settled" settled],
    )
}

/// Writes the words of a leader's operation, and passes any other on.
fn leader_operation(out: &mut String, clients: &Names, op: &Op) -> Result<(), NoMemory>
    ensures { OnOk result (string_bytes out.new ≡ string_bytes out.old
        ++ spaced (leader_words clients.now op.now)) }
{
    said!(out, clients, op, notifier_operation(out, clients, op);
        PendingYes { function, tx } => [function "pending" tx "yes"],
        PendingNo { function, tx } => [function "pending" tx "no"],
        DropOk { function, tx } => [function "drop" tx "ok"],
        DropMiss { function, tx, done } => [function "drop" tx "miss" done],
        SweepOk { function, tx, fired } => [function "sweep" tx "ok" fired],
        SweepMiss { function, tx, swept, fired } => [function "sweep" tx "miss" swept fired],
        PutOk { function, tx, path } => [function "put" tx path "ok"],
        PutMiss { function, tx, path, stamp } => [function "put" tx path "miss" stamp],
        PublishOk { function, tx } => [function "publish" tx "ok"],
        PublishMiss { function, tx, mark } => [function "publish" tx "miss" mark],
        Notify { function, tx, note } => [function "notify" tx note],
        DoneOk { function, tx } => [function "done" tx "ok"],
        DoneMiss { function, tx, done } => [function "done" tx "miss" done],
    )
}

/// Writes the words of a watch function's or a heartbeat's operation, and passes any other on.
fn notifier_operation(out: &mut String, clients: &Names, op: &Op) -> Result<(), NoMemory>
    ensures { OnOk result (string_bytes out.new ≡ string_bytes out.old
        ++ spaced (notifier_words clients.now op.now)) }
{
    said!(out, clients, op, client_operation(out, clients, op);
        Tell { function, session, watch } => [function "tell" session watch],
        Told { function, tx } => [function "told" tx],
        ProbeClosed { function } => [function "probe closed"],
        ProbeFresh { function } => [function "probe fresh"],
        ProbeWaiting { function } => [function "probe waiting"],
        ProbeLate { function, ping, moment } => [function "probe late" ping moment],
        Ping { function, session } => [function "ping" session],
        NoteOk { function } => [function "note ok"],
        NoteMiss { function, ping } => [function "note miss" ping],
        Evict { function, k } => [function "evict" k],
    )
}
