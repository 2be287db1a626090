//! What a follower reads of the table, copied out of it.

ghost use Rattle.std.specs.Prelude.{◌≡◌, List, true, is_some, IfOk, OnOk};
ghost use Rattle.fk_base.specs.Path.{PathNames};
ghost use Rattle.fk_store.specs.Conds.{session_of};
ghost use Rattle.fk_store.specs.Meaning.{called};
ghost use Rattle.fk_follow.specs.Fit.{IsListOf};
ghost use Rattle.fk_follow.specs.Reading.{IsGiven, took_of, unless_armed};
ghost use Rattle.fk_follow.specs.Services.{taken};

use crate::sketching::shown_for;
use fk_base::{NoMemory, Path, Paths};
use fk_store::{Lock, Owned, Seen, SessionRecord, Table, Taken};
use fk_tree::{Node, Request};
use std::alloc::Global;

/// What becomes of taking a lock.
#[derive(Drop)]
pub enum Took {
    Granted { node: Option<Node>, last: u64 },
    Busy(Lock),
    Failed,
}

/// The record of a session, or none where the table fails.
pub fn session_at<T: Table>(table: &mut T, session: u32) -> Result<Option<SessionRecord>, NoMemory>
    requires { is_some ((T.meaning table.old).sessions session) ≡ true }
    ensures record { let t = T.meaning table.old in
        IfOk result (λ o. o ≡ unless_armed t (session_of t session)) }
    ensures table { OnOk result (T.meaning table.new ≡ called (T.meaning table.old)) }
{
    match table.session(session) {
        Seen::Here(kept) => Ok(Some(kept.copy()?)),
        Seen::Missing => unreachable!(),
        Seen::Failed => Ok(None),
    }
}

/// The paths of a session's nodes, or none where the table fails.
pub fn owned_at<T: Table>(table: &mut T, session: u32) -> Result<Option<Paths>, NoMemory>
    requires { is_some ((T.meaning table.old).sessions session) ≡ true }
    ensures given { IfOk result (λ o. IsGiven (T.meaning table.old) session o) }
    ensures owned { let t = T.meaning table.old in
        (owned : List PathNames) → IsListOf t session owned
        → IfOk result (λ o. o ≡ unless_armed t owned) }
    ensures table { OnOk result (T.meaning table.new ≡ called (T.meaning table.old)) }
{
    match table.owned(session) {
        Owned::List(paths) => Ok(Some(paths)),
        Owned::Failed => Ok(None),
        Owned::NoMemory => Err(NoMemory),
    }
}

/// Takes the lock of a path for a request.
pub fn take_lock<T: Table>(
    alloc: Global,
    table: &mut T,
    request: &Request,
    path: &Path,
    inv: u64,
    now: u64,
    lock: u64,
) -> Result<Took, NoMemory>
    ensures took { let t = T.meaning table.old in
        IfOk result (λ r. r ≡ took_of t request.now path.now now lock) }
    ensures table { let t = T.meaning table.old in
        OnOk result (T.meaning table.new ≡ taken path.now inv now lock t) }
{
    match table.take(path, inv, now, lock) {
        Taken::Granted(kept) => Ok(Took::Granted {
            node: shown_for(alloc, request, &kept.node)?,
            last: kept.last,
        }),
        Taken::Busy(found) => Ok(Took::Busy(found)),
        Taken::Failed => Ok(Took::Failed),
        Taken::NoMemory => Err(NoMemory),
    }
}
