//! The records of sessions, which are numbered from 1, and what writes make of them.

ghost use Rattle.std.specs.Prelude.{◌≡◌, ◌+◌, ◌==◌, [], ◌∷◌, ◌++◌, if◌then◌else◌, ℕ, None, Some, MatchOption, IfOk, OnOk};
ghost use Rattle.fk_store.specs.Meaning.{new_session};
ghost use Rattle.fk_store.specs.Numbered.{new_sessions, session_at};
ghost use Rattle.fk_tree.specs.Tree.{map_some};
ghost use Rattle.fk_store.specs.Writes.{done_written, is_of_session, session_after, session_by, session_written, without};

use crate::outcome::Outcome;
use crate::session_record::SessionRecord;
use crate::write::Write;
use fk_base::{NoMemory, Numbers};
use std::alloc::Global;

fn new_session(alloc: Global) -> SessionRecord
    ensures { result ≡ new_session }
{
    SessionRecord {
        settled: 0,
        outcome: Outcome::Nothing,
        last: 0,
        closed: false,
        pending: Numbers::new(alloc),
        ping: 0,
        ping_at: 0,
        pong: 0,
    }
}

/// An empty record for each of these many sessions.
#[tactic(auto, using(crate::proofs::Numbering::new_more))]
pub fn new_sessions(alloc: Global, count: u32) -> Result<Vec<SessionRecord>, NoMemory>
    ensures { IfOk result (λ v. v.items ≡ new_sessions count) }
{
    let mut sessions = Vec::new(alloc);
    'adding: for _session in 0..count {
        sessions.push(new_session(alloc))?;
    }
    Ok(sessions)
}

pub fn session_in(sessions: &[SessionRecord], session: u32) -> Option<&SessionRecord>
    ensures { MatchOption result (session_at session sessions.now ≡ None) (λ r. session_at session sessions.now ≡ Some r.now) }
{
    'seeking: for (place, kept) in sessions.iter().enumerate() {
        if place + 1 == session as usize {
            return Some(kept);
        }
    }
    None
}

// adds a number to the others unless it is this one
fn push_other(numbers: &mut Numbers, number: u64, this: u64) -> Result<(), NoMemory>
    ensures { OnOk result (numbers.new ≡ (if number == this then numbers.old else numbers.old ++ number ∷ [])) }
{
    if number == this {
        return Ok(());
    }
    numbers.push(number)
}

// the numbers without one
#[tactic(auto, using(crate::proofs::Numbering::without_step))]
fn numbers_without(alloc: Global, numbers: &[u64], number: u64) -> Result<Numbers, NoMemory>
    ensures { IfOk result (λ n. n ≡ without number numbers.now) }
{
    let mut left = Numbers::new(alloc);
    'keeping: for other in numbers {
        push_other(&mut left, *other, number)?;
    }
    Ok(left)
}

/// Makes a write in the record of its session.
pub fn write_session(alloc: Global, kept: &mut SessionRecord, write: &Write) -> Result<(), NoMemory>
    ensures { OnOk result (kept.new ≡ session_by write.now kept.old) }
{
    match write {
        Write::Settle { k, outcome, .. } => {
            kept.outcome = outcome.copy()?;
            kept.settled = *k;
        }
        Write::CloseSession(_) => kept.closed = true,
        Write::AddPending { tx, .. } => {
            kept.pending.push(*tx)?;
            kept.last = *tx;
        }
        Write::PopPending { tx, .. } => {
            kept.pending = numbers_without(alloc, kept.pending.as_slice(), *tx)?;
        }
        Write::Ping { n, moment, .. } => {
            kept.ping = *n;
            kept.ping_at = *moment;
        }
        Write::Pong { n, .. } => kept.pong = kept.pong.max(*n),
        Write::Grant { .. } => {}
        Write::Release(_) => {}
        Write::Change { .. } => {}
        Write::Done(_) => {}
    }
    Ok(())
}

// whether a write is one of the record of this session
fn is_of_session(session: usize, write: &Write) -> bool
    ensures { result ≡ is_of_session session write.now }
{
    match write {
        Write::Settle { session: other, .. } => *other as usize == session,
        Write::CloseSession(other) => *other as usize == session,
        Write::AddPending { session: other, .. } => *other as usize == session,
        Write::PopPending { session: other, .. } => *other as usize == session,
        Write::Ping { session: other, .. } => *other as usize == session,
        Write::Pong { session: other, .. } => *other as usize == session,
        Write::Grant { .. } => false,
        Write::Release(_) => false,
        Write::Change { .. } => false,
        Write::Done(_) => false,
    }
}

// the record of a session after the writes
#[tactic(auto, using(crate::proofs::Numbering::session_step))]
fn session_after(
    alloc: Global,
    kept: &SessionRecord,
    session: usize,
    writes: &[Write],
) -> Result<SessionRecord, NoMemory>
    ensures { IfOk result (λ r. r ≡ session_written session writes.now kept.now) }
{
    let mut after = kept.copy()?;
    'writing: for write in writes {
        if is_of_session(session, write) {
            write_session(alloc, &mut after, write)?;
        }
    }
    Ok(after)
}

/// The records of the sessions after the writes.
#[tactic(auto, using(crate::proofs::Numbering::sessions_step))]
pub fn sessions_after(
    alloc: Global,
    sessions: &[SessionRecord],
    writes: &[Write],
) -> Result<Vec<SessionRecord>, NoMemory>
    ensures { IfOk result (λ after. (s : ℕ) → session_at s after.items ≡ map_some (session_written s writes.now) (session_at s sessions.now)) }
{
    let mut after = Vec::new(alloc);
    'writing: for (place, kept) in sessions.iter().enumerate() {
        after.push(session_after(alloc, kept, place + 1, writes)?)?;
    }
    Ok(after)
}

/// The number done after the writes.
#[tactic(auto, using(crate::proofs::Numbering::done_step))]
pub fn done_after(done: u64, writes: &[Write]) -> u64
    ensures { result ≡ done_written writes.now done }
{
    let mut after = done;
    'writing: for write in writes {
        if let Write::Done(n) = write {
            after = *n;
        }
    }
    after
}
