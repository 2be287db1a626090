//! The records of sessions, which are numbered from 1, and what writes make of them.

ghost use Rattle.std.specs.Prelude.{◌≡◌, None, Some, true, is_some, MatchOption, IfOk, OnOk};
ghost use Rattle.fk_store.specs.Numbered.{session_at};
ghost use Rattle.fk_store.specs.Writes.{session_after};
ghost use Rattle.fk_index.specs.Sessions.{is_drafted, AreLeft, AreMadeOver, ArePut, AreThere, IsOfNone, IsOfSession, IsPut, IsWritten, KeepOver};

use fk_base::NoMemory;
use fk_store::{SessionRecord, Write, write_session};
use std::alloc::Global;
use std::collections::BTreeMap;

/// Records of sessions as they will be, by their numbers.
pub type SessionDrafts = BTreeMap<u32, SessionRecord>;

#[tactic(auto, using(crate::proofs::Numbering::found, crate::proofs::Numbering::none_zero, crate::proofs::Numbering::none_past))]
pub fn session_in(sessions: &[SessionRecord], session: u32) -> Option<&SessionRecord>
    ensures { MatchOption result (session_at session sessions.now ≡ None)
        (λ r. session_at session sessions.now ≡ Some r.now) }
{
    if session == 0 {
        return None;
    }
    let place = session as usize - 1;
    if place >= sessions.len() {
        return None;
    }
    Some(&sessions[place])
}

// the session whose record a write changes
fn session_of(write: &Write) -> Option<u32>
    ensures { MatchOption result (IsOfNone write.now) (IsOfSession write.now) }
{
    match write {
        Write::Settle { session, .. } => Some(*session),
        Write::CloseSession(session) => Some(*session),
        Write::AddPending { session, .. } => Some(*session),
        Write::PopPending { session, .. } => Some(*session),
        Write::Ping { session, .. } => Some(*session),
        Write::Pong { session, .. } => Some(*session),
        Write::Grant { .. } => None,
        Write::Release(_) => None,
        Write::Change { .. } => None,
        Write::Done(_) => None,
    }
}

// sees that a session that exists has a record in the draft
fn stage(
    drafts: &mut SessionDrafts,
    sessions: &[SessionRecord],
    session: u32,
) -> Result<(), NoMemory>
    requires { AreThere drafts.old sessions.now }
    ensures same { OnOk result (KeepOver drafts.old drafts.new sessions.now) }
    ensures drafted { OnOk result (is_drafted drafts.new session
        ≡ is_some (session_at session sessions.now)) }
    ensures there { OnOk result (AreThere drafts.new sessions.now) }
{
    if drafts.contains_key(&session) {
        return Ok(());
    }
    let Some(kept) = session_in(sessions, session) else {
        return Ok(());
    };
    drafts.insert(session, kept.copy()?)?;
    Ok(())
}

// makes a write in the draft
fn write_draft(
    alloc: Global,
    drafts: &mut SessionDrafts,
    session: u32,
    write: &Write,
) -> Result<(), NoMemory>
    ensures { OnOk result (IsWritten drafts.old drafts.new session write.now) }
{
    match drafts.get_mut(&session) {
        None => Ok(()),
        Some(kept) => write_session(alloc, kept, write),
    }
}

fn draft_write(
    alloc: Global,
    drafts: &mut SessionDrafts,
    sessions: &[SessionRecord],
    write: &Write,
) -> Result<(), NoMemory>
    requires { AreThere drafts.old sessions.now }
    ensures records { OnOk result (AreMadeOver (session_after write.now) drafts.old drafts.new
        sessions.now) }
    ensures there { OnOk result (AreThere drafts.new sessions.now) }
{
    let Some(session) = session_of(write) else {
        return Ok(());
    };
    stage(drafts, sessions, session)?;
    write_draft(alloc, drafts, session, write)
}

/// The records of the sessions that the writes name, as the writes leave them.
pub fn session_drafts(
    alloc: Global,
    sessions: &[SessionRecord],
    writes: &[Write],
) -> Result<SessionDrafts, NoMemory>
    ensures records { IfOk result (λ d. AreLeft writes.now d sessions.now) }
    ensures there { IfOk result (λ d. AreThere d sessions.now) }
{
    let mut drafts = BTreeMap::new(alloc);
    'writing: for write in writes {
        draft_write(alloc, &mut drafts, sessions, write)?;
    }
    Ok(drafts)
}

#[tactic(auto, using(crate::proofs::Numbering::numbered, crate::proofs::Numbering::set_at))]
fn put_session(sessions: &mut Vec<SessionRecord>, session: u32, kept: SessionRecord)
    requires { is_some (session_at session sessions.old.items) ≡ true }
    ensures { IsPut session kept sessions.old.items sessions.new.items }
{
    let place = session as usize - 1;
    sessions[place] = kept;
}

/// Puts the records of a draft in place of the sessions'.
pub fn put_sessions(sessions: &mut Vec<SessionRecord>, mut drafts: SessionDrafts)
    requires { AreThere drafts sessions.old.items }
    ensures { ArePut drafts sessions.old.items sessions.new.items }
{
    'putting: while let Some((session, kept)) = drafts.pop_first() {
        put_session(sessions, session, kept);
    }
}
