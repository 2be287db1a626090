//! The plain table: lists that are gone through.

ghost use Rattle.std.specs.Prelude.{◌≡◌, ◌+◌, true, false, None, Some, if◌then◌else◌, IfOk, OnOk, OnErr};
ghost use Rattle.fk_store.specs.Meaning.{called, lock_of, new_table};
ghost use Rattle.fk_store.specs.Conds.{first_missed, found_at, holds_cond, session_of};
ghost use Rattle.fk_store.specs.Writes.{all_written, grant_record, written};
ghost use Rattle.fk_store.specs.declared.write.Write.TheVariants as write;
ghost use Rattle.fk_store.specs.Rows.{row_record};
ghost use Rattle.fk_store.specs.Tables.{miss_of, table_of};

use crate::answer::{Owned, Seen, Taken, Transact};
use crate::cond::{Cond, Found};
use crate::draft::{draft_of, grant_row};
use crate::lock::{Lock, UNLOCKED, may_grant, still};
use crate::node_record::NodeRecord;
use crate::owning::owned_paths;
use crate::rows::{Row, add_row, add_rows, put_rows, record_in, root_row};
use crate::session_record::SessionRecord;
use crate::sessions::{done_after, new_sessions, session_in, sessions_after};
use crate::table::Table;
use crate::write::Write;
use fk_base::{NoMemory, Path};
use std::alloc::Global;

/// A table whose records stand in lists.
#[derive(Drop)]
pub struct ListTable {
    rows: Vec<Row>,
    sessions: Vec<SessionRecord>,
    done: u64,
    armed: bool,
    faults: u64,
}

impl ListTable {
    // whether this call fails
    fn fails(&mut self) -> bool
        ensures answer { result ≡ self.old.armed }
        ensures after { table_of self.new ≡ called (table_of self.old) }
        ensures same { result ≡ false → self.new ≡ self.old }
    {
        if self.armed {
            self.armed = false;
            self.faults = self.faults.saturating_add(1);
            return true;
        }
        false
    }

    fn lock_of(&self, path: &Path) -> Lock
        ensures { result ≡ lock_of (table_of self.now) path.now }
    {
        match record_in(self.rows.as_slice(), path) {
            None => UNLOCKED,
            Some(kept) => kept.lock,
        }
    }

    // the settled number of a session
    fn settled(&self, session: u32) -> u64
        ensures { result ≡ (session_of (table_of self.now) session).settled }
    {
        match session_in(self.sessions.as_slice(), session) {
            None => 0,
            Some(kept) => kept.settled,
        }
    }

    fn ping(&self, session: u32) -> u64
        ensures { result ≡ (session_of (table_of self.now) session).ping }
    {
        match session_in(self.sessions.as_slice(), session) {
            None => 0,
            Some(kept) => kept.ping,
        }
    }

    fn holds(&self, cond: &Cond) -> bool
        ensures { result ≡ holds_cond (table_of self.now) cond.now }
    {
        match cond {
            Cond::Settled { session, at } => self.settled(*session) == *at,
            Cond::Free { path, now, lock } => may_grant(&self.lock_of(path), *now, *lock),
            Cond::Holds { path, inv } => still(&self.lock_of(path), *inv),
            Cond::DoneBelow(n) => self.done < *n,
            Cond::PingBelow { session, n } => self.ping(*session) < *n,
        }
    }

    // what a condition looks at
    fn found(&self, cond: &Cond) -> Found
        ensures { result ≡ found_at (table_of self.now) cond.now }
    {
        match cond {
            Cond::Settled { session, .. } => Found::Number(self.settled(*session)),
            Cond::Free { path, .. } => Found::Lock(self.lock_of(path)),
            Cond::Holds { path, .. } => Found::Lock(self.lock_of(path)),
            Cond::DoneBelow(_) => Found::Number(self.done),
            Cond::PingBelow { session, .. } => Found::Number(self.ping(*session)),
        }
    }

    // the first condition that fails
    fn missed(&self, conds: &[Cond]) -> Option<(usize, Found)>
        ensures { first_missed (table_of self.now) conds.now ≡ miss_of result }
    {
        'trying: for (place, cond) in conds.iter().enumerate() {
            if !self.holds(cond) {
                return Some((place, self.found(cond)));
            }
        }
        None
    }

    // grants the lock of a path
    #[tactic(auto, using(crate::proofs::Meanings::granted_table, crate::proofs::Meanings::kept_table))]
    fn grant(&mut self, path: &Path, inv: u64, moment: u64) -> Result<(), NoMemory>
        ensures ok { OnOk result (table_of self.new ≡ written (write.Grant path.now inv moment) (table_of self.old)) }
        ensures here { OnOk result (row_record path.now self.new.rows.items ≡ grant_record inv moment (row_record path.now self.old.rows.items)) }
        ensures err { OnErr result (table_of self.new ≡ table_of self.old) }
    {
        add_row(&mut self.rows, path)?;
        grant_row(&mut self.rows, path, inv, moment);
        Ok(())
    }

    // makes all writes; it takes all memory before it changes what the table means
    #[tactic(auto, using(crate::proofs::Meanings::wrote_table, crate::proofs::Meanings::kept_table))]
    fn write_all(&mut self, writes: &[Write]) -> Result<(), NoMemory>
        ensures ok { OnOk result (table_of self.new ≡ all_written writes.now (table_of self.old)) }
        ensures err { OnErr result (table_of self.new ≡ table_of self.old) }
    {
        let alloc = *self.rows.allocator();
        let draft = draft_of(alloc, self.rows.as_slice(), writes)?;
        let sessions = sessions_after(alloc, self.sessions.as_slice(), writes)?;
        let done = done_after(self.done, writes);
        add_rows(&mut self.rows, draft.as_slice())?;
        put_rows(&mut self.rows, draft);
        self.sessions = sessions;
        self.done = done;
        Ok(())
    }
}

impl ListTable {
    /// A new table: the root's record alone, and an empty record for each session from 1 on.
    #[tactic(auto, using(crate::proofs::Meanings::starts_new))]
    pub fn new(alloc: Global, sessions: u32) -> Result<ListTable, NoMemory>
        ensures { IfOk result (λ t. table_of t ≡ new_table sessions) }
    {
        let mut rows = Vec::new(alloc);
        rows.push(root_row(alloc))?;
        Ok(ListTable {
            rows,
            sessions: new_sessions(alloc, sessions)?,
            done: 0,
            armed: false,
            faults: 0,
        })
    }
}

impl Table for ListTable {
    ghost use Rattle.fk_store.specs.Tables.{table_of};

    ghost meaning = { table_of };

    fn node(&mut self, path: &Path) -> Seen<'_, NodeRecord> {
        if self.fails() {
            return Seen::Failed;
        }
        match record_in(self.rows.as_slice(), path) {
            None => Seen::Missing,
            Some(kept) => Seen::Here(kept),
        }
    }

    fn session(&mut self, session: u32) -> Seen<'_, SessionRecord> {
        if self.fails() {
            return Seen::Failed;
        }
        match session_in(self.sessions.as_slice(), session) {
            None => Seen::Missing,
            Some(kept) => Seen::Here(kept),
        }
    }

    fn owned(&mut self, session: u32) -> Owned {
        if self.fails() {
            return Owned::Failed;
        }
        match owned_paths(*self.rows.allocator(), self.rows.as_slice(), session) {
            Ok(paths) => Owned::List(paths),
            Err(NoMemory) => Owned::NoMemory,
        }
    }

    fn transact(&mut self, conds: &[Cond], writes: &[Write]) -> Transact {
        if self.fails() {
            return Transact::Failed;
        }
        if let Some((place, found)) = self.missed(conds) {
            return Transact::Missed { place, found };
        }
        match self.write_all(writes) {
            Ok(()) => Transact::Done,
            Err(NoMemory) => Transact::NoMemory,
        }
    }

    fn take(&mut self, path: &Path, inv: u64, now: u64, lock: u64) -> Taken<'_> {
        if self.fails() {
            return Taken::Failed;
        }
        let last = self.lock_of(path);
        if !may_grant(&last, now, lock) {
            return Taken::Busy(last);
        }
        match self.grant(path, inv, now) {
            Ok(()) => match record_in(self.rows.as_slice(), path) {
                Some(kept) => Taken::Granted(kept),
                None => unreachable!(),
            },
            Err(NoMemory) => Taken::NoMemory,
        }
    }

    fn last_done(&self) -> u64 {
        self.done
    }

    fn arm(&mut self) {
        self.armed = true;
    }

    fn calm(&mut self) {
        self.armed = false;
    }

    fn faults(&self) -> u64 {
        self.faults
    }
}
