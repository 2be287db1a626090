//! The table whose records stand in ordered maps.

ghost use Rattle.fk_index.specs.Owners.{AreOwned};
ghost use Rattle.fk_index.specs.Slots.{AreRising};

use crate::installing::write_prepared;
use crate::owners::{Owners, owned};
use crate::preparing::prepare;
use crate::sessions::{put_sessions, session_drafts, session_in};
use crate::slots::{Slots, add_slot, grant, record_at, root_slots};
use fk_base::{NoMemory, Path};
use fk_store::{
    Cond, Found, Lock, NodeRecord, Owned, Seen, SessionRecord, Table, Taken, Transact, UNLOCKED,
    Write, done_after, may_grant, new_sessions, still,
};
use std::alloc::Global;
use std::collections::BTreeMap;

/// A table whose calls find the record of a path, and the paths of a session, in ordered maps.
#[derive(Drop)]
pub struct IndexTable {
    slots: Slots,
    owners: Owners,
    sessions: Vec<SessionRecord>,
    done: u64,
    armed: bool,
    faults: u64,
    ghost owned: { AreOwned slots owners },
    ghost rising: { AreRising slots },
}

impl IndexTable {
    ghost use Rattle.std.specs.Prelude.{◌≡◌, false, None, Some, if◌then◌else◌, OnOk, OnErr};
    ghost use Rattle.fk_store.specs.Meaning.{called, lock_of};
    ghost use Rattle.fk_store.specs.Conds.{first_missed, found_at, holds_cond, session_of};
    ghost use Rattle.fk_store.specs.Tables.{miss_of};
    ghost use Rattle.fk_store.specs.Writes.{all_written, grant_record, written};
    ghost use Rattle.fk_store.specs.declared.write.Write.TheVariants as write;
    ghost use Rattle.fk_index.specs.Slots.{record_at};
    ghost use Rattle.fk_index.specs.Tables.{table_of};

    // whether this call fails
    fn fails(&mut self) -> bool
        ensures answer { result ≡ self.old.armed }
        ensures after { table_of self.new ≡ called (table_of self.old) }
        ensures same { result ≡ false → self.new ≡ self.old }
    {
        if self.armed {
            self.armed = false;
            self.faults = self.faults.saturating_add(1);
            return true;
        }
        false
    }

    fn lock_of(&self, path: &Path) -> Lock
        ensures { result ≡ lock_of (table_of self.now) path.now }
    {
        match record_at(&self.slots, path) {
            None => UNLOCKED,
            Some(kept) => kept.lock,
        }
    }

    // the settled number of a session
    fn settled(&self, session: u32) -> u64
        ensures { result ≡ (session_of (table_of self.now) session).settled }
    {
        match session_in(self.sessions.as_slice(), session) {
            None => 0,
            Some(kept) => kept.settled,
        }
    }

    fn ping(&self, session: u32) -> u64
        ensures { result ≡ (session_of (table_of self.now) session).ping }
    {
        match session_in(self.sessions.as_slice(), session) {
            None => 0,
            Some(kept) => kept.ping,
        }
    }

    // what a condition finds
    fn found(&self, cond: &Cond) -> Found
        ensures { result ≡ found_at (table_of self.now) cond.now }
    {
        match cond {
            Cond::Settled { session, .. } => Found::Number(self.settled(*session)),
            Cond::Free { path, .. } => Found::Lock(self.lock_of(path)),
            Cond::Holds { path, .. } => Found::Lock(self.lock_of(path)),
            Cond::DoneBelow(_) => Found::Number(self.done),
            Cond::PingBelow { session, .. } => Found::Number(self.ping(*session)),
        }
    }

    fn holds(&self, cond: &Cond) -> bool
        ensures { result ≡ holds_cond (table_of self.now) cond.now }
    {
        match cond {
            Cond::Settled { session, at } => self.settled(*session) == *at,
            Cond::Free { path, now, lock } => may_grant(&self.lock_of(path), *now, *lock),
            Cond::Holds { path, inv } => still(&self.lock_of(path), *inv),
            Cond::DoneBelow(n) => self.done < *n,
            Cond::PingBelow { session, n } => self.ping(*session) < *n,
        }
    }

    // the first condition that fails
    fn missed(&self, conds: &[Cond]) -> Option<(usize, Found)>
        ensures { first_missed (table_of self.now) conds.now ≡ miss_of result }
    {
        'trying: for (place, cond) in conds.iter().enumerate() {
            if !self.holds(cond) {
                return Some((place, self.found(cond)));
            }
        }
        None
    }

    // grants the lock of a path in place
    fn grant(&mut self, path: &Path, inv: u64, moment: u64) -> Result<(), NoMemory>
        ensures ok { OnOk result (table_of self.new
            ≡ written (write.Grant path.now inv moment) (table_of self.old)) }
        ensures here { OnOk result (record_at self.new.slots path.now
            ≡ grant_record inv moment (record_at self.old.slots path.now)) }
        ensures err { OnErr result (table_of self.new ≡ table_of self.old) }
    {
        add_slot(&mut self.slots, path)?;
        grant(&mut self.slots, path, inv, moment);
        Ok(())
    }

    // makes all writes; it takes all memory before it changes what the table means
    fn write_all(&mut self, writes: &[Write]) -> Result<(), NoMemory>
        ensures ok { OnOk result (table_of self.new
            ≡ all_written writes.now (table_of self.old)) }
        ensures err { OnErr result (table_of self.new ≡ table_of self.old) }
    {
        let alloc = *self.sessions.allocator();
        let sessions = session_drafts(alloc, self.sessions.as_slice(), writes)?;
        let drafts = prepare(alloc, &mut self.slots, &mut self.owners, writes)?;
        write_prepared(&mut self.slots, &mut self.owners, drafts, writes);
        put_sessions(&mut self.sessions, sessions);
        self.done = done_after(self.done, writes);
        Ok(())
    }
}

impl IndexTable {
    ghost use Rattle.std.specs.Prelude.{◌≡◌, IfOk};
    ghost use Rattle.fk_store.specs.Meaning.{new_table};
    ghost use Rattle.fk_index.specs.Tables.{table_of};

    /// A new table: the root's record alone, and an empty record for each session from 1 on.
    pub fn new(alloc: Global, sessions: u32) -> Result<IndexTable, NoMemory>
        ensures { IfOk result (λ t. table_of t ≡ new_table sessions) }
    {
        Ok(IndexTable {
            slots: root_slots(alloc)?,
            owners: BTreeMap::new(alloc),
            sessions: new_sessions(alloc, sessions)?,
            done: 0,
            armed: false,
            faults: 0,
        })
    }
}

impl Table for IndexTable {
    ghost use Rattle.fk_index.specs.Tables.{table_of};

    ghost meaning = { table_of };

    fn node(&mut self, path: &Path) -> Seen<'_, NodeRecord> {
        if self.fails() {
            return Seen::Failed;
        }
        match record_at(&self.slots, path) {
            None => Seen::Missing,
            Some(kept) => Seen::Here(kept),
        }
    }

    fn session(&mut self, session: u32) -> Seen<'_, SessionRecord> {
        if self.fails() {
            return Seen::Failed;
        }
        match session_in(self.sessions.as_slice(), session) {
            None => Seen::Missing,
            Some(kept) => Seen::Here(kept),
        }
    }

    fn owned(&mut self, session: u32) -> Owned {
        if self.fails() {
            return Owned::Failed;
        }
        match owned(*self.sessions.allocator(), &self.owners, session) {
            Ok(paths) => Owned::List(paths),
            Err(NoMemory) => Owned::NoMemory,
        }
    }

    fn transact(&mut self, conds: &[Cond], writes: &[Write]) -> Transact {
        if self.fails() {
            return Transact::Failed;
        }
        if let Some((place, found)) = self.missed(conds) {
            return Transact::Missed { place, found };
        }
        match self.write_all(writes) {
            Ok(()) => Transact::Done,
            Err(NoMemory) => Transact::NoMemory,
        }
    }

    fn take(&mut self, path: &Path, inv: u64, now: u64, lock: u64) -> Taken<'_> {
        if self.fails() {
            return Taken::Failed;
        }
        let last = self.lock_of(path);
        if !may_grant(&last, now, lock) {
            return Taken::Busy(last);
        }
        match self.grant(path, inv, now) {
            Ok(()) => match record_at(&self.slots, path) {
                Some(kept) => Taken::Granted(kept),
                None => unreachable!(),
            },
            Err(NoMemory) => Taken::NoMemory,
        }
    }

    fn last_done(&self) -> u64 {
        self.done
    }

    fn arm(&mut self) {
        self.armed = true;
    }

    fn calm(&mut self) {
        self.armed = false;
    }

    fn faults(&self) -> u64 {
        self.faults
    }
}
