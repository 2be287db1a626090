ghost use Rattle.std.specs.Prelude.{◌≡◌, true, false, IfOk};
ghost use Rattle.fk_user.specs.Meaning.{armed, called, calmed, new_store};
ghost use Rattle.fk_user.specs.Answers.{after_publish, after_put, IsLook, IsPublish, IsPut, IsRead};
ghost use Rattle.fk_user.specs.Own.{are_own};
ghost use Rattle.fk_user.specs.Stored.{store_of};

use crate::answer::{Publish, PutRecord, UserLook, UserRead};
use crate::id_set::IdSet;
use crate::records::Records;
use fk_base::{NoMemory, Path};
use fk_tree::Edits;
use std::alloc::Global;

/// The storage that clients read directly. It means a finite map from paths to a node or none with a
/// stamp, and a mark with an epoch. A call that may fail answers `Failed` exactly where the store is
/// armed; it then changes nothing else, raises the count of faults and calms the store.
#[derive(Drop)]
pub struct UserStore {
    records: Records,
    mark: u64,
    epoch: IdSet,
    armed: bool,
    faults: u64,
}

impl UserStore {
    ghost use Rattle.std.specs.Borrow.{sem};
    ghost use Rattle.std.specs.Io.BufRead.{Rests};
    ghost use Rattle.fk_user.specs.contracts.user_store.UserStore.{the_row};

    /// A new store: the root's record alone, with stamp 0, mark 0 and no epoch.
    pub fn new(alloc: Global) -> Result<UserStore, NoMemory>
        ensures { IfOk result (λ s. store_of s ≡ new_store) }
    {
        Ok(UserStore {
            records: Records::new(alloc)?,
            mark: 0,
            epoch: IdSet::new(alloc),
            armed: false,
            faults: 0,
        })
    }

    /// The node and the stamp of a path. May fail.
    pub fn read(&mut self, path: &Path) -> UserRead<'_>
        ensures read { IsRead (store_of self.old) path.now result }
        ensures* after { sem 𝓛 (Rests the_row self.entry (λ new. store_of new ≡ called (store_of self.old))) }
    {
        if self.fails() {
            return UserRead::Failed;
        }
        match self.records.get(path) {
            None => UserRead::Shown {
                node: None,
                stamp: 0,
            },
            Some(kept) => UserRead::Shown {
                node: kept.node.as_ref(),
                stamp: kept.stamp,
            },
        }
    }

    /// The mark and the epoch of the last publication. May fail.
    pub fn look(&mut self) -> UserLook<'_>
        ensures look { IsLook (store_of self.old) result }
        ensures* after { sem 𝓛 (Rests the_row self.entry (λ new. store_of new ≡ called (store_of self.old))) }
    {
        if self.fails() {
            return UserLook::Failed;
        }
        UserLook::Shown {
            mark: self.mark,
            epoch: &self.epoch,
        }
    }

    /// Makes all the edits of a path's node, in order, and sets its stamp to `tx`, as one step, where the
    /// stamp is below `tx`. May fail.
    #[tactic(auto, using(crate::proofs::Putting::put_store, crate::proofs::Putting::same_store))]
    pub fn put(&mut self, path: &Path, tx: u64, moment: u64, edits: &Edits) -> PutRecord
        requires { are_own path.now edits.now ≡ true }
        ensures answer { IsPut (store_of self.old) path.now tx result }
        ensures after { store_of self.new ≡ after_put (store_of self.old) path.now tx moment edits.now result }
    {
        if self.fails() {
            return PutRecord::Failed;
        }
        let stamp = self.records.stamp(path);
        if stamp >= tx {
            return PutRecord::Already(stamp);
        }
        match self.records.put(path, tx, moment, edits.as_slice()) {
            Ok(()) => PutRecord::Done,
            Err(NoMemory) => PutRecord::NoMemory,
        }
    }

    /// Sets the mark to `tx`, with this epoch, as one step, where the mark is below `tx`. May fail.
    pub fn publish(&mut self, tx: u64, epoch: &IdSet) -> Publish
        ensures answer { IsPublish (store_of self.old) tx result }
        ensures after { store_of self.new ≡ after_publish (store_of self.old) tx epoch.now result }
    {
        if self.fails() {
            return Publish::Failed;
        }
        if self.mark >= tx {
            return Publish::Already(self.mark);
        }
        match epoch.copy() {
            Ok(epoch) => {
                self.mark = tx;
                self.epoch = epoch;
                Publish::Done
            }
            Err(NoMemory) => Publish::NoMemory,
        }
    }

    /// The next call that may fail does.
    pub fn arm(&mut self)
        ensures { store_of self.new ≡ armed (store_of self.old) }
    {
        self.armed = true;
    }

    /// The next call doesn't fail.
    pub fn calm(&mut self)
        ensures { store_of self.new ≡ calmed (store_of self.old) }
    {
        self.armed = false;
    }

    /// How often a call failed.
    pub fn faults(&self) -> u64
        ensures { result ≡ (store_of self.now).faults }
    {
        self.faults
    }

    // whether this call fails
    fn fails(&mut self) -> bool
        ensures answer { result ≡ self.old.armed }
        ensures after { store_of self.new ≡ called (store_of self.old) }
        ensures same { result ≡ false → self.new ≡ self.old }
    {
        if self.armed {
            self.armed = false;
            self.faults = self.faults.saturating_add(1);
            return true;
        }
        false
    }
}
