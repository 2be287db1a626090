//! The records of paths, whose nodes' child names rise.

ghost use Rattle.std.specs.Prelude.{◌≡◌, [], ◌∷◌, true, IfOk, OnOk, OnErr};
ghost use Rattle.std.specs.Option.{option_copied};
ghost use Rattle.fk_user.specs.Meaning.{root_record};
ghost use Rattle.fk_user.specs.Own.{are_own};
ghost use Rattle.fk_user.specs.Records.{record_at, record_in, IsEdited, KeepsRecords};

use crate::record::UserRecord;
use crate::record_map::{put_edits, root_alone};
use fk_base::{NoMemory, Path};
use fk_tree::Edit;
use std::alloc::Global;
use std::collections::BTreeMap;
use std::marker::Model;

/// The record of each path that has one.
#[derive(Drop)]
pub struct Records {
    map: BTreeMap<Path, UserRecord>,
}

impl Model for Records {
    ghost use Rattle.fk_user.specs.Records as specs;

    ghost Value = { specs.Records };

    ghost view = { λ r. r.map.entries };

    ghost invariant = { λ r. specs.AreRising r.map.entries };
}

impl Records {
    /// The root's record alone, as it starts: no data, no child and all numbers 0.
    #[tactic(auto, using(crate::proofs::Rising::root_rises))]
    pub fn new(alloc: Global) -> Result<Records, NoMemory>
        ensures { IfOk result (λ records. records ≡ ([], root_record) ∷ []) }
    {
        Ok(Records {
            map: root_alone(alloc)?,
        })
    }

    pub fn get(&self, path: &Path) -> Option<&UserRecord>
        ensures { option_copied result ≡ record_at self.now path.now }
    {
        self.map.get(path)
    }

    /// The transaction that a path's record stands at.
    pub fn stamp(&self, path: &Path) -> u64
        ensures { result ≡ (record_in self.now path.now).stamp }
    {
        match self.map.get(path) {
            None => 0,
            Some(kept) => kept.stamp,
        }
    }

    /// Makes edits of a path's node and sets its stamp. One edit of a node that is there takes logarithmic
    /// time, but for what an insertion into the list of its child names moves; else the node is copied.
    #[tactic(auto, using(crate::proofs::Rising::kept_rise))]
    pub fn put(&mut self, path: &Path, tx: u64, moment: u64, edits: &[Edit]) -> Result<(), NoMemory>
        requires { are_own path.now edits.now ≡ true }
        ensures ok { OnOk result (IsEdited self.old self.new path.now tx moment edits.now) }
        ensures err { OnErr result (KeepsRecords self.old self.new) }
    {
        put_edits(&mut self.map, path, tx, moment, edits)?;
        Ok(())
    }
}
