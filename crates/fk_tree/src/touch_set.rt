//! Touches put together one after another, each pair of a path and a change once.

ghost use Rattle.std.specs.Prelude.{◌≡◌, [], ◌∷◌, ◌||◌, not, IfOk, OnOk};
ghost use Rattle.std.specs.BTreeSet.{contains};
ghost use Rattle.fk_base.specs.Path.{path_cmp};
ghost use Rattle.fk_tree.specs.declared.change.Touch.{Touch};
ghost use Rattle.fk_tree.specs.Touch.{same_touch};
ghost use Rattle.fk_tree.specs.Touching.{is_indexed, AreIndexed, IsNoted, Puts};

use crate::change::{Change, Touch};
use crate::lists::Touches;
use fk_base::{NoMemory, Path};
use std::alloc::Global;
use std::collections::BTreeSet;

/// Touches in their order, and the paths that are touched in each way, in which a pair is found.
#[derive(Drop)]
pub struct TouchSet {
    pub touches: Touches,
    created: BTreeSet<Path>,
    changed: BTreeSet<Path>,
    deleted: BTreeSet<Path>,
    child: BTreeSet<Path>,
}

impl TouchSet {
    pub fn new(alloc: Global) -> TouchSet
        ensures none { result.touches ≡ [] }
        ensures index { AreIndexed result }
    {
        TouchSet {
            touches: Touches::new(alloc),
            created: BTreeSet::new(alloc),
            changed: BTreeSet::new(alloc),
            deleted: BTreeSet::new(alloc),
            child: BTreeSet::new(alloc),
        }
    }

    /// Puts a pair at the end where it isn't there yet.
    pub fn put(&mut self, path: &Path, change: Change) -> Result<(), NoMemory>
        requires { AreIndexed self.old }
        ensures { OnOk result (Puts (record { path = path.now; change = change } ∷ []) self.old self.new) }
    {
        if self.note(path, change)? {
            self.touches.push(Touch {
                path: path.copy()?,
                change,
            })?;
        }
        Ok(())
    }

    // notes a path among those that are touched in one way, and tells whether it is new there
    #[tactic(auto, using(crate::proofs::Indexing::noted_created, crate::proofs::Indexing::noted_changed, crate::proofs::Indexing::noted_deleted, crate::proofs::Indexing::noted_child))]
    fn note(&mut self, path: &Path, change: Change) -> Result<bool, NoMemory>
        ensures fresh { IfOk result (λ b. b ≡ not (is_indexed (record { path = path.now; change = change }) self.old)) }
        ensures after { OnOk result ((t : Touch) → is_indexed t self.new ≡ (is_indexed t self.old || same_touch t (record { path = path.now; change = change }))) }
        ensures same { self.new.touches ≡ self.old.touches }
    {
        match change {
            Change::Created => note_in(&mut self.created, path),
            Change::Changed => note_in(&mut self.changed, path),
            Change::Deleted => note_in(&mut self.deleted, path),
            Change::Child => note_in(&mut self.child, path),
        }
    }
}

#[tactic(auto, using(crate::proofs::Indexing::in_one))]
fn note_in(paths: &mut BTreeSet<Path>, path: &Path) -> Result<bool, NoMemory>
    ensures fresh { IfOk result (λ b. b ≡ not (contains path_cmp paths.old path.now)) }
    ensures after { OnOk result (IsNoted paths.old path.now paths.new) }
{
    Ok(paths.insert(path.copy()?)?)
}
