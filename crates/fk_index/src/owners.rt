//! Which paths the sessions own.

ghost use Rattle.std.specs.Prelude.{◌≡◌, ◌<◌, true, None, Some, IfOk, OnOk, is_some};
ghost use Rattle.std.specs.BTreeMap as tree;
ghost use Rattle.fk_base.specs.Path.{path_cmp};
ghost use Rattle.fk_tree.specs.Sorted.{rises};
ghost use Rattle.fk_index.specs.Owners.{has_place, AreMarked, AreMarkedIn, IsMarked, IsMarkedIn, IsOf, KeepMarks, KeepMarksIn, KeepOtherMarks, KeepOtherPlaces, KeepsPlaces, KeepsPlacesIn};

use fk_base::{NoMemory, Path, Paths};
use std::alloc::Global;
use std::collections::BTreeMap;

/// Paths in their order; one that isn't marked has a place alone.
pub type Marks = BTreeMap<Path, bool>;

/// The paths of each owner.
pub type Owners = BTreeMap<u32, Marks>;

// sees that a session has a map of paths
fn add_marks(alloc: Global, owners: &mut Owners, session: u32) -> Result<(), NoMemory>
    ensures marks { KeepMarks owners.old owners.new }
    ensures places { KeepsPlaces owners.old owners.new }
{
    if owners.contains_key(&session) {
        return Ok(());
    }
    owners.insert(session, BTreeMap::new(alloc))?;
    Ok(())
}

// sees that a path has a place
fn place_in(marks: &mut Marks, path: &Path) -> Result<(), NoMemory>
    ensures place { OnOk result (is_some (tree.get path_cmp marks.new path.now) ≡ true) }
    ensures marks { KeepMarksIn marks.old marks.new }
    ensures places { KeepsPlacesIn marks.old marks.new }
{
    if marks.contains_key(path) {
        return Ok(());
    }
    marks.insert(path.copy()?, false)?;
    Ok(())
}

/// Sees that a session has a place for a path.
pub fn add_place(
    alloc: Global,
    owners: &mut Owners,
    session: u32,
    path: &Path,
) -> Result<(), NoMemory>
    ensures place { OnOk result (has_place owners.new session path.now ≡ true) }
    ensures marks { KeepMarks owners.old owners.new }
    ensures places { KeepsPlaces owners.old owners.new }
{
    add_marks(alloc, owners, session)?;
    match owners.get_mut(&session) {
        None => Err(NoMemory),
        Some(marks) => place_in(marks, path),
    }
}

fn mark_in(marks: &mut Marks, path: &Path)
    requires { is_some (tree.get path_cmp marks.old path.now) ≡ true }
    ensures { IsMarkedIn marks.old marks.new path.now (Some true) }
{
    if let Some(mark) = marks.get_mut(path) {
        *mark = true;
    }
}

fn unmark_in(marks: &mut Marks, path: &Path)
    ensures { IsMarkedIn marks.old marks.new path.now None }
{
    marks.remove(path);
}

// marks a path as a session's, which has a place for it
fn mark(owners: &mut Owners, session: u32, path: &Path)
    requires { has_place owners.old session path.now ≡ true }
    ensures { IsMarked owners.old owners.new session path.now (Some true) }
{
    if let Some(marks) = owners.get_mut(&session) {
        mark_in(marks, path);
    }
}

// takes a path from a session's
fn unmark(owners: &mut Owners, session: u32, path: &Path)
    ensures { IsMarked owners.old owners.new session path.now None }
{
    match owners.get_mut(&session) {
        None => {}
        Some(marks) => unmark_in(marks, path),
    }
}

/// A path goes from one owner to another; 0 is none.
pub fn give(owners: &mut Owners, path: &Path, from: u32, to: u32)
    requires place { 0 < to → has_place owners.old to path.now ≡ true }
    requires marked { IsOf owners.old path.now from }
    ensures here { IsOf owners.new path.now to }
    ensures marks { KeepOtherMarks owners.old owners.new path.now }
    ensures places { KeepOtherPlaces owners.old owners.new path.now }
{
    if from == to {
        return;
    }
    unmark(owners, from, path);
    if to == 0 {
        return;
    }
    mark(owners, to, path);
}

#[tactic(auto, using(crate::proofs::Marking::keys_taken, crate::proofs::Marking::keys_passed, crate::proofs::Marking::keys_rise, crate::proofs::Marking::keys_exact))]
fn marked_in(alloc: Global, marks: &Marks) -> Result<Paths, NoMemory>
    ensures rising { IfOk result (λ ps. rises path_cmp ps ≡ true) }
    ensures exact { IfOk result (AreMarkedIn marks.now) }
{
    let mut paths = Paths::new(alloc);
    'listing: for (path, mark) in marks {
        if *mark {
            paths.push(path.copy()?)?;
        }
    }
    Ok(paths)
}

/// The paths that are marked as a session's, in path order.
pub fn owned(alloc: Global, owners: &Owners, session: u32) -> Result<Paths, NoMemory>
    ensures rising { IfOk result (λ ps. rises path_cmp ps ≡ true) }
    ensures exact { IfOk result (AreMarked owners.now session) }
{
    match owners.get(&session) {
        None => Ok(Paths::new(alloc)),
        Some(marks) => marked_in(alloc, marks),
    }
}
