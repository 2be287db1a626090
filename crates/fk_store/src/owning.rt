//! The paths of a session's nodes, in path order.

ghost use Rattle.std.specs.Prelude.{◌≡◌, ◌≤◌, [], ℕ, true, Some, if◌then◌else◌, length, IfOk, OnOk};
ghost use Rattle.fk_base.specs.Path.{PathNames, path_cmp};
ghost use Rattle.fk_tree.specs.Sorted.{has_path, rises, with_key};
ghost use Rattle.fk_store.specs.Answers.{has_owner};
ghost use Rattle.fk_store.specs.Owning.{gathered, owns_row, path_from};
ghost use Rattle.fk_store.specs.Rows.{row_record};

use crate::node_record::NodeRecord;
use crate::rows::{Row, record_in};
use fk_base::{NoMemory, Path, Paths};
use std::alloc::Global;
use std::cmp::Ordering;

// the place of the first path that isn't below this one
fn place_for(paths: &[Path], path: &Path) -> usize
    ensures place { result ≡ path_from 0 path.now paths.now }
    ensures within { result ≤ length paths.now }
{
    'passing: for (place, other) in paths.iter().enumerate() {
        if path.compare(other) != Ordering::Greater {
            return place;
        }
    }
    paths.len()
}

// puts a path to its place; one that is there already isn't added
#[tactic(auto, using(crate::proofs::Gathering::put_at_place, crate::proofs::Gathering::kept_at_place))]
fn add_path(paths: &mut Vec<Path>, path: &Path) -> Result<(), NoMemory>
    ensures { OnOk result (paths.new.items ≡ with_key path_cmp path.now paths.old.items) }
{
    let place = place_for(paths.as_slice(), path);
    if place < paths.len() && path.same(&paths[place]) {
        return Ok(());
    }
    paths.insert(place, path.copy()?)?;
    Ok(())
}

fn has_owner(kept: &NodeRecord, session: u32) -> bool
    ensures { result ≡ has_owner session (Some kept.now) }
{
    match &kept.node {
        None => false,
        Some(node) => node.owner == session,
    }
}

// whether a row has a node of this owner and is the first one of its path
fn owns_row(rows: &[Row], row: &Row, session: u32) -> bool
    ensures { result ≡ owns_row session rows.now row.now }
{
    let Some(kept) = &row.kept else {
        return false;
    };
    if !has_owner(kept, session) {
        return false;
    }
    match record_in(rows, &row.path) {
        None => false,
        Some(kept) => has_owner(kept, session),
    }
}

// adds the path of a row that has a node of this owner
fn add_owned(paths: &mut Vec<Path>, rows: &[Row], row: &Row, session: u32) -> Result<(), NoMemory>
    ensures { OnOk result (paths.new.items ≡ (if owns_row session rows.now row.now then with_key path_cmp row.now.path paths.old.items else paths.old.items)) }
{
    if owns_row(rows, row, session) {
        add_path(paths, &row.path)?;
    }
    Ok(())
}

#[tactic(auto, using(crate::proofs::Gathering::gathered_step))]
fn gather(alloc: Global, rows: &[Row], session: u32) -> Result<Vec<Path>, NoMemory>
    ensures { IfOk result (λ ps. ps.items ≡ gathered session rows.now rows.now []) }
{
    let mut paths = Vec::new(alloc);
    'gathering: for row in rows {
        add_owned(&mut paths, rows, row, session)?;
    }
    Ok(paths)
}

fn paths_of(alloc: Global, items: Vec<Path>) -> Result<Paths, NoMemory>
    ensures { IfOk result (λ ps. ps ≡ items.items) }
{
    let mut paths = Paths::new(alloc);
    'moving: for path in items {
        paths.push(path)?;
    }
    Ok(paths)
}

/// The paths whose node has this owner, in path order.
#[tactic(auto, using(crate::proofs::Gathering::gathered_rise, crate::proofs::Gathering::gathered_exact))]
pub fn owned_paths(alloc: Global, rows: &[Row], session: u32) -> Result<Paths, NoMemory>
    ensures rising { IfOk result (λ ps. rises path_cmp ps ≡ true) }
    ensures exact { IfOk result (λ ps. (p : PathNames) → has_path p ps ≡ has_owner session (row_record p rows.now)) }
{
    paths_of(alloc, gather(alloc, rows, session)?)
}
